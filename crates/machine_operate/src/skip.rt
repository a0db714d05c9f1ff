// The skips of the second group.
ghost use Rattle.std.specs.Prelude.{◌≡◌};
ghost use Rattle.word.specs.Choice.{pick};
ghost use Rattle.word.specs.Word.{next};
ghost use Rattle.machine_operate.specs.Operate.{skips, skips_plain, skips_reversed};

use word::WORD_VALUES;

// The place value of AC<0> in LAC.
const SIGN: u64 = 0o4000;

const SMA: u64 = 0o100;

const SZA: u64 = 0o40;

const SNL: u64 = 0o20;

const REVERSED: u64 = 0o10;

// Whether a condition that bits 5 to 7 select holds.
fn skips_plain(i: u64, lac: u64) -> bool
    ensures { result ≡ skips_plain i lac }
{
    ((i / SMA % 2 != 0) & (lac / SIGN % 2 != 0))
        | ((i / SZA % 2 != 0) & !(lac % WORD_VALUES != 0))
        | ((i / SNL % 2 != 0) & (lac / WORD_VALUES % 2 != 0))
}

// Whether every reversed condition that bits 5 to 7 select holds. The first that doesn't decides, by a branch: chosen by one test of all, PC would wait for LAC.
fn skips_reversed(i: u64, lac: u64) -> bool
    ensures { result ≡ skips_reversed i lac }
{
    if (i / SMA % 2 != 0) & (lac / SIGN % 2 != 0) {
        return false;
    }
    if (i / SZA % 2 != 0) & !(lac % WORD_VALUES != 0) {
        return false;
    }
    !((i / SNL % 2 != 0) & (lac / WORD_VALUES % 2 != 0))
}

// Whether the instruction skips the next one.
fn is_skip(i: u64, lac: u64) -> bool
    ensures { result ≡ skips i lac }
{
    if i / REVERSED % 2 != 0 {
        skips_reversed(i, lac)
    } else {
        skips_plain(i, lac)
    }
}

// PC after a skip, or after none.
pub fn skip(i: u64, lac: u64, pc: u64) -> u64
    ensures { result ≡ pick (skips i lac) (next pc) pc }
{
    if is_skip(i, lac) {
        word::increment(pc)
    } else {
        pc
    }
}
