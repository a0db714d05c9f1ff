// What the first group does to LAC before it rotates, and bit 4, which clears AC in all three groups. A bit of the instruction is named by
// its mnemonic; it is set where the instruction, divided by the bit's place value, is odd.
ghost use Rattle.std.specs.Prelude.{◌≡◌, ℕ, ◌^◌, ◌<◌};
ghost use Rattle.std.specs.Int.Bits.{bit_and, bit_xor};
ghost use Rattle.machine_state.specs.State.{lac_bits};
ghost use Rattle.machine_operate.specs.Operate.{cleared, link_cleared, complemented, link_complemented};

use word::WORD_VALUES;

// All bits of LAC, those of AC, and L.
const LAC: u64 = 0o17777;

const AC: u64 = 0o7777;

const LINK: u64 = 0o10000;

const CLA: u64 = 0o200;

const CLL: u64 = 0o100;

const CML: u64 = 0o20;

// Bit 4 clears AC.
pub fn clear(i: u64, lac: u64) -> u64
    ensures { result ≡ cleared i lac }
{
    if i / CLA % 2 != 0 {
        lac / WORD_VALUES * WORD_VALUES
    } else {
        lac
    }
}

// The bits of LAC that bits 4 and 5 leave, by the number that they make: CLA counts 2 in it, and CLL 1.
fn kept(i: u64) -> u64
    ensures { (lac : ℕ) → lac < 2 ^ lac_bits → bit_and lac result ≡ link_cleared i (cleared i lac) }
{
    match i / CLL % 4 {
        0 => LAC,
        1 => AC,
        2 => LINK,
        _ => 0,
    }
}

// The bits of LAC that bits 6 and 7 complement: CMA counts 2, and CML 1.
fn complemented_bits(i: u64) -> u64
    ensures { (lac : ℕ) → lac < 2 ^ lac_bits → bit_xor lac result ≡ link_complemented i (complemented i lac) }
{
    match i / CML % 4 {
        0 => 0,
        1 => LINK,
        2 => AC,
        _ => LAC,
    }
}

// Bits 4 to 7. Numbers looked up take the place of branches, which cost more than all else here.
pub fn change(i: u64, lac: u64) -> u64
    requires { lac < 2 ^ lac_bits }
    ensures { result ≡ link_complemented i (complemented i (link_cleared i (cleared i lac))) }
{
    (lac & kept(i)) ^ complemented_bits(i)
}
