// The address that an instruction of ops 0 to 5 works on.
ghost use Rattle.std.specs.Prelude.{◌≡◌, ◌^◌, ◌<◌};
ghost use Rattle.word.specs.Choice.{on, pick};
ghost use Rattle.word.specs.Word.{word_bits, bits};
ghost use Rattle.state.specs.Acceptable.{Acceptable};
ghost use Rattle.machine_state.specs.Instruction.{ib, pb, pa};
ghost use Rattle.machine_reference.specs.Address.{address, first_address, indexed};
ghost use Rattle.machine_reference.specs.Addressed.{Addressed};

use machine_state::memory::{load, store};

// Bit 4, pb.
const CURRENT: u64 = 0o200;

const PAGES: u64 = 32;

const PAGE_WORDS: u64 = 128;

// One of the 32 pages.
#[derive(Clone, Copy)]
pub struct PageNumber(pub u64);

// One of the 128 words of a page.
#[derive(Clone, Copy)]
pub struct PageAddress(pub u64);

// The address of a word of memory.
#[derive(Clone, Copy)]
pub struct Address {
    pub number: u64,
    ghost in_memory: { number < 2 ^ word_bits },
}

// The address of a word of a page.
fn joined(page: PageNumber, within: PageAddress) -> Address
    requires page { page.0 < 2 ^ 5 }
    requires within { within.0 < 2 ^ 7 }
    ensures { result.number ≡ address page.0 within.0 }
{
    Address {
        number: page.0 * PAGE_WORDS + within.0,
    }
}

// The page of an instruction that was fetched from `last`: page 0, or the page of `last` itself.
fn page(i: u64, last: u64) -> PageNumber
    ensures { result.0 ≡ pick (on (pb i)) (bits word_bits 0 4 last) 0 }
{
    if i / CURRENT % 2 != 0 {
        PageNumber(last / PAGE_WORDS % PAGES)
    } else {
        PageNumber(0)
    }
}

// The word of its page that an instruction names.
fn page_address(i: u64) -> PageAddress
    ensures { result.0 ≡ pa i }
{
    PageAddress(i % PAGE_WORDS)
}

// The address before any indirection, which an instruction with ib = 0 works on.
pub fn first_address(i: u64, last: u64) -> Address
    ensures { result.number ≡ first_address i last }
{
    joined(page(i, last), page_address(i))
}

// Auto-indexing: the word at a first address from 0010 to 0017 is increased.
fn auto_index(memory: &mut [u16], a: Address)
    requires { Acceptable memory.old }
    ensures { memory.new ≡ indexed a.number memory.old }
{
    if a.number / 8 == 1 {
        let word = load(memory, a.number);
        store(memory, a.number, word::increment(word));
    }
}

// The address that an instruction with ib = 1 works on. Auto-indexing may have changed a word on the way.
pub fn indirect_address(memory: &mut [u16], i: u64, last: u64) -> Address
    requires acceptable { Acceptable memory.old }
    requires indirect { ib i ≡ 1 }
    ensures { Addressed i last memory.old memory.new result.number }
{
    let first = first_address(i, last);
    auto_index(memory, first);
    Address {
        number: load(memory, first.number),
    }
}
