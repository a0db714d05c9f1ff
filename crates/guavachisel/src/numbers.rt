// The numbers by which C callers know reasons, refusals and faults. No From: an impl for u64 would stand beside the types, in crates that know nothing of C.
ghost use Rattle.std.specs.Prelude.{◌≡◌};
ghost use Rattle.state.specs.Refusals.{reason_number, number_of, place_of};
ghost use Rattle.text_declaration.specs.Faults.{number_of as faultNumber};

use state::{Reason, Refusal};
use text_declaration::faults::Fault;

// A reason's number.
pub fn reason_number(reason: Reason) -> u64
    ensures { result ≡ reason_number reason }
{
    match reason {
        Reason::Halted => 1,
        Reason::Spent => 2,
        Reason::Paper => 3,
    }
}

// A refusal's number.
pub fn refusal_number(refusal: Refusal) -> u64
    ensures { result ≡ number_of refusal }
{
    match refusal {
        Refusal::MemoryLength => 11,
        Refusal::Word(_) => 12,
        Refusal::Register(_) => 13,
        Refusal::Budget => 14,
        Refusal::RowList => 15,
    }
}

// A refusal's place.
pub fn refusal_place(refusal: Refusal) -> u64
    ensures { result ≡ place_of refusal }
{
    match refusal {
        Refusal::MemoryLength => 0,
        Refusal::Word(place) => place as u64,
        Refusal::Register(place) => place as u64,
        Refusal::Budget => 0,
        Refusal::RowList => 0,
    }
}

// The number of what a text is turned down for.
pub fn fault_number(f: Fault) -> u64
    ensures { result ≡ faultNumber f }
{
    match f {
        Fault::Size => 1,
        Fault::Header => 2,
        Fault::Line => 3,
        Fault::Register => 4,
        Fault::Expression => 5,
        Fault::Label => 6,
        Fault::Limit => 7,
        Fault::Run => 8,
    }
}
