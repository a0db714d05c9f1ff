// What every entry reports: guavachisel_outcome of include/guavachisel.h.
ghost use Rattle.std.specs.Prelude.{◌≡◌};
ghost use Rattle.state.specs.Refusals.{reason_number, number_of, place_of};
ghost use Rattle.text_declaration.specs.Faults.{number_of as faultNumber};
ghost use Rattle.guavachisel.specs.Outcome.{places, ran as ranOutcome, refused as refusedOutcome, answered as answeredOutcome, exchanging as exchangingOutcome};

use crate::numbers;
use state::{Reason, Refusal};
use text_declaration::faults::Fault;

// The numbers that a caller's outcome has places for.
pub const OUTCOME_PLACES: usize = 9;

// An outcome, as the header names its places.
#[derive(Clone, Copy)]
pub struct Outcome {
    pub refusal: u64,
    pub place: u64,
    pub steps: u64,
    pub reason: u64,
    pub rows: u64,
    pub read: u64,
    pub printed: u64,
    pub answer: u64,
    pub sum: u64,
}

// The outcome that speaks of nothing.
const SILENT: Outcome = Outcome {
    refusal: 0,
    place: 0,
    steps: 0,
    reason: 0,
    rows: 0,
    read: 0,
    printed: 0,
    answer: 0,
    sum: 0,
};

// An outcome in its places.
impl From<Outcome> for [u64; OUTCOME_PLACES] {
    ghost from_gives = { λ o numbers. numbers ≡ places o };

    fn from(o: Outcome) -> [u64; OUTCOME_PLACES] {
        [
            o.refusal, o.place, o.steps, o.reason, o.rows, o.read, o.printed, o.answer, o.sum,
        ]
    }
}

// The outcome of a run.
pub fn ran(steps: u64, reason: Reason, rows: u64) -> Outcome
    ensures { result ≡ ranOutcome steps (reason_number reason) rows }
{
    Outcome {
        steps,
        reason: numbers::reason_number(reason),
        rows,
        ..SILENT
    }
}

// The outcome of a state that is turned down.
pub fn refused(why: Refusal) -> Outcome
    ensures { result ≡ refusedOutcome (number_of why) (place_of why) }
{
    Outcome {
        refusal: numbers::refusal_number(why),
        place: numbers::refusal_place(why),
        ..SILENT
    }
}

// The outcome of a text that is turned down.
pub fn unread(f: Fault, line: usize) -> Outcome
    ensures { result ≡ refusedOutcome (faultNumber f) line }
{
    Outcome {
        refusal: numbers::fault_number(f),
        place: line as u64,
        ..SILENT
    }
}

// The outcome of a question, by its answer; 0 for one that has none, as for a text that is accepted.
pub fn answered(answer: u64) -> Outcome
    ensures { result ≡ answeredOutcome answer }
{
    Outcome { answer, ..SILENT }
}

// The outcome, with the bytes read and the bytes printed.
pub fn exchanging(o: Outcome, read: usize, printed: usize) -> Outcome
    ensures { result ≡ exchangingOutcome o read printed }
{
    Outcome {
        read: read as u64,
        printed: printed as u64,
        ..o
    }
}
