// The evaluator for C callers: guavachisel_evaluate of include/guavachisel.h.
ghost use Rattle.std.specs.Prelude.{◌≡◌, List, ℕ};
ghost use Rattle.evaluator.specs.Evaluate.{outcome_of as reported};
ghost use Rattle.guavachisel.specs.Evaluation.{outcome_of, Evaluated};

use crate::outcome;
use crate::outcome::{OUTCOME_PLACES, Outcome};
use evaluator::{Ended, Refusal};
use rows_store::Registers;
use text_limits::MOST_REGISTERS;

// What came of a call, as a C caller gets it.
pub fn outcome_of(end: Result<Ended, Refusal>) -> Outcome
    ensures { (registers memory list : List ℕ) → result ≡ outcome_of (reported end registers memory list) }
{
    match end {
        Ok(end) => outcome::ran(end.steps, end.reason, end.listed as u64),
        Err(Refusal::Text(why)) => outcome::unread(why.fault, why.line),
        Err(Refusal::State(why)) => outcome::refused(why),
    }
}

// Runs a caller's description on the caller's memory and registers.
#[unsafe(no_mangle)]
pub extern "C" fn guavachisel_evaluate(
    text: &[u8],
    memory: &mut [u16],
    registers: &mut [u16; MOST_REGISTERS],
    budget: u64,
    rows: &mut [u8],
    outcome: &mut [u64; OUTCOME_PLACES],
)
    ensures { Evaluated text.now registers.old memory.old budget rows.old
        registers.new memory.new rows.new outcome.new }
{
    let came = *registers;
    let start = Registers { values: came };
    let answer = evaluator::evaluate(text, memory, start, budget, rows);
    let values = answer.registers.values;
    *registers = values;
    *outcome = outcome_of(answer.outcome).into();
}
