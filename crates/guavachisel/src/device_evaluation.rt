// The evaluator with devices for C callers: guavachisel_evaluate_devices of include/guavachisel.h.
ghost use Rattle.guavachisel.specs.DeviceEvaluation.{EvaluatedDevices};

use crate::evaluation::outcome_of;
use crate::outcome;
use crate::outcome::OUTCOME_PLACES;
use rows_store::Registers;
use text_limits::MOST_REGISTERS;

// Runs a caller's description on the caller's memory and registers, with the caller's input and output.
#[unsafe(no_mangle)]
pub extern "C" fn guavachisel_evaluate_devices(
    text: &[u8],
    memory: &mut [u16],
    registers: &mut [u16; MOST_REGISTERS],
    budget: u64,
    rows: &mut [u8],
    input: &[u8],
    output: &mut [u8],
    outcome: &mut [u64; OUTCOME_PLACES],
)
    ensures { EvaluatedDevices text.now registers.old memory.old budget rows.old input.now output.old
        registers.new memory.new rows.new output.new outcome.new }
{
    let came = *registers;
    let start = Registers { values: came };
    let lent = evaluator::evaluate_devices(text, memory, start, budget, rows, input, output);
    let values = lent.answer.registers.values;
    *registers = values;
    *outcome = outcome::exchanging(outcome_of(lent.answer.outcome), lent.read, lent.printed).into();
}
