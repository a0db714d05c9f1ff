// The evaluator: runs a description's rows, cycle by cycle, and lists the rows that acted.
#![tactic(auto)]

mod attached;
mod checks;
mod list;

ghost use Rattle.std.specs.Prelude.{◌≡◌, ◌≤◌, length, Err};
ghost use Rattle.state.specs.Limits.{memory_words};
ghost use Rattle.text_limits.specs.Limits.{most_rows};
ghost use Rattle.rows_cycles.specs.Stored.{run_at, coursing};
ghost use Rattle.evaluator.specs.Evaluate.{report, device_report, evaluate as evaluation, evaluate_devices as deviceEvaluation};
ghost use Rattle.evaluator.specs.Lent.{finished_lent, lent_run, answered, evaluate_lent};
ghost use Rattle.evaluator.specs.declared.Refusal.TheVariants.{Text, State};

use devices::registers::DEVICE_REGISTERS;
use rows_cycles::run;
use rows_plan::PLAN_PLACES;
use rows_store::Registers;
use rows_turn::rows::Rows;
use state::Reason;
use text_code::CODE_PLACES;
use text_code::row_table::TABLE_CELLS;
use text_description::reader;
use text_limits::MOST_ROWS;

// How a run ended.
#[derive(Clone, Copy)]
pub struct Ended {
    pub reason: Reason,
    // cycles done
    pub steps: u64,
    // rows listed
    pub listed: usize,
}

// Why there was no run.
#[derive(Clone, Copy)]
pub enum Refusal {
    // what the text is turned down for, and the line
    Text(reader::Refusal),
    // what the state is turned down for
    State(state::Refusal),
}

impl From<reader::Refusal> for Refusal {
    ghost from_gives = { λ why refusal. refusal ≡ Text why };

    fn from(why: reader::Refusal) -> Refusal {
        Refusal::Text(why)
    }
}

impl From<state::Refusal> for Refusal {
    ghost from_gives = { λ why refusal. refusal ≡ State why };

    fn from(why: state::Refusal) -> Refusal {
        Refusal::State(why)
    }
}

// The registers, as they came after a refusal, beside what came of the call.
#[derive(Clone, Copy)]
pub struct Answer {
    pub registers: Registers,
    pub outcome: Result<Ended, Refusal>,
}

// The same, and how many bytes of the input were read and printed to the output.
#[derive(Clone, Copy)]
pub struct DeviceAnswer {
    pub answer: Answer,
    pub read: usize,
    pub printed: usize,
}

// Runs rows that are read on a state that fits, with the devices' registers at places or without devices, and lists those that acted in the last cycle.
fn run_rows(
    code: &[u16; CODE_PLACES],
    table: &[u16; TABLE_CELLS],
    count: usize,
    place: usize,
    registers: Registers,
    memory: &mut [u16],
    budget: u64,
    rows: &mut [u8],
    places: Option<[usize; DEVICE_REGISTERS]>,
    input: &[u8],
    output: &mut [u8],
) -> DeviceAnswer
    requires few_rows { count ≤ most_rows }
    requires whole_memory { length memory.old ≡ memory_words }
    requires roomy { most_rows ≤ length rows.old }
    ensures { device_report result memory.new rows.new output.new
        ≡ finished_lent places (run_at place)
        (lent_run code.now table.now count place places (length output.old) budget
        (record { registers = registers.values; memory = memory.old }) input.now)
        rows.old input.now output.old }
{
    let mut plan = [0u16; PLAN_PLACES];
    rows_plan::plan_rows(code, table, count, &mut plan);
    let mut acted = [0u8; MOST_ROWS];
    let ready = Rows {
        plan: &plan,
        code,
        table,
        count,
    };
    let end = run::run(
        ready, place, registers, memory, budget, &mut acted, places, input, output,
    );
    list::put_rows(rows, &acted, end.listed);
    let ended = Ended {
        reason: end.reason,
        steps: end.steps,
        listed: end.listed,
    };
    DeviceAnswer {
        answer: Answer {
            registers: end.registers,
            outcome: Ok(ended),
        },
        read: end.read,
        printed: end.printed,
    }
}

// The answer where nothing is read or printed.
fn idle(registers: Registers, why: Refusal) -> DeviceAnswer
    ensures { result ≡ answered registers (Err why) }
{
    DeviceAnswer {
        answer: Answer {
            registers,
            outcome: Err(why),
        },
        read: 0,
        printed: 0,
    }
}

// The text, then the state, then the run: devices are used where input and output are lent, and the description reaches them.
fn run_text(
    text: &[u8],
    memory: &mut [u16],
    registers: Registers,
    budget: u64,
    rows: &mut [u8],
    lends: bool,
    input: &[u8],
    output: &mut [u8],
) -> Result<DeviceAnswer, Refusal>
    ensures { device_report (answered registers result) memory.new rows.new output.new
        ≡ evaluate_lent lends text.now registers.values memory.old budget rows.old input.now output.old }
{
    let mut code = [0u16; CODE_PLACES];
    let mut table = [0u16; TABLE_CELLS];
    let read = reader::read(text, &mut code, &mut table)?;
    let known = read.registers;
    checks::check(memory, known, registers, budget, rows.len())?;
    let place = text_names::place_of(text, known, b"RUN").unwrap();
    let places = if lends {
        attached::attach(text, known)
    } else {
        None
    };
    Ok(run_rows(
        &code, &table, read.rows, place, registers, memory, budget, rows, places, input, output,
    ))
}

// Both entries.
fn evaluate_lent(
    text: &[u8],
    memory: &mut [u16],
    registers: Registers,
    budget: u64,
    rows: &mut [u8],
    lends: bool,
    input: &[u8],
    output: &mut [u8],
) -> DeviceAnswer
    ensures { device_report result memory.new rows.new output.new
        ≡ evaluate_lent lends text.now registers.values memory.old budget rows.old input.now output.old }
{
    match run_text(text, memory, registers, budget, rows, lends, input, output) {
        Ok(answer) => answer,
        Err(why) => idle(registers, why),
    }
}

// Runs a description on a caller's memory and registers, and lists the rows that acted in the last cycle.
pub fn evaluate(
    text: &[u8],
    memory: &mut [u16],
    registers: Registers,
    budget: u64,
    rows: &mut [u8],
) -> Answer
    ensures { report result memory.new rows.new
        ≡ evaluation text.now registers.values memory.old budget rows.old }
{
    let mut none = [0u8; 1];
    let r = evaluate_lent(text, memory, registers, budget, rows, false, &[], &mut none);
    r.answer
}

// The same with devices, if the description reaches them: input arrives by the keyboard, and the teleprinter prints to the output.
pub fn evaluate_devices(
    text: &[u8],
    memory: &mut [u16],
    registers: Registers,
    budget: u64,
    rows: &mut [u8],
    input: &[u8],
    output: &mut [u8],
) -> DeviceAnswer
    ensures { device_report result memory.new rows.new output.new
        ≡ deviceEvaluation text.now registers.values memory.old budget rows.old input.now output.old }
{
    evaluate_lent(text, memory, registers, budget, rows, true, input, output)
}
