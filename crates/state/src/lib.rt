// What both engines share: the reasons of a run's end, the state refusals 11 to 15, and the checks of memory, registers, budget and
// row list that give them.
#![tactic(auto)]

ghost use Rattle.std.specs.Prelude.{ℕ, ◌≤◌, ◌≡◌, get_or};
ghost use Rattle.word.specs.Word.{widest, fits};
ghost use Rattle.state.specs.Checks.{first_too_wide, check_memory, check_registers, check_budget, check_state, check_row_list};
ghost use Rattle.state.specs.Refusals.{reason_with, reason_of};

pub const MEMORY_WORDS: usize = 4096;

pub const WORD_BITS: u64 = 12;

pub const BUDGET_LIMIT: u64 = 1_000_000;

pub const ROW_PLACES: usize = 128;

// Why a run ended: RUN is 0, or the budget is done, or the output has no place left.
#[derive(Clone, Copy, Debug, PartialEq, Eq)]
pub enum Reason {
    Halted,
    Spent,
    Paper,
}

// Why a state is turned down, with the lowest offending place where one applies.
#[derive(Clone, Copy, Debug, PartialEq, Eq)]
pub enum Refusal {
    MemoryLength,
    Word(usize),
    Register(usize),
    Budget,
    RowList,
}

// Why a run ended, by RUN at its end, and by whether the output had a place left.
pub fn reason_with(run: u64, place: bool) -> Reason
    ensures { result ≡ reason_with run place }
{
    if run == 0 {
        return Reason::Halted;
    }
    if place { Reason::Spent } else { Reason::Paper }
}

// Why a run without devices ended.
pub fn reason_of(run: u64) -> Reason
    ensures { result ≡ reason_of run }
{
    reason_with(run, true)
}

// The bits that a place may hold: its width, or what every place past the widths has.
fn width_at(widths: &[u64], beyond: u64, place: usize) -> u64
    ensures { result ≡ get_or widths.now place beyond }
{
    widths.get(place).copied().unwrap_or(beyond)
}

// Whether a value has no more bits than its place may hold.
fn is_fit(widths: &[u64], beyond: u64, place: usize, value: u16) -> bool
    requires { (k : ℕ) → get_or widths.now k beyond ≤ widest }
    ensures { result ≡ fits (get_or widths.now place beyond) value }
{
    word::is_narrow(width_at(widths, beyond, place), value as u64)
}

// The lowest place whose value has more bits than the place may hold.
fn first_too_wide(widths: &[u64], beyond: u64, values: &[u16]) -> Option<usize>
    requires { (k : ℕ) → get_or widths.now k beyond ≤ widest }
    ensures { result ≡ first_too_wide (λ k. get_or widths.now k beyond) 0 values.now }
{
    for (place, value) in values.iter().enumerate() {
        if !is_fit(widths, beyond, place, *value) {
            return Some(place);
        }
    }
    None
}

// The largest of some words, 0 of none.
fn largest(words: &[u16]) -> u16
    ensures { (k : ℕ) → get_or words.now k 0 ≤ result }
{
    let mut most = 0u16;
    for word in words {
        most = most.max(*word);
    }
    most
}

// Refusals 11 and 12: of memory's length and of its words. Where the largest word is none too wide no place is looked for: several words are compared at once.
pub fn check_memory(memory: &[u16]) -> Result<(), Refusal>
    ensures { result ≡ check_memory memory.now }
{
    if memory.len() != MEMORY_WORDS {
        return Err(Refusal::MemoryLength);
    }
    if word::is_narrow(WORD_BITS, u64::from(largest(memory))) {
        return Ok(());
    }
    match first_too_wide(&[0; 0], WORD_BITS, memory) {
        Some(place) => Err(Refusal::Word(place)),
        None => Ok(()),
    }
}

// Refusal 13: of the registers by their widths. A place without a register holds 0.
fn check_registers(widths: &[u64], values: &[u16]) -> Result<(), Refusal>
    requires { (k : ℕ) → get_or widths.now k 0 ≤ widest }
    ensures { result ≡ check_registers widths.now values.now }
{
    match first_too_wide(widths, 0, values) {
        Some(place) => Err(Refusal::Register(place)),
        None => Ok(()),
    }
}

// Refusal 14: of the budget.
fn check_budget(budget: u64) -> Result<(), Refusal>
    ensures { result ≡ check_budget budget }
{
    if BUDGET_LIMIT < budget {
        return Err(Refusal::Budget);
    }
    Ok(())
}

// Refusals 11 to 14, in this order.
pub fn check_state(
    memory: &[u16],
    widths: &[u64],
    values: &[u16],
    budget: u64,
) -> Result<(), Refusal>
    requires { (k : ℕ) → get_or widths.now k 0 ≤ widest }
    ensures { result ≡ check_state widths.now values.now memory.now budget }
{
    check_memory(memory)?;
    check_registers(widths, values)?;
    check_budget(budget)
}

// Refusal 15: of the row list's places.
pub fn check_row_list(places: usize) -> Result<(), Refusal>
    ensures { result ≡ check_row_list places }
{
    if places < ROW_PLACES {
        return Err(Refusal::RowList);
    }
    Ok(())
}
