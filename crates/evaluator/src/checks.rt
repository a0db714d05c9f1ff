// What is tried of a state before its run: 11 to 15.
ghost use Rattle.std.specs.Prelude.{◌≡◌, ℕ, ◌≤◌};
ghost use Rattle.word.specs.Word.{widest};
ghost use Rattle.state.specs.Refusals.{or_else};
ghost use Rattle.state.specs.Checks.{check_row_list};
ghost use Rattle.evaluator.specs.Padded.{width_at, padded, check_padded};

use rows_store::Registers;
use state::Refusal;
use text_limits::MOST_REGISTERS;
use text_names::Dictionary;

// The width of the register at a place, 0 where there is none.
fn width_at(d: Dictionary, place: usize) -> u64
    ensures { result ≡ width_at d place }
{
    if place < d.count {
        text_names::number_of(d, place) as u64
    } else {
        0
    }
}

// The widths of all places.
fn widths_of(d: Dictionary) -> [u64; MOST_REGISTERS]
    ensures { result ≡ padded d }
{
    let mut widths = [0u64; MOST_REGISTERS];
    for (place, width) in widths.iter_mut().enumerate() {
        *width = width_at(d, place);
    }
    widths
}

// 11 to 14, then 15.
pub fn check(
    memory: &[u16],
    d: Dictionary,
    r: Registers,
    budget: u64,
    places: usize,
) -> Result<(), Refusal>
    requires { (k : ℕ) → width_at d k ≤ widest }
    ensures { result ≡ or_else (check_padded d r.values memory.now budget) (check_row_list places) }
{
    state::check_state(memory, &widths_of(d), &r.values, budget)?;
    state::check_row_list(places)
}
