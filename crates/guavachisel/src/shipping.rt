// The shipped descriptions for C callers: guavachisel_shipped of include/guavachisel.h.
ghost use Rattle.std.specs.Prelude.{◌≡◌, [], MatchOption};
ghost use Rattle.guavachisel.specs.Shipping.{shipped_of, written, Shipped};

use crate::outcome;
use crate::outcome::OUTCOME_PLACES;

// The number of the description of the machine without devices, in one field.
const PLAIN: u64 = 0;

// The number of the description of the machine with devices, in one field.
const DEVICES: u64 = 1;

// Writes a text into a caller's room, where it fits.
fn write(room: &mut [u8], text: &[u8])
    ensures { room.new ≡ written text.now room.old }
{
    if text.len() <= room.len() {
        room[..text.len()].copy_from_slice(text);
    }
}

// The shipped description of a number that has one.
fn description_of(which: u64) -> Option<&'static [u8]>
    ensures { MatchOption result (shipped_of which ≡ []) (λ d. d.now ≡ shipped_of which) }
{
    match which {
        PLAIN => Some(shipped_rows::shipped_text(false)),
        DEVICES => Some(shipped_rows::shipped_text(true)),
        _ => None,
    }
}

// Hands a caller the shipped description of a number.
#[unsafe(no_mangle)]
pub extern "C" fn guavachisel_shipped(
    which: u64,
    text: &mut [u8],
    outcome: &mut [u64; OUTCOME_PLACES],
)
    ensures { Shipped which text.old text.new outcome.new }
{
    match description_of(which) {
        Some(description) => {
            write(text, description);
            *outcome = outcome::answered(description.len() as u64).into();
        }
        None => *outcome = outcome::answered(0).into(),
    }
}
