// The reader for C callers: guavachisel_read of include/guavachisel.h.
ghost use Rattle.std.specs.Prelude.{◌≡◌};
ghost use Rattle.text_description.specs.Description.{read_text};
ghost use Rattle.guavachisel.specs.Outcome.{places};
ghost use Rattle.guavachisel.specs.Reading.{outcome_of};

use crate::outcome;
use crate::outcome::OUTCOME_PLACES;
use text_code::CODE_PLACES;
use text_code::row_table::TABLE_CELLS;

// Reads a caller's text.
#[unsafe(no_mangle)]
pub extern "C" fn guavachisel_read(text: &[u8], outcome: &mut [u64; OUTCOME_PLACES])
    ensures { outcome.new ≡ places (outcome_of (read_text text.now)) }
{
    let mut code = [0u16; CODE_PLACES];
    let mut table = [0u16; TABLE_CELLS];
    *outcome = match text_description::reader::read(text, &mut code, &mut table) {
        Ok(_) => outcome::answered(0).into(),
        Err(refusal) => outcome::unread(refusal.fault, refusal.line).into(),
    };
}
