// What is said before and after a sitting: the budget, and the run's last line.
ghost use Rattle.std.specs.Prelude.{◌≡◌, ◌-◌, ◌≤◌, length};
ghost use Rattle.state.specs.Refusals.{reason_of};
ghost use Rattle.page.specs.Page.{Page};
ghost use Rattle.desk_last_lines.specs.LastLines.{end_line};
ghost use Rattle.desk_teletype.specs.Words.{budget_of};

use crate::Sitting;
use characters::Class;
use page::Draft;

// The bytes of a page that has room for the last line.
pub const LINE_BYTES: usize = 32;

const BUDGET_DIGITS: usize = 16;

// The budget that a text says: a decimal number of 1 to 16 digits.
pub fn budget_of(text: &[u8]) -> Option<u64>
    ensures { result ≡ budget_of text.now }
{
    let n = text.len();
    if (0 < n) & (n <= BUDGET_DIGITS) & desk_image::is_digits(Class::Decimal, n, text) {
        Some(text_constants::digits_value(text, 0, n, 10))
    } else {
        None
    }
}

// Writes the last line of a run to the start of a page, and answers how many bytes it has: the steps done of the budget, and whether the machine halted.
pub fn put_end(page: &mut [u8; LINE_BYTES], s: Sitting, budget: u64) -> usize
    requires { s.left ≤ budget }
    ensures { Page (end_line (budget - s.left) (reason_of s.machine.run)) page.old page.new result }
{
    let m = s.machine;
    let mut draft: Draft<LINE_BYTES> = Draft::new();
    desk_last_lines::put_end_line(&mut draft, budget - s.left, m.run as u64, true);
    draft.copy_to(page)
}
