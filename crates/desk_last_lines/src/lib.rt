// The last line of a run, and the one line of a refused text.
#![tactic(auto)]

ghost use Rattle.std.specs.Prelude.{◌≡◌, ◌+◌, ◌≤◌, ◌++◌, length};
ghost use Rattle.state.specs.Refusals.{reason_with};
ghost use Rattle.page.specs.Text.{decimal};
ghost use Rattle.page.specs.Page.{Page};
ghost use Rattle.desk_last_lines.specs.LastLines.{end_line, refused_line};

use characters::LINE_FEED;
use page::Draft;

// The bytes of the longest line of a refused text: a number of 64 bits has at most 20 digits.
const REFUSED_BYTES: usize = 29;

// The last line of a run: it halted where RUN is 0, else its paper ran out where no place was left, else its budget is spent. Beside the digits it has at most 12 bytes.
pub fn put_end_line<const N: usize>(draft: &mut Draft<N>, steps: u64, run: u64, place: bool)
    requires { length draft.old + 12 + length (decimal steps) ≤ N }
    ensures { draft.new ≡ draft.old ++ end_line steps (reason_with run place) }
{
    draft.put_text(b"end\t");
    draft.put_decimal(steps);
    if run == 0 {
        draft.put_text(b"\thalted\n");
    } else if place {
        draft.put_text(b"\tspent\n");
    } else {
        draft.put_text(b"\tpaper\n");
    }
}

// The one line of a refused text, at the start of a page.
pub fn put_refused_line(page: &mut [u8], n: u64) -> usize
    requires { 29 ≤ length page.old }
    ensures { Page (refused_line n) page.old page.new result }
{
    let mut draft: Draft<REFUSED_BYTES> = Draft::new();
    draft.put_text(b"refused\t");
    draft.put_decimal(n);
    draft.put_byte(LINE_FEED);
    draft.copy_to(page)
}
