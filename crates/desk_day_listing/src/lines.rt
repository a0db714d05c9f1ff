// The line of a step.
ghost use Rattle.std.specs.Prelude.{◌≡◌, ◌+◌, ◌<◌, ◌≤◌, ◌++◌, length};
ghost use Rattle.desk_day_listing.specs.Listing.{step_line};
ghost use Rattle.desk_day_listing.specs.Stepped.{step_line_bytes, page_bytes};

use crate::PAGE_BYTES;
use characters::LINE_FEED;
use page::Draft;

// The step's number, its instruction's address and word, LAC and RUN after it.
pub(crate) fn put_step_line(
    draft: &mut Draft<PAGE_BYTES>,
    n: u64,
    pc: u64,
    i: u64,
    lac: u64,
    run: u64,
)
    requires room { length draft.old + step_line_bytes ≤ page_bytes }
    requires two_digits { n < 100 }
    ensures { draft.new ≡ draft.old ++ step_line n pc i lac run }
{
    draft.put_decimal(n);
    draft.put_field(4, pc);
    draft.put_field(4, i);
    draft.put_field(5, lac);
    draft.put_field(1, run);
    draft.put_byte(LINE_FEED);
}
