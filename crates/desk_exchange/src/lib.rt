// The lines of what a run with devices read and printed.
#![tactic(auto)]

pub mod on_page;

ghost use Rattle.std.specs.Prelude.{◌≡◌, ◌+◌, ◌*◌, ◌≤◌, ◌++◌, length};
ghost use Rattle.desk_exchange.specs.Exchange.{octet, printed_line, exchange_lines};
ghost use Rattle.desk_exchange.specs.Sizes.{octet_bytes, printed_line_bytes, read_line_bytes};

use characters::LINE_FEED;
use page::Draft;

const SPACE: u8 = b' ';

// A byte in three octal digits, behind a space unless it is the first.
fn put_octet<const N: usize>(draft: &mut Draft<N>, first: bool, b: u8)
    requires { length draft.old + octet_bytes ≤ N }
    ensures { draft.new ≡ draft.old ++ octet first b }
{
    if !first {
        draft.put_byte(SPACE);
    }
    draft.put_octal(3, b as u64);
}

// The line of the bytes printed.
fn put_printed<const N: usize>(draft: &mut Draft<N>, printed: &[u8])
    requires { length draft.old + printed_line_bytes + octet_bytes * length printed.now ≤ N }
    ensures { draft.new ≡ draft.old ++ printed_line printed.now }
{
    draft.put_text(b"printed\t");
    for (k, b) in printed.iter().enumerate() {
        put_octet(draft, k == 0, *b);
    }
    draft.put_byte(LINE_FEED);
}

// How many bytes of the input arrived, and the bytes printed.
pub fn put_exchange<const N: usize>(draft: &mut Draft<N>, read: usize, printed: &[u8])
    requires { length draft.old + read_line_bytes + printed_line_bytes + octet_bytes * length printed.now ≤ N }
    ensures { draft.new ≡ draft.old ++ exchange_lines read printed.now }
{
    draft.put_text(b"read\t");
    draft.put_decimal(read as u64);
    draft.put_byte(LINE_FEED);
    put_printed(draft, printed);
}
