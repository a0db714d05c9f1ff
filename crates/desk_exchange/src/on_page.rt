// The same lines on a page of any length, from a place on: piece by piece, each a draft that is copied to the page.
ghost use Rattle.std.specs.Prelude.{◌+◌, ◌*◌, ◌<◌, ◌≤◌, true, ◌++◌, length, take};
ghost use Rattle.characters.specs.Ascii.{ascii};
ghost use Rattle.page.specs.Written.{Written};
ghost use Rattle.desk_exchange.specs.Exchange.{read_line, octet, octets_from, exchange_lines};
ghost use Rattle.desk_exchange.specs.Sizes.{octet_bytes, printed_line_bytes, read_line_bytes};

use crate::put_octet;
use characters::LINE_FEED;
use page::Draft;

// The bytes of a draft for the line of what was read and the one of printed bytes without them, and for a printed byte.
const HEAD_BYTES: usize = 35;

const OCTET_BYTES: usize = 4;

// How many bytes of the input arrived, and what the line of the bytes printed begins with.
fn put_head(page: &mut [u8], at: usize, read: usize) -> usize
    requires { at + read_line_bytes + printed_line_bytes ≤ length page.old }
    ensures text { Written (read_line read ++ ascii "printed\t") page.old at page.new result }
    ensures room { result < at + read_line_bytes + printed_line_bytes }
{
    let mut draft: Draft<HEAD_BYTES> = Draft::new();
    draft.put_text(b"read\t");
    draft.put_decimal(read as u64);
    draft.put_text(b"\nprinted\t");
    draft.copy_at(page, at)
}

// A byte printed.
fn put_printed_byte(page: &mut [u8], at: usize, first: bool, b: u8) -> usize
    requires { at + octet_bytes ≤ length page.old }
    ensures { Written (octet first b) page.old at page.new result }
{
    let mut draft: Draft<OCTET_BYTES> = Draft::new();
    put_octet(&mut draft, first, b);
    draft.copy_at(page, at)
}

// The bytes printed, one after the other.
fn put_printed_bytes(page: &mut [u8], at: usize, printed: &[u8]) -> usize
    requires { at + octet_bytes * length printed.now ≤ length page.old }
    ensures text { Written (octets_from true printed.now) page.old at page.new result }
    ensures room { result ≤ at + octet_bytes * length printed.now }
{
    let mut end = at;
    for (k, b) in printed.iter().enumerate() {
        end = put_printed_byte(page, end, k == 0, *b);
    }
    end
}

// How many bytes of the input arrived, and the first `printed` bytes of the output.
pub fn put_exchange(page: &mut [u8], at: usize, read: usize, output: &[u8], printed: usize) -> usize
    requires told { printed ≤ length output.now }
    requires room { at + read_line_bytes + printed_line_bytes + octet_bytes * printed ≤ length page.old }
    ensures { Written (exchange_lines read (take printed output.now)) page.old at page.new result }
{
    let bytes = put_head(page, at, read);
    let end = put_printed_bytes(page, bytes, &output[..printed]);
    page[end] = LINE_FEED;
    end + 1
}
