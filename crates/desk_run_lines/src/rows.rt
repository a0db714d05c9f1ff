// The rows that acted, with their texts and the labels that they name.
ghost use Rattle.std.specs.Prelude.{◌≡◌, ◌+◌, ◌-◌, ◌*◌, ◌≤◌, ◌++◌, length};
ghost use Rattle.word.specs.Choice.{pick};
ghost use Rattle.text_limits.specs.Limits.{most_bytes};
ghost use Rattle.shipped_rows.specs.Text.{shipped_text};
ghost use Rattle.desk_run_lines.specs.Registers.{variant_of};
ghost use Rattle.desk_run_lines.specs.Rows.{row_of, row_below, at_line, label_line, row_line, row_lines};
ghost use Rattle.desk_run_lines.specs.Sizes.{page_bytes, row_line_bytes, Short};

use crate::PAGE_BYTES;
use characters::{LINE_FEED, TAB};
use page::Draft;
use text_fields::by_line::lines_of;

// How many rows are left to pass over after a line.
fn left_after(row: bool, left: usize) -> usize
    ensures { result ≡ pick row (left - 1) left }
{
    if row { left.saturating_sub(1) } else { left }
}

// The text of row k of a description, a part of it; nothing where there is none.
fn row_of(text: &[u8], k: usize) -> &[u8]
    ensures { result.now ≡ row_of k text.now }
{
    let mut left = k.saturating_sub(1);
    for line in lines_of(text) {
        let row = text_targets::is_row(line.bytes);
        if row & (left == 0) {
            return line.bytes;
        }
        left = left_after(row, left);
    }
    &[]
}

// The number of the first row below a label, 0 where the label isn't there.
fn row_below(text: &[u8], label: &[u8]) -> u64
    requires { length text.now ≤ most_bytes }
    ensures { result ≡ row_below label.now text.now }
{
    match text_targets::passes(label, text) {
        Some(above) => above as u64 + 1,
        None => 0,
    }
}

// The line of a label and of the first row below it.
fn put_at(draft: &mut Draft<PAGE_BYTES>, label: &[u8], row: u64)
    requires { length draft.old + length (at_line label.now row) ≤ page_bytes }
    ensures { draft.new ≡ draft.old ++ at_line label.now row }
{
    draft.put_text(b"at\t");
    draft.put_text(label);
    draft.put_byte(TAB);
    draft.put_decimal(row);
    draft.put_byte(LINE_FEED);
}

// The line of the label that a row names, where it is a `go`.
fn put_label(draft: &mut Draft<PAGE_BYTES>, text: &[u8], line: &[u8])
    requires size { length text.now ≤ most_bytes }
    requires room { length draft.old + length (label_line text.now line.now) ≤ page_bytes }
    ensures { draft.new ≡ draft.old ++ label_line text.now line.now }
{
    if characters::is_same(text_fields::field_of(line, 0), b"go") {
        let label = text_fields::field_of(line, 2);
        let row = row_below(text, label);
        put_at(draft, label, row);
    }
}

// The line of row k, and that of its label.
fn put_row(draft: &mut Draft<PAGE_BYTES>, text: &[u8], k: u8)
    requires short { Short text.now }
    requires room { length draft.old + row_line_bytes ≤ page_bytes }
    ensures { draft.new ≡ draft.old ++ row_line text.now k }
{
    draft.put_decimal(k as u64);
    draft.put_byte(TAB);
    let line = row_of(text, k as usize);
    draft.put_text(line);
    draft.put_byte(LINE_FEED);
    put_label(draft, text, line);
}

// The lines of a list of rows, by a description's text, and the room that they take.
fn put_rows_of(draft: &mut Draft<PAGE_BYTES>, text: &[u8], rows: &[u8])
    requires short { Short text.now }
    requires room { length draft.old + row_line_bytes * length rows.now ≤ page_bytes }
    ensures lines { draft.new ≡ draft.old ++ row_lines text.now rows.now }
    ensures room { length draft.new ≤ length draft.old + row_line_bytes * length rows.now }
{
    for k in rows {
        put_row(draft, text, *k);
    }
}

// The same by the shipped description of the machine with devices or without.
pub fn put_rows(draft: &mut Draft<PAGE_BYTES>, devices: bool, rows: &[u8])
    requires { length draft.old + row_line_bytes * length rows.now ≤ page_bytes }
    ensures lines { draft.new ≡ draft.old ++ row_lines (shipped_text (variant_of devices)) rows.now }
    ensures room { length draft.new ≤ length draft.old + row_line_bytes * length rows.now }
{
    put_rows_of(draft, shipped_rows::shipped_text(devices), rows);
}
