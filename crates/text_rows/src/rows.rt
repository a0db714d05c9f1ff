// The lines of rows: `go` and `do`.
ghost use Rattle.std.specs.Prelude.{◌≡◌, ◌≤◌, length};
ghost use Rattle.text_fields.specs.Fields.{field, lines as Fields·lines};
ghost use Rattle.text_code.specs.Met.{capacity};
ghost use Rattle.text_limits.specs.Limits.{most_bytes, longest_line, most_rows};
ghost use Rattle.text_declaration.specs.Stored.{Within};
ghost use Rattle.text_targets.specs.Targets.{is_missing, passes};
ghost use Rattle.text_rows.specs.Lines.{go_line, do_line};
ghost use Rattle.text_rows.specs.Stored.{Takes, first_gone, Put, Jumps};

use crate::{actions, cells};
use text_bit_parts::Field;
use text_code::row_table::{ROW_CELLS, TABLE_CELLS};
use text_code::{CODE_PLACES, Cursor};
use text_declaration::faults::Fault;
use text_declaration::lines::Progress;
use text_expression::read_expression;
use text_limits::{ALL_PIECES, MOST_ROWS};

// The line of the first `go` without its label: line n, if this one's is missing and none was before it.
fn missing_at(target: Option<u16>, n: usize, before: Option<usize>) -> Option<usize>
    ensures { result ≡ first_gone (is_missing target) n before }
{
    match target {
        Some(_) => before,
        None => before.or(Some(n)),
    }
}

// A cursor with the words and pieces that were counted so far.
fn counted(q: Progress) -> Cursor
    ensures { result ≡ record { place = 0; words = q.words; pieces = q.pieces } }
{
    Cursor {
        place: 0,
        words: q.words,
        pieces: q.pieces,
    }
}

// The progress with a row more, if there is room for it and its pieces.
fn add_row(
    q: Progress,
    table: &mut [u16; TABLE_CELLS],
    cells: [u16; ROW_CELLS],
    end: Cursor,
    missing: Option<usize>,
) -> Result<Progress, Fault>
    requires { q.rows ≤ most_rows }
    ensures { Put q cells end missing result table.old table.new }
{
    if (q.rows < MOST_ROWS) & (end.pieces <= ALL_PIECES) {
        cells::put_row(table, q.rows, cells);
        return Ok(Progress {
            rows: q.rows + 1,
            words: end.words,
            pieces: end.pieces,
            missing: missing,
            ..q
        });
    }
    Err(Fault::Limit)
}

// The `go` whose condition's words end at a cursor, if its label is a name.
fn add_go(
    q: Progress,
    n: usize,
    line: &[u8],
    below: &[u8],
    end: Cursor,
    table: &mut [u16; TABLE_CELLS],
) -> Result<Progress, Fault>
    requires few_rows { q.rows ≤ most_rows }
    requires start_in_table { q.words ≤ capacity }
    requires end_in_table { end.words ≤ capacity }
    requires short { length below.now ≤ most_bytes }
    ensures { Jumps q n (field 2 line.now) (Fields·lines below.now) end result table.old table.new }
{
    let label = text_fields::field_of(line, 2);
    if !text_names::is_name(label) {
        return Err(Fault::Label);
    }
    let target = text_targets::passes(label, below);
    let cells = cells::go_cells(q.words, end.words, target.unwrap_or(0));
    add_row(q, table, cells, end, missing_at(target, n, q.missing))
}

// The `go` line with number n, above what stands below it.
pub fn go_line(
    text: &[u8],
    q: Progress,
    n: usize,
    line: &[u8],
    below: &[u8],
    code: &mut [u16; CODE_PLACES],
    table: &mut [u16; TABLE_CELLS],
) -> Result<Progress, Fault>
    requires within { Within q }
    requires line_short { length line.now ≤ longest_line }
    requires short { length below.now ≤ most_bytes }
    ensures { Takes text.now (λ p. go_line p (Fields·lines below.now) line.now)
        (first_gone (is_missing (passes (field 2 line.now) (Fields·lines below.now))) n q.missing) q result
        code.old code.new table.old table.new }
{
    if !text_fields::has_fields(line, 3) {
        return Err(Fault::Line);
    }
    let first = Field {
        text: text,
        registers: q.registers,
        bytes: text_fields::field_of(line, 1),
    };
    let Some(condition) = read_expression(&first, code, counted(q)) else {
        return Err(Fault::Expression);
    };
    add_go(q, n, line, below, condition.end, table)
}

// A `do` line.
pub fn do_line(
    text: &[u8],
    q: Progress,
    line: &[u8],
    code: &mut [u16; CODE_PLACES],
    table: &mut [u16; TABLE_CELLS],
) -> Result<Progress, Fault>
    requires within { Within q }
    requires line_short { length line.now ≤ longest_line }
    ensures { Takes text.now (λ p. do_line p line.now) q.missing q result
        code.old code.new table.old table.new }
{
    if !text_fields::has_fields(line, 4) {
        return Err(Fault::Line);
    }
    match actions::read_row(text, q.registers, line, code, counted(q)) {
        Some(row) => add_row(q, table, row.cells, row.end, q.missing),
        None => Err(Fault::Expression),
    }
}
