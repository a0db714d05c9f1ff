// The cells of a row in the table of rows.
ghost use Rattle.std.specs.Prelude.{◌≡◌, ◌*◌, ◌≤◌, ◌<◌};
ghost use Rattle.std.proofs.lemmas.List.Edits.{sets};
ghost use Rattle.text_code.specs.Met.{capacity};
ghost use Rattle.text_limits.specs.Limits.{most_rows};
ghost use Rattle.text_code.specs.RowTable.{row_cells};
ghost use Rattle.text_rows.specs.Cells.{go_cells, do_cells};

use text_code::row_table::{ROW_CELLS, TABLE_CELLS};
use text_code::{Cursor, row_table};

// Where a row's value goes: the cells of its destination, and how far its address reaches.
#[derive(Clone, Copy)]
pub struct Aim {
    // a number, since it becomes a cell of the lent table, whose cells are numbers
    pub kind: u16,
    pub register: u16,
    pub right: u16,
    pub size: u16,
    pub end: Cursor,
}

// Puts the cells of a row into the table.
pub(crate) fn put_row(table: &mut [u16; TABLE_CELLS], row: usize, cells: [u16; ROW_CELLS])
    requires { row < most_rows }
    ensures { table.new ≡ sets table.old (row_cells * row) cells }
{
    let at = ROW_CELLS * row;
    table[at..at + ROW_CELLS].copy_from_slice(&cells);
}

// The cells of a `go` whose condition has the words from start to end.
pub(crate) fn go_cells(start: usize, end: usize, passed: u16) -> [u16; ROW_CELLS]
    requires start_in_table { start ≤ capacity }
    requires end_in_table { end ≤ capacity }
    ensures { result ≡ go_cells start end passed }
{
    let first = (4 * start) as u16;
    let last = (4 * end) as u16;
    [row_table::GO, first, last, last, last, 0, 0, 0, passed]
}

// The cells of a `do` whose condition has the words from start to middle.
pub(crate) fn do_cells(start: usize, middle: usize, aim: Aim, end: usize) -> [u16; ROW_CELLS]
    requires { (start ≤ capacity) × ((middle ≤ capacity) × ((aim.end.words ≤ capacity) × (end ≤ capacity))) }
    ensures { result ≡ do_cells start middle aim end }
{
    [
        aim.kind,
        (4 * start) as u16,
        (4 * middle) as u16,
        (4 * aim.end.words) as u16,
        (4 * end) as u16,
        aim.register,
        aim.right,
        aim.size,
        0,
    ]
}
