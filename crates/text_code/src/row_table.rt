// The table of rows: nine cells for each row, one row behind the other.
ghost use Rattle.std.specs.Prelude.{◌≡◌, ◌*◌, ◌+◌, ◌<◌, get_or};
ghost use Rattle.text_limits.specs.Limits.{most_rows};
ghost use Rattle.text_code.specs.RowTable.{row_cells};

use text_limits::MOST_ROWS;

// How many cells a row has.
pub const ROW_CELLS: usize = 9;

// Their places: its kind; where the words of its condition, of its address and of its value start, and where these end; the register, the right end and the size of its
// destination; how many rows it passes over.
pub const KIND: usize = 0;

pub const CONDITION: usize = 1;

pub const ADDRESS: usize = 2;

pub const VALUE: usize = 3;

pub const END: usize = 4;

pub const REGISTER: usize = 5;

pub const RIGHT: usize = 6;

pub const SIZE: usize = 7;

pub const PASSED: usize = 8;

// The kinds of rows: a `do` into a register, into a bit part of one, into memory; a `go`.
// They are numbers and no enum, as the kinds of words are: they stand in a table that a caller lends.
pub const TO_REGISTER: u16 = 0;

pub const TO_PART: u16 = 1;

pub const TO_MEMORY: u16 = 2;

pub const GO: u16 = 3;

// The cells of all rows that a text may have.
pub const TABLE_CELLS: usize = ROW_CELLS * MOST_ROWS;

// Cell j of a row of the table.
pub fn cell(table: &[u16; TABLE_CELLS], row: usize, j: usize) -> u16
    requires fact_1 { row < most_rows }
    requires fact_2 { j < row_cells }
    ensures { result ≡ get_or table.now (row_cells * row + j) 0 }
{
    table[ROW_CELLS * row + j]
}
