// The row of a `do` line: condition, destination and value.
ghost use Rattle.std.specs.Prelude.{◌≡◌, ◌+◌, ◌≤◌, length};
ghost use Rattle.characters.specs.Ascii.{tab};
ghost use Rattle.text_fields.specs.Fields.{after};
ghost use Rattle.text_names.specs.Dictionaries.{entries, places};
ghost use Rattle.text_code.specs.Met.{capacity};
ghost use Rattle.text_expression.specs.Expression.{destination};
ghost use Rattle.text_rows.specs.Stored.{InOrder, aim_of, Aimed, Acts, Rows};

use crate::cells;
use crate::cells::Aim;
use text_bit_parts::Field;
use text_code::row_table::ROW_CELLS;
use text_code::{CODE_PLACES, Cursor, row_table};
use text_expression::{Place, read_destination, read_expression};
use text_names::Dictionary;

// The cells of a place that was read behind what a cursor has counted.
fn aim_of(place: Place, from: Cursor) -> Aim
    requires { InOrder place }
    ensures { result ≡ aim_of place from }
{
    match place {
        Place::Register { register, width } => Aim {
            kind: row_table::TO_REGISTER,
            register: register,
            right: 0,
            size: width,
            end: from,
        },
        Place::Bits {
            register,
            width,
            first,
            last,
        } => Aim {
            kind: row_table::TO_PART,
            register: register,
            right: width - 1 - last,
            size: last - first + 1,
            end: from,
        },
        Place::Word(end) => Aim {
            kind: row_table::TO_MEMORY,
            register: 0,
            right: 0,
            size: 0,
            end: end,
        },
    }
}

// The destination in a field, behind what a cursor has counted.
fn read_aim(field: &Field<'_>, code: &mut [u16; CODE_PLACES], from: Cursor) -> Option<Aim>
    requires few_names { field.now.registers.count ≤ places }
    requires words_fit { from.words + length field.now.bytes.now ≤ capacity }
    requires pieces_fit { from.pieces + length field.now.bytes.now ≤ capacity }
    ensures { Aimed (destination (entries field.now.text.now field.now.registers) field.now.bytes.now) field.now.bytes.now
        result from code.old code.new }
{
    let place = read_destination(field, code, from)?;
    Some(aim_of(place, from))
}

// A row that was read: its cells, and how far its words and pieces reach.
#[derive(Clone, Copy)]
pub struct RowRead {
    pub cells: [u16; ROW_CELLS],
    pub end: Cursor,
}

// The row of a `do` line whose condition was read: its destination and its value.
fn read_action(
    text: &[u8],
    d: Dictionary,
    line: &[u8],
    code: &mut [u16; CODE_PLACES],
    start: usize,
    condition: Cursor,
) -> Option<RowRead>
    requires few_names { d.count ≤ places }
    requires start_in_table { start ≤ capacity }
    requires words_fit { condition.words + length (after tab (after tab line.now)) ≤ capacity }
    requires pieces_fit { condition.pieces + length (after tab (after tab line.now)) ≤ capacity }
    ensures { Acts (entries text.now d) line.now start condition result code.old code.new }
{
    let second = Field {
        text: text,
        registers: d,
        bytes: text_fields::field_of(line, 2),
    };
    let aim = read_aim(&second, code, condition)?;
    let third = Field {
        text: text,
        registers: d,
        bytes: text_fields::field_of(line, 3),
    };
    let value = read_expression(&third, code, aim.end)?;
    Some(RowRead {
        cells: cells::do_cells(start, condition.words, aim, value.end.words),
        end: value.end,
    })
}

// The row of a `do` line.
pub(crate) fn read_row(
    text: &[u8],
    d: Dictionary,
    line: &[u8],
    code: &mut [u16; CODE_PLACES],
    from: Cursor,
) -> Option<RowRead>
    requires few_names { d.count ≤ places }
    requires words_fit { from.words + length line.now ≤ capacity }
    requires pieces_fit { from.pieces + length line.now ≤ capacity }
    ensures { Rows (entries text.now d) line.now from result code.old code.new }
{
    let first = Field {
        text: text,
        registers: d,
        bytes: text_fields::field_of(line, 1),
    };
    let condition = read_expression(&first, code, from)?;
    read_action(text, d, line, code, from.words, condition.end)
}
