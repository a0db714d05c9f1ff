// What is made of parts that were read: each puts its word behind those of its sides.
ghost use Rattle.std.specs.Prelude.{◌≡◌, ◌+◌, ◌≤◌, ◌<◌, length};
ghost use Rattle.word.specs.Word.{widest};
ghost use Rattle.text_operators.specs.Operators.{table, entry_in, rotations, width_by};
ghost use Rattle.text_constants.specs.Constants.{decimal_at};
ghost use Rattle.text_tokens.specs.Tokens.{skip};
ghost use Rattle.text_code.specs.Readings.{closed, rotation_of, joined};
ghost use Rattle.text_code.specs.Met.{Room, Made, Behind, Combined, UnderNot, capacity};

use crate::{CODE_PLACES, Part, WIDEST, emit, kinds};
use text_operators::NOT;

// "words of 12 bits"
const WORD_BITS: u16 = 12;

// "right side a decimal from 0 to 15"
const LARGEST_COUNT: u16 = 15;

// The width of an operator's value by its row; an operator that has no right side, or only a count there, is handed 0 for that.
fn width_in(row: usize, left: u16, right: u16) -> u16
    requires left_narrow { left ≤ widest }
    requires right_narrow { right ≤ widest }
    ensures { result ≡ width_by (entry_in row).widths left right }
{
    let entry = text_operators::entry_in(row);
    let kind = entry.widths;
    text_operators::width_by(kind, left, right)
}

// What stands in brackets, once it is read: the closing byte, and for a memory word its own word.
pub fn closed_part(s: &[u8], code: &mut [u16; CODE_PLACES], inner: Part, close: u8) -> Option<Part>
    requires within_line { inner.end.place ≤ length s.now }
    requires words_fit { inner.end.words < capacity }
    requires pieces_fit { inner.end.pieces < capacity }
    requires narrow { inner.width ≤ widest }
    requires a_byte { 0 < close }
    ensures { Made (closed s.now close) s.now (inner.end.place + 1) (inner.end.words + 1) (inner.end.pieces + 1)
        inner result code.old code.new }
{
    let end = text_tokens::skip_spaces(s, inner.end.place);
    if characters::byte(s, end) != close {
        return None;
    }
    if close == b']' {
        emit(code, inner.end.words, [kinds::MEMORY, 0, 0, 0]);
        Some(Part {
            end: inner.end.with_word(end + 1, 1),
            width: WORD_BITS,
        })
    } else {
        Some(Part {
            end: inner.end.at(end + 1),
            width: inner.width,
        })
    }
}

// What was read, complemented.
pub fn complemented_part(code: &mut [u16; CODE_PLACES], operand: Part) -> Part
    requires words_fit { operand.end.words < capacity }
    requires pieces_fit { operand.end.pieces < capacity }
    requires narrow { operand.width ≤ widest }
    ensures { UnderNot operand result code.old code.new }
{
    let c = operand.end;
    let whole = width_in(NOT, operand.width, 0);
    emit(code, c.words, [kinds::NOT, operand.width, 0, 0]);
    Part {
        end: c.with_word(c.place, 1),
        width: whole,
    }
}

// A rotation of what was read, by the count that stands at a place.
pub fn rotated_part(
    s: &[u8],
    code: &mut [u16; CODE_PLACES],
    row: usize,
    left: Part,
    at: usize,
) -> Option<Part>
    requires has_room { Room s.now left.end 0 }
    requires is_rotation { (entry_in row).strength ≡ rotations }
    requires narrow { left.width ≤ widest }
    requires onward { left.end.place < at }
    requires within_line { at ≤ length s.now }
    ensures { Behind 0 (λ f l p. rotation_of row l (decimal_at s.now (skip s.now at))) s.now (at + 1)
        (left.end.words + 2) (left.end.pieces + 2) left result code.old code.new }
{
    let count = text_constants::decimal_at(s, text_tokens::skip_spaces(s, at))?;
    if LARGEST_COUNT < count.value {
        return None;
    }
    let whole = width_in(row, left.width, 0);
    emit(
        code,
        left.end.words,
        [kinds::NOT + row as u16, left.width, count.value, 0],
    );
    Some(Part {
        end: left.end.with_word(count.place, 2),
        width: whole,
    })
}

// A left and a right side, once both are read, under the operator of a row.
pub fn joined_part(
    code: &mut [u16; CODE_PLACES],
    row: usize,
    left: Part,
    right: Part,
) -> Option<Part>
    requires listed { row < length table }
    requires left_narrow { left.width ≤ widest }
    requires right_narrow { right.width ≤ widest }
    requires words_fit { right.end.words < capacity }
    requires pieces_fit { right.end.pieces < capacity }
    ensures { Combined (joined row) left right result code.old code.new }
{
    let both = width_in(row, left.width, right.width);
    if WIDEST < both {
        return None;
    }
    let end = right.end;
    emit(
        code,
        end.words,
        [kinds::NOT + row as u16, left.width, right.width, 0],
    );
    Some(Part {
        end: end.with_word(end.place, 1),
        width: both,
    })
}
