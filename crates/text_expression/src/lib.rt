// Whole fields: an expression, and a destination.
#![tactic(auto)]

ghost use Rattle.std.specs.Prelude.{◌≡◌, ◌+◌, ◌≤◌, length, Some};
ghost use Rattle.word.specs.Word.{widest};
ghost use Rattle.text_names.specs.Dictionaries.{entries, places};
ghost use Rattle.text_expression.specs.Fields.{trimmed};
ghost use Rattle.text_expression.specs.Expression.{expression, destination, memory_at, of_name};
ghost use Rattle.text_code.specs.Met.{Leaf, capacity};
ghost use Rattle.text_expression.specs.Met.{Whole, Aims, Points, Addressed};

use characters::Class;
use text_bit_parts::{Field, Reference};
use text_code::{CODE_PLACES, Cursor, Part};
use text_operators::OR;

// "an expression has at most 32"
const MOST_PIECES: usize = 32;

// Where a value goes: a register, a bit part of one, or the memory word whose address was read.
#[derive(Clone, Copy)]
pub enum Place {
    Register {
        register: u16,
        width: u16,
    },
    Bits {
        register: u16,
        width: u16,
        first: u16,
        last: u16,
    },
    Word(Cursor),
}

// Whether no space stands at a field's ends.
fn is_trimmed(s: &[u8]) -> bool
    ensures { result ≡ trimmed s.now }
{
    let n = s.len();
    if n == 0 {
        return true;
    }
    (characters::byte(s, 0) != b' ') & (characters::byte(s, n - 1) != b' ')
}

// What was read, if it ends with the field and has no more than 32 pieces.
fn whole_part(s: &[u8], part: Part, pieces: usize) -> Option<Part>
    requires few_before { pieces ≤ capacity }
    requires within_field { part.end.place ≤ length s.now }
    requires narrow { part.width ≤ widest }
    ensures { Whole s.now part pieces result }
{
    let end = part.end;
    if (end.place == s.len()) & (end.pieces <= pieces + MOST_PIECES) {
        Some(part)
    } else {
        None
    }
}

// A field that is an expression, behind what a cursor has counted.
pub fn read_expression(
    field: &Field<'_>,
    code: &mut [u16; CODE_PLACES],
    from: Cursor,
) -> Option<Part>
    requires few_names { field.now.registers.count ≤ places }
    requires words_fit { from.words + length field.now.bytes.now ≤ capacity }
    requires pieces_fit { from.pieces + length field.now.bytes.now ≤ capacity }
    ensures { Leaf (expression (entries field.now.text.now field.now.registers) field.now.bytes.now) field.now.bytes.now 1 (from.words + 1) (from.pieces + 1)
        result (record { place = 0; words = from.words; pieces = from.pieces }) code.old code.new }
{
    if is_trimmed(field.bytes) {
        let start = from.at(0);
        let weakest = text_operators::entry_in(OR).strength;
        let part = text_grammar::read_level(field, code, 0, weakest, start)?;
        whole_part(field.bytes, part, from.pieces)
    } else {
        None
    }
}

// The destination that a name or a bit part is, if it ends with the field.
fn named_place(s: &[u8], reference: Reference) -> Option<Place>
    ensures { Points result (of_name s.now (Some reference)) }
{
    match reference {
        Reference::Whole {
            register,
            width,
            place,
        } => {
            if place == s.len() {
                Some(Place::Register {
                    register: register,
                    width: width,
                })
            } else {
                None
            }
        }
        Reference::Part {
            register,
            width,
            first,
            last,
            place,
        } => {
            if place == s.len() {
                Some(Place::Bits {
                    register: register,
                    width: width,
                    first: first,
                    last: last,
                })
            } else {
                None
            }
        }
    }
}

// The memory word whose address was read, if its bracket ends the field and it has no more than 32 pieces.
fn addressed_place(s: &[u8], end: Cursor, from: Cursor) -> Option<Place>
    requires few_before { from.pieces ≤ capacity }
    requires within_field { end.place ≤ length s.now }
    ensures { Addressed s.now end result from }
{
    let close = text_tokens::skip_spaces(s, end.place);
    if (characters::byte(s, close) == b']')
        & (close + 1 == s.len())
        & (end.pieces <= from.pieces + MOST_PIECES)
    {
        Some(Place::Word(end))
    } else {
        None
    }
}

// The memory destination whose M ends at a place.
fn memory_place(
    field: &Field<'_>,
    code: &mut [u16; CODE_PLACES],
    from: Cursor,
    end: usize,
) -> Option<Place>
    requires few_names { field.now.registers.count ≤ places }
    requires words_fit { from.words + length field.now.bytes.now ≤ capacity }
    requires pieces_fit { from.pieces + length field.now.bytes.now ≤ capacity }
    requires within_field { end ≤ length field.now.bytes.now }
    ensures { Aims result (memory_at (entries field.now.text.now field.now.registers) field.now.bytes.now end) field.now.bytes.now
        (record { place = 0; words = from.words; pieces = from.pieces }) code.old code.new }
{
    let bracket = text_tokens::skip_spaces(field.bytes, end);
    if characters::byte(field.bytes, bracket) == b'[' {
        let start = from.at(bracket + 1);
        let weakest = text_operators::entry_in(OR).strength;
        let address = text_grammar::read_level(field, code, 0, weakest, start)?;
        addressed_place(field.bytes, address.end, start)
    } else {
        None
    }
}

// A field that is a destination, behind what a cursor has counted.
pub fn read_destination(
    field: &Field<'_>,
    code: &mut [u16; CODE_PLACES],
    from: Cursor,
) -> Option<Place>
    requires few_names { field.now.registers.count ≤ places }
    requires words_fit { from.words + length field.now.bytes.now ≤ capacity }
    requires pieces_fit { from.pieces + length field.now.bytes.now ≤ capacity }
    ensures { Aims result (destination (entries field.now.text.now field.now.registers) field.now.bytes.now) field.now.bytes.now
        (record { place = 0; words = from.words; pieces = from.pieces }) code.old code.new }
{
    if is_trimmed(field.bytes) {
        let end = characters::run_end(field.bytes, 0, Class::Word);
        if characters::is_same(characters::part(field.bytes, 0, end), b"M") {
            return memory_place(field, code, from, end);
        }
        let reference = text_bit_parts::reference_at(field, 0)?;
        named_place(field.bytes, reference)
    } else {
        None
    }
}
