// Constants, registers and bit parts: what an expression has at its ends. Each puts its word into the table.
ghost use Rattle.std.specs.Prelude.{◌≡◌, true, ◌+◌, ◌≤◌, ◌<◌, get_or};
ghost use Rattle.characters.specs.Characters.{is_word};
ghost use Rattle.text_names.specs.Dictionaries.{entries, places};
ghost use Rattle.text_constants.specs.Constants.{constant_at};
ghost use Rattle.text_bit_parts.specs.References.{reference_at};
ghost use Rattle.text_code.specs.Readings.{of_constant, of_reference};
ghost use Rattle.text_code.specs.Met.{Single, Room, Leaf, capacity};

use crate::{CODE_PLACES, Cursor, Part, WIDEST, kinds};
use text_bit_parts::{Field, Reference};

// A word of its own for what was read up to a place, unless that is wider than 16 bits.
fn leaf_part(
    code: &mut [u16; CODE_PLACES],
    c: Cursor,
    place: usize,
    width: u16,
    word: [u16; 4],
) -> Option<Part>
    requires words_fit { c.words < capacity }
    requires pieces_fit { c.pieces < capacity }
    ensures { Single place width word result c code.old code.new }
{
    if width <= WIDEST {
        crate::emit(code, c.words, word);
        Some(Part {
            end: c.with_word(place, 1),
            width: width,
        })
    } else {
        None
    }
}

// The constant at the cursor.
pub fn constant_part(s: &[u8], code: &mut [u16; CODE_PLACES], c: Cursor) -> Option<Part>
    requires { Room s.now c 0 }
    ensures { Leaf (of_constant (constant_at s.now c.place)) s.now (c.place + 1) (c.words + 1) (c.pieces + 1)
        result c code.old code.new }
{
    let read = text_constants::constant_at(s, c.place)?;
    leaf_part(
        code,
        c,
        read.place,
        read.width,
        [kinds::CONSTANT, read.value, read.width, 0],
    )
}

// The register or the bit part at the cursor, where a word begins.
pub fn reference_part(field: &Field<'_>, code: &mut [u16; CODE_PLACES], c: Cursor) -> Option<Part>
    requires has_room { Room field.now.bytes.now c 0 }
    requires few_names { field.now.registers.count ≤ places }
    requires at_word { is_word (get_or field.now.bytes.now c.place 0) ≡ true }
    ensures { Leaf (of_reference (reference_at (entries field.now.text.now field.now.registers) field.now.bytes.now c.place)) field.now.bytes.now (c.place + 1)
        (c.words + 1) (c.pieces + 1) result c code.old code.new }
{
    match text_bit_parts::reference_at(field, c.place)? {
        Reference::Whole {
            register,
            width,
            place,
        } => leaf_part(code, c, place, width, [kinds::REGISTER, register, width, 0]),
        Reference::Part {
            register,
            width,
            first,
            last,
            place,
        } => {
            let size = last - first + 1;
            leaf_part(
                code,
                c,
                place,
                size,
                [kinds::PART, register, width - 1 - last, size],
            )
        }
    }
}
