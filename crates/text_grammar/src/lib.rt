// The grammar by strengths: level, operation, operand and bracketed part call each other while the unread length falls.
#![tactic(auto)]

ghost use Rattle.std.specs.Prelude.{◌≡◌, true, ◌+◌, ◌-◌, ◌≤◌, ◌<◌, get_or};
ghost use Rattle.characters.specs.Characters.{is_letter};
ghost use Rattle.word.specs.Word.{widest};
ghost use Rattle.text_names.specs.Dictionaries.{entries, places};
ghost use Rattle.text_operators.specs.Operators.{strongest, entry_in};
ghost use Rattle.text_tokens.specs.Tokens.{operator_at};
ghost use Rattle.text_code.specs.Readings.{read};
ghost use Rattle.text_grammar.specs.Grammar.{level, more, operation, operand, worded, negated, enclosed};
ghost use Rattle.text_code.specs.Met.{Room, Behind};
ghost use Rattle.text_grammar.specs.Met.{Branch, calls};

use characters::Class;
use text_bit_parts::Field;
use text_code::{CODE_PLACES, Cursor, Part, compounds, leaves};
use text_operators::{NOT, OR, SLR};

// "Open brackets, parentheses and Nots nest to 8."
const DEEPEST: usize = 8;

// An expression of a strength, from the cursor on.
#[cycle(grammar)]
pub fn read_level(
    field: &Field<'_>,
    code: &mut [u16; CODE_PLACES],
    depth: usize,
    strength: u8,
    c: Cursor,
) -> Option<Part>
    requires { (Room field.now.bytes.now c 0) × ((field.now.registers.count ≤ places) × ((1 ≤ strength) × (strength ≤ strongest))) }
    ensures { Branch (calls field.now.bytes.now c.place (9 - strength))
        (λ f. level f (entries field.now.text.now field.now.registers) field.now.bytes.now depth strength c.place)
        field.now.bytes.now (c.place + 1) (c.words + 1) (c.pieces + 1) result c code.old code.new }
{
    let strongest = text_operators::entry_in(NOT).strength;
    if strength == strongest {
        return read_operand(field, code, depth, c);
    }
    let left = read_level(field, code, depth, strength + 1, c)?;
    read_more(field, code, depth, strength, left)
}

// The operators of a strength behind a left side, with their right sides.
#[cycle(grammar)]
fn read_more(
    field: &Field<'_>,
    code: &mut [u16; CODE_PLACES],
    depth: usize,
    strength: u8,
    left: Part,
) -> Option<Part>
    requires { (Room field.now.bytes.now left.end 0) × ((field.now.registers.count ≤ places) × ((1 ≤ strength) × ((strength < strongest) × (left.width ≤ widest)))) }
    ensures { Behind (calls field.now.bytes.now left.end.place 9)
        (λ f l p. more f (entries field.now.text.now field.now.registers) field.now.bytes.now depth strength (read l p))
        field.now.bytes.now left.end.place left.end.words left.end.pieces left result code.old code.new }
{
    let entry = text_operators::entry_in(text_tokens::operator_at(field.bytes, left.end.place));
    if entry.strength != strength {
        return Some(left);
    }
    let next = read_operation(field, code, depth, strength, left)?;
    read_more(field, code, depth, strength, next)
}

// The one operator behind a left side, with its right side.
#[cycle(grammar)]
fn read_operation(
    field: &Field<'_>,
    code: &mut [u16; CODE_PLACES],
    depth: usize,
    strength: u8,
    left: Part,
) -> Option<Part>
    requires { (Room field.now.bytes.now left.end 0) × ((field.now.registers.count ≤ places) × (((1 ≤ strength) × (strength < strongest)) × ((left.width ≤ widest) × ((entry_in (operator_at field.now.bytes.now left.end.place)).strength ≡ strength)))) }
    ensures { Behind (calls field.now.bytes.now left.end.place 8)
        (λ f l p. operation f (entries field.now.text.now field.now.registers) field.now.bytes.now depth strength l p)
        field.now.bytes.now (left.end.place + 1) (left.end.words + 1) (left.end.pieces + 1) left result code.old code.new }
{
    let row = text_tokens::operator_at(field.bytes, left.end.place);
    let end = text_tokens::operator_end(field.bytes, left.end.place);
    let rotations = text_operators::entry_in(SLR).strength;
    if strength == rotations {
        return compounds::rotated_part(field.bytes, code, row, left, end);
    }
    let start = left.end.at(end);
    let right = read_level(field, code, depth, strength + 1, start)?;
    compounds::joined_part(code, row, left, right)
}

// The operand at the cursor.
#[cycle(grammar)]
fn read_operand(
    field: &Field<'_>,
    code: &mut [u16; CODE_PLACES],
    depth: usize,
    c: Cursor,
) -> Option<Part>
    requires { (Room field.now.bytes.now c 0) × (field.now.registers.count ≤ places) }
    ensures { Branch (calls field.now.bytes.now c.place 1)
        (λ f. operand f (entries field.now.text.now field.now.registers) field.now.bytes.now depth c.place)
        field.now.bytes.now (c.place + 1) (c.words + 1) (c.pieces + 1) result c code.old code.new }
{
    let start = text_tokens::skip_spaces(field.bytes, c.place);
    let first = characters::byte(field.bytes, start);
    if first == b'(' {
        let inner = c.at(start + 1);
        return read_enclosed(field, code, depth, b')', inner);
    }
    let here = c.at(start);
    if characters::is_letter(first) {
        read_worded(field, code, depth, here)
    } else {
        leaves::constant_part(field.bytes, code, here)
    }
}

// The operand that begins with a letter, at the cursor.
#[cycle(grammar)]
fn read_worded(
    field: &Field<'_>,
    code: &mut [u16; CODE_PLACES],
    depth: usize,
    c: Cursor,
) -> Option<Part>
    requires { (Room field.now.bytes.now c 0) × ((field.now.registers.count ≤ places) × (is_letter (get_or field.now.bytes.now c.place 0) ≡ true)) }
    ensures { Branch (calls field.now.bytes.now c.place 0)
        (λ f. worded f (entries field.now.text.now field.now.registers) field.now.bytes.now depth c.place)
        field.now.bytes.now (c.place + 1) (c.words + 1) (c.pieces + 1) result c code.old code.new }
{
    let start = c.place;
    let end = characters::run_end(field.bytes, start, Class::Word);
    let token = characters::part(field.bytes, start, end - start);
    if characters::is_same(token, b"Not") {
        let operand = c.at(end);
        return read_negated(field, code, depth, operand);
    }
    if characters::is_same(token, b"M") {
        let open = text_tokens::skip_spaces(field.bytes, end);
        if characters::byte(field.bytes, open) != b'[' {
            return None;
        }
        let address = c.at(open + 1);
        return read_enclosed(field, code, depth, b']', address);
    }
    leaves::reference_part(field, code, c)
}

// What a Not stands before.
#[cycle(grammar)]
fn read_negated(
    field: &Field<'_>,
    code: &mut [u16; CODE_PLACES],
    depth: usize,
    c: Cursor,
) -> Option<Part>
    requires { (Room field.now.bytes.now c 1) × (field.now.registers.count ≤ places) }
    ensures { Branch (calls field.now.bytes.now c.place 3)
        (λ f. negated f (entries field.now.text.now field.now.registers) field.now.bytes.now depth c.place)
        field.now.bytes.now (c.place + 1) (c.words + 2) (c.pieces + 2) result c code.old code.new }
{
    if depth < DEEPEST {
        let own = text_operators::entry_in(NOT).strength;
        let operand = read_level(field, code, depth + 1, own, c)?;
        Some(compounds::complemented_part(code, operand))
    } else {
        None
    }
}

// The bracketed part behind an open bracket.
#[cycle(grammar)]
fn read_enclosed(
    field: &Field<'_>,
    code: &mut [u16; CODE_PLACES],
    depth: usize,
    close: u8,
    c: Cursor,
) -> Option<Part>
    requires { (Room field.now.bytes.now c 1) × ((field.now.registers.count ≤ places) × (0 < close)) }
    ensures { Branch (calls field.now.bytes.now c.place 9)
        (λ f. enclosed f (entries field.now.text.now field.now.registers) field.now.bytes.now depth close c.place)
        field.now.bytes.now (c.place + 1) (c.words + 2) (c.pieces + 2) result c code.old code.new }
{
    if depth < DEEPEST {
        let weakest = text_operators::entry_in(OR).strength;
        let inner = read_level(field, code, depth + 1, weakest, c)?;
        compounds::closed_part(field.bytes, code, inner, close)
    } else {
        None
    }
}
