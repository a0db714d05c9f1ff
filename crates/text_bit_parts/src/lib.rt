// Names of registers, and bit parts of them.
#![tactic(auto)]

ghost use Rattle.std.specs.Prelude.{◌≡◌, ◌≤◌, Some};
ghost use Rattle.text_names.specs.Dictionaries.{entries, places};
ghost use Rattle.text_bit_parts.specs.References.{second_bit, first_bit, span_at, part_of, register_at, reference_at};

use characters::Class;
use text_constants::Number;
use text_names::Dictionary;

// Bit numbers that were read, and the place after them.
#[derive(Clone, Copy)]
pub struct Span {
    pub first: u16,
    pub last: u16,
    pub place: usize,
}

// A register or a bit part of one, and the place after it.
#[derive(Clone, Copy)]
pub enum Reference {
    Whole {
        register: u16,
        width: u16,
        place: usize,
    },
    Part {
        register: u16,
        width: u16,
        first: u16,
        last: u16,
        place: usize,
    },
}

// Bit numbers whose second one was read.
fn second_bit(s: &[u8], first: u16, last: Number) -> Option<Span>
    ensures { result ≡ second_bit s.now first (Some last) }
{
    let end = text_tokens::skip_spaces(s, last.place);
    if characters::byte(s, end) == b'>' {
        Some(Span {
            first: first,
            last: last.value,
            place: end + 1,
        })
    } else {
        None
    }
}

// Bit numbers whose first one was read.
fn first_bit(s: &[u8], first: Number) -> Option<Span>
    ensures { result ≡ first_bit s.now (Some first) }
{
    let end = text_tokens::skip_spaces(s, first.place);
    let mark = characters::byte(s, end);
    if mark == b'>' {
        return Some(Span {
            first: first.value,
            last: first.value,
            place: end + 1,
        });
    }
    if mark == b':' {
        let last = text_constants::decimal_at(s, text_tokens::skip_spaces(s, end + 1))?;
        return second_bit(s, first.value, last);
    }
    None
}

// The bit numbers from the place after `<` on.
fn span_at(s: &[u8], at: usize) -> Option<Span>
    ensures { result ≡ span_at s.now at }
{
    let first = text_constants::decimal_at(s, text_tokens::skip_spaces(s, at))?;
    first_bit(s, first)
}

// The bit part of a register, if its bit numbers are in order and below the width.
fn part_of(register: u16, width: u16, span: Span) -> Option<Reference>
    ensures { result ≡ part_of register width (Some span) }
{
    let Span { first, last, place } = span;
    if (first <= last) & (last < width) {
        Some(Reference::Part {
            register: register,
            width: width,
            first: first,
            last: last,
            place: place,
        })
    } else {
        None
    }
}

// The register whose name ends at a place, or a bit part of it.
fn register_at(s: &[u8], register: u16, width: u16, end: usize) -> Option<Reference>
    ensures { result ≡ register_at s.now register width end }
{
    let mark = text_tokens::skip_spaces(s, end);
    if characters::byte(s, mark) == b'<' {
        let span = span_at(s, mark + 1)?;
        part_of(register, width, span)
    } else {
        Some(Reference::Whole {
            register: register,
            width: width,
            place: end,
        })
    }
}

// A field of a line, and the registers that it may name, whose names stand in a text.
#[derive(Clone, Copy)]
pub struct Field<'a> {
    pub text: &'a [u8],
    pub registers: Dictionary,
    pub bytes: &'a [u8],
}

// The register, or the bit part of one, that is named at a place.
pub fn reference_at(field: &Field<'_>, at: usize) -> Option<Reference>
    requires { field.now.registers.count ≤ places }
    ensures { result ≡ reference_at (entries field.now.text.now field.now.registers) field.now.bytes.now at }
{
    let s = field.bytes;
    let d = field.registers;
    let end = characters::run_end(s, at, Class::Word);
    let register = text_names::place_of(field.text, d, characters::part(s, at, end - at))?;
    register_at(s, register as u16, text_names::number_of(d, register), end)
}
