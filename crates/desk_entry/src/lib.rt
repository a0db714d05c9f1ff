// What a line says: a word of the memory, a register, the budget, the input, or nothing that is known.
#![tactic(auto)]

ghost use Rattle.std.specs.Prelude.{true, ◌≡◌, ◌+◌, ◌*◌, ◌≤◌, ◌<◌, eqb, length, get_or, take};
ghost use Rattle.desk_registers.specs.Registers.{desk_registers, desk_widths};
ghost use Rattle.desk_entry.specs.Octets.{space, octet_at, is_octet, are_octets, octets, Bytes};
ghost use Rattle.desk_entry.specs.Lines.{word_entry, register_entry, budget_entry, input_entry, said, entry};

use characters::Class;
use machine_state::registers;
use state::BUDGET_LIMIT;

// No fit line has more bytes.
pub const LINE_BYTES: usize = 261;

// The most bytes of the input.
pub const INPUT_BYTES: usize = 64;

const BUDGET_DIGITS: usize = 7;

const BYTE_BITS: u64 = 8;

const SPACE: u8 = 32;

// What a fit line says.
#[derive(Clone, Copy)]
pub enum Entry {
    // address, word
    Word(usize, u16),
    // the register's place in their order, its value
    Register(usize, u16),
    Budget(u64),
    // how many bytes stand in the second field
    Input(usize),
}

// A line with a word of the memory.
fn word_entry(address: &[u8], word: &[u8]) -> Option<Entry>
    ensures { result ≡ word_entry address.now word.now }
{
    if desk_image::is_digits(Class::Octal, 4, address)
        & desk_image::is_digits(Class::Octal, 4, word)
    {
        let place = text_constants::digits_value(address, 0, 4, 8);
        let value = text_constants::digits_value(word, 0, 4, 8);
        Some(Entry::Word(place as usize, value as u16))
    } else {
        None
    }
}

// A line with a register.
fn register_entry(place: usize, value: &[u8]) -> Option<Entry>
    requires { place < length desk_registers }
    ensures { result ≡ register_entry place (get_or desk_widths place 0) value.now }
{
    let register = desk_registers::register_at(place);
    let width = register.width;
    let n = registers::digits_of(width);
    if desk_image::is_digits(Class::Octal, n, value) {
        let v = text_constants::digits_value(value, 0, n, 8);
        if word::is_narrow(width, v) {
            return Some(Entry::Register(place, v as u16));
        }
    }
    None
}

// A line with the budget.
fn budget_entry(value: &[u8]) -> Option<Entry>
    ensures { result ≡ budget_entry value.now }
{
    let n = value.len();
    if (0 < n) & (n <= BUDGET_DIGITS) & desk_image::is_digits(Class::Decimal, n, value) {
        let steps = text_constants::digits_value(value, 0, n, 10);
        if steps <= BUDGET_LIMIT {
            return Some(Entry::Budget(steps));
        }
    }
    None
}

// Whether a space stands at a place, or nothing any more.
fn is_parted(value: &[u8], at: usize) -> bool
    ensures { result ≡ eqb (get_or value.now at space) space }
{
    match value.get(at) {
        Some(b) => *b == SPACE,
        None => true,
    }
}

// Whether a byte stands at a place, with a space or nothing behind it.
fn is_octet(value: &[u8], at: usize) -> bool
    requires { at + 3 ≤ length value.now }
    ensures { result ≡ is_octet value.now at }
{
    let end = characters::run_end(value, at, Class::Octal);
    let v = text_constants::digits_value(value, at, 3, 8);
    (end == at + 3) & word::is_narrow(BYTE_BITS, v) & is_parted(value, at + 3)
}

// Whether the first n bytes of a field are bytes.
fn are_octets(value: &[u8], n: usize) -> bool
    requires { 4 * n ≤ length value.now + 1 }
    ensures { result ≡ are_octets value.now n }
{
    let mut fit = true;
    for k in 0..n {
        fit &= is_octet(value, 4 * k);
    }
    fit
}

// A line with the input.
fn input_entry(value: &[u8]) -> Option<Entry>
    ensures { result ≡ input_entry value.now }
{
    let n = (value.len() + 1) / 4;
    if (4 * n == value.len() + 1) & (n <= INPUT_BYTES) {
        if are_octets(value, n) {
            return Some(Entry::Input(n));
        }
    }
    None
}

// A line of two fields, by its first.
fn two_fields(name: &[u8], value: &[u8]) -> Option<Entry>
    ensures { result ≡ said name.now value.now }
{
    if characters::is_same(name, b"budget") {
        return budget_entry(value);
    }
    if characters::is_same(name, b"input") {
        return input_entry(value);
    }
    match desk_registers::place_of(name) {
        Some(place) => register_entry(place, value),
        None => word_entry(name, value),
    }
}

// What a line says, its LF aside.
pub fn entry_of(line: &[u8]) -> Option<Entry>
    ensures { result ≡ entry line.now }
{
    if text_fields::has_fields(line, 2) {
        two_fields(
            text_fields::field_of(line, 0),
            text_fields::field_of(line, 1),
        )
    } else {
        None
    }
}

// The byte at a place of a field.
fn octet_at(value: &[u8], at: usize) -> u8
    requires whole { at + 3 ≤ length value.now }
    requires octet { is_octet value.now at ≡ true }
    ensures { result ≡ octet_at value.now at }
{
    text_constants::digits_value(value, at, 3, 8) as u8
}

// The n bytes of a field, at the front of their places.
pub fn bytes_of(value: &[u8], n: usize) -> [u8; INPUT_BYTES]
    requires { Bytes value.now n }
    ensures { take n result ≡ octets value.now n }
{
    let mut bytes = [0u8; INPUT_BYTES];
    for k in 0..n {
        bytes[k] = octet_at(value, 4 * k);
    }
    bytes
}
