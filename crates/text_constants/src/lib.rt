// Constants, read straight from the line: binary and octal ones behind their marks, and decimals.
#![tactic(auto)]

ghost use Rattle.std.specs.Prelude.{◌≡◌, Some, leb, length, ◌+◌, ◌≤◌};
ghost use Rattle.word.specs.Choice.{pick};
ghost use Rattle.text_constants.specs.Constants.{number_at, decimal_at, marked_at, shortest, constant_at, of_decimal};
ghost use Rattle.text_constants.specs.Sizes.{Sized};

use characters::Class;

// "1 to 16 binary digits", "1 to 5 octal digits", "decimal 0 to 32767", which has at most 5 digits.
const BINARY_DIGITS: usize = 16;

const OCTAL_DIGITS: usize = 5;

const DECIMAL_DIGITS: usize = 5;

const LARGEST: u64 = 32767;

// A decimal that was read, and the place after it.
#[derive(Clone, Copy)]
pub struct Number {
    pub value: u16,
    pub place: usize,
}

// A constant that was read, its width and the place after it.
#[derive(Clone, Copy)]
pub struct Constant {
    pub value: u16,
    pub width: u16,
    pub place: usize,
}

// The number that n digits from a place stand for, at most 16: a digit takes up to four of 64 bits.
pub fn digits_value(s: &[u8], at: usize, n: usize, base: u64) -> u64
    requires within_line { at + n ≤ length s.now }
    requires few_digits { n ≤ 16 }
    requires small_base { base ≤ 10 }
    ensures { result ≡ number_at base s.now at n 0 }
{
    let mut v: u64 = 0;
    for digit in &s[at..at + n] {
        v = v * base + (*digit % 16) as u64;
    }
    v
}

// The decimal at a place, if one is there.
pub fn decimal_at(s: &[u8], at: usize) -> Option<Number>
    ensures { result ≡ decimal_at s.now at }
{
    let first = *s.get(at)?;
    let end = characters::run_end(s, at, Class::Word);
    let digits = characters::run_end(s, at, Class::Decimal);
    let plain = (digits == end)
        & (end <= at + DECIMAL_DIGITS)
        & ((first != b'0') | (end == at + 1));
    if characters::is_digit(first) & plain {
        let value = digits_value(s, at, end - at, 10);
        if value <= LARGEST {
            return Some(Number {
                value: value as u16,
                place: end,
            });
        }
    }
    None
}

// How many of n digits count: all of them, or none where they are more than `most`.
fn counted(n: usize, most: usize) -> usize
    ensures { result ≡ pick (leb n most) n 0 }
{
    if n <= most { n } else { 0 }
}

// The constant whose digits begin at a place, behind its mark: 1 to `most` digits of a class, of `size` bits each.
fn marked_at(
    s: &[u8],
    at: usize,
    class: Class,
    base: u64,
    size: usize,
    most: usize,
) -> Option<Constant>
    requires { Sized class base size most }
    ensures { result ≡ marked_at class base size most s.now at }
{
    let n = counted(characters::run_end(s, at, class) - at, most);
    if n == 0 {
        return None;
    }
    Some(Constant {
        value: digits_value(s, at, n, base) as u16,
        width: (size * n) as u16,
        place: at + n,
    })
}

// The bits of a decimal's shortest form.
fn shortest_form(v: u64) -> u64
    ensures { result ≡ shortest v }
{
    for n in 1..15 {
        if word::is_narrow(n, v) {
            return n;
        }
    }
    15
}

// A decimal as a constant: one bit longer than its shortest form.
fn from_decimal(d: Number) -> Constant
    ensures { Some result ≡ of_decimal (Some d) }
{
    Constant {
        value: d.value,
        width: (shortest_form(d.value as u64) + 1) as u16,
        place: d.place,
    }
}

// The constant at a place of a line: its value, its width and the place after it, if one is there.
pub fn constant_at(s: &[u8], at: usize) -> Option<Constant>
    ensures { result ≡ constant_at s.now at }
{
    let mark = *s.get(at)?;
    if mark == b'\'' {
        return marked_at(s, at + 1, Class::Binary, 2, 1, BINARY_DIGITS);
    }
    if mark == b'#' {
        return marked_at(s, at + 1, Class::Octal, 8, 3, OCTAL_DIGITS);
    }
    Some(from_decimal(decimal_at(s, at)?))
}
