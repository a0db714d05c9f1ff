// Text for a page: a draft holds what is written, and is copied to the page at the end.
#![tactic(auto)]

ghost use Rattle.std.specs.Prelude.{◌≡◌, ℕ, ◌+◌, ◌<◌, ◌≤◌, List, [], ◌∷◌, ◌++◌, length, take};
ghost use Rattle.characters.specs.Ascii.{tab, digit as Text·digit};
ghost use Rattle.page.specs.Page.{Page};
ghost use Rattle.page.specs.Text.{octal, decimal};
ghost use Rattle.page.specs.Written.{Written};

use characters::TAB;
use std::marker::Model;

// A digit below 10.
fn digit(d: u64) -> u8
    requires { d < 10 }
    ensures { result ≡ Text·digit d }
{
    48 + d as u8
}

// The last octal digits of x, one for each place.
fn write_octal(digits: &mut [u8], x: u64)
    ensures { digits.new ≡ octal (length digits.old) x }
{
    let n = digits.len();
    if n != 0 {
        digits[n - 1] = digit(x % 8);
        write_octal(&mut digits[..n - 1], x / 8);
    }
}

// x in decimal, from the first place on. Answers how many digits it has.
fn write_decimal(digits: &mut [u8], x: u64) -> usize
    requires { length (decimal x) ≤ length digits.old }
    ensures { Page (decimal x) digits.old digits.new result }
{
    let last = if x < 10 {
        0
    } else {
        write_decimal(digits, x / 10)
    };
    digits[last] = digit(x % 10);
    last + 1
}

// A draft: the text written so far, of at most N bytes.
#[derive(Drop)]
pub struct Draft<const N: usize> {
    bytes: [u8; N],
    size: usize,
}

// Clauses see the text.
impl<const N: usize> Model for Draft<N> {
    ghost Value = { List ℕ };

    ghost view = { λ d. take d.size d.bytes };

    ghost invariant = { λ d. d.size ≤ N };
}

impl<const N: usize> Draft<N> {
    // Nothing written.
    pub fn new() -> Self
        ensures { result ≡ [] }
    {
        Draft {
            bytes: [0; N],
            size: 0,
        }
    }

    // One byte more.
    pub fn put_byte(&mut self, b: u8)
        requires { length self.old < N }
        ensures { self.new ≡ self.old ++ b ∷ [] }
    {
        self.bytes[self.size] = b;
        self.size += 1;
    }

    // A text.
    pub fn put_text(&mut self, text: &[u8])
        requires { length self.old + length text.now ≤ N }
        ensures { self.new ≡ self.old ++ text.now }
    {
        let end = self.size + text.len();
        let bytes = &mut self.bytes[..];
        bytes[self.size..end].copy_from_slice(text);
        self.size = end;
    }

    // The last n octal digits of x.
    pub fn put_octal(&mut self, n: u64, x: u64)
        requires { length self.old + n ≤ N }
        ensures { self.new ≡ self.old ++ octal n x }
    {
        let end = self.size + n as usize;
        let bytes = &mut self.bytes[..];
        write_octal(&mut bytes[self.size..end], x);
        self.size = end;
    }

    // x in decimal.
    pub fn put_decimal(&mut self, x: u64)
        requires { length self.old + length (decimal x) ≤ N }
        ensures { self.new ≡ self.old ++ decimal x }
    {
        let bytes = &mut self.bytes[..];
        let size = write_decimal(&mut bytes[self.size..], x);
        self.size += size;
    }

    // TAB and the last n octal digits of x.
    pub fn put_field(&mut self, n: u64, x: u64)
        requires { length self.old + n < N }
        ensures { self.new ≡ self.old ++ tab ∷ octal n x }
    {
        self.put_byte(TAB);
        self.put_octal(n, x);
    }

    // Copies the text to the start of a page, and answers how many bytes it has.
    pub fn copy_to(&self, page: &mut [u8]) -> usize
        requires { length self.now ≤ length page.old }
        ensures { Page self.now page.old page.new result }
    {
        page[..self.size].copy_from_slice(&self.bytes[..self.size]);
        self.size
    }

    // Copies the text to a page from a place on, and answers the place after it.
    pub fn copy_at(&self, page: &mut [u8], at: usize) -> usize
        requires { at + length self.now ≤ length page.old }
        ensures { Written self.now page.old at page.new result }
    {
        let end = at + self.size;
        page[at..end].copy_from_slice(&self.bytes[..self.size]);
        end
    }
}
