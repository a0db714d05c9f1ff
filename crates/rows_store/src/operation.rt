// The operators, as the stored words of an expression have them: by number, over values of 16 bits.
ghost use Rattle.std.specs.Prelude.{◌≡◌, ◌%◌, ◌<◌};
ghost use Rattle.word.specs.Word.{swapped};
ghost use Rattle.rows_store.specs.Shifts.{cut};
ghost use Rattle.rows_store.specs.Operation.{complement_of, rotated_by, combined, operated};

use crate::shifts::{joined_to, power_of};
use text_code::kinds;

// Not, over a bits.
fn complement_of(a: u16, x: u16) -> u16
    ensures { result ≡ complement_of a x }
{
    let p = power_of(a);
    ((p - 1 - x as u32 % p) % 65536) as u16
}

// The p bits at the right end and the q bits before them, changing places.
fn exchanged(p: u16, q: u16, x: u16) -> u16
    requires right_end { p < 32 }
    requires before_it { q < 32 }
    ensures { result ≡ cut (swapped p q x) }
{
    let seam = power_of(p);
    ((((x as u32 % seam) as u64) * power_of(q) as u64 + (x as u32 / seam) as u64) % 65536) as u16
}

// b modulo w; most are below it, and a division is slow.
fn places(b: u16, w: u16) -> u16
    requires { 0 < w }
    ensures { result ≡ b % w }
{
    if b < w { b } else { b % w }
}

// Slr or Srr of w bits, by b places.
fn rotated_by(kind: u16, w: u16, b: u16, x: u16) -> u16
    requires { w < 32 }
    ensures { result ≡ rotated_by kind w b x }
{
    if w == 0 {
        return x;
    }
    let n = places(b, w);
    if kind == kinds::LEFT {
        exchanged(w - n, n, x)
    } else {
        exchanged(n, w - n, x)
    }
}

// The operators with two sides but @. Their kinds stay the numbers that a row's plan holds: an enum would have to be made of one at each row.
fn combine(kind: u16, x: u16, y: u16) -> u16
    ensures { result ≡ combined kind x y }
{
    match kind {
        kinds::SUM => ((x as u32 + y as u32) % 65536) as u16,
        kinds::EQUAL => u16::from(x == y),
        kinds::UNEQUAL => u16::from(x != y),
        kinds::LESS => u16::from(x < y),
        kinds::AND => x & y,
        _ => x | y,
    }
}

// An operator's value, of its sides or its one side.
pub fn operate(kind: u16, a: u16, b: u16, x: u16, y: u16) -> u16
    ensures { result ≡ operated kind a b x y }
{
    if kind == kinds::NOT {
        return complement_of(a, x);
    }
    if kind == kinds::JOIN {
        return joined_to(b, x, y);
    }
    if kind < kinds::SUM {
        rotated_by(kind, a % 32, b, x)
    } else {
        combine(kind, x, y)
    }
}
