// Lines and fields, each a part of the caller's text.
#![tactic(auto)]

ghost use Rattle.std.specs.Prelude.{◌≡◌};
ghost use Rattle.text_fields.specs.Fields.{before, after, field, has_fields};

use characters::{Class, TAB};

pub mod by_line;

// What stands before the first byte b.
pub fn part_before(s: &[u8], b: u8) -> &[u8]
    ensures { result.now ≡ before b s.now }
{
    let end = characters::run_end(s, 0, Class::Other(b));
    &s[..end]
}

// What stands after the first byte b, nothing if there is none.
pub fn part_after(s: &[u8], b: u8) -> &[u8]
    ensures { result.now ≡ after b s.now }
{
    let end = characters::run_end(s, 0, Class::Other(b));
    characters::part(s, end + 1, s.len())
}

// Field n of a line, from 0.
pub fn field_of(line: &[u8], n: usize) -> &[u8]
    ensures { result.now ≡ field n line.now }
{
    let mut rest = line;
    for _ in 0..n {
        let next = part_after(rest, TAB);
        rest = next;
    }
    part_before(rest, TAB)
}

// Whether a line has exactly n fields and none is empty.
pub fn has_fields(line: &[u8], n: usize) -> bool
    ensures { result ≡ has_fields n line.now }
{
    if n == 0 {
        return false;
    }
    let mut rest = line;
    for _ in 1..n {
        let end = characters::run_end(rest, 0, Class::Other(TAB));
        if (0 < end) & (end < rest.len()) {
            let next = part_after(rest, TAB);
            rest = next;
        } else {
            return false;
        }
    }
    let end = characters::run_end(rest, 0, Class::Other(TAB));
    (0 < end) & (end == rest.len())
}
