// The lines of a text, one by one.
ghost use Rattle.std.specs.Prelude.{◌≡◌, length};
ghost use Rattle.std.specs.Iterator.{at_most};
ghost use Rattle.characters.specs.Ascii.{line_feed};
ghost use Rattle.text_fields.specs.Fields.{before, after};
ghost use Rattle.text_fields.specs.Steps.{Steps};

use crate::part_before;
use characters::LINE_FEED;

// A line of a text, its LF aside, whether it has one, the text below it, and the text from its first byte on.
#[derive(Clone, Copy)]
pub struct Line<'a> {
    pub bytes: &'a [u8],
    pub ended: bool,
    pub below: &'a [u8],
    pub rest: &'a [u8],
}

// The lines that are left of a text, from its top.
#[derive(Drop)]
pub struct Lines<'a> {
    pub rest: &'a [u8],
}

// The lines of a text.
pub fn lines_of(text: &[u8]) -> Lines<'_>
    ensures { result.rest.now ≡ text.now }
{
    Lines { rest: text }
}

// What stands before the first LF, and what stands after it: its place is looked for once.
fn cut(text: &[u8]) -> (&[u8], &[u8])
    ensures line { result.0.now ≡ before line_feed text.now }
    ensures below { result.1.now ≡ after line_feed text.now }
{
    let line = part_before(text, LINE_FEED);
    (line, characters::part(text, line.len() + 1, text.len()))
}

impl<'a> Iterator for Lines<'a> {
    type Item = Line<'a>;

    ghost next_gives = { Steps };

    ghost remaining = { λ s. at_most (length s.rest.now) };

    fn next(&mut self) -> Option<Line<'a>> {
        if self.rest.len() == 0 {
            return None;
        }
        let rest = self.rest;
        let (bytes, below) = cut(rest);
        self.rest = below;
        Some(Line {
            bytes: bytes,
            ended: bytes.len() < rest.len(),
            below: below,
            rest: rest,
        })
    }
}
