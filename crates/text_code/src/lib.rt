// The table of words that stand for an expression, and how far reading has come.
#![tactic(auto)]

pub mod compounds;
pub mod kinds;
pub mod leaves;
pub mod row_table;

ghost use Rattle.std.specs.Prelude.{◌≡◌, ◌+◌, ◌*◌, ◌≤◌, ◌<◌};
ghost use Rattle.std.proofs.lemmas.List.Edits.{sets};
ghost use Rattle.text_code.specs.Met.{capacity};

use text_limits::{ALL_PIECES, LONGEST_LINE};

// The places of the table of words: four for each of 1,024 pieces, and for each byte of a line of 200.
pub const CODE_PLACES: usize = 4 * (ALL_PIECES + LONGEST_LINE);

// "No width may pass 16"
pub const WIDEST: u16 = 16;

// Where reading stands: the place in the field, and the words and pieces so far.
#[derive(Clone, Copy)]
pub struct Cursor {
    pub place: usize,
    pub words: usize,
    pub pieces: usize,
}

impl Cursor {
    // The cursor at another place, with as many words and pieces.
    pub fn at(self, place: usize) -> Cursor
        ensures { result ≡ record { place = place; words = self.words; pieces = self.pieces } }
    {
        Cursor {
            place: place,
            words: self.words,
            pieces: self.pieces,
        }
    }

    // The cursor at another place, with one word more, which counts so many pieces.
    pub fn with_word(self, place: usize, pieces: usize) -> Cursor
        requires words_fit { self.words ≤ capacity }
        requires pieces_fit { self.pieces ≤ capacity }
        requires few_pieces { pieces ≤ 2 }
        ensures { result ≡ record { place = place; words = self.words + 1; pieces = self.pieces + pieces } }
    {
        Cursor {
            place: place,
            words: self.words + 1,
            pieces: self.pieces + pieces,
        }
    }
}

// A part of an expression that was read: the cursor behind it, and its width.
#[derive(Clone, Copy)]
pub struct Part {
    pub end: Cursor,
    pub width: u16,
}

// Puts a word into the table: its kind and three numbers.
fn emit(code: &mut [u16; CODE_PLACES], words: usize, word: [u16; 4])
    requires { words < capacity }
    ensures { code.new ≡ sets code.old (4 * words) word }
{
    let at = 4 * words;
    code[at] = word[0];
    code[at + 1] = word[1];
    code[at + 2] = word[2];
    code[at + 3] = word[3];
}
