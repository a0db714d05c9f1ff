// An image, read byte by byte: lines of four-digit octal address, TAB, four-digit octal word. The words are stored as they come.
#![tactic(auto)]

pub mod scan;

ghost use Rattle.std.specs.Prelude.{◌≡◌, ℕ, true, List, [], refl};
ghost use Rattle.std.proofs.Common.{rules};
ghost use Rattle.desk_image.specs.Input.{is_digits, is_octal_word, octal_word, is_word_line, stored};
ghost use Rattle.desk_image.specs.Pass.{Passed};
ghost use Rattle.desk_image.specs.Read.{AfterRead};
ghost use Rattle.desk_image.specs.Scan.{words, kept, scan_byte, begun, scan_of, unfit_line};

use characters::Class;
use scan::Lines;
use state::MEMORY_WORDS;
use std::io;

// No fit line has more bytes.
const LINE_BYTES: usize = 9;

// The words of an image: all that its lines make is the memory.
#[derive(Clone, Copy)]
pub struct Words;

// The place in an image.
pub type Scanner = scan::Scanner<Words, LINE_BYTES>;

// Whether a field is n digits of a class.
pub fn is_digits(class: Class, n: usize, field: &[u8]) -> bool
    ensures { result ≡ is_digits class n field.now }
{
    (field.len() == n) & (characters::run_end(field, 0, class) == n)
}

// Whether a line is an address and a word.
fn is_word_line(line: &[u8]) -> bool
    ensures { result ≡ is_word_line line.now }
{
    let address = is_digits(Class::Octal, 4, text_fields::field_of(line, 0));
    let word = is_digits(Class::Octal, 4, text_fields::field_of(line, 1));
    text_fields::has_fields(line, 2) & address & word
}

// The number that four octal digits stand for.
fn octal_word(field: &[u8]) -> u16
    requires { is_octal_word field.now ≡ true }
    ensures { result ≡ octal_word field.now }
{
    text_constants::digits_value(field, 0, 4, 8) as u16
}

// The word of a line, at its address.
fn store(memory: &mut [u16; MEMORY_WORDS], line: &[u8])
    requires { is_word_line line.now ≡ true }
    ensures { memory.new ≡ stored line.now memory.old }
{
    let address = octal_word(text_fields::field_of(line, 0)) as usize;
    let word = octal_word(text_fields::field_of(line, 1));
    memory[address] = word;
}

impl Lines<LINE_BYTES> for Words {
    ghost Made = { List ℕ };

    ghost reading = { words };

    ghost made = { λ w memory. memory };

    fn enter(&mut self, memory: &mut [u16; MEMORY_WORDS], line: &[u8]) -> bool {
        let fit = is_word_line(line);
        if fit {
            store(memory, line);
        }
        fit
    }

    ghost most = { refl };

    ghost some = { Prim.search rules };
}

// A cleared memory, and the scanner of an empty text.
#[tactic(auto, unfolding(crate::specs::Pass::pass))]
pub fn begin(memory: &mut [u16; MEMORY_WORDS]) -> Scanner
    ensures { kept result memory.new ≡ scan_of words [] }
{
    Scanner::begin(memory, Words)
}

// The scanner and the memory after the bytes of a chunk: those of a text that goes on with it.
pub fn scanned(memory: &mut [u16; MEMORY_WORDS], s: Scanner, chunk: &[u8]) -> Scanner
    ensures { Passed (scan_byte words) (begun words) (kept s memory.old) chunk.now (kept result memory.new) }
{
    let mut next = s;
    next.scan(memory, chunk);
    next
}

// The scanner and the memory after a read that left the buffer as it is: after the bytes that were read, and no others. Answers as the read did.
pub fn after_read(
    memory: &mut [u16; MEMORY_WORDS],
    s: &mut Scanner,
    read: io::Result<usize>,
    buffer: &[u8],
) -> io::Result<usize>
    ensures { AfterRead (scan_byte words) (begun words) (kept s.old memory.old) read buffer.now (kept s.new memory.new) result }
{
    s.after_read(memory, read, buffer)
}

// The number of the first unfit line of a text that ends here: a line that has begun lacks its LF.
pub fn unfit_line(s: Scanner) -> Option<u64>
    ensures { result ≡ unfit_line (kept s []) }
{
    s.unfit_line()
}
