// Characters, runs of characters of one class, byte strings, and tables of registers.
#![tactic(auto)]

pub mod registers;

ghost use Rattle.std.specs.Prelude.{◌≡◌, length, get_or, take, drop, ◌+◌};
ghost use Rattle.std.specs.List.{take_while};
ghost use Rattle.characters.specs.Characters.{is_digit, is_letter, belongs, run_end, same};

pub const TAB: u8 = b'\t';

pub const LINE_FEED: u8 = b'\n';

// What a run consists of.
#[derive(Clone, Copy, PartialEq, Eq)]
pub enum Class {
    Space,
    // "letters, digits or dots"
    Word,
    Binary,
    Octal,
    Decimal,
    // what a line may hold: 32 to 126, or TAB
    Printable,
    // any byte but this one
    Other(u8),
}

pub fn is_digit(b: u8) -> bool
    ensures { result ≡ is_digit b }
{
    b.is_ascii_digit()
}

pub fn is_letter(b: u8) -> bool
    ensures { result ≡ is_letter b }
{
    b.is_ascii_alphabetic()
}

// Whether the byte is of the class.
pub fn is_of(class: Class, b: u8) -> bool
    ensures { result ≡ belongs class b }
{
    match class {
        Class::Space => b == b' ',
        Class::Word => is_letter(b) | is_digit(b) | (b == b'.'),
        Class::Binary => (b'0' <= b) & (b <= b'1'),
        Class::Octal => (b'0' <= b) & (b <= b'7'),
        Class::Decimal => is_digit(b),
        Class::Printable => ((32 <= b) & (b <= 126)) | (b == TAB),
        Class::Other(x) => b != x,
    }
}

// The byte at a place, 0 past the end.
pub fn byte(s: &[u8], at: usize) -> u8
    ensures { result ≡ get_or s.now at 0 }
{
    s.get(at).copied().unwrap_or(0)
}

// What stands from a place on, nothing past the end.
fn rest(s: &[u8], at: usize) -> &[u8]
    ensures { result.now ≡ drop at s.now }
{
    &s[at.min(s.len())..]
}

// How many bytes of a class a text begins with.
fn run(class: Class, s: &[u8]) -> usize
    ensures { result ≡ length (take_while (belongs class) s.now) }
{
    s.iter().take_while(|b| is_of(class, **b)).count()
}

// The place after the run of a class that starts at a place.
pub fn run_end(s: &[u8], at: usize, class: Class) -> usize
    ensures { result ≡ run_end class s.now at }
{
    at + run(class, rest(s, at))
}

// Whether two byte strings are the same.
pub fn is_same(a: &[u8], b: &[u8]) -> bool
    ensures { result ≡ same a.now b.now }
{
    a == b
}

// n bytes from a place, or as many as there are.
pub fn part(s: &[u8], at: usize, n: usize) -> &[u8]
    ensures { result.now ≡ take n (drop at s.now) }
{
    let rest = rest(s, at);
    &rest[..n.min(rest.len())]
}
