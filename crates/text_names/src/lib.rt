// Names, and dictionaries of names that stand in a text.
#![tactic(auto)]

ghost use Rattle.std.specs.Prelude.{◌≡◌, get_or, ◌+◌, ◌<◌};
ghost use Rattle.characters.specs.Named.{found};
ghost use Rattle.text_names.specs.Dictionaries.{places, nothing, number_at, entries, none, Added};
ghost use Rattle.text_names.specs.Names.{is_name};

use characters::Class;

// "1 to 20 letters, digits or dots"
const LONGEST_NAME: usize = 20;

// How many names a dictionary can hold.
pub const PLACES: usize = 32;

// A name in a text: where it starts, how many bytes it has, and a number kept with it.
#[derive(Clone, Copy)]
pub struct NamedPlace {
    pub start: u16,
    pub length: u16,
    pub number: u16,
}

// What stands where no name is.
const NOTHING: NamedPlace = NamedPlace {
    start: 0,
    length: 0,
    number: 0,
};

// Names in a text: so many first ones of the places.
#[derive(Clone, Copy)]
pub struct Dictionary {
    pub count: usize,
    pub names: [NamedPlace; PLACES],
}

// Whether a byte string is a name.
pub fn is_name(s: &[u8]) -> bool
    ensures { result ≡ is_name s.now }
{
    let end = characters::run_end(s, 0, Class::Word);
    characters::is_letter(characters::byte(s, 0)) & (end == s.len()) & (s.len() <= LONGEST_NAME)
}

// A dictionary without names.
pub fn empty() -> Dictionary
    ensures { result ≡ none }
{
    Dictionary {
        count: 0,
        names: [NOTHING; PLACES],
    }
}

// The dictionary with one name more, that of so many bytes at a start in the text.
pub fn with_name(d: Dictionary, start: u16, length: u16, number: u16) -> Dictionary
    requires { d.count < places }
    ensures { Added d start length number result }
{
    let mut r = d;
    r.names[d.count] = NamedPlace {
        start,
        length,
        number,
    };
    r.count = d.count + 1;
    r
}

// Entry i of a dictionary, nothing past its places.
fn entry(d: &Dictionary, i: usize) -> NamedPlace
    ensures { result ≡ get_or d.now.names i nothing }
{
    d.names.get(i).copied().unwrap_or(NOTHING)
}

// The number kept with entry i of a dictionary.
pub fn number_of(d: Dictionary, i: usize) -> u16
    ensures { result ≡ number_at d i }
{
    entry(&d, i).number
}

// The place of a name in a dictionary.
pub fn place_of(text: &[u8], d: Dictionary, name: &[u8]) -> Option<usize>
    ensures { result ≡ found name.now (entries text.now d) }
{
    for i in 0..d.count {
        let it = entry(&d, i);
        let found = characters::part(text, it.start as usize, it.length as usize);
        if characters::is_same(found, name) {
            return Some(i);
        }
    }
    None
}
