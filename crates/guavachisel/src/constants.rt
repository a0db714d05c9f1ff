// Constants for C callers: guavachisel_read_constant of include/guavachisel.h.
ghost use Rattle.std.specs.Prelude.{◌≡◌, ◌≤◌};
ghost use Rattle.word.specs.Word.{widest};
ghost use Rattle.text_constants.specs.Constants.{constant_at};
ghost use Rattle.text_constants.specs.Sizes.{Narrow};
ghost use Rattle.guavachisel.specs.Constants.{all_places, places as places_of};

use text_constants::Constant;

// The numbers that a caller's constant has places for.
pub const CONSTANT_PLACES: usize = 5;

// A 1 for each place of a constant of that width.
fn all_places(width: u16) -> u64
    requires { width ≤ widest }
    ensures { result ≡ all_places width }
{
    (1 << width as u64) - 1
}

// What was read, in its places.
fn places(c: Option<Constant>) -> [u64; CONSTANT_PLACES]
    requires { Narrow c }
    ensures { result ≡ places_of c }
{
    match c {
        Some(read) => [
            1,
            read.value as u64,
            all_places(read.width),
            read.width as u64,
            read.place as u64,
        ],
        None => [0; CONSTANT_PLACES],
    }
}

// Reads the constant at a place of a caller's line.
#[unsafe(no_mangle)]
pub extern "C" fn guavachisel_read_constant(
    line: &[u8],
    start: u64,
    constant: &mut [u64; CONSTANT_PLACES],
)
    ensures { constant.new ≡ places_of (constant_at line.now start) }
{
    *constant = places(text_constants::constant_at(line, start as usize));
}
