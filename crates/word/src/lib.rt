// Words of 1 to 16 bits, held in u64 numbers.
#![tactic(auto)]

ghost use Rattle.std.specs.Prelude.{◌≡◌, ◌^◌, ◌≤◌};
ghost use Rattle.word.specs.Choice.{pick};
ghost use Rattle.word.specs.Word.{widest, fits, next};

// The number of a word's values.
pub const WORD_VALUES: u64 = 4096;

// The place value of the bit that has n bits on its right.
fn power(n: u64) -> u64
    requires { n ≤ widest }
    ensures { result ≡ 2 ^ n }
{
    1 << n
}

// Whether x has at most w bits.
pub fn is_narrow(w: u64, x: u64) -> bool
    requires { w ≤ widest }
    ensures { result ≡ fits w x }
{
    x < power(w)
}

// The first value where the test holds, else the second.
pub fn pick<T: Copy>(test: bool, a: T, b: T) -> T
    ensures { result ≡ pick test a b }
{
    if test { a } else { b }
}

// The word after x, modulo 4,096: the one increment of words and of PC.
pub fn increment(x: u64) -> u64
    ensures { result ≡ next x }
{
    std::num::wrapping_add_u16((x % WORD_VALUES) as u16, 1) as u64 % WORD_VALUES
}
