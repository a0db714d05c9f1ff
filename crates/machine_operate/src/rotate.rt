// The increase and the rotations of the first group: the bits that leave LAC at one end come back at the other.
ghost use Rattle.std.specs.Prelude.{◌≡◌, ℕ, ◌+◌, ◌*◌, ◌/◌, ◌%◌, ◌^◌, ◌<◌};
ghost use Rattle.machine_state.specs.State.{lac_bits};
ghost use Rattle.machine_operate.specs.Operate.{increased, rotated};

use machine_state::LAC_VALUES;

const IAC: u64 = 0o1;

const TWICE: u64 = 0o2;

// What LAC is multiplied by for the rotation to the left that bits 8 to 10 ask for, by the number that they make: RAL, RTL, RAR (12 places) or
// RTR (11). A rotation both ways, or none, leaves LAC as it is.
fn factor(i: u64) -> u64
    ensures fits { ((x : ℕ) → x < 2 ^ lac_bits → x * result < 2 ^ 26) }
    ensures rotates { ((x : ℕ) → x < 2 ^ lac_bits → x * result % 2 ^ lac_bits + x * result / 2 ^ lac_bits ≡ rotated i x) }
{
    match i / TWICE % 8 {
        2 => 2,
        3 => 4,
        4 => 4096,
        5 => 2048,
        _ => 1,
    }
}

// Bit 11 adds 1 to LAC, then it is rotated.
pub fn increase_and_rotate(i: u64, lac: u64) -> u64
    requires { lac < 2 ^ lac_bits }
    ensures { result ≡ rotated i (increased i lac) }
{
    let x = (lac + i / IAC % 2) % LAC_VALUES * factor(i);
    x % LAC_VALUES + x / LAC_VALUES
}
