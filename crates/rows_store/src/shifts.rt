// Place values, shifts and joins of numbers of 16 bits. Every number is taken: exponents modulo 32, values modulo 2 ^ 16.
ghost use Rattle.std.specs.Prelude.{◌≡◌, ◌*◌, ◌^◌, ◌<◌};
ghost use Rattle.rows_store.specs.Shifts.{power, Power, joined_to};

// The place value of a bit, by the number of bits on its right.
pub fn power_of(n: u16) -> u32
    ensures { Power result n }
{
    1u32 << (n % 32)
}

// x with so many zeros on its right.
pub fn shifted(x: u16, n: u16) -> u64
    ensures value { result ≡ x * power n }
    ensures small { result < 2 ^ 47 }
{
    (x as u64) << (n % 32)
}

// @, with a right side of b bits.
pub fn joined_to(b: u16, x: u16, y: u16) -> u16
    ensures { result ≡ joined_to b x y }
{
    ((shifted(x, b) + y as u64) % 65536) as u16
}
