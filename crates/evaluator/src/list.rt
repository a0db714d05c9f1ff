// The caller's row list.
ghost use Rattle.std.specs.Prelude.{◌≡◌, ◌++◌, ◌≤◌, length, take, drop};
ghost use Rattle.text_limits.specs.Limits.{most_rows};

use text_limits::MOST_ROWS;

// Puts the first n entries of a list at the front of a caller's.
pub fn put_rows(rows: &mut [u8], list: &[u8; MOST_ROWS], n: usize)
    requires listed { n ≤ most_rows }
    requires roomy { n ≤ length rows.old }
    requires whole { length list.now ≡ most_rows }
    ensures { rows.new ≡ take n list.now ++ drop n rows.old }
{
    rows[..n].copy_from_slice(&list[..n]);
}
