// The keys that were typed: where those stand in a buffer that the machine has not taken.
ghost use Rattle.std.specs.Prelude.{◌≡◌, ◌+◌, ◌≤◌, length};
ghost use Rattle.desk_teletype.specs.Keys.{key_bytes, none, bytes_read, typed, wanted as isWanted, unread as unreadOf, taken as taken_of, Kept};

use std::io;

// The bytes of the buffer.
pub const KEY_BYTES: usize = 65536;

// So many from a place on; and whether more may be typed.
#[derive(Clone, Copy)]
pub struct Keys {
    pub at: usize,
    pub left: usize,
    pub more: bool,
}

// Before the first read.
pub fn begin() -> Keys
    ensures { Kept none result }
{
    Keys {
        at: 0,
        left: 0,
        more: true,
    }
}

// Whether keys are to be fetched: the machine has taken all, and more may be typed.
pub fn wanted(k: Keys) -> bool
    ensures { result ≡ isWanted k }
{
    (k.left == 0) & k.more
}

// The keys after a read, none where it failed. A read of nothing says at a terminal that nothing has been typed yet, elsewhere that the input has ended.
pub fn after_read(read: io::Result<usize>, terminal: bool) -> Keys
    ensures { Kept (typed (bytes_read read) terminal) result }
{
    let n = read.unwrap_or(0).min(KEY_BYTES);
    Keys {
        at: 0,
        left: n,
        more: (n != 0) | terminal,
    }
}

// The keys' bytes.
pub fn unread(buffer: &[u8; KEY_BYTES], k: Keys) -> &[u8]
    ensures { result.now ≡ unreadOf k buffer.now }
{
    characters::part(buffer, k.at, k.left)
}

// The keys after the machine took so many.
pub fn taken(k: Keys, n: usize) -> Keys
    requires { (n ≤ k.left) × (k.at + k.left ≤ key_bytes) }
    ensures { Kept (taken_of k n) result }
{
    Keys {
        at: k.at + n,
        left: k.left - n,
        more: k.more,
    }
}
