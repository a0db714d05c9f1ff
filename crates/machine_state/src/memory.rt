// Words of memory, read and stored as the numbers that the emulator works with.
ghost use Rattle.std.specs.Prelude.{◌≡◌, ◌^◌, ◌<◌, length, get_or, set};
ghost use Rattle.word.specs.Word.{word_bits};

// The word at an address.
pub fn load(memory: &[u16], address: u64) -> u64
    requires { address < length memory.now }
    ensures { result ≡ get_or memory.now address 0 }
{
    u64::from(memory[address as usize])
}

// Memory with a word stored at an address.
pub fn store(memory: &mut [u16], address: u64, x: u64)
    requires within { address < length memory.old }
    requires word { x < 2 ^ word_bits }
    ensures { memory.new ≡ set memory.old address x }
{
    memory[address as usize] = x as u16;
}
