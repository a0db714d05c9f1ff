// What a run is asked for, read byte by byte: lines of an image, registers, a budget and the input.
#![tactic(auto)]

ghost use Rattle.std.specs.Prelude.{◌≡◌, ℕ, List, [], slice_set, refl};
ghost use Rattle.std.proofs.Common.{rules};
ghost use Rattle.desk_image.specs.Pass.{Passed};
ghost use Rattle.desk_image.specs.Read.{AfterRead};
ghost use Rattle.desk_image.specs.Scan.{scan_byte, begun, scan_of, unfit_line};
ghost use Rattle.desk_inquiry.specs.Input.{Inquiry, entered};
ghost use Rattle.desk_inquiry.specs.Scan.{asking, inquiry, kept, Bears};
ghost use Rattle.desk_entry.specs.declared.Entry.TheVariants.{Register};

use desk_entry::{Entry, INPUT_BYTES, LINE_BYTES};
use desk_image::scan;
use desk_image::scan::Lines;
use desk_registers::DESK_REGISTERS;
use machine_state::registers::MACHINE_REGISTERS;
use state::MEMORY_WORDS;
use std::io;

// What lines have asked for so far, beside the memory: the registers, the budget, the input's bytes, so many at the front of their places, and whether there are devices.
#[derive(Clone, Copy)]
pub struct Asked {
    pub registers: [u16; DESK_REGISTERS],
    pub budget: u64,
    pub input: [u8; INPUT_BYTES],
    pub typed: usize,
    pub devices: bool,
}

// The place in the text.
pub type Scanner = scan::Scanner<Asked, LINE_BYTES>;

// A word of the memory. An address past the last is none.
fn load(memory: &mut [u16], address: usize, word: u16)
    ensures { memory.new ≡ slice_set memory.old address word }
{
    if address < memory.len() {
        memory[address] = word;
    }
}

impl Asked {
    // With a register's value, which one of the devices' comes with devices. A place past the last is none.
    fn set_register(&mut self, place: usize, v: u16)
        ensures { (memory value : List ℕ) → inquiry self.new memory ≡ entered (Register place v) value (inquiry self.old memory) }
    {
        self.devices = (MACHINE_REGISTERS <= place) | self.devices;
        if place < DESK_REGISTERS {
            self.registers[place] = v;
        }
    }

    // What a line says, entered; the bytes of the input stand in its second field. A place past the last is none.
    #[tactic(auto, unfolding(crate::specs::Input::entered))]
    fn enter_entry(&mut self, memory: &mut [u16; MEMORY_WORDS], e: Entry, value: &[u8])
        requires { Bears e value.now }
        ensures { inquiry self.new memory.new ≡ entered e value.now (inquiry self.old memory.old) }
    {
        match e {
            Entry::Word(address, word) => load(memory, address, word),
            Entry::Register(place, v) => self.set_register(place, v),
            Entry::Budget(steps) => self.budget = steps,
            Entry::Input(n) => {
                self.input = desk_entry::bytes_of(value, n);
                self.typed = n;
                self.devices = true;
            }
        }
    }
}

impl Lines<LINE_BYTES> for Asked {
    ghost Made = { Inquiry };

    ghost reading = { asking };

    ghost made = { inquiry };

    fn enter(&mut self, memory: &mut [u16; MEMORY_WORDS], line: &[u8]) -> bool {
        match desk_entry::entry_of(line) {
            Some(e) => {
                self.enter_entry(memory, e, text_fields::field_of(line, 1));
                true
            }
            None => false,
        }
    }

    ghost most = { refl };

    ghost some = { Prim.search rules };
}

// A cleared memory, and the scanner of an empty text.
pub fn begin(memory: &mut [u16; MEMORY_WORDS]) -> Scanner
    ensures { kept result memory.new ≡ scan_of asking [] }
{
    let asked = Asked {
        // PC and RUN
        registers: [0, 0o200, 1, 0, 0, 0, 0, 0, 0, 0, 0],
        budget: 16,
        input: [0; INPUT_BYTES],
        typed: 0,
        devices: false,
    };
    Scanner::begin(memory, asked)
}

// The scanner and the memory after the bytes of a chunk: those of a text that goes on with it.
pub fn scanned(memory: &mut [u16; MEMORY_WORDS], s: Scanner, chunk: &[u8]) -> Scanner
    ensures { Passed (scan_byte asking) (begun asking) (kept s memory.old) chunk.now (kept result memory.new) }
{
    let mut next = s;
    next.scan(memory, chunk);
    next
}

// The scanner and the memory after a read that left the buffer as it is: after the bytes that were read, and no others. Answers as the read did.
pub fn after_read(
    memory: &mut [u16; MEMORY_WORDS],
    s: &mut Scanner,
    read: io::Result<usize>,
    buffer: &[u8],
) -> io::Result<usize>
    ensures { AfterRead (scan_byte asking) (begun asking) (kept s.old memory.old) read buffer.now (kept s.new memory.new) result }
{
    s.after_read(memory, read, buffer)
}

// The number of the first unfit line of a text that ends here: a line that has begun lacks its LF.
pub fn unfit_line(s: Scanner) -> Option<u64>
    ensures { result ≡ unfit_line (kept s []) }
{
    s.unfit_line()
}
