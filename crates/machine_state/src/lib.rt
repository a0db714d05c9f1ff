// The parts that every instruction shares: the registers and their table, words of memory, and the interrupt test with op 6, which switches it.
#![tactic(auto)]

ghost use Rattle.std.specs.Prelude.{◌≡◌};
ghost use Rattle.machine_state.specs.Processor.{narrowed, Narrow};

pub mod interrupt;
pub mod memory;
pub mod registers;

// The number of LAC's values: L, and a word.
pub const LAC_VALUES: u64 = 8192;

// The machine registers, in document 01's order, as a caller hands them over.
#[derive(Clone, Copy)]
pub struct Machine {
    pub lac: u16,
    pub pc: u16,
    pub run: u16,
    pub enable: u16,
    pub request: u16,
    pub switches: u16,
}

// The same registers as the emulator works with them, each in a machine word of its own.
#[derive(Clone, Copy)]
pub struct Processor {
    pub lac: u64,
    pub pc: u64,
    pub run: u64,
    pub enable: u64,
    pub request: u64,
    pub switches: u64,
}

// A caller's registers, as the emulator works with them.
impl From<Machine> for Processor {
    ghost from_gives = { λ m p. narrowed p ≡ m };

    fn from(m: Machine) -> Processor {
        Processor {
            lac: u64::from(m.lac),
            pc: u64::from(m.pc),
            run: u64::from(m.run),
            enable: u64::from(m.enable),
            request: u64::from(m.request),
            switches: u64::from(m.switches),
        }
    }
}

impl Processor {
    // The registers as a caller gets them back: each is narrow, so this is no TryFrom, which could fail.
    pub fn narrowed(self) -> Machine
        requires { Narrow self }
        ensures { result ≡ narrowed self }
    {
        Machine {
            lac: self.lac as u16,
            pc: self.pc as u16,
            run: self.run as u16,
            enable: self.enable as u16,
            request: self.request as u16,
            switches: self.switches as u16,
        }
    }
}
