// The interrupt test, and op 6, which switches it.
ghost use Rattle.std.specs.Prelude.{◌≡◌, not, ◌^◌, ◌<◌, eqb, length};
ghost use Rattle.word.specs.Word.{word_bits};
ghost use Rattle.machine_state.specs.Processor.{at};
ghost use Rattle.machine_state.specs.Interrupt.{interrupt_test, tested_if, ion, input_output};

use crate::Processor;
use crate::memory::store;

pub const ION: u64 = 0o6001;

const IOF: u64 = 0o6002;

// The end of a step: an enabled request is served.
pub fn interrupt_test(memory: &mut [u16], p: Processor) -> Processor
    requires first_word { 0 < length memory.old }
    requires pc { p.pc < 2 ^ word_bits }
    requires enable { p.enable < 2 }
    requires request { p.request < 2 }
    ensures { at result memory.new ≡ interrupt_test (at p memory.old) }
{
    if p.enable & p.request != 0 {
        store(memory, 0, p.pc);
        Processor {
            pc: 1,
            enable: 0,
            ..p
        }
    } else {
        p
    }
}

// Op 6, and the step's interrupt test, which 6001 omits.
pub fn input_output(memory: &mut [u16], p: Processor, i: u64) -> Processor
    requires first_word { 0 < length memory.old }
    requires pc { p.pc < 2 ^ word_bits }
    requires enable { p.enable < 2 }
    requires request { p.request < 2 }
    ensures { at result memory.new ≡ tested_if interrupt_test (not (eqb i ion)) (input_output i (at p memory.old)) }
{
    if i == ION {
        return Processor { enable: 1, ..p };
    }
    if i == IOF {
        let off = Processor { enable: 0, ..p };
        return interrupt_test(memory, off);
    }
    interrupt_test(memory, p)
}
