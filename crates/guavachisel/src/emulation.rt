// The emulator for C callers: guavachisel_emulate of include/guavachisel.h.
ghost use Rattle.guavachisel.specs.Emulation.{Emulated};

use crate::outcome;
use crate::outcome::OUTCOME_PLACES;
use machine_state::registers::MACHINE_REGISTERS;

// Runs the emulator on a caller's memory and registers.
#[unsafe(no_mangle)]
pub extern "C" fn guavachisel_emulate(
    memory: &mut [u16],
    registers: &mut [u16; MACHINE_REGISTERS],
    budget: u64,
    outcome: &mut [u64; OUTCOME_PLACES],
)
    ensures { Emulated memory.old registers.old budget memory.new registers.new outcome.new }
{
    match emulator::emulate(
        memory,
        machine_state::registers::machine_of(*registers),
        budget,
    ) {
        Ok(end) => {
            *registers = machine_state::registers::values_of(end.machine);
            *outcome = outcome::ran(end.steps, end.reason, 0).into();
        }
        Err(why) => *outcome = outcome::refused(why).into(),
    }
}
