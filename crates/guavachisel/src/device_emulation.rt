// The emulator with devices for C callers: guavachisel_emulate_devices of include/guavachisel.h.
ghost use Rattle.guavachisel.specs.DeviceEmulation.{EmulatedDevices};

use crate::outcome;
use crate::outcome::OUTCOME_PLACES;
use devices::registers::{DEVICE_REGISTERS, devices_of};
use machine_state::registers::MACHINE_REGISTERS;

// Runs the emulator on a caller's memory, registers, devices, input and output.
#[unsafe(no_mangle)]
pub extern "C" fn guavachisel_emulate_devices(
    memory: &mut [u16],
    registers: &mut [u16; MACHINE_REGISTERS],
    five: &mut [u16; DEVICE_REGISTERS],
    budget: u64,
    input: &[u8],
    output: &mut [u8],
    outcome: &mut [u64; OUTCOME_PLACES],
)
    ensures { EmulatedDevices memory.old registers.old five.old budget input.now output.old
        memory.new registers.new five.new output.new outcome.new }
{
    let answer = emulator::emulate_devices(
        memory,
        machine_state::registers::machine_of(*registers),
        devices_of(*five),
        budget,
        input,
        output,
    );
    *five = devices::registers::values_of(answer.devices);
    let said = match answer.answer {
        Ok(end) => {
            *registers = machine_state::registers::values_of(end.machine);
            outcome::ran(end.steps, end.reason, 0)
        }
        Err(why) => outcome::refused(why),
    };
    *outcome = outcome::exchanging(said, answer.read, answer.printed).into();
}
