// The registers that a question may give and an answer tells: the machine's six, then the devices' five.
#![tactic(auto)]

ghost use Rattle.std.specs.Prelude.{◌≡◌, ◌<◌, length, get_or};
ghost use Rattle.characters.specs.Named.{found};
ghost use Rattle.characters.specs.Table.{named, nameless};
ghost use Rattle.desk_registers.specs.Registers.{desk_registers};

use characters::registers::Register;
use devices::registers::DEVICE_REGISTERS;
use machine_state::registers::MACHINE_REGISTERS;

// The registers that the desk knows.
pub const DESK_REGISTERS: usize = MACHINE_REGISTERS + DEVICE_REGISTERS;

// The register at a place of the order of all.
pub fn register_at(place: usize) -> Register
    requires { place < length desk_registers }
    ensures { named result ≡ get_or desk_registers place nameless }
{
    if place < MACHINE_REGISTERS {
        machine_state::registers::register_at(place)
    } else {
        devices::registers::register_at(place - MACHINE_REGISTERS)
    }
}

// The place of a register in the order of all, by its name.
pub fn place_of(name: &[u8]) -> Option<usize>
    ensures { result ≡ found name.now desk_registers }
{
    if let Some(place) = machine_state::registers::place_of(name) {
        return Some(place);
    }
    let place = devices::registers::place_of(name)?;
    Some(MACHINE_REGISTERS + place)
}
