// The machine registers as one table, and their values in its order.
ghost use Rattle.std.specs.Prelude.{◌≡◌, ◌≤◌, ◌<◌, length, get_or};
ghost use Rattle.word.specs.Word.{widest};
ghost use Rattle.characters.specs.Named.{found};
ghost use Rattle.characters.specs.Table.{named, nameless};
ghost use Rattle.machine_state.specs.Registers.{machine_registers, widths as tableWidths, digits_of, values};

use crate::Machine;
use characters::registers::{Register, place_in};

// The registers that the machine has.
pub const MACHINE_REGISTERS: usize = 6;

// The machine registers, in document 01's order.
const TABLE: [Register; MACHINE_REGISTERS] = [
    Register {
        name: b"LAC",
        width: 13,
    },
    Register {
        name: b"PC",
        width: 12,
    },
    Register {
        name: b"RUN",
        width: 1,
    },
    Register {
        name: b"INTERRUPT.ENABLE",
        width: 1,
    },
    Register {
        name: b"INTERRUPT.REQUEST",
        width: 1,
    },
    Register {
        name: b"SWITCHES",
        width: 12,
    },
];

// The register at a place of their order.
pub fn register_at(place: usize) -> Register
    requires { place < length machine_registers }
    ensures { named result ≡ get_or machine_registers place nameless }
{
    TABLE[place]
}

// The place of a register in their order, by its name.
pub fn place_of(name: &[u8]) -> Option<usize>
    ensures { result ≡ found name.now machine_registers }
{
    place_in(&TABLE, name)
}

// The widths of the registers.
pub fn widths() -> [u64; MACHINE_REGISTERS]
    ensures { result ≡ tableWidths }
{
    TABLE.map(|register| register.width)
}

// The octal digits of a width: a digit for every three bits begun.
pub fn digits_of(width: u64) -> usize
    requires { width ≤ widest }
    ensures { result ≡ digits_of width }
{
    ((width + 2) / 3) as usize
}

// The values of the registers, in their order.
pub fn values_of(m: Machine) -> [u16; MACHINE_REGISTERS]
    ensures { result ≡ values m }
{
    [m.lac, m.pc, m.run, m.enable, m.request, m.switches]
}

// The registers that have such values.
pub fn machine_of(all: [u16; MACHINE_REGISTERS]) -> Machine
    ensures { values result ≡ all }
{
    Machine {
        lac: all[0],
        pc: all[1],
        run: all[2],
        enable: all[3],
        request: all[4],
        switches: all[5],
    }
}
