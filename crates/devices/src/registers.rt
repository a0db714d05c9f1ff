// The devices' registers as one table, their widths, and their values in document 02's order.
ghost use Rattle.std.specs.Prelude.{◌≡◌, ◌<◌, length, get_or};
ghost use Rattle.characters.specs.Named.{found};
ghost use Rattle.characters.specs.Table.{named, nameless};
ghost use Rattle.devices.specs.Devices.{device_registers, device_widths, device_values};

use crate::Devices;
use characters::registers::{Register, place_in};

// The registers that the devices have.
pub const DEVICE_REGISTERS: usize = 5;

const BYTE_BITS: u64 = 8;

// The registers, in document 02's order.
const TABLE: [Register; DEVICE_REGISTERS] = [
    Register {
        name: b"KEY.BYTE",
        width: BYTE_BITS,
    },
    Register {
        name: b"KEYBOARD.FLAG",
        width: 1,
    },
    Register {
        name: b"PRINTER.FLAG",
        width: 1,
    },
    Register {
        name: b"PRINT.BYTE",
        width: BYTE_BITS,
    },
    Register {
        name: b"PRINT.MARK",
        width: 1,
    },
];

// The register at a place of their order.
pub fn register_at(place: usize) -> Register
    requires { place < length device_registers }
    ensures { named result ≡ get_or device_registers place nameless }
{
    TABLE[place]
}

// The place of a register in their order, by its name.
pub fn place_of(name: &[u8]) -> Option<usize>
    ensures { result ≡ found name.now device_registers }
{
    place_in(&TABLE, name)
}

// The widths of the registers.
pub fn widths() -> [u64; DEVICE_REGISTERS]
    ensures { result ≡ device_widths }
{
    TABLE.map(|register| register.width)
}

// The values of the registers, in their order.
pub fn values_of(c: Devices) -> [u16; DEVICE_REGISTERS]
    ensures { result ≡ device_values c }
{
    [c.key, c.keyboard, c.printer, c.print, c.mark]
}

// The registers that have such values.
pub fn devices_of(all: [u16; DEVICE_REGISTERS]) -> Devices
    ensures { device_values result ≡ all }
{
    Devices {
        key: all[0],
        keyboard: all[1],
        printer: all[2],
        print: all[3],
        mark: all[4],
    }
}
