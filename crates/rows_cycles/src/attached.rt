// Where there are devices: their registers, by their places; the start of a cycle, and the print after it.
ghost use Rattle.std.specs.Prelude.{◌≡◌, true, not, is_some, ◌||◌, ◌%◌, ◌≤◌, ◌<◌, ltb, length, get_or};
ghost use Rattle.text_limits.specs.Limits.{most_registers};
ghost use Rattle.devices.specs.Held.{PrintedBy};
ghost use Rattle.rows_cycles.specs.Stored.{devices_in, with_devices_in, narrowed, marked_by, places_or, Begins};

use devices::registers::DEVICE_REGISTERS;
use devices::{Devices, session};
use rows_store::Registers;
use text_limits::MOST_REGISTERS;

// The values of a byte.
const BYTE_VALUES: u16 = 256;

// The value of a register.
pub fn value_at(r: [u16; MOST_REGISTERS], place: usize) -> u16
    ensures { result ≡ get_or r (place % most_registers) 0 }
{
    r[place % MOST_REGISTERS]
}

// The devices' registers.
fn devices_at(r: [u16; MOST_REGISTERS], places: [usize; DEVICE_REGISTERS]) -> Devices
    ensures { result ≡ devices_in places r }
{
    Devices {
        key: value_at(r, places[0]),
        keyboard: value_at(r, places[1]),
        printer: value_at(r, places[2]),
        print: value_at(r, places[3]),
        mark: value_at(r, places[4]),
    }
}

// The registers with the devices' put to their places.
fn with_devices(
    r: [u16; MOST_REGISTERS],
    places: [usize; DEVICE_REGISTERS],
    c: Devices,
) -> [u16; MOST_REGISTERS]
    ensures { result ≡ with_devices_in places c r }
{
    let mut all = r;
    all[places[0] % MOST_REGISTERS] = c.key;
    all[places[1] % MOST_REGISTERS] = c.keyboard;
    all[places[2] % MOST_REGISTERS] = c.printer;
    all[places[3] % MOST_REGISTERS] = c.print;
    all[places[4] % MOST_REGISTERS] = c.mark;
    all
}

// The registers that a cycle finds, and the number of bytes read.
#[derive(Clone, Copy)]
pub struct Beginning {
    pub registers: Registers,
    pub read: usize,
}

// The start of a cycle. Where nothing arrives and no mark stands the registers are as they were.
pub fn begin_cycle(
    devices: Option<[usize; DEVICE_REGISTERS]>,
    r: Registers,
    input: &[u8],
    read: usize,
) -> Beginning
    requires { read ≤ length input.now }
    ensures { Begins (is_some devices) (places_or devices) r.values input.now read result.registers.values result.read }
{
    let Some(places) = devices else {
        return Beginning { registers: r, read };
    };
    let values = r.values;
    let c = devices_at(values, places);
    let begun = session::begin(c, input, read);
    let now = begun.read;
    if (now == read) & (c.mark == 0) {
        return Beginning { registers: r, read };
    }
    let after = with_devices(values, places, begun.devices);
    Beginning {
        registers: Registers { values: after },
        read: now,
    }
}

// Devices of which PRINT.BYTE is a byte.
fn narrow(c: Devices) -> Devices
    ensures { result ≡ narrowed c }
{
    let mut d = c;
    d.print = c.print % BYTE_VALUES;
    d
}

// The print after a cycle, and the number of bytes printed.
pub fn end_cycle(
    devices: Option<[usize; DEVICE_REGISTERS]>,
    r: [u16; MOST_REGISTERS],
    output: &mut [u8],
    printed: usize,
) -> usize
    requires { not (is_some devices) || ltb printed (length output.old) ≡ true }
    ensures { PrintedBy (marked_by (is_some devices) (places_or devices) r) output.old printed output.new result }
{
    let Some(places) = devices else {
        return printed;
    };
    session::print(output, printed, narrow(devices_at(r, places)))
}

// Whether there is room for a print, which counts only with devices.
pub fn has_room(devices: Option<[usize; DEVICE_REGISTERS]>, printed: usize, room: usize) -> bool
    ensures { result ≡ not (is_some devices) || ltb printed room }
{
    devices.is_none() | (printed < room)
}
