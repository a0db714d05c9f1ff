// The registers after a run, each on a line: the machine's and its devices', as an inquiry may have them, and the description's working registers.
ghost use Rattle.std.specs.Prelude.{◌≡◌, [], ◌∷◌, ◌++◌, ◌+◌, ◌≤◌, length};
ghost use Rattle.devices.specs.Devices.{device_values};
ghost use Rattle.machine_state.specs.Registers.{values};
ghost use Rattle.shipped_rows.specs.Variant.{registers_of, values_of};
ghost use Rattle.characters.specs.Ascii.{tab, line_feed};
ghost use Rattle.page.specs.Text.{octal};
ghost use Rattle.desk_run_lines.specs.Registers.{register_lines, variant_of, working_registers, working_values};
ghost use Rattle.desk_run_lines.specs.Sizes.{register_lines_bytes, working_lines_bytes, page_bytes};

use crate::PAGE_BYTES;
use characters::LINE_FEED;
use desk_registers::DESK_REGISTERS;
use devices::Devices;
use machine_state::Machine;
use machine_state::registers::MACHINE_REGISTERS;
use page::Draft;

// A register's line: its name, TAB, its value in n octal digits.
fn put_register(draft: &mut Draft<PAGE_BYTES>, name: &[u8], n: u64, value: u16)
    requires { length draft.old + length name.now + n + 2 ≤ page_bytes }
    ensures { draft.new ≡ draft.old ++ (name.now ++ tab ∷ octal n value ++ line_feed ∷ []) }
{
    draft.put_text(name);
    draft.put_field(n, value as u64);
    draft.put_byte(LINE_FEED);
}

// How many registers the machine has, with devices or without.
fn count(devices: bool) -> usize
    ensures { result ≡ length (registers_of (variant_of devices)) }
{
    if devices {
        DESK_REGISTERS
    } else {
        MACHINE_REGISTERS
    }
}

// The values of the machine registers, then those of the devices'.
fn values_of(m: Machine, c: Devices) -> [u16; DESK_REGISTERS]
    ensures { result ≡ values m ++ device_values c }
{
    [
        m.lac, m.pc, m.run, m.enable, m.request, m.switches, c.key, c.keyboard, c.printer, c.print,
        c.mark,
    ]
}

// The machine registers, those of the devices among them where there are devices.
pub fn put_registers(draft: &mut Draft<PAGE_BYTES>, devices: bool, m: Machine, c: Devices)
    requires { length draft.old + register_lines_bytes ≤ page_bytes }
    ensures { draft.new ≡ draft.old ++ register_lines (registers_of (variant_of devices)) (values_of (variant_of devices) m c) }
{
    let all = values_of(m, c);
    let n = count(devices);
    for k in 0..n {
        let register = desk_registers::register_at(k);
        let digits = machine_state::registers::digits_of(register.width);
        put_register(draft, register.name, digits as u64, all[k]);
    }
}

// The working registers, by the values of all the registers of the description with devices or without.
pub fn put_working(
    draft: &mut Draft<PAGE_BYTES>,
    devices: bool,
    values: [u16; text_limits::MOST_REGISTERS],
)
    requires { length draft.old + working_lines_bytes ≤ page_bytes }
    ensures { draft.new ≡ draft.old ++ register_lines (working_registers (variant_of devices)) (working_values (variant_of devices) values) }
{
    let first = count(devices);
    put_register(draft, b"i", 4, values[first]);
    put_register(draft, b"last.pc", 4, values[first + 1]);
    put_register(draft, b"eadd", 4, values[first + 2]);
    put_register(draft, b"skip", 1, values[first + 3]);
}
