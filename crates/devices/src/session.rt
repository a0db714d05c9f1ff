// The start of a step or cycle, and the print after it.
ghost use Rattle.std.specs.Prelude.{◌≡◌, ◌^◌, ◌≤◌, ◌<◌, length};
ghost use Rattle.devices.specs.Devices.{byte_bits, risen};
ghost use Rattle.devices.specs.Held.{BegunBy, PrintedBy};

use crate::Devices;

// The devices after the printer's flag has risen, if a print mark stands.
#[tactic(auto, unfolding(crate::specs::Devices::risen))]
fn rise(c: Devices) -> Devices
    ensures { result ≡ risen c }
{
    let up = Devices {
        printer: 1,
        mark: 0,
        ..c
    };
    word::pick(c.mark != 0, up, c)
}

// The devices after the start of a step, and the number of bytes read.
#[derive(Clone, Copy)]
pub struct Begun {
    pub devices: Devices,
    pub read: usize,
}

// The start of a step: the next byte arrives where the keyboard's flag is 0, and the printer's flag rises after a print.
pub fn begin(c: Devices, input: &[u8], read: usize) -> Begun
    requires { read ≤ length input.now }
    ensures { BegunBy c input.now read result.devices result.read }
{
    if (c.keyboard == 0) & (read < input.len()) {
        let arrived = Devices {
            key: u16::from(input[read]),
            keyboard: 1,
            ..c
        };
        return Begun {
            devices: rise(arrived),
            read: read + 1,
        };
    }
    Begun {
        devices: rise(c),
        read,
    }
}

// The print after a step, and the number of bytes printed.
pub fn print(output: &mut [u8], printed: usize, c: Devices) -> usize
    requires room { printed < length output.old }
    requires byte { c.print < 2 ^ byte_bits }
    ensures { PrintedBy c output.old printed output.new result }
{
    if c.mark != 0 {
        output[printed] = c.print as u8;
        return printed + 1;
    }
    printed
}
