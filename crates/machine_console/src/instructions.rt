// The eight instructions of keyboard and teleprinter.
ghost use Rattle.std.specs.Prelude.{◌≡◌, ◌^◌, ◌<◌};
ghost use Rattle.std.specs.Int.Bits.{bit_or};
ghost use Rattle.word.specs.Choice.{pick};
ghost use Rattle.word.specs.Word.{word_bits, next};
ghost use Rattle.devices.specs.Devices.{byte_bits, DevicesFit};
ghost use Rattle.machine_state.specs.State.{Good};
ghost use Rattle.machine_state.specs.Processor.{at};
ghost use Rattle.machine_console.specs.Instructions.{skips_on_flag, ac_byte, with_ac_byte, lac_after, devices_after};
ghost use Rattle.machine_console.specs.Console.{console, line as line_of, device_step};

use crate::Console;
use devices::Devices;
use machine_state::Processor;
use machine_state::interrupt::interrupt_test;
use machine_state::memory::load;
use word::pick;

const KSF: u64 = 0o6031;

const KCC: u64 = 0o6032;

const KRS: u64 = 0o6034;

const KRB: u64 = 0o6036;

const TSF: u64 = 0o6041;

const TCF: u64 = 0o6042;

const TPC: u64 = 0o6044;

const TLS: u64 = 0o6046;

// INTERRUPT.REQUEST, as the devices' flags have it.
pub fn line(c: Devices) -> u64
    ensures { result ≡ line_of c }
{
    u64::from(c.keyboard | c.printer)
}

// PC after KSF and TSF.
fn skip_on_flag(i: u64, c: Devices, pc: u64) -> u64
    requires { pc < 2 ^ word_bits }
    ensures { result ≡ pick (skips_on_flag i c) (next pc) pc }
{
    let skips = ((i == KSF) & (c.keyboard != 0)) | ((i == TSF) & (c.printer != 0));
    pick(skips, word::increment(pc), pc)
}

// LAC with a byte or'd into AC<4:11>.
fn or_byte(lac: u64, byte: u64) -> u64
    requires { byte < 2 ^ byte_bits }
    ensures { result ≡ with_ac_byte lac (bit_or (ac_byte lac) byte) }
{
    lac / 256 * 256 + (lac % 256 | byte)
}

// LAC after KCC, KRS and KRB.
fn accumulate(i: u64, c: Devices, lac: u64) -> u64
    requires { c.key < 2 ^ byte_bits }
    ensures { result ≡ lac_after i c lac }
{
    let cleared = pick((i == KCC) | (i == KRB), lac / 4096 * 4096, lac);
    pick(
        (i == KRS) | (i == KRB),
        or_byte(cleared, u64::from(c.key)),
        cleared,
    )
}

// The devices after KCC, KRB, TCF, TPC and TLS.
fn change_devices(i: u64, lac: u64, c: Devices) -> Devices
    ensures { result ≡ devices_after i lac c }
{
    let prints = (i == TPC) | (i == TLS);
    Devices {
        key: c.key,
        keyboard: pick((i == KCC) | (i == KRB), 0, c.keyboard),
        printer: pick((i == TCF) | (i == TLS), 0, c.printer),
        print: pick(prints, (lac % 256) as u16, c.print),
        mark: pick(prints, 1, c.mark),
    }
}

// The step of a device's word, its interrupt test included.
pub fn device_word(memory: &mut [u16], p: Processor, c: Devices) -> Console
    requires good { Good (at p memory.old) }
    requires fit { DevicesFit c }
    ensures { console (at result.processor memory.new) result.devices ≡ device_step (console (at p memory.old) c) }
{
    let i = load(memory, p.pc);
    let d = change_devices(i, p.lac, c);
    let mut q = p;
    q.pc = skip_on_flag(i, c, word::increment(p.pc));
    q.lac = accumulate(i, c, p.lac);
    q.request = line(d);
    let r = interrupt_test(memory, q);
    Console {
        processor: r,
        devices: d,
    }
}
