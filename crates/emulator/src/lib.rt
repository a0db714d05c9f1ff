// The emulator's entries, without devices and with them: any memory, registers, budget, input and output.
#![tactic(auto)]

ghost use Rattle.std.specs.Prelude.{◌≡◌, ◌++◌, length, Ok};
ghost use Rattle.state.specs.Checks.{check_state};
ghost use Rattle.devices.specs.Devices.{device_widths, device_values, DevicesFit};
ghost use Rattle.devices.specs.Session.{opened as openedSession};
ghost use Rattle.machine_state.specs.State.{start, Good};
ghost use Rattle.machine_state.specs.Registers.{values, widths};
ghost use Rattle.machine_run.specs.Run.{run};
ghost use Rattle.machine_console.specs.Console.{console, run as consoleRun};
ghost use Rattle.emulator.specs.Emulate.{report, finished as finishedRun, emulate as emulation, device_report, finished_devices, emulate_devices};

use devices::Devices;
use devices::registers::DEVICE_REGISTERS;
use machine_state::registers::MACHINE_REGISTERS;
use machine_state::{Machine, Processor};
use state::{Reason, Refusal};

// What a run leaves of the registers, why it ended, and the steps made.
#[derive(Clone, Copy)]
pub struct Ended {
    pub machine: Machine,
    pub reason: Reason,
    pub steps: u64,
}

// Refusals 11 to 14, of the registers by their table's widths.
fn checked(memory: &[u16], m: Machine, budget: u64) -> Result<(), Refusal>
    ensures { result ≡ check_state widths (values m) memory.now budget }
{
    let widths = machine_state::registers::widths();
    let values = machine_state::registers::values_of(m);
    state::check_state(memory, &widths, &values, budget)
}

// The run of a state that no check turns down.
fn finished(memory: &mut [u16], m: Machine, budget: u64) -> Ended
    requires { Good (start m memory.old) }
    ensures { report m (Ok result) memory.new ≡ finishedRun (run budget (start m memory.old)) }
{
    let end = machine_run::run::run(memory, Processor::from(m), budget);
    let p = end.processor;
    Ended {
        machine: p.narrowed(),
        reason: state::reason_of(p.run),
        steps: end.steps,
    }
}

// A run of a budget, or the first refusal of 11 to 14, after which all is as it came.
pub fn emulate(memory: &mut [u16], m: Machine, budget: u64) -> Result<Ended, Refusal>
    ensures { report m result memory.new ≡ emulation m memory.old budget }
{
    checked(memory, m, budget)?;
    Ok(finished(memory, m, budget))
}

// The emulator's answer with devices: the devices, as they came after a refusal, the bytes that arrived and the bytes printed.
#[derive(Clone, Copy)]
pub struct DeviceAnswer {
    pub answer: Result<Ended, Refusal>,
    pub devices: Devices,
    pub read: usize,
    pub printed: usize,
}

// The registers of the machine with devices.
const ALL_REGISTERS: usize = MACHINE_REGISTERS + DEVICE_REGISTERS;

// Their widths: the six, then the five.
fn all_widths() -> [u64; ALL_REGISTERS]
    ensures { result ≡ widths ++ device_widths }
{
    let a = machine_state::registers::widths();
    let b = devices::registers::widths();
    [
        a[0], a[1], a[2], a[3], a[4], a[5], b[0], b[1], b[2], b[3], b[4],
    ]
}

// Their values.
fn all_values(m: Machine, c: Devices) -> [u16; ALL_REGISTERS]
    ensures { result ≡ values m ++ device_values c }
{
    [
        m.lac, m.pc, m.run, m.enable, m.request, m.switches, c.key, c.keyboard, c.printer, c.print,
        c.mark,
    ]
}

// Refusals 11 to 14, of which 13 looks at all eleven registers.
fn checked_devices(memory: &[u16], m: Machine, c: Devices, budget: u64) -> Result<(), Refusal>
    ensures { result ≡ check_state (widths ++ device_widths) (values m ++ device_values c) memory.now budget }
{
    let bits = all_widths();
    let all = all_values(m, c);
    state::check_state(memory, &bits, &all, budget)
}

// The run with devices of a state that no check turns down.
fn finished_devices(
    memory: &mut [u16],
    m: Machine,
    c: Devices,
    budget: u64,
    input: &[u8],
    output: &mut [u8],
) -> DeviceAnswer
    requires machine_good { Good (start m memory.old) }
    requires devices_fit { DevicesFit c }
    ensures { device_report m result memory.new output.new
        ≡ finished_devices input.now output.old
        (consoleRun (length output.old) budget (openedSession (console (start m memory.old) c) input.now)) }
{
    let end = machine_console::run::run_devices(
        memory,
        Processor::from(m),
        c,
        budget,
        input,
        output,
    );
    let p = end.processor;
    let left = Ended {
        machine: p.narrowed(),
        reason: state::reason_with(p.run, end.printed < output.len()),
        steps: end.steps,
    };
    DeviceAnswer {
        answer: Ok(left),
        devices: end.devices,
        read: end.read,
        printed: end.printed,
    }
}

// A run of a budget with devices, or the first refusal of 11 to 14, after which all is as it came.
pub fn emulate_devices(
    memory: &mut [u16],
    m: Machine,
    c: Devices,
    budget: u64,
    input: &[u8],
    output: &mut [u8],
) -> DeviceAnswer
    ensures { device_report m result memory.new output.new
        ≡ emulate_devices m c memory.old budget input.now output.old }
{
    match checked_devices(memory, m, c, budget) {
        Err(why) => DeviceAnswer {
            answer: Err(why),
            devices: c,
            read: 0,
            printed: 0,
        },
        Ok(()) => finished_devices(memory, m, c, budget, input, output),
    }
}
