// A run with devices: rounds while RUN is 1, fewer steps than the budget are done and the output has a place left.
ghost use Rattle.std.specs.Prelude.{◌≡◌, ◌&&◌, ltb};
ghost use Rattle.word.specs.Choice.{on};
ghost use Rattle.devices.specs.Devices.{DevicesFit};
ghost use Rattle.machine_state.specs.State.{Good};
ghost use Rattle.machine_state.specs.Processor.{at};
ghost use Rattle.machine_console.specs.Ran.{Ran};

use crate::work::work;
use devices::Devices;
use devices::session::{begin, print};
use machine_state::Processor;

// What a run leaves: the machine's registers and the devices', the steps made, the bytes read and the bytes printed.
#[derive(Clone, Copy)]
pub struct SessionEnd {
    pub processor: Processor,
    pub devices: Devices,
    pub steps: u64,
    pub read: usize,
    pub printed: usize,
}

fn goes_on(steps: u64, budget: u64, run: u64, printed: usize, room: usize) -> bool
    ensures { result ≡ (ltb steps budget && (on run && ltb printed room)) }
{
    (steps < budget) & ((run != 0) & (printed < room))
}

// A run of a budget.
pub fn run_devices(
    memory: &mut [u16],
    p: Processor,
    c: Devices,
    budget: u64,
    input: &[u8],
    output: &mut [u8],
) -> SessionEnd
    requires good { Good (at p memory.old) }
    requires fit { DevicesFit c }
    ensures { Ran (at p memory.old) c budget input.now output.old memory.new output.new result }
{
    let mut q = p;
    let mut d = c;
    let mut steps = 0;
    let mut read = 0;
    let mut printed = 0;
    // No `for`: a round makes as many steps as it makes, and three things end the run.
    while goes_on(steps, budget, q.run, printed, output.len()) {
        let b = begin(d, input, read);
        read = b.read;
        let e = b.devices;
        let w = work(memory, q, e, steps, budget);
        q = w.processor;
        d = w.devices;
        steps = w.steps;
        printed = print(output, printed, d);
    }
    SessionEnd {
        processor: q,
        devices: d,
        steps,
        read,
        printed,
    }
}
