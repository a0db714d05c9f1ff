// A round of the run: a stretch of plain steps, and the device's word before which it paused.
ghost use Rattle.std.specs.Prelude.{◌≡◌, ◌-◌, ◌<◌};
ghost use Rattle.runs.specs.Run.{ended};
ghost use Rattle.devices.specs.Devices.{DevicesFit};
ghost use Rattle.machine_state.specs.State.{Good};
ghost use Rattle.machine_state.specs.Processor.{at};
ghost use Rattle.machine_run.specs.Step.{makes_test};
ghost use Rattle.machine_console.specs.Console.{console};
ghost use Rattle.machine_console.specs.Rounds.{worked};

use crate::instructions::{device_word, line};
use devices::Devices;
use machine_operate::groups::clears_run;
use machine_run::run::stretch;
use machine_run::step::PAUSED;
use machine_state::Processor;
use machine_state::interrupt::ION;
use machine_state::memory::load;
use word::pick;

// The registers and devices that a round leaves, and the steps made by then.
#[derive(Clone, Copy)]
pub struct Worked {
    pub processor: Processor,
    pub devices: Devices,
    pub steps: u64,
}

const OPERATE: u64 = 7;

// Whether the step of an instruction makes an interrupt test.
fn makes_test(i: u64) -> bool
    ensures { result ≡ makes_test i }
{
    !((i == ION) | ((i / 512 % 8 == OPERATE) & clears_run(i)))
}

// A round between the start of a step and the print. INTERRUPT.REQUEST stays the or of the flags up to the next device's word, as these do; where the first step
// makes no test it is not refreshed, and the stretch is that one step.
pub fn work(memory: &mut [u16], p: Processor, c: Devices, steps: u64, budget: u64) -> Worked
    requires good { Good (at p memory.old) }
    requires fit { DevicesFit c }
    requires left { steps < budget }
    ensures { ended result.steps (console (at result.processor memory.new) result.devices)
        ≡ worked (budget - steps) steps (console (at p memory.old) c) }
{
    let tests = makes_test(load(memory, p.pc));
    let mut q = p;
    q.request = pick(tests, line(c), p.request);
    let t = stretch(memory, q, steps, pick(tests, budget, steps + 1), true);
    let mut r = t.processor;
    if r.lac >= PAUSED {
        r.lac -= PAUSED;
        r.run = 1;
        let x = device_word(memory, r, c);
        return Worked {
            processor: x.processor,
            devices: x.devices,
            steps: t.steps,
        };
    }
    Worked {
        processor: r,
        devices: c,
        steps: t.steps,
    }
}
