// A run: steps while RUN is 1 and fewer than the budget are done.
ghost use Rattle.std.specs.Prelude.{◌≡◌, ◌-◌, ◌≤◌, ◌<◌};
ghost use Rattle.word.specs.Choice.{on, pick};
ghost use Rattle.runs.specs.Run.{ended};
ghost use Rattle.machine_state.specs.State.{Good};
ghost use Rattle.machine_state.specs.Processor.{at};
ghost use Rattle.machine_run.specs.Run.{run as run_of};
ghost use Rattle.machine_run.specs.Stretch.{stretch_from};

use crate::step::step;
use machine_state::Processor;

// The registers that steps leave, and their number.
#[derive(Clone, Copy)]
pub struct Progress {
    pub processor: Processor,
    pub steps: u64,
}

// The number up to which steps are counted: none where RUN is 0. A product, so that the loop has one test and the machine one branch.
fn bound(number: u64, run: u64) -> u64
    requires { run < 2 }
    ensures { result ≡ pick (on run) number 0 }
{
    number * run
}

// Steps in one stretch, `done` having been made: up to a limit, a halt or, with devices, a word of theirs. The one loop of the machine with devices and without.
pub fn stretch(memory: &mut [u16], p: Processor, done: u64, limit: u64, devices: bool) -> Progress
    requires good { Good (at p memory.old) }
    requires done { done ≤ limit }
    ensures { ended result.steps (at result.processor memory.new) ≡ stretch_from devices (limit - done) done (at p memory.old) }
{
    let mut q = p;
    let mut steps = done;
    let mut end = bound(limit, p.run);
    // No `for`: the end falls at a halt; with a second test for that, each step cost 10 to 20 % more (docs/DECISIONS.md).
    while steps < end {
        q = step(memory, q, devices);
        steps += 1;
        end = bound(end, q.run);
    }
    Progress {
        processor: q,
        steps,
    }
}

// A run of a budget without devices.
pub fn run(memory: &mut [u16], p: Processor, budget: u64) -> Progress
    requires { Good (at p memory.old) }
    ensures { ended result.steps (at result.processor memory.new) ≡ run_of budget (at p memory.old) }
{
    stretch(memory, p, 0, budget, false)
}
