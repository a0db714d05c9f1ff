// The machine with keyboard and teleprinter: the eight instructions of the two, and a run.
#![tactic(auto)]

mod instructions;
pub mod run;
mod work;

use devices::Devices;
use machine_state::Processor;

// The machine's registers, and the devices'.
#[derive(Clone, Copy)]
pub struct Console {
    pub processor: Processor,
    pub devices: Devices,
}
