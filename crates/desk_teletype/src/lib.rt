// A sitting at the teletype: the machine with keyboard and teleprinter, run in turns. Between two turns whoever sits there writes what was printed and fetches keys.
#![tactic(auto)]

pub mod keys;
pub mod words;

ghost use Rattle.std.specs.Prelude.{◌≡◌};
ghost use Rattle.desk_teletype.specs.Sitting.{portion as steps_of, opening, Turned};

use devices::Devices;
use machine_state::Machine;
use state::MEMORY_WORDS;

// The most steps of a turn.
const TURN_STEPS: u64 = 100_000;

// The registers of the machine and of its devices, and how many steps of the budget are left.
#[derive(Clone, Copy)]
pub struct Sitting {
    pub machine: Machine,
    pub devices: Devices,
    pub left: u64,
}

// What a turn leaves: the sitting, the keys that the machine took, the bytes that it printed, and whether another turn follows.
#[derive(Clone, Copy)]
pub struct Turn {
    pub sitting: Sitting,
    pub read: usize,
    pub printed: usize,
    pub more: bool,
}

// Before the first step.
pub fn begin(budget: u64) -> Sitting
    ensures { result ≡ opening budget }
{
    Sitting {
        machine: Machine {
            lac: 0,
            pc: 0o200,
            run: 1,
            enable: 0,
            request: 0,
            switches: 0,
        },
        devices: Devices {
            key: 0,
            keyboard: 0,
            printer: 0,
            print: 0,
            mark: 0,
        },
        left: budget,
    }
}

// The steps that a turn may make.
fn portion(left: u64) -> u64
    ensures { result ≡ steps_of left }
{
    if left < TURN_STEPS { left } else { TURN_STEPS }
}

// One turn, with the keys that were typed and a buffer for what is printed. A buffer that is full ends the turn and not the run: the teletype's paper never ends.
pub fn go_on(memory: &mut [u16; MEMORY_WORDS], s: Sitting, input: &[u8], output: &mut [u8]) -> Turn
    ensures { Turned s memory.old input.now output.old result memory.new output.new }
{
    let m = s.machine;
    let c = s.devices;
    let end = emulator::emulate_devices(memory, m, c, portion(s.left), input, output);
    let devices = end.devices;
    match end.answer {
        Ok(ended) => {
            let machine = ended.machine;
            let left = s.left - ended.steps;
            Turn {
                sitting: Sitting {
                    machine,
                    devices,
                    left,
                },
                read: end.read,
                printed: end.printed,
                more: (machine.run != 0) & (left != 0),
            }
        }
        Err(_) => Turn {
            sitting: Sitting {
                machine: m,
                devices,
                left: s.left,
            },
            read: end.read,
            printed: end.printed,
            more: false,
        },
    }
}
