// Emulator and evaluator beside each other, on the shipped description of the PDP-8, with devices or without.
#![tactic(auto)]

ghost use Rattle.std.specs.Prelude.{◌≡◌};
ghost use Rattle.emulator.specs.Emulate as emulator;
ghost use Rattle.evaluator.specs.Evaluate as evaluator;
ghost use Rattle.shipped_rows.specs.Variant.{variant_of};
ghost use Rattle.shipped.specs.Claim.{emulation, evaluation, Together};

use devices::Devices;
use machine_state::Machine;
use rows_store::Registers;

// What the two programs answer.
#[derive(Clone, Copy)]
pub struct Both {
    pub emulated: emulator::DeviceAnswer,
    pub evaluated: evaluator::DeviceAnswer,
}

// The emulator, by the entry of its variant; without devices theirs stay, and nothing is read or printed.
pub fn emulate_variant(
    devices: bool,
    memory: &mut [u16],
    m: Machine,
    c: Devices,
    budget: u64,
    input: &[u8],
    output: &mut [u8],
) -> emulator::DeviceAnswer
    ensures { emulator.device_report m result memory.new output.new
        ≡ emulation (variant_of devices) m c memory.old budget input.now output.old }
{
    if devices {
        return emulator::emulate_devices(memory, m, c, budget, input, output);
    }
    emulator::DeviceAnswer {
        answer: emulator::emulate(memory, m, budget),
        devices: c,
        read: 0,
        printed: 0,
    }
}

// The evaluator on the shipped description of the variant, by its entry; without devices nothing is read or printed.
pub fn evaluate_variant(
    devices: bool,
    memory: &mut [u16],
    registers: Registers,
    budget: u64,
    rows: &mut [u8],
    input: &[u8],
    output: &mut [u8],
) -> evaluator::DeviceAnswer
    ensures { evaluator.device_report result memory.new rows.new output.new
        ≡ evaluation (variant_of devices) registers.values memory.old budget rows.old input.now output.old }
{
    let text = shipped_rows::shipped_text(devices);
    if devices {
        return evaluator::evaluate_devices(text, memory, registers, budget, rows, input, output);
    }
    evaluator::DeviceAnswer {
        answer: evaluator::evaluate(text, memory, registers, budget, rows),
        read: 0,
        printed: 0,
    }
}

// Emulator and evaluator, each on its own memory and output.
pub fn run_both(
    devices: bool,
    first: &mut [u16],
    second: &mut [u16],
    m: Machine,
    c: Devices,
    registers: Registers,
    budget: u64,
    rows: &mut [u8],
    input: &[u8],
    left: &mut [u8],
    right: &mut [u8],
) -> Both
    ensures { Together (variant_of devices) m c registers.values first.old second.old budget rows.old
        input.now left.old right.old
        (emulator.device_report m result.emulated first.new left.new)
        (evaluator.device_report result.evaluated second.new rows.new right.new) }
{
    let emulated = emulate_variant(devices, first, m, c, budget, input, left);
    let evaluated = evaluate_variant(devices, second, registers, budget, rows, input, right);
    Both {
        emulated,
        evaluated,
    }
}
