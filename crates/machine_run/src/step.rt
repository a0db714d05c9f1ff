// One step: fetch, execute, interrupt test; or a pause, with devices, before a word of theirs.
ghost use Rattle.std.specs.Prelude.{◌≡◌, ◌^◌, ◌<◌, length};
ghost use Rattle.word.specs.Word.{word_bits};
ghost use Rattle.machine_state.specs.State.{lac_bits, Good};
ghost use Rattle.machine_state.specs.Instruction.{is_device};
ghost use Rattle.machine_state.specs.Processor.{at};
ghost use Rattle.machine_run.specs.Stretch.{input_output_or, advance};

use machine_operate::groups::{first_group, other_groups};
use machine_reference::refer;
use machine_state::Processor;
use machine_state::interrupt::input_output;
use machine_state::memory::load;

// A mark in LAC, and no Option or field: another test in the loop of `stretch` took up to a fifth of the time.
// What a paused machine's LAC has more than it had; its PC is the address of the device's word before which it paused, its RUN is 0.
pub const PAUSED: u64 = machine_state::LAC_VALUES;

// Whether a word is one of device 03 or 04.
fn is_device(i: u64) -> bool
    ensures { result ≡ is_device i }
{
    (i / 8 == 0o603) | (i / 8 == 0o604)
}

// Op 6 of a word that was fetched from `last`. With devices a word of theirs is given back, and the machine is paused.
fn input_output_or(memory: &mut [u16], p: Processor, i: u64, last: u64, devices: bool) -> Processor
    requires first_word { 0 < length memory.old }
    requires lac { p.lac < 2 ^ lac_bits }
    requires pc { p.pc < 2 ^ word_bits }
    requires enable { p.enable < 2 }
    requires request { p.request < 2 }
    ensures { at result memory.new ≡ input_output_or devices i last (at p memory.old) }
{
    if devices & is_device(i) {
        let mut q = p;
        q.pc = last;
        q.lac = p.lac + PAUSED;
        q.run = 0;
        return q;
    }
    input_output(memory, p, i)
}

// One step of the machine, by bits 0 to 3 of the instruction: op, and the bit that tells ib or the first group.
pub fn step(memory: &mut [u16], p: Processor, devices: bool) -> Processor
    requires { Good (at p memory.old) }
    ensures { at result memory.new ≡ advance devices (at p memory.old) }
{
    let last = p.pc;
    let i = load(memory, last);
    let mut q = p;
    q.pc = word::increment(last);
    match i / 256 % 16 {
        12 => input_output_or(memory, q, i, last, devices),
        13 => input_output_or(memory, q, i, last, devices),
        14 => first_group(memory, q, i),
        15 => other_groups(memory, q, i),
        _ => refer(memory, q, i, last),
    }
}
