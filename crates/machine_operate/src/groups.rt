// The three groups, each with the step's interrupt test at its end, which a halt omits.
ghost use Rattle.std.specs.Prelude.{◌≡◌, not, ◌^◌, ◌<◌};
ghost use Rattle.word.specs.Choice.{on, pick};
ghost use Rattle.word.specs.Word.{word_bits};
ghost use Rattle.machine_state.specs.Instruction.{flag};
ghost use Rattle.machine_state.specs.State.{lac_bits, Good};
ghost use Rattle.machine_state.specs.Processor.{at};
ghost use Rattle.machine_state.specs.Interrupt.{interrupt_test, tested_if};
ghost use Rattle.machine_operate.specs.Operate.{switched, group2, group3, clears_run, operate};

use crate::accumulator::{change, clear};
use crate::rotate::increase_and_rotate;
use crate::skip::skip;
use machine_state::Processor;
use machine_state::interrupt::interrupt_test;
use word::WORD_VALUES;

const OTHER_GROUPS: u64 = 0o400;

const OSR: u64 = 0o4;

const HLT: u64 = 0o2;

const THIRD: u64 = 0o1;

// Bit 9 ors SWITCHES into AC.
fn or_switches(i: u64, switches: u64, lac: u64) -> u64
    requires lac { lac < 2 ^ lac_bits }
    requires switches { switches < 2 ^ word_bits }
    ensures { result ≡ switched i switches lac }
{
    if i / OSR % 2 != 0 {
        lac / WORD_VALUES * WORD_VALUES + (lac % WORD_VALUES | switches)
    } else {
        lac
    }
}

// Bit 10 sets RUN to 0.
fn halt(i: u64, run: u64) -> u64
    ensures { result ≡ pick (on (flag 10 i)) 0 run }
{
    if i / HLT % 2 != 0 { 0 } else { run }
}

// Whether an instruction of op 7 sets RUN to 0.
#[tactic(auto, unfolding(crate::specs::Operate::clears_run))]
pub fn clears_run(i: u64) -> bool
    ensures { result ≡ clears_run i }
{
    (i / OTHER_GROUPS % 2 != 0) & !(i / THIRD % 2 != 0) & (i / HLT % 2 != 0)
}

// Op 7, bit 3 = 0.
pub fn first_group(memory: &mut [u16], p: Processor, i: u64) -> Processor
    requires good { Good (at p memory.old) }
    requires first { flag 3 i ≡ 0 }
    ensures { at result memory.new ≡ interrupt_test (operate i (at p memory.old)) }
{
    let mut q = p;
    q.lac = increase_and_rotate(i, change(i, p.lac));
    interrupt_test(memory, q)
}

// Op 7, bit 3 = 1, bit 11 = 0. Few instructions ask for SWITCHES or a halt.
fn second_group(memory: &mut [u16], p: Processor, i: u64) -> Processor
    requires { Good (at p memory.old) }
    ensures { at result memory.new ≡ tested_if interrupt_test (not (on (flag 10 i))) (group2 i (at p memory.old)) }
{
    let mut q = p;
    q.pc = skip(i, p.lac, p.pc);
    if i / HLT % 4 == 0 {
        q.lac = clear(i, p.lac);
        return interrupt_test(memory, q);
    }
    q.lac = or_switches(i, p.switches, clear(i, p.lac));
    q.run = halt(i, p.run);
    if i / HLT % 2 != 0 {
        return q;
    }
    interrupt_test(memory, q)
}

// Op 7, bit 3 = 1, bit 11 = 1.
fn third_group(memory: &mut [u16], p: Processor, i: u64) -> Processor
    requires { Good (at p memory.old) }
    ensures { at result memory.new ≡ interrupt_test (group3 i (at p memory.old)) }
{
    let mut q = p;
    q.lac = clear(i, p.lac);
    interrupt_test(memory, q)
}

// Op 7, bit 3 = 1: bit 11 tells the third group from the second.
pub fn other_groups(memory: &mut [u16], p: Processor, i: u64) -> Processor
    requires good { Good (at p memory.old) }
    requires other { flag 3 i ≡ 1 }
    ensures { at result memory.new ≡ tested_if interrupt_test (not (clears_run i)) (operate i (at p memory.old)) }
{
    if i / THIRD % 2 != 0 {
        third_group(memory, p, i)
    } else {
        second_group(memory, p, i)
    }
}
