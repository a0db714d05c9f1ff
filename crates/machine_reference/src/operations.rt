// Ops 0 to 5, each with the step's interrupt test at its end.
ghost use Rattle.std.specs.Prelude.{◌≡◌};
ghost use Rattle.machine_state.specs.State.{Good};
ghost use Rattle.machine_state.specs.Processor.{at};
ghost use Rattle.machine_reference.specs.Reference.{and_to, add_to, increment_and_skip, deposit, call_at, jump_to};
ghost use Rattle.machine_state.specs.Interrupt.{interrupt_test};

use crate::address::Address;
use machine_state::interrupt::interrupt_test;
use machine_state::memory::{load, store};
use machine_state::{LAC_VALUES, Processor};
use word::WORD_VALUES;

// 0: AC = AC And M[e].
pub fn and_to(memory: &mut [u16], p: Processor, e: Address) -> Processor
    requires { Good (at p memory.old) }
    ensures { at result memory.new ≡ interrupt_test (and_to e.number (at p memory.old)) }
{
    let word = load(memory, e.number);
    let mut q = p;
    q.lac = p.lac / WORD_VALUES * WORD_VALUES + (p.lac % WORD_VALUES & word);
    interrupt_test(memory, q)
}

// 1: LAC = LAC + M[e].
pub fn add_to(memory: &mut [u16], p: Processor, e: Address) -> Processor
    requires { Good (at p memory.old) }
    ensures { at result memory.new ≡ interrupt_test (add_to e.number (at p memory.old)) }
{
    let word = load(memory, e.number);
    let mut q = p;
    q.lac = (p.lac + word) % LAC_VALUES;
    interrupt_test(memory, q)
}

// 2: increase M[e]; if it is now 0, PC + 1.
pub fn increment_and_skip(memory: &mut [u16], p: Processor, e: Address) -> Processor
    requires { Good (at p memory.old) }
    ensures { at result memory.new ≡ interrupt_test (increment_and_skip e.number (at p memory.old)) }
{
    let word = word::increment(load(memory, e.number));
    store(memory, e.number, word);
    if word != 0 {
        return interrupt_test(memory, p);
    }
    let mut q = p;
    q.pc = word::increment(p.pc);
    interrupt_test(memory, q)
}

// 3: M[e] = AC, then AC = 0.
pub fn deposit_at(memory: &mut [u16], p: Processor, e: Address) -> Processor
    requires { Good (at p memory.old) }
    ensures { at result memory.new ≡ interrupt_test (deposit e.number (at p memory.old)) }
{
    store(memory, e.number, p.lac % WORD_VALUES);
    let mut q = p;
    q.lac = p.lac / WORD_VALUES * WORD_VALUES;
    interrupt_test(memory, q)
}

// 4: M[e] = PC, then PC = e + 1.
pub fn call_at(memory: &mut [u16], p: Processor, e: Address) -> Processor
    requires { Good (at p memory.old) }
    ensures { at result memory.new ≡ interrupt_test (call_at e.number (at p memory.old)) }
{
    store(memory, e.number, p.pc);
    let mut q = p;
    q.pc = word::increment(e.number);
    interrupt_test(memory, q)
}

// 5: PC = e.
pub fn jump_to(memory: &mut [u16], p: Processor, e: Address) -> Processor
    requires { Good (at p memory.old) }
    ensures { at result memory.new ≡ interrupt_test (jump_to e.number (at p memory.old)) }
{
    let mut q = p;
    q.pc = e.number;
    interrupt_test(memory, q)
}
