// Ops 0 to 5, which work on the word at an address.
#![tactic(auto)]

pub mod address;
mod operations;

ghost use Rattle.std.specs.Prelude.{◌≡◌, ◌^◌, ◌<◌};
ghost use Rattle.word.specs.Word.{word_bits};
ghost use Rattle.machine_state.specs.State.{Good};
ghost use Rattle.machine_state.specs.Processor.{at};
ghost use Rattle.machine_state.specs.Instruction.{op, ib};
ghost use Rattle.machine_state.specs.Interrupt.{interrupt_test};
ghost use Rattle.machine_reference.specs.Reference.{reference};

use crate::address::{first_address, indirect_address};
use crate::operations::{add_to, and_to, call_at, deposit_at, increment_and_skip, jump_to};
use machine_state::Processor;

// The instruction i of ops 0 to 5 that was fetched from `last`: its address is worked out once, in the arm of its op and ib.
pub fn refer(memory: &mut [u16], p: Processor, i: u64, last: u64) -> Processor
    requires good { Good (at p memory.old) }
    requires instruction { i < 2 ^ word_bits }
    requires last { last < 2 ^ word_bits }
    requires op { op i < 6 }
    ensures { at result memory.new ≡ interrupt_test (reference i last (at p memory.old)) }
{
    match i / 256 % 16 {
        0 => and_to(memory, p, first_address(i, last)),
        2 => add_to(memory, p, first_address(i, last)),
        4 => increment_and_skip(memory, p, first_address(i, last)),
        6 => deposit_at(memory, p, first_address(i, last)),
        8 => call_at(memory, p, first_address(i, last)),
        10 => jump_to(memory, p, first_address(i, last)),
        _ => refer_indirectly(memory, p, i, last),
    }
}

// The same where ib = 1.
fn refer_indirectly(memory: &mut [u16], p: Processor, i: u64, last: u64) -> Processor
    requires good { Good (at p memory.old) }
    requires op { op i < 6 }
    requires indirect { ib i ≡ 1 }
    ensures { at result memory.new ≡ interrupt_test (reference i last (at p memory.old)) }
{
    match i / 256 % 16 {
        1 => {
            let e = indirect_address(memory, i, last);
            and_to(memory, p, e)
        }
        3 => {
            let e = indirect_address(memory, i, last);
            add_to(memory, p, e)
        }
        5 => {
            let e = indirect_address(memory, i, last);
            increment_and_skip(memory, p, e)
        }
        7 => {
            let e = indirect_address(memory, i, last);
            deposit_at(memory, p, e)
        }
        9 => {
            let e = indirect_address(memory, i, last);
            call_at(memory, p, e)
        }
        11 => {
            let e = indirect_address(memory, i, last);
            jump_to(memory, p, e)
        }
        // Nothing else comes here.
        _ => p,
    }
}
