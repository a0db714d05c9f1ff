// What the last step of a run did: its instruction, and the words of memory that it changed.
#![tactic(auto)]

pub mod on_page;

ghost use Rattle.std.specs.Prelude.{◌≡◌, ◌+◌, ◌<◌, ◌≤◌, ◌++◌, length};
ghost use Rattle.desk_last_step.specs.LastStep.{placed, last_line, change_line, change_lines, last_step};
ghost use Rattle.desk_last_step.specs.Sizes.{last_line_bytes};

use characters::LINE_FEED;
use desk_mnemonics::put_mnemonic;
use page::Draft;

// A line's first three fields: its first word, an address, the word there.
fn put_place<const N: usize>(draft: &mut Draft<N>, first: &[u8], address: u64, word: u16)
    requires { length draft.old + length first.now + 10 ≤ N }
    ensures { draft.new ≡ draft.old ++ placed first.now address word }
{
    draft.put_text(first);
    draft.put_field(4, address);
    draft.put_field(4, word as u64);
}

// The line of an instruction.
fn put_instruction<const N: usize>(draft: &mut Draft<N>, devices: bool, address: u16, word: u16)
    requires { length draft.old + last_line_bytes ≤ N }
    ensures { draft.new ≡ draft.old ++ last_line devices address word }
{
    put_place(draft, b"last", address as u64, word);
    put_mnemonic(draft, devices, word, address);
    draft.put_byte(LINE_FEED);
}

// The line of a word that changed; nothing of one that did not.
fn put_word<const N: usize>(draft: &mut Draft<N>, address: u64, before: u16, after: u16)
    requires { length draft.old + length (change_line address before after) ≤ N }
    ensures { draft.new ≡ draft.old ++ change_line address before after }
{
    if before != after {
        put_place(draft, b"word", address, before);
        draft.put_field(4, after as u64);
        draft.put_byte(LINE_FEED);
    }
}

// The lines of the words that changed.
fn put_words<const N: usize>(draft: &mut Draft<N>, before: &[u16], after: &[u16])
    requires room { length draft.old + length (change_lines 0 before.now after.now) ≤ N }
    requires whole { length after.now ≡ length before.now }
    ensures { draft.new ≡ draft.old ++ change_lines 0 before.now after.now }
{
    for (address, word) in before.iter().enumerate() {
        put_word(draft, address as u64, *word, after[address]);
    }
}

// The lines of a run's last step, on the machine with devices or without, by its number, PC and memory before it, and memory after it; none where there was no step.
pub fn put_last_step<const N: usize>(
    draft: &mut Draft<N>,
    devices: bool,
    steps: u64,
    pc: u16,
    before: &[u16],
    after: &[u16],
)
    requires room { length draft.old + last_line_bytes + length (change_lines 0 before.now after.now) ≤ N }
    requires inside { pc < length before.now }
    requires whole { length after.now ≡ length before.now }
    ensures { draft.new ≡ draft.old ++ last_step devices steps pc before.now after.now }
{
    if steps != 0 {
        put_instruction(draft, devices, pc, before[pc as usize]);
        put_words(draft, before, after);
    }
}
