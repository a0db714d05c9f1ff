// The same lines on a page of any length, from a place on: line by line, each a draft that is copied to the page.
ghost use Rattle.std.specs.Prelude.{◌≡◌, ◌+◌, ◌<◌, ◌≤◌, length};
ghost use Rattle.page.specs.Written.{Written};
ghost use Rattle.desk_last_step.specs.LastStep.{last_line, change_line, change_lines, last_step};
ghost use Rattle.desk_last_step.specs.Sizes.{last_line_bytes};

use crate::{put_instruction, put_word};
use page::Draft;

// The bytes of a draft for the line of an instruction, and for that of a word.
const LAST_LINE_BYTES: usize = 170;

const WORD_LINE_BYTES: usize = 20;

// The line of an instruction.
fn put_last_line(page: &mut [u8], at: usize, devices: bool, address: u16, word: u16) -> usize
    requires { at + last_line_bytes ≤ length page.old }
    ensures text { Written (last_line devices address word) page.old at page.new result }
    ensures room { result ≤ at + last_line_bytes }
{
    let mut draft: Draft<LAST_LINE_BYTES> = Draft::new();
    put_instruction(&mut draft, devices, address, word);
    draft.copy_at(page, at)
}

// The line of a word that changed; nothing of one that did not.
fn put_change(page: &mut [u8], at: usize, address: u64, before: u16, after: u16) -> usize
    requires { at + length (change_line address before after) ≤ length page.old }
    ensures { Written (change_line address before after) page.old at page.new result }
{
    if before == after {
        return at;
    }
    let mut draft: Draft<WORD_LINE_BYTES> = Draft::new();
    put_word(&mut draft, address, before, after);
    draft.copy_at(page, at)
}

// The lines of the words that changed.
fn put_changes(page: &mut [u8], at: usize, before: &[u16], after: &[u16]) -> usize
    requires room { at + length (change_lines 0 before.now after.now) ≤ length page.old }
    requires whole { length after.now ≡ length before.now }
    ensures { Written (change_lines 0 before.now after.now) page.old at page.new result }
{
    let mut end = at;
    for (address, word) in before.iter().enumerate() {
        end = put_change(page, end, address as u64, *word, after[address]);
    }
    end
}

// The lines of a run's last step, on the machine with devices or without, by its number, PC and memory before it, and memory after it; none where there was no step.
pub fn put_last_step(
    page: &mut [u8],
    at: usize,
    devices: bool,
    steps: u64,
    pc: u16,
    before: &[u16],
    after: &[u16],
) -> usize
    requires room { at + last_line_bytes + length (change_lines 0 before.now after.now) ≤ length page.old }
    requires inside { pc < length before.now }
    requires whole { length after.now ≡ length before.now }
    ensures { Written (last_step devices steps pc before.now after.now) page.old at page.new result }
{
    if steps == 0 {
        return at;
    }
    let end = put_last_line(page, at, devices, pc, before[pc as usize]);
    put_changes(page, end, before, after)
}
