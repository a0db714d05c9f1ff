// The value of an expression, from its words: postfix, four places a word.
#![tactic(auto)]

ghost use Rattle.std.specs.Prelude.{◌≡◌, ◌+◌, ◌*◌, ◌≤◌, length, get_or};
ghost use Rattle.state.specs.Limits.{memory_words};
ghost use Rattle.rows_value.specs.Words.{leaf_value, word_value, pops as Words·pops, result as result_of, code_places, between};

use rows_store::operation::operate;
use rows_store::shifts::power_of;
use rows_store::{MEMORY_WORDS, register_value};
use text_code::{CODE_PLACES, kinds};
use text_limits::MOST_REGISTERS;

// The places of the stack: one for each piece that an expression may have. It stays an array and a depth, since nothing here may come from a heap.
const STACK_PLACES: usize = 32;

// A register, a bit part of one, or a constant.
fn leaf_value(kind: u16, a: u16, b: u16, c: u16, r: &[u16; MOST_REGISTERS]) -> u16
    ensures { result ≡ leaf_value r.now kind a b c }
{
    if kind == kinds::CONSTANT {
        return a;
    }
    let x = register_value(r, a);
    if kind == kinds::REGISTER {
        return x;
    }
    (x as u32 / power_of(b) % power_of(c)) as u16
}

// How many values a word takes from the stack.
fn pops(kind: u16) -> usize
    ensures { result ≡ Words·pops kind }
{
    if kind < kinds::MEMORY {
        return 0;
    }
    if kind == kinds::JOIN {
        return 2;
    }
    if kind < kinds::SUM { 1 } else { 2 }
}

// What the word at a place yields of what stands at its place of the stack and behind it.
fn word_value(
    code: &[u16; CODE_PLACES],
    at: usize,
    r: &[u16; MOST_REGISTERS],
    memory: &[u16],
    x: u16,
    y: u16,
) -> u16
    requires word_fits { at + 4 ≤ code_places }
    requires whole_memory { length memory.now ≡ memory_words }
    ensures { result ≡ word_value (record { registers = r.now; memory = memory.now })
        (get_or code.now at 0) (get_or code.now (at + 1) 0) (get_or code.now (at + 2) 0) (get_or code.now (at + 3) 0) x y }
{
    let kind = code[at];
    if kind < kinds::MEMORY {
        return leaf_value(kind, code[at + 1], code[at + 2], code[at + 3], r);
    }
    if kind == kinds::MEMORY {
        memory[(x % MEMORY_WORDS) as usize]
    } else {
        operate(kind, code[at + 1], code[at + 2], x, y)
    }
}

// What n words from a place on come to.
fn value_of(
    code: &[u16; CODE_PLACES],
    from: usize,
    n: usize,
    r: &[u16; MOST_REGISTERS],
    memory: &[u16],
) -> u16
    requires words_fit { from + 4 * n ≤ code_places }
    requires whole_memory { length memory.now ≡ memory_words }
    ensures { result ≡ result_of (record { registers = r.now; memory = memory.now }) code.now from n }
{
    let mut stack = [0u16; STACK_PLACES];
    let mut depth = 0;
    for k in 0..n {
        let at = from + 4 * k;
        let base = (depth + STACK_PLACES - pops(code[at])) % STACK_PLACES;
        stack[base] = word_value(
            code,
            at,
            r,
            memory,
            stack[base],
            stack[(base + 1) % STACK_PLACES],
        );
        depth = base + 1;
    }
    stack[0]
}

// The value of the words between two places of the table, 0 where there are none.
pub fn value_between(
    code: &[u16; CODE_PLACES],
    from: u16,
    to: u16,
    r: &[u16; MOST_REGISTERS],
    memory: &[u16],
) -> u16
    requires { length memory.now ≡ memory_words }
    ensures { result ≡ between (record { registers = r.now; memory = memory.now }) code.now from to }
{
    if (from <= to) & (to <= CODE_PLACES as u16) {
        value_of(code, from as usize, ((to - from) / 4) as usize, r, memory)
    } else {
        0
    }
}
