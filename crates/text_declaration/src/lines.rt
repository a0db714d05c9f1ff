// The lines that declare something: `reg` and `at`.
ghost use Rattle.std.specs.Prelude.{◌≡◌, true, ◌+◌, ◌≤◌, length, take, drop};
ghost use Rattle.characters.specs.Characters.{same};
ghost use Rattle.text_fields.specs.Fields.{field};
ghost use Rattle.text_names.specs.Dictionaries.{entries};
ghost use Rattle.text_limits.specs.Limits.{most_bytes};
ghost use Rattle.characters.specs.Named.{among};
ghost use Rattle.text_declaration.specs.Lines.{reg_word, at_word, width_of, is_width, is_new_name, add_register, reg_line, is_new_label, add_label, at_line};
ghost use Rattle.text_declaration.specs.Stored.{Within, Plain};

use crate::faults::Fault;
use text_code::WIDEST;
use text_constants::Number;
use text_limits::{MOST_LABELS, MOST_REGISTERS};
use text_names::Dictionary;

// What was read so far: registers and labels, the rows, words and pieces counted, and the line of the first `go` without its label, if there is one.
#[derive(Clone, Copy)]
pub struct Progress {
    pub registers: Dictionary,
    pub labels: Dictionary,
    pub rows: usize,
    pub words: usize,
    pub pieces: usize,
    pub missing: Option<usize>,
}

// Whether a name stands in a dictionary.
fn is_among(text: &[u8], d: Dictionary, name: &[u8]) -> bool
    ensures { result ≡ among name.now (entries text.now d) }
{
    text_names::place_of(text, d, name).is_some()
}

// The width that a number says.
fn width_of(n: Option<Number>) -> u16
    ensures { result ≡ width_of n }
{
    n.map_or(0, |d| d.value)
}

// Whether a field is a register's width, where it reads as a number.
fn is_width(s: &[u8], n: Option<Number>) -> bool
    ensures { result ≡ is_width s.now n }
{
    n.is_some_and(|d| (1 <= d.value) & (d.value <= WIDEST) & (d.place == s.len()))
}

// Whether a field is a name that a register may take.
fn is_new_name(text: &[u8], d: Dictionary, name: &[u8]) -> bool
    ensures { result ≡ is_new_name (entries text.now d) name.now }
{
    text_names::is_name(name) & !text_operators::names::is_reserved(name) & !is_among(text, d, name)
}

// One register more, whose name stands at a start in the text.
fn add_register(
    text: &[u8],
    q: Progress,
    start: usize,
    name: &[u8],
    width: &[u8],
) -> Result<Progress, Fault>
    requires within { Within q }
    requires stands { name.now ≡ take (length name.now) (drop start text.now) }
    requires fits { start + length name.now ≤ most_bytes }
    ensures { Plain text.now (λ p. add_register p name.now width.now) q result }
{
    let n = text_constants::decimal_at(width, 0);
    if !(is_new_name(text, q.registers, name) & is_width(width, n)) {
        return Err(Fault::Register);
    }
    if MOST_REGISTERS <= q.registers.count {
        return Err(Fault::Limit);
    }
    let registers = text_names::with_name(
        q.registers,
        start as u16,
        name.len() as u16,
        width_of(n),
    );
    Ok(Progress { registers, ..q })
}

// Whether a field is a label that an `at` line may bring.
fn is_new_label(text: &[u8], labels: Dictionary, registers: Dictionary, label: &[u8]) -> bool
    ensures { result ≡ is_new_label (entries text.now labels) (entries text.now registers) label.now }
{
    text_names::is_name(label) & !is_among(text, labels, label) & !is_among(text, registers, label)
}

// One label more, which stands at a start in the text.
fn add_label(text: &[u8], q: Progress, start: usize, label: &[u8]) -> Result<Progress, Fault>
    requires within { Within q }
    requires stands { label.now ≡ take (length label.now) (drop start text.now) }
    requires fits { start + length label.now ≤ most_bytes }
    ensures { Plain text.now (λ p. add_label p label.now) q result }
{
    if !is_new_label(text, q.labels, q.registers, label) {
        return Err(Fault::Label);
    }
    if MOST_LABELS <= q.labels.count {
        return Err(Fault::Limit);
    }
    let labels = text_names::with_name(q.labels, start as u16, label.len() as u16, 0);
    Ok(Progress { labels, ..q })
}

// The `reg` line that stands at a place in the text. Its name stands behind four bytes, `reg` and a TAB.
pub fn reg_line(text: &[u8], q: Progress, place: usize, line: &[u8]) -> Result<Progress, Fault>
    requires within { Within q }
    requires stands { line.now ≡ take (length line.now) (drop place text.now) }
    requires fits { place + length line.now ≤ most_bytes }
    requires is_reg { same (field 0 line.now) reg_word ≡ true }
    ensures { Plain text.now (λ p. reg_line p line.now) q result }
{
    if !(text_fields::has_fields(line, 3) & (q.labels.count + q.rows == 0)) {
        return Err(Fault::Line);
    }
    let name = text_fields::field_of(line, 1);
    add_register(text, q, place + 4, name, text_fields::field_of(line, 2))
}

// The `at` line that stands at a place in the text. Its label stands behind three bytes, `at` and a TAB.
pub fn at_line(text: &[u8], q: Progress, place: usize, line: &[u8]) -> Result<Progress, Fault>
    requires within { Within q }
    requires stands { line.now ≡ take (length line.now) (drop place text.now) }
    requires fits { place + length line.now ≤ most_bytes }
    requires is_at { same (field 0 line.now) at_word ≡ true }
    ensures { Plain text.now (λ p. at_line p line.now) q result }
{
    if !text_fields::has_fields(line, 2) {
        return Err(Fault::Line);
    }
    add_label(text, q, place + 3, text_fields::field_of(line, 1))
}
