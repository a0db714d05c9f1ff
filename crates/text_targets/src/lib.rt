// Which lines are rows, and where a `go` leads.
#![tactic(auto)]

ghost use Rattle.std.specs.Prelude.{◌≡◌, ◌≤◌, length};
ghost use Rattle.text_fields.specs.Fields.{lines};
ghost use Rattle.text_limits.specs.Limits.{most_bytes};
ghost use Rattle.text_targets.specs.Targets.{is_at, is_row, passes as Targets·passes};

use text_fields::by_line::lines_of;

// Whether a line is the `at` line of a label.
fn is_at(line: &[u8], label: &[u8]) -> bool
    ensures { result ≡ is_at label.now line.now }
{
    characters::is_same(text_fields::field_of(line, 0), b"at")
        & characters::is_same(text_fields::field_of(line, 1), label)
}

// Whether a line is a row.
pub fn is_row(line: &[u8]) -> bool
    ensures { result ≡ is_row line.now }
{
    let first = text_fields::field_of(line, 0);
    characters::is_same(first, b"do") | characters::is_same(first, b"go")
}

// The rows down to the line of a label, among the lines of what stands below: none where the label isn't there.
pub fn passes(label: &[u8], below: &[u8]) -> Option<u16>
    requires { length below.now ≤ most_bytes }
    ensures { result ≡ Targets·passes label.now (lines below.now) }
{
    let mut n = 0;
    for line in lines_of(below) {
        if is_at(line.bytes, label) {
            return Some(n);
        }
        if is_row(line.bytes) {
            n += 1;
        }
    }
    None
}
