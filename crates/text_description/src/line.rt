// One line: whether it is fit, and what it comes to by its first word.
ghost use Rattle.std.specs.Prelude.{◌≡◌, ◌≤◌, length};
ghost use Rattle.characters.specs.Ascii.{line_feed};
ghost use Rattle.text_fields.specs.Fields.{before, after, lines};
ghost use Rattle.text_fields.specs.Rests.{first_line, Rest};
ghost use Rattle.text_fields.specs.Steps.{Stands};
ghost use Rattle.text_limits.specs.Limits.{most_bytes};
ghost use Rattle.text_declaration.specs.Stored.{Within};
ghost use Rattle.text_targets.specs.Targets.{lacks_label};
ghost use Rattle.text_rows.specs.Stored.{Takes, first_gone};
ghost use Rattle.text_description.specs.Line.{is_fit, read_line};

use characters::Class;
use text_code::CODE_PLACES;
use text_code::row_table::TABLE_CELLS;
use text_declaration::faults::Fault;
use text_declaration::lines;
use text_declaration::lines::Progress;
use text_fields::by_line::Line;
use text_limits::LONGEST_LINE;
use text_rows::rows;

// Whether a line ends with LF, is short enough, and holds only bytes that a line may hold.
fn is_fit(line: Line<'_>) -> bool
    ensures { result ≡ is_fit (record { bytes = line.entry.bytes.now; ended = line.entry.ended }) }
{
    let bytes = line.bytes;
    let end = characters::run_end(bytes, 0, Class::Printable);
    line.ended & (bytes.len() <= LONGEST_LINE) & (end == bytes.len())
}

// Line n of a text.
pub(crate) fn read_line(
    text: &[u8],
    q: Progress,
    n: usize,
    line: Line<'_>,
    code: &mut [u16; CODE_PLACES],
    table: &mut [u16; TABLE_CELLS],
) -> Result<Progress, Fault>
    requires within { Within q }
    requires text_short { length text.now ≤ most_bytes }
    requires is_rest { Rest text.now line.rest.now }
    requires stands { Stands line }
    ensures { Takes text.now (λ p. read_line p (lines (after line_feed line.entry.rest.now)) (first_line line.entry.rest.now))
        (first_gone (lacks_label (before line_feed line.entry.rest.now) (lines (after line_feed line.entry.rest.now))) n q.missing) q result
        code.old code.new table.old table.new }
{
    if !is_fit(line) {
        return Err(Fault::Line);
    }
    let bytes = line.bytes;
    let word = text_fields::field_of(bytes, 0);
    if characters::is_same(word, b"reg") {
        return lines::reg_line(text, q, text.len() - line.rest.len(), bytes);
    }
    if characters::is_same(word, b"do") {
        return rows::do_line(text, q, bytes, code, table);
    }
    if characters::is_same(word, b"go") {
        return rows::go_line(text, q, n, bytes, line.below, code, table);
    }
    if characters::is_same(word, b"at") {
        return lines::at_line(text, q, text.len() - line.rest.len(), bytes);
    }
    Err(Fault::Line)
}
