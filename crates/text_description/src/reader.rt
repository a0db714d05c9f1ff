// The whole text: line by line, then what is looked for after all lines.
ghost use Rattle.std.specs.Prelude.{◌≡◌, ◌≤◌, length};
ghost use Rattle.characters.specs.Ascii.{line_feed};
ghost use Rattle.text_fields.specs.Fields.{after, lines};
ghost use Rattle.text_names.specs.Dictionaries.{entries};
ghost use Rattle.text_limits.specs.Limits.{most_bytes};
ghost use Rattle.text_description.specs.Description.{has_run, read_below, read_text};
ghost use Rattle.text_description.specs.Stored.{unread, Finishes, Tells, Leaves};

use crate::line;
use characters::LINE_FEED;
use text_code::CODE_PLACES;
use text_code::row_table::TABLE_CELLS;
use text_declaration::faults::Fault;
use text_declaration::lines::Progress;
use text_fields::by_line::lines_of;
use text_limits::MOST_BYTES;
use text_names::Dictionary;

// A description that was read: the registers, with their widths, and the number of rows.
#[derive(Clone, Copy)]
pub struct Description {
    pub registers: Dictionary,
    pub rows: usize,
}

// What a text is turned down for, and the line.
#[derive(Clone, Copy, PartialEq, Eq, Debug)]
pub struct Refusal {
    pub fault: Fault,
    pub line: usize,
}

// Whether there is a register RUN of width 1.
fn has_run(text: &[u8], registers: Dictionary) -> bool
    ensures { result ≡ has_run (entries text.now registers) }
{
    text_names::place_of(text, registers, b"RUN").is_some_and(|place| text_names::number_of(
        registers, place,
    ) == 1)
}

// The verdict after all lines, of which n would be the next.
fn verdict_of(text: &[u8], q: Progress, n: usize) -> Result<(), Refusal>
    ensures { Finishes text.now q n result }
{
    if let Some(line) = q.missing {
        return Err(Refusal {
            fault: Fault::Label,
            line: line,
        });
    }
    if !has_run(text, q.registers) {
        return Err(Refusal {
            fault: Fault::Run,
            line: n,
        });
    }
    Ok(())
}

// Nothing read yet.
fn start() -> Progress
    ensures { result ≡ unread }
{
    Progress {
        registers: text_names::empty(),
        labels: text_names::empty(),
        rows: 0,
        words: 0,
        pieces: 0,
        missing: None,
    }
}

// The lines below the header.
fn read_lines(
    text: &[u8],
    code: &mut [u16; CODE_PLACES],
    table: &mut [u16; TABLE_CELLS],
) -> Result<Description, Refusal>
    requires { length text.now ≤ most_bytes }
    ensures { Tells (read_below (lines (after line_feed text.now))) text.now result
        code.old code.new table.old table.new }
{
    let mut q = start();
    let mut n = 2;
    for line in lines_of(text_fields::part_after(text, LINE_FEED)) {
        q = match line::read_line(text, q, n, line, code, table) {
            Ok(next) => next,
            Err(fault) => {
                return Err(Refusal {
                    fault: fault,
                    line: n,
                });
            }
        };
        n += 1;
    }
    verdict_of(text, q, n)?;
    Ok(Description {
        registers: q.registers,
        rows: q.rows,
    })
}

// Size, header, and the lines.
fn read_text(
    text: &[u8],
    code: &mut [u16; CODE_PLACES],
    table: &mut [u16; TABLE_CELLS],
) -> Result<Description, Refusal>
    ensures { Tells (read_text text.now) text.now result
        code.old code.new table.old table.new }
{
    if MOST_BYTES < text.len() {
        return Err(Refusal {
            fault: Fault::Size,
            line: 0,
        });
    }
    let header = text_fields::part_before(text, LINE_FEED);
    if !characters::is_same(header, b"rows\t1") {
        return Err(Refusal {
            fault: Fault::Header,
            line: 1,
        });
    }
    if header.len() == text.len() {
        return Err(Refusal {
            fault: Fault::Line,
            line: 1,
        });
    }
    read_lines(text, code, table)
}

// Reads a description: what it says goes into the lent tables, which are empty after a refusal.
pub fn read(
    text: &[u8],
    code: &mut [u16; CODE_PLACES],
    table: &mut [u16; TABLE_CELLS],
) -> Result<Description, Refusal>
    ensures { Leaves (read_text text.now) text.now result
        code.old code.new table.old table.new }
{
    let answer = read_text(text, code, table);
    if answer.is_err() {
        *code = [0; CODE_PLACES];
        *table = [0; TABLE_CELLS];
    }
    answer
}
