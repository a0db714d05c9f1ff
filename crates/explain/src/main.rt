// The explanation of standard input: reads it in chunks and writes what the library makes of them.
#![tactic(auto)]

ghost use Rattle.std.specs.Prelude.{[], IfOk};
ghost use Rattle.desk_image.specs.Scan.{scan_byte, scan_of, Reached};
ghost use Rattle.desk_inquiry.specs.Scan.{asking, kept};
ghost use Rattle.desk_streams.specs.Scans.{Scans};

use desk_inquiry::Scanner;
use desk_run_lines::PAGE_BYTES;
use state::MEMORY_WORDS;
use std::io::{Read, Result};
use std::process::ExitCode;

// Reads a question to its end into a cleared memory: what the scanner and the memory hold then is what the text that was read leaves. Not inlined, as `explanation` is not: what one
// needs of the stack the other can have.
#[inline(never)]
fn read_question<R: Read>(from: &mut R, memory: &mut [u16; MEMORY_WORDS]) -> Result<Scanner>
    ensures scanned { IfOk result (λ s. Scans (scan_byte asking) (scan_of asking []) (kept s memory.new)
        (R.remaining from.old) (R.remaining from.new)) }
    ensures reached { IfOk result (λ s. Reached asking (kept s memory.new)) }
{
    let mut scanner = desk_inquiry::begin(memory);
    desk_streams::read_all(from, memory, &mut scanner)?;
    Ok(scanner)
}

fn main(rt: HostRuntime) -> ExitCode {
    let mut memory = [0u16; MEMORY_WORDS];
    let scanner = match read_question(&mut rt.stdin(), &mut memory) {
        Ok(scanner) => scanner,
        Err(e) => return desk_streams::fail(&rt.stderr(), rt.alloc(), "explain: read", e),
    };
    let mut page = [0u8; PAGE_BYTES];
    let n = desk_explanation::explanation(&memory, scanner, &mut page);
    match rt.write_all(&page[..n]) {
        Ok(()) => ExitCode::SUCCESS,
        Err(e) => desk_streams::fail(&rt.stderr(), rt.alloc(), "explain: write", e),
    }
}
