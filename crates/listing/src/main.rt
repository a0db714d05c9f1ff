// The day listing of standard input: reads it in chunks and writes what the library makes of them.
#![tactic(auto)]

use desk_day_listing::PAGE_BYTES;
use state::MEMORY_WORDS;
use std::process::ExitCode;

fn main(rt: HostRuntime) -> ExitCode {
    let mut memory = [0u16; MEMORY_WORDS];
    let scanner = match desk_streams::read_image(&mut rt.stdin(), &mut memory) {
        Ok(scanner) => scanner,
        Err(e) => return desk_streams::fail(&rt.stderr(), rt.alloc(), "listing: read", e),
    };
    let mut page = [0u8; PAGE_BYTES];
    let n = desk_day_listing::listing(&memory, scanner, &mut page);
    match rt.write_all(&page[..n]) {
        Ok(()) => ExitCode::SUCCESS,
        Err(e) => desk_streams::fail(&rt.stderr(), rt.alloc(), "listing: write", e),
    }
}
