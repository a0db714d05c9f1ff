// What a program asks of its streams: a read, all of an input scanned, the line that says what failed, and the status to end with.
#![tactic(auto)]

ghost use Rattle.std.specs.Prelude.{◌≡◌, ◌≢◌, ◌<◌, ◌≤◌, [], length, IfOk, OnOk, IfErr};
ghost use Rattle.std.specs.Io.{StartsWith};
ghost use Rattle.std.specs.Io.KnownBytes.{Consumes, IsAtEnd};
ghost use Rattle.std.specs.IoError.{error_kind};
ghost use Rattle.std.specs.Process.{exit_status};
ghost use Rattle.desk_image.specs.Read.{bytes_read};
ghost use Rattle.desk_image.specs.Scan.{scan_byte, scan_of, kept_by, words, kept, Reached};
ghost use Rattle.desk_streams.specs.Scans.{Scans};

use desk_image::scan::{Lines, Scanner};
use state::MEMORY_WORDS;
use std::alloc::Global;
use std::io::{Error, ErrorKind, Print, Read, Result};
use std::process::ExitCode;

// The status of a program whose reader has left, as a shell says it of one that the signal PIPE ended.
const READER_LEFT: u8 = 141;

// Reads once: how many bytes it put at the start of the buffer.
pub fn read<R: Read>(from: &mut R, buffer: &mut [u8]) -> Result<usize>
    ensures bound { IfOk result (λ n. n ≤ length buffer.new) }
    ensures bytes { Consumes (R.remaining from.old) (R.remaining from.new) (bytes_read result buffer.new) }
    ensures end { IfOk result (λ n. n ≡ 0 → 0 < length buffer.new → IsAtEnd (R.remaining from.new)) }
{
    from.read(buffer)
}

// Reads once, and scans what was read. Answers as the read did: 0 at the end alone.
fn read_some<R: Read, L: Lines<N>, const N: usize>(
    from: &mut R,
    memory: &mut [u16; MEMORY_WORDS],
    s: &mut Scanner<L, N>,
) -> Result<usize>
    ensures end { IfOk result (λ n. n ≡ 0 → IsAtEnd (R.remaining from.new)) }
    ensures scans { Scans (scan_byte L.reading) (kept_by L.made s.old memory.old) (kept_by L.made s.new memory.new)
        (R.remaining from.old) (R.remaining from.new) }
{
    let mut buffer = io::large_buffer();
    let got = read(from, &mut buffer);
    s.after_read(memory, got, &buffer)
}

// Reads to the end, or until a read fails, and scans what was read. A proved loop has to end, so it counts its reads, up to a number that no run uses up.
pub fn read_all<R: Read, L: Lines<N>, const N: usize>(
    from: &mut R,
    memory: &mut [u16; MEMORY_WORDS],
    s: &mut Scanner<L, N>,
) -> Result<()>
    ensures { Scans (scan_byte L.reading) (kept_by L.made s.old memory.old) (kept_by L.made s.new memory.new)
        (R.remaining from.old) (R.remaining from.new) }
{
    for _ in 0..u64::MAX {
        if read_some(from, memory, s)? == 0 {
            break;
        }
    }
    Ok(())
}

// Reads an image to its end into a cleared memory: what the scanner and the memory hold then is what the text that was read leaves.
pub fn read_image<R: Read>(
    from: &mut R,
    memory: &mut [u16; MEMORY_WORDS],
) -> Result<desk_image::Scanner>
    ensures scanned { IfOk result (λ s. Scans (scan_byte words) (scan_of words []) (kept s memory.new)
        (R.remaining from.old) (R.remaining from.new)) }
    ensures reached { IfOk result (λ s. Reached words (kept s memory.new)) }
{
    let mut scanner = desk_image::begin(memory);
    read_all(from, memory, &mut scanner)?;
    Ok(scanner)
}

// The status after a write, where nobody is told that it failed.
pub fn ended(written: Result<()>) -> ExitCode
    ensures written { OnOk written (exit_status result ≡ 0) }
    ensures left { IfErr written (λ e. error_kind e ≡ ErrorKind.BrokenPipe → exit_status result ≡ READER_LEFT) }
    ensures failed { IfErr written (λ e. error_kind e ≢ ErrorKind.BrokenPipe → exit_status result ≡ 0) }
    ensures either { exit_status result ≢ 0 → exit_status result ≡ READER_LEFT }
{
    match written {
        Err(e) if e.kind() == ErrorKind::BrokenPipe => ExitCode::from(READER_LEFT),
        _ => ExitCode::SUCCESS,
    }
}

// Tells what failed and why, in one line, and answers the status. Where a reader has left nothing is told.
pub fn fail<P: Print>(told: &P, alloc: Global, what: &str, error: Error) -> ExitCode
    ensures left { error_kind error ≡ ErrorKind.BrokenPipe → exit_status result ≡ READER_LEFT }
    ensures either { exit_status result ≢ 0 → exit_status result ≡ READER_LEFT }
{
    if error.kind() == ErrorKind::BrokenPipe {
        return ExitCode::from(READER_LEFT);
    }
    ended(tell(told, alloc, what, error))
}

// The line. Where no memory is left to cut it from the error's text, the error's number stands there too.
fn tell<P: Print>(told: &P, alloc: Global, what: &str, error: Error) -> Result<()> {
    match error.to_string(alloc) {
        Ok(text) => {
            let words = words_of(text.as_str());
            println!(told; "{what}: {words}")
        }
        Err(_) => println!(told; "{what}: {error}"),
    }
}

// The words of an error's text, without its number.
fn words_of(text: &str) -> &str
    ensures { StartsWith text.now result.now }
{
    match text.split_once(" (os error ") {
        Some((words, _)) => words,
        None => text,
    }
}
