// The teletype: runs an image with standard input as the keyboard and standard output as the printer. Argument 1 is the budget, argument 2 the image's name. How the run ended,
// or the image's first unfit line, goes to standard error.
#![tactic(auto)]

ghost use Rattle.std.specs.Prelude.{◌+◌, ◌≤◌, length, IfOk};
ghost use Rattle.desk_teletype.specs.Keys.{key_bytes};

use desk_teletype::keys::{KEY_BYTES, Keys};
use desk_teletype::words::LINE_BYTES;
use desk_teletype::{Sitting, keys, words};
use state::MEMORY_WORDS;
use std::env::Env;
use std::fs::{File, Files};
use std::io::{Error, ErrorKind, IsTerminal, Print, Read};
use std::process::ExitCode;

// What the keyboard or the printer failed by.
#[derive(Clone, Copy)]
enum Fault {
    Keyboard(Error),
    Printer(Error),
}

// A run so far: the keys that the machine has not taken, and whether another turn follows.
#[derive(Clone, Copy)]
struct Course {
    sitting: Sitting,
    keys: Keys,
    more: bool,
}

// Reads the keyboard once, where keys are wanted.
fn fetch<K: Read>(
    keyboard: &mut K,
    buffer: &mut [u8; KEY_BYTES],
    k: Keys,
    terminal: bool,
) -> Result<Keys, Fault>
    requires { k.at + k.left ≤ key_bytes }
    ensures { IfOk result (λ keys. keys.at + keys.left ≤ key_bytes) }
{
    if !keys::wanted(k) {
        return Ok(k);
    }
    let read = desk_streams::read(keyboard, buffer);
    let next = keys::after_read(read, terminal);
    match read {
        Ok(_) => Ok(next),
        Err(e) => Err(Fault::Keyboard(e)),
    }
}

// A turn with the keys that were fetched: what it prints is written at once.
fn turn<P: Print>(
    printer: &P,
    memory: &mut [u16; MEMORY_WORDS],
    buffer: &[u8; KEY_BYTES],
    k: Keys,
    s: Sitting,
) -> Result<Course, Fault>
    requires { k.at + k.left ≤ key_bytes }
    ensures keys { IfOk result (λ c. c.keys.at + c.keys.left ≤ key_bytes) }
    ensures left { IfOk result (λ c. c.sitting.left ≤ s.left) }
{
    let mut paper = io::buffer();
    let t = desk_teletype::go_on(memory, s, keys::unread(buffer, k), &mut paper);
    match printer.write_all(&paper[..t.printed]) {
        Ok(()) => Ok(Course {
            sitting: t.sitting,
            keys: keys::taken(k, t.read),
            more: t.more,
        }),
        Err(e) => Err(Fault::Printer(e)),
    }
}

// One turn more.
fn next<K: Read, P: Print>(
    keyboard: &mut K,
    printer: &P,
    memory: &mut [u16; MEMORY_WORDS],
    buffer: &mut [u8; KEY_BYTES],
    c: Course,
    terminal: bool,
) -> Result<Course, Fault>
    requires { c.keys.at + c.keys.left ≤ key_bytes }
    ensures { IfOk result (λ d. (d.keys.at + d.keys.left ≤ key_bytes) × (d.sitting.left ≤ c.sitting.left)) }
{
    let k = fetch(keyboard, buffer, c.keys, terminal)?;
    turn(printer, memory, buffer, k, c.sitting)
}

// The turns of a budget, counted as the reads are.
fn run<K: Read + IsTerminal, P: Print>(
    keyboard: &mut K,
    printer: &P,
    memory: &mut [u16; MEMORY_WORDS],
    budget: u64,
) -> Result<Sitting, Fault>
    ensures { IfOk result (λ s. s.left ≤ budget) }
{
    let terminal = keyboard.is_terminal();
    let mut buffer = io::large_buffer();
    let mut so_far = Course {
        sitting: desk_teletype::begin(budget),
        keys: keys::begin(),
        more: true,
    };
    for _ in 0..u64::MAX {
        if !so_far.more {
            break;
        }
        so_far = next(keyboard, printer, memory, &mut buffer, so_far, terminal)?;
    }
    Ok(so_far.sitting)
}

// Runs the image of a file.
fn sit(rt: HostRuntime, image: &mut File, budget: u64) -> ExitCode {
    let mut memory = [0u16; MEMORY_WORDS];
    let mut page = [0u8; LINE_BYTES];
    let scanner = match desk_streams::read_image(image, &mut memory) {
        Ok(scanner) => scanner,
        Err(e) => return desk_streams::fail(&rt.stderr(), rt.alloc(), "teletype: image", e),
    };
    if let Some(unfit) = desk_image::unfit_line(scanner) {
        let n = desk_last_lines::put_refused_line(&mut page, unfit);
        return desk_streams::ended(rt.stderr().write_all(&page[..n]));
    }
    match run(&mut rt.stdin(), &rt.stdout(), &mut memory, budget) {
        Ok(end) => {
            let n = words::put_end(&mut page, end, budget);
            desk_streams::ended(rt.stderr().write_all(&page[..n]))
        }
        Err(Fault::Keyboard(e)) => {
            desk_streams::fail(&rt.stderr(), rt.alloc(), "teletype: read", e)
        }
        Err(Fault::Printer(e)) => {
            desk_streams::fail(&rt.stderr(), rt.alloc(), "teletype: write", e)
        }
    }
}

// An argument, put at the start of a buffer: no byte where it is missing or has no room.
fn argument<'a, E: Env>(rt: &E, i: usize, buffer: &'a mut [u8]) -> &'a [u8]
    ensures { length result.now ≤ length buffer.old }
{
    match rt.arg(i, buffer) {
        Ok(n) => &buffer[..n],
        Err(_) => &[],
    }
}

// Opens the image of a name, which has to be UTF-8.
fn open<F: Files>(rt: &F, name: &[u8]) -> std::io::Result<F::File> {
    match str::from_utf8(name) {
        Ok(name) => File::open(rt, name),
        Err(_) => Err(Error::from(ErrorKind::InvalidFilename)),
    }
}

fn main(rt: HostRuntime) -> ExitCode {
    let mut digits = io::buffer();
    let Some(budget) = words::budget_of(argument(&rt, 1, &mut digits)) else {
        return desk_streams::ended(rt.stderr().write_all(b"teletype: no budget\n"));
    };
    let mut name = io::buffer();
    match open(&rt, argument(&rt, 2, &mut name)) {
        Ok(mut image) => sit(rt, &mut image, budget),
        Err(e) => desk_streams::fail(&rt.stderr(), rt.alloc(), "teletype: image", e),
    }
}
