// The explanation of a run: what an inquiry asks for is run by emulator and evaluator, and the text of how it ended is written.
#![tactic(auto)]

ghost use Rattle.std.specs.Prelude.{◌≡◌, ◌+◌, ◌*◌, ◌-◌, ◌≤◌, ◌++◌, length, take};
ghost use Rattle.machine_state.specs.Registers.{machine_of};
ghost use Rattle.page.specs.Page.{Page};
ghost use Rattle.emulator.specs.Emulate as emulator;
ghost use Rattle.shipped.specs.Claim.{emulation};
ghost use Rattle.desk_inquiry.specs.Scan.{kept};
ghost use Rattle.desk_exchange.specs.Sizes.{read_line_bytes, printed_line_bytes, octet_bytes};
ghost use Rattle.desk_run_lines.specs.Registers.{variant_of};
ghost use Rattle.desk_run_lines.specs.Sizes.{page_bytes};
ghost use Rattle.desk_explanation.specs.Explanation.{paper_places, paper, exchange_of, places_of, told, devices_in, explanation as Explanation·explanation};
ghost use Rattle.desk_explanation.specs.Answered.{pc_in, LastStep, ended_by, answered as Answered·answered, scan_explanation, listed_in};

use desk_inquiry::Scanner;
use desk_registers::DESK_REGISTERS;
use desk_run_lines::{PAGE_BYTES, registers, rows};
use devices::Devices;
use machine_state::Machine;
use page::Draft;
use rows_store::Registers;
use state::{MEMORY_WORDS, ROW_PLACES, Refusal};
use text_limits::MOST_REGISTERS;

// The places of the paper.
const PAPER_PLACES: usize = 64;

// The registers of the machine with devices or without, as the evaluator takes them.
fn places_of(devices: bool, m: Machine, c: Devices) -> Registers
    ensures { result.values ≡ places_of devices m c }
{
    let mut values = [0u16; MOST_REGISTERS];
    values[0] = m.lac;
    values[1] = m.pc;
    values[2] = m.run;
    values[3] = m.enable;
    values[4] = m.request;
    values[5] = m.switches;
    if devices {
        values[6] = c.key;
        values[7] = c.keyboard;
        values[8] = c.printer;
        values[9] = c.print;
        values[10] = c.mark;
        return Registers { values };
    }
    Registers { values }
}

// How many rows the evaluator lists.
fn listed_in(o: Result<evaluator::Ended, evaluator::Refusal>) -> usize
    ensures { result ≡ listed_in o }
{
    match o {
        Ok(end) => end.listed,
        Err(_) => 0,
    }
}

// Runs the emulator up to the last of so many steps.
fn run_to_last(
    memory: &mut [u16; MEMORY_WORDS],
    devices: bool,
    m: Machine,
    c: Devices,
    steps: u64,
    input: &[u8],
) -> Result<emulator::Ended, Refusal>
    ensures { emulator.report m result memory.new ≡ (emulation (variant_of devices) m c memory.old (steps - 1) input.now paper).report }
{
    let mut output = [0u8; PAPER_PLACES];
    let r = shipped::emulate_variant(
        devices,
        memory,
        m,
        c,
        steps.saturating_sub(1),
        input,
        &mut output,
    );
    r.answer
}

// PC in an answer of the emulator, which was given m.
fn pc_in(m: Machine, a: Result<emulator::Ended, Refusal>) -> u16
    ensures { result ≡ pc_in m a }
{
    match a {
        Ok(end) => end.machine.pc,
        Err(_) => m.pc,
    }
}

// What a run came to: its steps, the registers after it, and how many bytes were read and printed.
#[derive(Clone, Copy)]
pub struct Ending {
    pub steps: u64,
    pub machine: Machine,
    pub devices: Devices,
    pub read: usize,
    pub printed: usize,
}

// What was read and printed, where there are devices.
fn put_exchange(draft: &mut Draft<PAGE_BYTES>, devices: bool, read: usize, printed: &[u8])
    requires { length draft.old + read_line_bytes + printed_line_bytes + octet_bytes * length printed.now ≤ page_bytes }
    ensures { draft.new ≡ draft.old ++ exchange_of devices read printed.now }
{
    if devices {
        desk_exchange::put_exchange(draft, read, printed);
    }
}

// How a run ended, what it read and printed, what its last step did by PC and memory before it, the machine registers, the working registers among those of the description, and the
// first n rows of a list.
fn put_answer(
    page: &mut [u8; PAGE_BYTES],
    devices: bool,
    e: Ending,
    output: &[u8; PAPER_PLACES],
    pc: u16,
    before: &[u16; MEMORY_WORDS],
    memory: &[u16; MEMORY_WORDS],
    places: [u16; MOST_REGISTERS],
    list: &[u8; ROW_PLACES],
    n: usize,
) -> usize
    requires last_step { LastStep pc before.now memory.now }
    requires printed_within { e.printed ≤ paper_places }
    requires listed_within { n ≤ length list.now }
    ensures { Page (told devices (ended_by e memory.now output.now) pc before.now places (take n list.now))
        page.old page.new result }
{
    let m = e.machine;
    let place = !devices | (e.printed < PAPER_PLACES);
    let mut draft: Draft<PAGE_BYTES> = Draft::new();
    desk_last_lines::put_end_line(&mut draft, e.steps, m.run as u64, place);
    put_exchange(&mut draft, devices, e.read, &output[..e.printed]);
    desk_last_step::put_last_step(&mut draft, devices, e.steps, pc, before, memory);
    registers::put_registers(&mut draft, devices, m, e.devices);
    registers::put_working(&mut draft, devices, places);
    rows::put_rows(&mut draft, devices, &list[..n]);
    draft.copy_to(page)
}

// Runs both engines, and the emulator to the last step again, and writes what came of it; nothing where they refuse.
fn answered(
    memory: &[u16; MEMORY_WORDS],
    devices: bool,
    m: Machine,
    c: Devices,
    budget: u64,
    input: &[u8],
    page: &mut [u8; PAGE_BYTES],
) -> usize
    ensures { Page (Answered·answered devices m c memory.now budget input.now) page.old page.new result }
{
    let mut first = *memory;
    let mut output = [0u8; PAPER_PLACES];
    let emulated = shipped::emulate_variant(devices, &mut first, m, c, budget, input, &mut output);
    let mut second = *memory;
    let mut list = [0u8; ROW_PLACES];
    let mut blank = [0u8; PAPER_PLACES];
    let evaluated = shipped::evaluate_variant(
        devices,
        &mut second,
        places_of(devices, m, c),
        budget,
        &mut list,
        input,
        &mut blank,
    );
    let places = evaluated.answer.registers.values;
    let n = listed_in(evaluated.answer.outcome);
    match emulated.answer {
        Err(_) => 0,
        Ok(end) => {
            let e = Ending {
                steps: end.steps,
                machine: end.machine,
                devices: emulated.devices,
                read: emulated.read,
                printed: emulated.printed,
            };
            let mut third = *memory;
            let earlier = run_to_last(&mut third, devices, m, c, end.steps, input);
            let pc = pc_in(m, earlier);
            put_answer(
                page, devices, e, &output, pc, &third, &first, places, &list, n,
            )
        }
    }
}

// The machine registers among those that are asked for.
fn machine_in(rs: [u16; DESK_REGISTERS]) -> Machine
    ensures { result ≡ machine_of rs }
{
    Machine {
        lac: rs[0],
        pc: rs[1],
        run: rs[2],
        enable: rs[3],
        request: rs[4],
        switches: rs[5],
    }
}

// And the devices'.
fn devices_in(rs: [u16; DESK_REGISTERS]) -> Devices
    ensures { result ≡ devices_in rs }
{
    Devices {
        key: rs[6],
        keyboard: rs[7],
        printer: rs[8],
        print: rs[9],
        mark: rs[10],
    }
}

// Writes the explanation of a text that has been scanned to the start of a page, and answers how many bytes it has: none where
// registers, budget or memory are unfit for a run, which no text leaves.
#[inline(never)]
pub fn explanation(memory: &[u16; MEMORY_WORDS], s: Scanner, page: &mut [u8; PAGE_BYTES]) -> usize
    ensures { Page (scan_explanation (kept s memory.now)) page.old page.new result }
{
    if let Some(refused) = desk_inquiry::unfit_line(s) {
        return desk_last_lines::put_refused_line(page, refused);
    }
    let asked = s.made;
    answered(
        memory,
        asked.devices,
        machine_in(asked.registers),
        devices_in(asked.registers),
        asked.budget,
        characters::part(&asked.input, 0, asked.typed),
        page,
    )
}

// Writes the explanation of a whole text to the start of a page, and answers how many bytes it has.
pub fn explain(text: &[u8], page: &mut [u8; PAGE_BYTES]) -> usize
    ensures { Page (Explanation·explanation text.now) page.old page.new result }
{
    let mut memory = [0u16; MEMORY_WORDS];
    let s = desk_inquiry::begin(&mut memory);
    let t = desk_inquiry::scanned(&mut memory, s, text);
    explanation(&memory, t, page)
}
