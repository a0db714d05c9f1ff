// The run of a loaded memory, step by step, with its lines.
ghost use Rattle.std.specs.Prelude.{◌≡◌, ◌+◌, ◌<◌, ◌≤◌, ◌++◌, length};
ghost use Rattle.state.specs.Acceptable.{Acceptable};
ghost use Rattle.machine_state.specs.State.{Good, word};
ghost use Rattle.machine_state.specs.Processor.{at as state};
ghost use Rattle.machine_run.specs.Step.{step};
ghost use Rattle.desk_day_listing.specs.Listing.{step_line, run_listing};
ghost use Rattle.page.specs.Page.{Page};
ghost use Rattle.desk_day_listing.specs.Stepped.{step_line_bytes, page_bytes};

use crate::PAGE_BYTES;
use crate::lines::put_step_line;
use desk_last_lines::put_end_line;
use machine_state::Processor;
use page::Draft;
use state::MEMORY_WORDS;

const BUDGET: u64 = 16;

// One step and its line, after as many as have been done.
fn put_step(
    memory: &mut [u16; MEMORY_WORDS],
    draft: &mut Draft<PAGE_BYTES>,
    done: u64,
    p: Processor,
) -> Processor
    requires good { Good (state p memory.old) }
    requires room { length draft.old + step_line_bytes ≤ page_bytes }
    requires two_digits { done < 99 }
    ensures steps { state result memory.new ≡ step (state p memory.old) }
    ensures line { draft.new ≡ draft.old ++ step_line (done + 1) p.pc (word p.pc (state p memory.old)) result.lac result.run }
{
    let i = machine_state::memory::load(memory, p.pc);
    let q = machine_run::step::step(memory, p, false);
    put_step_line(draft, done + 1, p.pc, i, q.lac, q.run);
    q
}

// The listing of the run from a loaded memory. The steps done count the loop, and are told after it.
pub fn put_run(memory: &mut [u16; MEMORY_WORDS], page: &mut [u8; PAGE_BYTES]) -> usize
    requires { Acceptable memory.old }
    ensures { Page (run_listing memory.old) page.old page.new result }
{
    let mut draft: Draft<PAGE_BYTES> = Draft::new();
    draft.put_text(b"step\tpc\ti\tlac\trun\n");
    let mut p = Processor {
        lac: 0,
        pc: 0o200,
        run: 1,
        enable: 0,
        request: 0,
        switches: 0,
    };
    let mut done = 0;
    while done < BUDGET {
        if p.run == 0 {
            break;
        }
        p = put_step(memory, &mut draft, done, p);
        done += 1;
    }
    put_end_line(&mut draft, done, p.run, true);
    draft.copy_to(page)
}
