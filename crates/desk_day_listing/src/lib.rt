// The day listing: a text of octal words is loaded into the machine, and the text of its run is written.
#![tactic(auto)]

mod lines;
mod run;

ghost use Rattle.desk_day_listing.specs.Listing.{day_listing};
ghost use Rattle.desk_day_listing.specs.Scanned.{scan_listing};
ghost use Rattle.desk_image.specs.Scan.{kept};
ghost use Rattle.page.specs.Page.{Page};

use desk_image::Scanner;
use state::MEMORY_WORDS;

// The bytes of a page that a listing is written to. The longest has 359.
pub const PAGE_BYTES: usize = 512;

// Writes the listing of a text that has been scanned to the start of a page, and answers how many bytes it has: none where the
// memory holds a word above 4,095, which no text leaves.
pub fn listing(memory: &[u16; MEMORY_WORDS], s: Scanner, page: &mut [u8; PAGE_BYTES]) -> usize
    ensures { Page (scan_listing (kept s memory.now)) page.old page.new result }
{
    if let Some(refused) = desk_image::unfit_line(s) {
        return desk_last_lines::put_refused_line(page, refused);
    }
    match state::check_memory(memory) {
        Err(_) => 0,
        Ok(()) => {
            let mut work = *memory;
            run::put_run(&mut work, page)
        }
    }
}

// Writes the listing of a whole text to the start of a page, and answers how many bytes it has.
pub fn list(text: &[u8], page: &mut [u8; PAGE_BYTES]) -> usize
    ensures { Page (day_listing text.now) page.old page.new result }
{
    let mut memory = [0u16; MEMORY_WORDS];
    let s = desk_image::begin(&mut memory);
    let t = desk_image::scanned(&mut memory, s, text);
    listing(&memory, t, page)
}
