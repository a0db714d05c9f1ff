// The lines that tell of a run after its last step: the registers, and the rows that acted with the labels that they name.
#![tactic(auto)]

pub mod registers;
pub mod rows;

// The bytes of a page that they are written to.
pub const PAGE_BYTES: usize = 16384;
