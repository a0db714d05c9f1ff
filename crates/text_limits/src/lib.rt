// The six limits of a description's text: "16,384 bytes, 200 bytes, .. 128 rows, 32 labels, 1,024 pieces pass", and "the register set grows to 32 places".
#![tactic(auto)]

pub const MOST_BYTES: usize = 16384;

pub const LONGEST_LINE: usize = 200;

pub const MOST_REGISTERS: usize = 32;

pub const MOST_ROWS: usize = 128;

pub const MOST_LABELS: usize = 32;

pub const ALL_PIECES: usize = 1024;
