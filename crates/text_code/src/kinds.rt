// The kinds of the stored words: a register, a bit part of one, a constant, a word of memory, and the operators in the order of their table.
// They are numbers and no enum: they stand in the table of words that a caller lends, where any number may stand, and are told apart by ranges and reckoned from rows.
pub const REGISTER: u16 = 0;

pub const PART: u16 = 1;

pub const CONSTANT: u16 = 2;

pub const MEMORY: u16 = 3;

pub const NOT: u16 = 4;

pub const JOIN: u16 = 5;

pub const LEFT: u16 = 6;

pub const RIGHT: u16 = 7;

pub const SUM: u16 = 8;

pub const EQUAL: u16 = 9;

pub const UNEQUAL: u16 = 10;

pub const LESS: u16 = 11;

pub const AND: u16 = 12;

pub const OR: u16 = 13;
