// The operators and their one table.
#![tactic(auto)]

pub mod names;

ghost use Rattle.std.specs.Prelude.{◌≡◌, ◌≤◌, max};
ghost use Rattle.word.specs.Word.{widest};
ghost use Rattle.text_operators.specs.Operators.{entry_in, width_by};

// The ten operators, strongest first.
#[derive(Clone, Copy)]
pub enum Operator {
    Not,
    Join,
    RotateLeft,
    RotateRight,
    Add,
    Equal,
    Unequal,
    Less,
    And,
    Or,
}

// How the width of an operator's value follows from its sides'.
#[derive(Clone, Copy)]
pub enum Widths {
    Left,
    Sum,
    // one more than the wider side
    Carry,
    One,
    Wider,
}

// A row of the table.
#[derive(Clone, Copy)]
pub struct Entry {
    pub operator: Operator,
    pub strength: u8,
    pub widths: Widths,
}

const OPERATORS: usize = 10;

// The rows by which the grammar knows its levels: Not's is the strongest, Slr's the rotations', Or's the weakest.
pub const NOT: usize = 0;

pub const SLR: usize = 2;

pub const OR: usize = 9;

// "The strengths of the operators are one fixed table."
const TABLE: [Entry; OPERATORS] = [
    Entry {
        operator: Operator::Not,
        strength: 7,
        widths: Widths::Left, // of its only side
    },
    Entry {
        operator: Operator::Join,
        strength: 6,
        widths: Widths::Sum,
    },
    Entry {
        operator: Operator::RotateLeft,
        strength: 5,
        widths: Widths::Left, // of what Slr rotates
    },
    Entry {
        operator: Operator::RotateRight,
        strength: 5,
        widths: Widths::Left, // of what Srr rotates
    },
    Entry {
        operator: Operator::Add,
        strength: 4,
        widths: Widths::Carry,
    },
    Entry {
        operator: Operator::Equal,
        strength: 3,
        widths: Widths::One,
    },
    Entry {
        operator: Operator::Unequal,
        strength: 3,
        widths: Widths::One,
    },
    Entry {
        operator: Operator::Less,
        strength: 3,
        widths: Widths::One,
    },
    Entry {
        operator: Operator::And,
        strength: 2,
        widths: Widths::Wider,
    },
    Entry {
        operator: Operator::Or,
        strength: 1,
        widths: Widths::Wider,
    },
];

// What stands past the table: an entry of no strength.
const NO_ENTRY: Entry = Entry {
    operator: Operator::Or,
    strength: 0,
    widths: Widths::Wider,
};

// A row of the table; past it an entry of no strength.
pub fn entry_in(row: usize) -> Entry
    ensures { result ≡ entry_in row }
{
    TABLE.get(row).copied().unwrap_or(NO_ENTRY)
}

// The width of an operator's value.
pub fn width_by(widths: Widths, left: u16, right: u16) -> u16
    requires left { left ≤ widest }
    requires right { right ≤ widest }
    ensures { result ≡ width_by widths left right }
{
    match widths {
        Widths::Left => left,
        Widths::Sum => left + right,
        Widths::Carry => left.max(right) + 1,
        Widths::One => 1,
        Widths::Wider => left.max(right),
    }
}
