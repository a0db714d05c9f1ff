// Mnemonics: an instruction by the handbook's names.
#![tactic(auto)]

ghost use Rattle.std.specs.Prelude.{◌≡◌, [], ◌∷◌, ◌+◌, ◌≤◌, ◌++◌, length};
ghost use Rattle.word.specs.Choice.{pick, on};
ghost use Rattle.machine_state.specs.Instruction.{ib};
ghost use Rattle.characters.specs.Ascii.{ascii, tab};
ghost use Rattle.desk_mnemonics.specs.Mnemonics.{handbook, is_named, names_of, unnamed, space, parted, operand, mnemonic};
ghost use Rattle.desk_mnemonics.specs.Sizes.{name_bytes, names_bytes, operand_bytes, mnemonic_bytes};

use characters::TAB;
use machine_reference::address::first_address;
use page::Draft;

// A name of the handbook: an instruction has it where the bits of the mask are as in the code.
#[derive(Clone, Copy)]
pub struct Name {
    pub mask: u16,
    pub code: u16,
    pub letters: [u8; 3],
}

// How many the machine without devices has, and how many there are.
const PLAIN_NAMES: usize = 28;

const NAMES: usize = 36;

const SPACE: u8 = b' ';

// The names, in the order in which a mnemonic has them; last those of the devices.
static TABLE: [Name; NAMES] = [
    Name {
        mask: 0o7000,
        code: 0o0000,
        letters: *b"AND",
    },
    Name {
        mask: 0o7000,
        code: 0o1000,
        letters: *b"TAD",
    },
    Name {
        mask: 0o7000,
        code: 0o2000,
        letters: *b"ISZ",
    },
    Name {
        mask: 0o7000,
        code: 0o3000,
        letters: *b"DCA",
    },
    Name {
        mask: 0o7000,
        code: 0o4000,
        letters: *b"JMS",
    },
    Name {
        mask: 0o7000,
        code: 0o5000,
        letters: *b"JMP",
    },
    Name {
        mask: 0o7777,
        code: 0o6001,
        letters: *b"ION",
    },
    Name {
        mask: 0o7777,
        code: 0o6002,
        letters: *b"IOF",
    },
    Name {
        mask: 0o7600,
        code: 0o7200,
        letters: *b"CLA",
    },
    Name {
        mask: 0o7500,
        code: 0o7100,
        letters: *b"CLL",
    },
    Name {
        mask: 0o7440,
        code: 0o7040,
        letters: *b"CMA",
    },
    Name {
        mask: 0o7420,
        code: 0o7020,
        letters: *b"CML",
    },
    Name {
        mask: 0o7401,
        code: 0o7001,
        letters: *b"IAC",
    },
    Name {
        mask: 0o7406,
        code: 0o7004,
        letters: *b"RAL",
    },
    Name {
        mask: 0o7406,
        code: 0o7006,
        letters: *b"RTL",
    },
    Name {
        mask: 0o7412,
        code: 0o7010,
        letters: *b"RAR",
    },
    Name {
        mask: 0o7412,
        code: 0o7012,
        letters: *b"RTR",
    },
    Name {
        mask: 0o7511,
        code: 0o7500,
        letters: *b"SMA",
    },
    Name {
        mask: 0o7451,
        code: 0o7440,
        letters: *b"SZA",
    },
    Name {
        mask: 0o7431,
        code: 0o7420,
        letters: *b"SNL",
    },
    Name {
        mask: 0o7511,
        code: 0o7510,
        letters: *b"SPA",
    },
    Name {
        mask: 0o7451,
        code: 0o7450,
        letters: *b"SNA",
    },
    Name {
        mask: 0o7431,
        code: 0o7430,
        letters: *b"SZL",
    },
    Name {
        mask: 0o7571,
        code: 0o7410,
        letters: *b"SKP",
    },
    Name {
        mask: 0o7601,
        code: 0o7600,
        letters: *b"CLA",
    },
    Name {
        mask: 0o7405,
        code: 0o7404,
        letters: *b"OSR",
    },
    Name {
        mask: 0o7403,
        code: 0o7402,
        letters: *b"HLT",
    },
    Name {
        mask: 0o7601,
        code: 0o7601,
        letters: *b"CLA",
    },
    Name {
        mask: 0o7777,
        code: 0o6031,
        letters: *b"KSF",
    },
    Name {
        mask: 0o7777,
        code: 0o6032,
        letters: *b"KCC",
    },
    Name {
        mask: 0o7777,
        code: 0o6034,
        letters: *b"KRS",
    },
    Name {
        mask: 0o7777,
        code: 0o6036,
        letters: *b"KRB",
    },
    Name {
        mask: 0o7777,
        code: 0o6041,
        letters: *b"TSF",
    },
    Name {
        mask: 0o7777,
        code: 0o6042,
        letters: *b"TCF",
    },
    Name {
        mask: 0o7777,
        code: 0o6044,
        letters: *b"TPC",
    },
    Name {
        mask: 0o7777,
        code: 0o6046,
        letters: *b"TLS",
    },
];

// A machine's names, by whether it has devices.
fn machine_names(devices: bool) -> &'static [Name]
    ensures { result.now ≡ handbook devices }
{
    if devices {
        &TABLE
    } else {
        &TABLE[..PLAIN_NAMES]
    }
}

// Whether an instruction has a name.
fn is_named(i: u16, name: Name) -> bool
    ensures { result ≡ is_named i name }
{
    i & name.mask == name.code
}

// A name behind a mark, where the instruction has it. Answers the mark of the name after it.
fn put_name<const N: usize>(draft: &mut Draft<N>, mark: u8, i: u16, name: Name) -> u8
    requires { length draft.old + name_bytes ≤ N }
    ensures text { draft.new ≡ draft.old ++ pick (is_named i name) (mark ∷ name.letters) [] }
    ensures after { result ≡ pick (is_named i name) space mark }
    ensures room { length draft.new ≤ length draft.old + name_bytes }
{
    if !is_named(i, name) {
        return mark;
    }
    draft.put_byte(mark);
    draft.put_text(&name.letters);
    SPACE
}

// The word of an instruction that has no name.
fn put_unnamed<const N: usize>(draft: &mut Draft<N>, i: u16)
    requires { length draft.old + name_bytes ≤ N }
    ensures { draft.new ≡ draft.old ++ tab ∷ unnamed i }
{
    let word = if i / 512 % 8 == 6 { b"\tIOT" } else { b"\tNOP" };
    draft.put_text(word);
}

// The names that an instruction has, behind a TAB.
fn put_names<const N: usize>(draft: &mut Draft<N>, devices: bool, i: u16)
    requires { length draft.old + names_bytes ≤ N }
    ensures { draft.new ≡ draft.old ++ tab ∷ parted (unnamed i) (names_of i (handbook devices)) }
{
    let mut mark = TAB;
    let names = machine_names(devices);
    for name in names {
        mark = put_name(draft, mark, i, *name);
    }
    if mark == TAB {
        put_unnamed(draft, i);
    }
}

// The first address, behind a space or the letter for indirection.
fn put_operand<const N: usize>(draft: &mut Draft<N>, i: u16, last: u16)
    requires { length draft.old + operand_bytes ≤ N }
    ensures { draft.new ≡ draft.old ++ operand i last }
{
    put_mark(draft, i);
    draft.put_octal(4, first_address(i as u64, last as u64).number);
}

// What stands before the first address.
fn put_mark<const N: usize>(draft: &mut Draft<N>, i: u16)
    requires { length draft.old + 3 ≤ N }
    ensures { draft.new ≡ draft.old ++ pick (on (ib i)) (ascii " I ") (ascii " ") }
{
    if i / 256 % 2 != 0 {
        draft.put_text(b" I ");
    } else {
        draft.put_text(b" ");
    }
}

// The mnemonic of the instruction i that was fetched from `last`, by the names of the machine with devices or without, behind a TAB.
pub fn put_mnemonic<const N: usize>(draft: &mut Draft<N>, devices: bool, i: u16, last: u16)
    requires { length draft.old + mnemonic_bytes ≤ N }
    ensures { draft.new ≡ draft.old ++ tab ∷ mnemonic devices i last }
{
    put_names(draft, devices, i);
    if i / 512 % 8 < 6 {
        put_operand(draft, i, last);
    }
}
