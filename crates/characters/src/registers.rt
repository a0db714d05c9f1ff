// Tables of registers: each has a name and a width.
ghost use Rattle.std.specs.Prelude.{◌≡◌, map};
ghost use Rattle.characters.specs.Named.{found};
ghost use Rattle.characters.specs.Table.{named};

// A register: its name, and its bits.
#[derive(Clone, Copy)]
pub struct Register {
    pub name: &'static [u8],
    pub width: u64,
}

// The place of a register in a table, by its name.
pub fn place_in(table: &[Register], name: &[u8]) -> Option<usize>
    ensures { result ≡ found name.now (map named table.now) }
{
    table
        .iter()
        .position(|register| crate::is_same(register.name, name))
}
