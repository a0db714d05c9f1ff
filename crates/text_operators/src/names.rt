// The names of the operators, and the names that no register may take.
ghost use Rattle.std.specs.Prelude.{◌≡◌, map, position};
ghost use Rattle.characters.specs.Characters.{same};
ghost use Rattle.text_operators.specs.OperatorNames.{find_in, operator_row, is_reserved};

use crate::OPERATORS;

// The operators' names, in the order of their table.
const NAMES: [&[u8]; OPERATORS] = [
    b"Not", b"@", b"Slr", b"Srr", b"+", b"Eql", b"Neq", b"Lss", b"And", b"Or",
];

// Where a list of names has a token.
fn position_of(names: &[&[u8]], token: &[u8]) -> Option<usize>
    ensures { result ≡ position (λ n. same token.now n.now) names.now }
{
    names
        .iter()
        .position(|name| characters::is_same(token, name))
}

// The place of a token in a list of names, the list's length where it is none of them.
fn place_in(names: &[&[u8]], token: &[u8]) -> usize
    ensures { result ≡ find_in (map (λ n. n.now) names.now) token.now }
{
    position_of(names, token).unwrap_or(names.len())
}

// The row of the operator that a token names, the row past the last if it names none.
// An Option is no plainer: `entry_in` has an entry of strength 0 for that row, so the grammar asks for the strength alone, where an Option asks twice.
#[tactic(auto, unfolding(crate::specs::OperatorNames::operator_row))]
pub fn operator_row(token: &[u8]) -> usize
    ensures { result ≡ operator_row token.now }
{
    place_in(&NAMES, token)
}

// Whether a name is reserved.
pub fn is_reserved(name: &[u8]) -> bool
    ensures { result ≡ is_reserved name.now }
{
    characters::is_same(name, b"M") | (operator_row(name) < OPERATORS)
}
