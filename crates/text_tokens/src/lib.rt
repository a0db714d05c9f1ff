// Tokens of an expression: where the next one stands and ends, and the operator that it names.
#![tactic(auto)]

ghost use Rattle.std.specs.Prelude.{◌≡◌, ◌≤◌, length};
ghost use Rattle.text_tokens.specs.Tokens.{skip, token_end, operator_at, after_token};

use characters::Class;

// The place of the next token.
pub fn skip_spaces(s: &[u8], at: usize) -> usize
    ensures { result ≡ skip s.now at }
{
    characters::run_end(s, at, Class::Space)
}

// The place after the token at a place.
fn token_end(s: &[u8], at: usize) -> usize
    requires { at ≤ length s.now }
    ensures { result ≡ token_end s.now at }
{
    let first = characters::byte(s, at);
    if characters::is_of(Class::Word, first) {
        return characters::run_end(s, at, Class::Word);
    }
    if first == b'\'' {
        return characters::run_end(s, at + 1, Class::Binary);
    }
    if first == b'#' {
        return characters::run_end(s, at + 1, Class::Octal);
    }
    at + 1
}

// The table's row of the operator that stands next, the row past the last if none does.
pub fn operator_at(s: &[u8], at: usize) -> usize
    requires { at ≤ length s.now }
    ensures { result ≡ operator_at s.now at }
{
    let start = skip_spaces(s, at);
    let end = token_end(s, start);
    text_operators::names::operator_row(characters::part(s, start, end - start))
}

// The place after the token that stands next.
pub fn operator_end(s: &[u8], at: usize) -> usize
    requires { at ≤ length s.now }
    ensures { result ≡ after_token s.now at }
{
    token_end(s, skip_spaces(s, at))
}
