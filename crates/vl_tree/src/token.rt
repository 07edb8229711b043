//! Tests on the bytes of a token.

ghost use Rattle.std.specs.Prelude.{◌≡◌, ◌==◌};
ghost use Rattle.std.specs.List.{list_all, list_any};
ghost use Rattle.std.specs.Char.{is_ascii_digit};
ghost use Rattle.vl_tree.specs.Tokens as tokens;

/// Whether a byte is an ASCII letter.
pub fn is_letter(b: u8) -> bool
    ensures { result ≡ tokens.is_letter b }
{
    (65 <= b && b <= 90) || (97 <= b && b <= 122)
}

/// Whether a byte is an ASCII letter, a digit or an underscore.
pub fn is_run(b: u8) -> bool
    ensures { result ≡ tokens.is_run b }
{
    is_letter(b) || (48 <= b && b <= 57) || b == b'_'
}

/// Whether these bytes are a name: at most 64 letters, digits and underscores, at first a letter, with an
/// underscore and a digit.
#[tactic(auto, using(crate::proofs::Fronts::name_parts))]
pub fn is_name(bytes: &[u8]) -> bool
    ensures { result ≡ tokens.is_name bytes.now }
{
    if bytes.is_empty() {
        return false;
    }
    let first = is_letter(bytes[0]);
    first && is_name_rest(&bytes[1..])
}

/// What follows the first letter of a name.
fn is_name_rest(rest: &[u8]) -> bool
    ensures { result ≡ tokens.is_name_rest rest.now }
{
    let runs = all_run(rest);
    let underscore = has_underscore(rest);
    let digit = has_digit(rest);
    runs && rest.len() < 64 && underscore && digit
}

/// Whether each byte is a letter, a digit or an underscore.
fn all_run(bytes: &[u8]) -> bool
    ensures { result ≡ list_all tokens.is_run bytes.now }
{
    bytes.iter().all(|c| is_run(*c))
}

fn has_underscore(bytes: &[u8]) -> bool
    ensures { result ≡ list_any (λ c. c == 95) bytes.now }
{
    bytes.iter().any(|c| *c == 95)
}

fn has_digit(bytes: &[u8]) -> bool
    ensures { result ≡ list_any is_ascii_digit bytes.now }
{
    bytes.iter().any(|c| 48 <= *c && *c <= 57)
}
