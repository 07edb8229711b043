//! The bytes and the pieces of a text.

ghost use Rattle.std.specs.Prelude.{◌≡◌, ◌≤◌, length};
ghost use Rattle.std.specs.List.{prefix_len};
ghost use Rattle.vl_tree.specs.Tokens as tokens;
ghost use Rattle.vl_tree.specs.Spells as spells;

use crate::piece::piece_at;
use crate::scan::behind;

/// Whether a text may have this byte.
fn is_text_byte(b: u8) -> bool
    ensures { result ≡ spells.is_text_byte b }
{
    b == 9 || b == 10 || b == 13 || (32 <= b && b <= 126)
}

/// How many bytes there are before the first that a text can't have.
pub fn text_len(bytes: &[u8]) -> usize
    ensures value { result ≡ prefix_len spells.is_text_byte bytes.now }
    ensures within { result ≤ length bytes.now }
{
    for (i, b) in bytes.iter().enumerate() {
        if !is_text_byte(*b) {
            return i;
        }
    }
    bytes.len()
}

/// How many bytes there are from the first place on at which no piece begins.
pub fn unread(bytes: &[u8]) -> usize
    ensures value { result ≡ tokens.unread bytes.now }
    ensures within { result ≤ length bytes.now }
{
    let mut rest = bytes;
    while let Some(p) = piece_at(rest) {
        rest = behind(rest, p.len);
    }
    rest.len()
}
