//! How far a text goes on in one way.

ghost use Rattle.std.specs.Prelude.{◌≡◌, ℕ, ◌+◌, ◌==◌, ◌<◌, ◌≤◌, ◌&&◌, slice_index, IfSome, not, length, take, drop};
ghost use Rattle.std.specs.List.{prefix_len, list_any};
ghost use Rattle.std.specs.Str.{bytes_eq};
ghost use Rattle.vl_tree.specs.Tokens as tokens;

use vl_tree::token::is_run;

/// The bytes before a place.
pub fn before(bytes: &[u8], n: usize) -> &[u8]
    requires { n ≤ length bytes.now }
    ensures { result.now ≡ take n bytes.now }
{
    bytes.split_at(n).0
}

/// The bytes from a place on.
pub fn behind(bytes: &[u8], n: usize) -> &[u8]
    requires { n ≤ length bytes.now }
    ensures { result.now ≡ drop n bytes.now }
{
    bytes.split_at(n).1
}

/// Whether the next byte is this one.
#[tactic(auto, using(crate::proofs::Scans::next_first, crate::proofs::Scans::next_none))]
pub fn next_is(b: u8, bytes: &[u8]) -> bool
    ensures { result ≡ tokens.next_is b bytes.now }
{
    if bytes.is_empty() {
        return false;
    }
    bytes[0] == b
}

/// How many letters, digits and underscores stand at the front.
pub fn run_len(bytes: &[u8]) -> usize
    ensures value { result ≡ prefix_len tokens.is_run bytes.now }
    ensures within { result ≤ length bytes.now }
{
    for (i, b) in bytes.iter().enumerate() {
        if !is_run(*b) {
            return i;
        }
    }
    bytes.len()
}

/// How many bytes there are before the next one of this kind.
pub fn len_before(end: u8, bytes: &[u8]) -> usize
    ensures value { result ≡ prefix_len (λ c. not (c == end)) bytes.now }
    ensures within { result ≤ length bytes.now }
{
    for (i, b) in bytes.iter().enumerate() {
        if *b == end {
            return i;
        }
    }
    bytes.len()
}

/// Whether `*/` stands at the place.
fn closes_at(bytes: &[u8], i: usize) -> bool
    requires { i < length bytes.now }
    ensures { result ≡ (slice_index bytes.now i == 42) && tokens.next_is 47 (drop (i + 1) bytes.now) }
{
    let slash = next_is(47, behind(bytes, i + 1));
    bytes[i] == 42 && slash
}

/// How many bytes there are up to the end of the next `*/`.
pub fn to_close(bytes: &[u8]) -> Option<usize>
    ensures value { result ≡ tokens.to_close bytes.now }
    ensures within { IfSome result (λ n. n ≤ length bytes.now + 1) }
{
    for i in 0..bytes.len() {
        if closes_at(bytes, i) {
            return Some(i + 2);
        }
    }
    None
}

/// Whether two texts are the same.
pub fn same(a: &[u8], b: &[u8]) -> bool
    ensures { result ≡ bytes_eq a.now b.now }
{
    a == b
}

/// Whether these bytes are one of the parts of a text between single spaces.
pub fn is_among(bytes: &[u8], text: &[u8]) -> bool
    ensures { result ≡ list_any (bytes_eq bytes.now) (tokens.split text.now) }
{
    let n = len_before(32, text);
    if same(bytes, before(text, n)) {
        return true;
    }
    if n == text.len() {
        return false;
    }
    is_among(bytes, behind(text, n + 1))
}
