//! The longest piece at the front of a text.

ghost use Rattle.std.specs.Prelude.{◌≡◌, ◌+◌, ◌<◌, ◌≤◌, ◌&&◌, Some, drop, slice_index, option_map, length, IfSome};
ghost use Rattle.vl_tree.specs.Tokens as tokens;
ghost use Rattle.vl_tree.specs.Tokens.{run_of, after_run};
ghost use Rattle.vl_read.specs.View.{piece_of};

use crate::number::{base_of, plain_of, value_of, width_of};
use crate::scan::{before, behind, is_among, len_before, next_is, run_len, to_close};
use vl_tree::Const;
use vl_tree::token::{is_name, is_run};

/// A token.
#[derive(Clone, Copy)]
pub enum Token<'a> {
    /// A word or a symbol, by its bytes.
    Mark(&'a [u8]),
    /// A name, by its bytes.
    Name(&'a [u8]),
    /// A plain number.
    Plain(u32),
    /// A constant.
    Sized(Const),
}

/// A token, blank or comment, and how many bytes it takes.
#[derive(Clone, Copy)]
pub struct Piece<'a> {
    /// `None` for a blank and a comment.
    pub token: Option<Token<'a>>,
    pub len: usize,
}

/// Space, tab, LF and CR.
fn is_blank(b: u8) -> bool
    ensures { result ≡ tokens.is_blank b }
{
    b == 32 || b == 9 || b == 10 || b == 13
}

/// Whether the byte is a symbol by itself.
fn is_symbol(b: u8) -> bool
    ensures { result ≡ tokens.is_symbol b }
{
    b"()[]{};:,.@+-&|^~?<=".iter().any(|c| *c == b)
}

/// Whether a run is a word of the grammar, none of which is a name.
fn is_word(bytes: &[u8]) -> bool
    ensures { result ≡ tokens.is_word bytes.now }
{
    is_among(
        bytes,
        b"module endmodule input output wire reg assign always posedge if else clk rst noc",
    )
}

/// A blank or a comment of so many bytes.
fn gap<'a>(len: usize) -> Option<Piece<'a>>
    ensures { option_map piece_of result ≡ Some (tokens.gap len) }
{
    Some(Piece { token: None, len })
}

/// The comment whose first slash stands before these bytes.
fn comment(bytes: &[u8]) -> Option<Piece<'_>>
    ensures { option_map piece_of result ≡ tokens.comment_at bytes.now }
{
    if next_is(47, bytes) {
        return gap(len_before(10, bytes) + 1);
    }
    if next_is(42, bytes) {
        let n = to_close(behind(bytes, 1))?;
        return gap(n + 2);
    }
    None
}

/// The constant of a width, of what stands behind its quote, and of the bytes after that.
fn constant<'a>(width: &[u8], digits: &[u8], after: &[u8]) -> Option<Piece<'a>>
    requires { length digits.now + length width.now + 2 < 18446744073709551616 }
    ensures { option_map piece_of result ≡ tokens.sized_at width.now digits.now after.now }
{
    if digits.is_empty() {
        return None;
    }
    let base = digits[0];
    if base != 100 && next_is(63, after) {
        return None;
    }
    let bits = width_of(width)?;
    let digits = behind(digits, 1);
    let value = value_of(bits, base_of(base), digits)?;
    let token = Token::Sized(Const { width: bits, value });
    Some(Piece {
        token: Some(token),
        len: width.len() + digits.len() + 2,
    })
}

/// The token of a run and of the bytes after it.
fn run<'a>(bytes: &'a [u8], after: &'a [u8]) -> Option<Piece<'a>>
    ensures { option_map piece_of result ≡ tokens.run_at bytes.now after.now }
{
    let len = bytes.len();
    if is_word(bytes) {
        return Some(Piece {
            token: Some(Token::Mark(bytes)),
            len,
        });
    }
    if is_name(bytes) {
        return Some(Piece {
            token: Some(Token::Name(bytes)),
            len,
        });
    }
    if next_is(39, after) {
        let rest = behind(after, 1);
        let n = run_len(rest);
        return constant(bytes, before(rest, n), behind(rest, n));
    }
    let number = plain_of(bytes)?;
    Some(Piece {
        token: Some(Token::Plain(number)),
        len,
    })
}

/// The symbol of two bytes, or else of one.
fn symbol(bytes: &[u8]) -> Option<Piece<'_>>
    requires { 0 < length bytes.now }
    ensures { option_map piece_of result ≡ tokens.symbol_at (slice_index bytes.now 0) (drop 1 bytes.now) }
{
    let b = bytes[0];
    if (b == 60 || b == 61) && next_is(61, behind(bytes, 1)) {
        return Some(Piece {
            token: Some(Token::Mark(before(bytes, 2))),
            len: 2,
        });
    }
    if is_symbol(b) {
        return Some(Piece {
            token: Some(Token::Mark(before(bytes, 1))),
            len: 1,
        });
    }
    None
}

/// The longest piece at the front of some bytes.
fn longest(bytes: &[u8]) -> Option<Piece<'_>>
    requires { 0 < length bytes.now }
    ensures { option_map piece_of result ≡ tokens.piece_at bytes.now }
{
    let b = bytes[0];
    if is_blank(b) {
        return gap(1);
    }
    if b == 47 {
        return comment(behind(bytes, 1));
    }
    if is_run(b) {
        let n = run_len(bytes);
        return run(before(bytes, n), behind(bytes, n));
    }
    symbol(bytes)
}

/// The longest piece at the front.
pub fn piece_at(bytes: &[u8]) -> Option<Piece<'_>>
    ensures value { option_map piece_of result ≡ tokens.piece_at bytes.now }
    ensures within { IfSome result (λ p. (0 < p.len) × (p.len ≤ length bytes.now)) }
{
    if bytes.is_empty() {
        return None;
    }
    longest(bytes)
}
