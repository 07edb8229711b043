//! The next token, and readers of single tokens.

ghost use Rattle.std.specs.Prelude.{◌≡◌, ◌≤◌, ◌<◌, length};
ghost use Rattle.vl_tree.specs.Tokens as tokens;
ghost use Rattle.vl_tree.specs.Tokens.{tokens_of};
ghost use Rattle.vl_tree.specs.Reading as reading;
ghost use Rattle.vl_read.specs.View.{placed};
ghost use Rattle.vl_read.specs.Gives.{Gives};
ghost use Rattle.vl_read.specs.View.{next_by};

use crate::error::ReadError;
use crate::piece::{Token, piece_at};
use crate::scan::{before, behind, len_before, same};
use std::alloc::Global;
use surf_base::Seq;
use vl_tree::{Const, Name, Op};

/// The next token, and the bytes behind it.
#[derive(Clone, Copy)]
pub struct Ahead<'a> {
    /// `None` where there is no further token.
    pub token: Option<Token<'a>>,
    /// How many bytes there are from its first one on.
    pub left: usize,
    pub rest: &'a [u8],
}

/// The first token of some bytes.
pub fn first_of(bytes: &[u8]) -> Ahead<'_>
    ensures { placed result ≡ tokens_of bytes.now }
{
    let mut rest = bytes;
    while let Some(p) = piece_at(rest) {
        let left = rest.len();
        rest = behind(rest, p.len);
        if let Some(token) = p.token {
            return Ahead {
                token: Some(token),
                left,
                rest,
            };
        }
    }
    Ahead {
        token: None,
        left: 0,
        rest,
    }
}

/// How many bytes there are from the next token on.
pub fn left_of(ts: Ahead<'_>) -> usize
    ensures { result ≡ reading.left_of (placed ts.entry) }
{
    match ts.token {
        None => 0,
        Some(_) => ts.left,
    }
}

/// A name.
pub fn name<'a>(alloc: Global, ts: Ahead<'a>) -> Result<(Name, Ahead<'a>), ReadError>
    ensures { Gives (λ x. (x.0, placed x.1)) result (reading.one reading.the_name (placed ts.entry)) }
{
    match ts.token {
        Some(Token::Name(n)) => Ok((Seq::from_slice(alloc, n)?, first_of(ts.rest))),
        _ => Err(ReadError::At(left_of(ts))),
    }
}

/// This name once more.
pub fn same_name<'a>(ts: Ahead<'a>, name: &Name) -> Result<Ahead<'a>, ReadError>
    ensures { Gives (λ x. (tt, placed x)) result (reading.one (reading.the_same name.now) (placed ts.entry)) }
{
    match ts.token {
        Some(Token::Name(n)) if same(n, name.as_slice()) => Ok(first_of(ts.rest)),
        _ => Err(ReadError::At(left_of(ts))),
    }
}

/// A plain number.
pub fn plain<'a>(ts: Ahead<'a>) -> Result<(u32, Ahead<'a>), ReadError>
    ensures { Gives (λ x. (x.0, placed x.1)) result (reading.one reading.the_plain (placed ts.entry)) }
{
    match ts.token {
        Some(Token::Plain(n)) => Ok((n, first_of(ts.rest))),
        _ => Err(ReadError::At(left_of(ts))),
    }
}

/// The plain number 0.
pub fn zero<'a>(ts: Ahead<'a>) -> Result<Ahead<'a>, ReadError>
    ensures { Gives (λ x. (tt, placed x)) result (reading.one reading.the_zero (placed ts.entry)) }
{
    match ts.token {
        Some(Token::Plain(0)) => Ok(first_of(ts.rest)),
        _ => Err(ReadError::At(left_of(ts))),
    }
}

/// A constant.
pub fn sized<'a>(ts: Ahead<'a>) -> Result<(Const, Ahead<'a>), ReadError>
    ensures { Gives (λ x. (x.0, placed x.1)) result (reading.one reading.the_sized (placed ts.entry)) }
{
    match ts.token {
        Some(Token::Sized(k)) => Ok((k, first_of(ts.rest))),
        _ => Err(ReadError::At(left_of(ts))),
    }
}

/// This word or symbol.
pub fn mark<'a>(ts: Ahead<'a>, text: &[u8]) -> Result<Ahead<'a>, ReadError>
    ensures { Gives (λ x. (tt, placed x)) result (reading.one (reading.the_mark text.now) (placed ts.entry)) }
{
    match ts.token {
        Some(Token::Mark(m)) if same(m, text) => Ok(first_of(ts.rest)),
        _ => Err(ReadError::At(left_of(ts))),
    }
}

/// Whether the next token is this word or symbol.
pub fn at_mark(ts: Ahead<'_>, text: &[u8]) -> bool
    ensures { result ≡ reading.next_passes (reading.is_mark text.now) (placed ts.entry) }
{
    match ts.token {
        Some(Token::Mark(m)) => same(m, text),
        _ => false,
    }
}

/// Whether the next token is a name.
pub fn at_name(ts: Ahead<'_>) -> bool
    ensures { result ≡ reading.next_passes reading.is_name_token (placed ts.entry) }
{
    matches!(ts.token, Some(Token::Name(_)))
}

/// Whether the next token is a plain number.
pub fn at_plain(ts: Ahead<'_>) -> bool
    ensures { result ≡ reading.next_passes reading.is_plain_token (placed ts.entry) }
{
    matches!(ts.token, Some(Token::Plain(_)))
}

/// Whether the next token is a constant.
pub fn at_sized(ts: Ahead<'_>) -> bool
    ensures { result ≡ reading.next_passes reading.is_sized_token (placed ts.entry) }
{
    matches!(ts.token, Some(Token::Sized(_)))
}

/// Whether there is a next token, and it doesn't end a module.
pub fn goes_on(ts: Ahead<'_>) -> bool
    ensures { result ≡ reading.next_passes reading.goes_on (placed ts.entry) }
{
    match ts.token {
        None => false,
        Some(Token::Mark(m)) => !same(m, b"endmodule"),
        Some(_) => true,
    }
}

/// The operator of a symbol.
fn op_of(text: &[u8]) -> Option<Op>
    ensures { result ≡ reading.op_of text.now }
{
    if same(text, b"+") {
        Some(Op::Add)
    } else if same(text, b"-") {
        Some(Op::Sub)
    } else if same(text, b"&") {
        Some(Op::And)
    } else if same(text, b"|") {
        Some(Op::Or)
    } else if same(text, b"^") {
        Some(Op::Xor)
    } else if same(text, b"==") {
        Some(Op::Equal)
    } else if same(text, b"<") {
        Some(Op::Less)
    } else {
        None
    }
}

/// The direction that a word names: true is output.
fn way_of(text: &[u8]) -> Option<bool>
    ensures { result ≡ reading.way_of text.now }
{
    if same(text, b"output") {
        Some(true)
    } else if same(text, b"input") {
        Some(false)
    } else {
        None
    }
}

/// The operator of the next token, if it is one.
fn the_op(ts: Ahead<'_>) -> Option<Op>
    ensures { result ≡ next_by reading.the_op (placed ts.entry) }
{
    match ts.token {
        Some(Token::Mark(m)) => op_of(m),
        _ => None,
    }
}

/// The direction of the next token, if it is one.
fn the_way(ts: Ahead<'_>) -> Option<bool>
    ensures { result ≡ next_by reading.the_way (placed ts.entry) }
{
    match ts.token {
        Some(Token::Mark(m)) => way_of(m),
        _ => None,
    }
}

/// An operator.
#[tactic(auto, using(crate::proofs::Singles::taken, crate::proofs::Singles::refused))]
pub fn op<'a>(ts: Ahead<'a>) -> Result<(Op, Ahead<'a>), ReadError>
    ensures { Gives (λ x. (x.0, placed x.1)) result (reading.one reading.the_op (placed ts.entry)) }
{
    match the_op(ts) {
        Some(op) => Ok((op, first_of(ts.rest))),
        None => Err(ReadError::At(left_of(ts))),
    }
}

/// Whether a port is an output.
#[tactic(auto, using(crate::proofs::Singles::taken, crate::proofs::Singles::refused))]
pub fn way<'a>(ts: Ahead<'a>) -> Result<(bool, Ahead<'a>), ReadError>
    ensures { Gives (λ x. (x.0, placed x.1)) result (reading.one reading.the_way (placed ts.entry)) }
{
    match the_way(ts) {
        Some(output) => Ok((output, first_of(ts.rest))),
        None => Err(ReadError::At(left_of(ts))),
    }
}

/// These words and symbols, with single spaces between them.
pub fn phrase<'a>(ts: Ahead<'a>, text: &[u8]) -> Result<Ahead<'a>, ReadError>
    ensures { Gives (λ x. (tt, placed x)) result (reading.phrase text.now (placed ts.entry)) }
{
    let n = len_before(32, text);
    let ts = mark(ts, before(text, n))?;
    if n == text.len() {
        return Ok(ts);
    }
    phrase(ts, behind(text, n + 1))
}
