//! Expressions, level by level.

ghost use Rattle.std.specs.Prelude.{◌≡◌, ◌<◌, ◌≤◌, map, IfOk, [], ◌∷◌};
ghost use Rattle.vl_tree.specs.Read.{read};
ghost use Rattle.vl_tree.specs.Values as values;
ghost use Rattle.vl_tree.specs.Reading as reading;
ghost use Rattle.vl_read.specs.View.{placed};
ghost use Rattle.vl_read.specs.Gives.{Gives};
ghost use Rattle.vl_read.specs.Picks as picks;
ghost use Rattle.vl_read.specs.Picks.{pick_of, rest_of};
ghost use Rattle.vl_read.specs.Lists.{more_of};

use crate::ahead::{
    Ahead, at_mark, at_name, at_plain, at_sized, left_of, name, op, phrase, plain, sized,
};
use crate::error::ReadError;
use sqlite_items::{Boxed, Items};
use std::alloc::{AllocError, Global};
use vl_tree::{Expr, Name, Op};

/// What stands behind a name.
#[derive(Drop)]
pub enum Pick {
    Whole,
    Bit(u32),
    Part(u32, u32),
    Word(Expr),
}

/// What stands behind the first operand.
#[derive(Drop)]
pub enum Rest {
    With(Op, Expr),
    Which(Expr, Expr),
}

/// The expression of a name and of what stands behind it.
fn picked(alloc: Global, n: Name, pick: Pick) -> Result<Expr, AllocError>
    ensures { IfOk result (λ e. read e ≡ reading.picked_of n (pick_of pick)) }
{
    match pick {
        Pick::Whole => Ok(Expr::Net(n)),
        Pick::Bit(i) => Ok(Expr::Bit(n, i)),
        Pick::Part(h, l) => Ok(Expr::Part(n, h, l)),
        Pick::Word(e) => Ok(Expr::Word(n, Boxed::new(alloc, e)?)),
    }
}

/// The complement of an expression.
fn complement(alloc: Global, e: Expr) -> Result<Expr, AllocError>
    ensures { IfOk result (λ r. read r ≡ values.not (read e)) }
{
    Ok(Expr::Not(Boxed::new(alloc, e)?))
}

/// The expression of a first operand and of what stands behind it.
fn joined(alloc: Global, a: Expr, rest: Rest) -> Result<Expr, AllocError>
    ensures { IfOk result (λ e. read e ≡ reading.rest_of (read a) (rest_of rest)) }
{
    let a = Boxed::new(alloc, a)?;
    match rest {
        Rest::With(op, b) => Ok(Expr::Two(op, a, Boxed::new(alloc, b)?)),
        Rest::Which(b, c) => {
            let b = Boxed::new(alloc, b)?;
            Ok(Expr::If(a, b, Boxed::new(alloc, c)?))
        }
    }
}

/// A bit or a part, behind the opening bracket.
#[tactic(auto, unfolding(vl_tree::specs::Reading::both, vl_tree::specs::Reading::made, vl_tree::specs::Reading::either, vl_tree::specs::Reading::numbers_at))]
fn numbers<'a>(ts: Ahead<'a>) -> Result<(Pick, Ahead<'a>), ReadError>
    ensures { Gives (λ x. (pick_of x.0, placed x.1)) result (reading.numbers_at (placed ts.entry)) }
{
    let (high, ts) = plain(ts)?;
    if !at_mark(ts, b":") {
        let ts = phrase(ts, b"]")?;
        return Ok((Pick::Bit(high), ts));
    }
    let ts = phrase(ts, b":")?;
    let (low, ts) = plain(ts)?;
    let ts = phrase(ts, b"]")?;
    Ok((Pick::Part(high, low), ts))
}

/// An expression of at most so many levels.
#[cycle(expr)]
#[tactic(auto, using(crate::proofs::Levels::expr_none, crate::proofs::Levels::expr_some))]
fn expr<'a>(alloc: Global, ts: Ahead<'a>, depth: u32) -> Result<(Expr, Ahead<'a>), ReadError>
    ensures { Gives (λ x. (read x.0, placed x.1)) result (reading.expr_at depth (placed ts.entry)) }
{
    if depth == 0 {
        return Err(ReadError::At(left_of(ts)));
    }
    level(alloc, ts, depth - 1)
}

/// One level: a name with what stands behind it, a constant, a group or a concatenation.
#[cycle(expr)]
#[tactic(auto, unfolding(vl_tree::specs::Reading::level_at, vl_tree::specs::Reading::either, vl_tree::specs::Reading::made))]
fn level<'a>(alloc: Global, ts: Ahead<'a>, depth: u32) -> Result<(Expr, Ahead<'a>), ReadError>
    ensures { Gives (λ x. (read x.0, placed x.1)) result
        (reading.level_at depth (reading.expr_at depth) (placed ts.entry)) }
{
    if at_name(ts) {
        return named(alloc, ts, depth);
    }
    if at_sized(ts) {
        let (k, ts) = sized(ts)?;
        return Ok((Expr::Number(k), ts));
    }
    deep(alloc, ts, depth)
}

/// A name with what stands behind it.
#[cycle(expr)]
#[tactic(auto, unfolding(vl_tree::specs::Reading::both, vl_tree::specs::Reading::made))]
fn named<'a>(alloc: Global, ts: Ahead<'a>, depth: u32) -> Result<(Expr, Ahead<'a>), ReadError>
    ensures { Gives (λ x. (read x.0, placed x.1)) result
        (picks.named_at depth (reading.expr_at depth) (placed ts.entry)) }
{
    let (n, ts) = name(alloc, ts)?;
    let (pick, ts) = behind_name(alloc, ts, depth)?;
    Ok((picked(alloc, n, pick)?, ts))
}

/// What stands behind a name: nothing, or what is in square brackets.
#[cycle(expr)]
#[tactic(auto, unfolding(vl_tree::specs::Reading::pick_at, vl_tree::specs::Reading::either, vl_tree::specs::Reading::both, vl_tree::specs::Reading::made, vl_tree::specs::Reading::nothing))]
fn behind_name<'a>(alloc: Global, ts: Ahead<'a>, depth: u32) -> Result<(Pick, Ahead<'a>), ReadError>
    ensures { Gives (λ x. (pick_of x.0, placed x.1)) result
        (reading.pick_at depth (reading.expr_at depth) (placed ts.entry)) }
{
    if !at_mark(ts, b"[") {
        return Ok((Pick::Whole, ts));
    }
    let ts = phrase(ts, b"[")?;
    index(alloc, ts, depth)
}

/// What stands behind an opening bracket: the numbers of bits, or the index of a memory's word.
#[cycle(expr)]
#[tactic(auto, using(crate::proofs::Levels::deeper_none, crate::proofs::Levels::deeper_some), unfolding(vl_tree::specs::Reading::either))]
fn index<'a>(alloc: Global, ts: Ahead<'a>, depth: u32) -> Result<(Pick, Ahead<'a>), ReadError>
    ensures { Gives (λ x. (pick_of x.0, placed x.1)) result
        (picks.index_at depth (reading.expr_at depth) (placed ts.entry)) }
{
    if at_plain(ts) {
        return numbers(ts);
    }
    if depth == 0 {
        return Err(ReadError::At(left_of(ts)));
    }
    word(alloc, ts, depth)
}

/// The index of a memory's word, and its closing bracket.
#[cycle(expr)]
#[tactic(auto, unfolding(vl_tree::specs::Reading::both, vl_tree::specs::Reading::made))]
fn word<'a>(alloc: Global, ts: Ahead<'a>, depth: u32) -> Result<(Pick, Ahead<'a>), ReadError>
    ensures { Gives (λ x. (pick_of x.0, placed x.1)) result (picks.word_at (reading.expr_at depth) (placed ts.entry)) }
{
    let (e, ts) = expr(alloc, ts, depth)?;
    let ts = phrase(ts, b"]")?;
    Ok((Pick::Word(e), ts))
}

/// A group or a concatenation, where there is a level left for its parts.
#[cycle(expr)]
#[tactic(auto, using(crate::proofs::Levels::deeper_none, crate::proofs::Levels::deeper_some), unfolding(vl_tree::specs::Reading::either))]
fn deep<'a>(alloc: Global, ts: Ahead<'a>, depth: u32) -> Result<(Expr, Ahead<'a>), ReadError>
    ensures { Gives (λ x. (read x.0, placed x.1)) result
        (picks.deep_at depth (reading.expr_at depth) (placed ts.entry)) }
{
    if depth == 0 {
        return Err(ReadError::At(left_of(ts)));
    }
    if at_mark(ts, b"(") {
        return group(alloc, ts, depth);
    }
    cat(alloc, ts, depth)
}

/// What stands in round brackets: a complement, a choice, or an operator over two operands.
#[cycle(expr)]
#[tactic(auto, unfolding(vl_tree::specs::Reading::group_at, vl_tree::specs::Reading::both, vl_tree::specs::Reading::made))]
fn group<'a>(alloc: Global, ts: Ahead<'a>, depth: u32) -> Result<(Expr, Ahead<'a>), ReadError>
    ensures { Gives (λ x. (read x.0, placed x.1)) result (reading.group_at (reading.expr_at depth) (placed ts.entry)) }
{
    let ts = phrase(ts, b"(")?;
    let (e, ts) = inside(alloc, ts, depth)?;
    let ts = phrase(ts, b")")?;
    Ok((e, ts))
}

/// What stands between round brackets.
#[cycle(expr)]
#[tactic(auto, unfolding(vl_tree::specs::Reading::either, vl_tree::specs::Reading::both, vl_tree::specs::Reading::made))]
fn inside<'a>(alloc: Global, ts: Ahead<'a>, depth: u32) -> Result<(Expr, Ahead<'a>), ReadError>
    ensures { Gives (λ x. (read x.0, placed x.1)) result (picks.inside_at (reading.expr_at depth) (placed ts.entry)) }
{
    if at_mark(ts, b"~") {
        let ts = phrase(ts, b"~")?;
        let (e, ts) = expr(alloc, ts, depth)?;
        return Ok((complement(alloc, e)?, ts));
    }
    let (a, ts) = expr(alloc, ts, depth)?;
    let (rest, ts) = behind_first(alloc, ts, depth)?;
    Ok((joined(alloc, a, rest)?, ts))
}

/// An operator and its second operand, or a question mark and both branches.
#[cycle(expr)]
#[tactic(auto, unfolding(vl_tree::specs::Reading::rest_at, vl_tree::specs::Reading::either, vl_tree::specs::Reading::both, vl_tree::specs::Reading::made))]
fn behind_first<'a>(
    alloc: Global,
    ts: Ahead<'a>,
    depth: u32,
) -> Result<(Rest, Ahead<'a>), ReadError>
    ensures { Gives (λ x. (rest_of x.0, placed x.1)) result
        (reading.rest_at (reading.expr_at depth) (placed ts.entry)) }
{
    if !at_mark(ts, b"?") {
        let (op, ts) = op(ts)?;
        let (b, ts) = expr(alloc, ts, depth)?;
        return Ok((Rest::With(op, b), ts));
    }
    let ts = phrase(ts, b"?")?;
    let (b, ts) = expr(alloc, ts, depth)?;
    let ts = phrase(ts, b":")?;
    let (c, ts) = expr(alloc, ts, depth)?;
    Ok((Rest::Which(b, c), ts))
}

/// A concatenation, which has a part at least.
#[cycle(expr)]
#[tactic(auto, using(crate::proofs::Levels::cat_done), unfolding(vl_tree::specs::Reading::cat_at, vl_tree::specs::Reading::both, vl_tree::specs::Reading::made))]
fn cat<'a>(alloc: Global, ts: Ahead<'a>, depth: u32) -> Result<(Expr, Ahead<'a>), ReadError>
    ensures { Gives (λ x. (read x.0, placed x.1)) result (reading.cat_at (reading.expr_at depth) (placed ts.entry)) }
{
    let ts = phrase(ts, b"{")?;
    let (first, ts) = expr(alloc, ts, depth)?;
    let (parts, ts) = parts(alloc, ts, depth, first)?;
    Ok((Expr::Cat(parts), ts))
}

/// A part of a concatenation, with the comma before it.
#[cycle(expr)]
#[tactic(auto, unfolding(vl_tree::specs::Reading::both, vl_tree::specs::Reading::made))]
fn part<'a>(alloc: Global, ts: Ahead<'a>, depth: u32) -> Result<(Expr, Ahead<'a>), ReadError>
    ensures { Gives (λ x. (read x.0, placed x.1)) result (picks.part_at (reading.expr_at depth) (placed ts.entry)) }
{
    let ts = phrase(ts, b",")?;
    let (e, ts) = expr(alloc, ts, depth)?;
    Ok((e, ts))
}

/// The parts of a concatenation behind the first one, and the brace that closes them.
#[cycle(expr)]
fn parts<'a>(
    alloc: Global,
    ts: Ahead<'a>,
    depth: u32,
    first: Expr,
) -> Result<(Items<Expr>, Ahead<'a>), ReadError>
    ensures { Gives (λ x. ((map read x.0, tt), placed x.1)) result
        (more_of (read first ∷ []) (picks.parts_at (reading.expr_at depth) (placed ts.entry))) }
{
    let mut parts = Items::new(alloc);
    parts.push(first)?;
    let mut rest = ts;
    'parts: while at_mark(rest, b",") {
        let (e, after) = part(alloc, rest, depth)?;
        parts.push(e)?;
        rest = after;
    }
    let ts = phrase(rest, b"}")?;
    Ok((parts, ts))
}

/// A whole expression, of at most 200 levels.
#[tactic(auto, unfolding(vl_tree::specs::Reading::whole_expr, vl_tree::specs::Grammar::limit))]
pub fn whole<'a>(alloc: Global, ts: Ahead<'a>) -> Result<(Expr, Ahead<'a>), ReadError>
    ensures { Gives (λ x. (read x.0, placed x.1)) result (reading.whole_expr (placed ts.entry)) }
{
    expr(alloc, ts, 200)
}
