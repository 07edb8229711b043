//! Widths of expressions.

ghost use Rattle.std.specs.Prelude.{◌≡◌, ◌==◌, ◌&&◌, if◌then◌else◌, Some, None};
ghost use Rattle.vl_tree.specs.Read.{read, reads};
ghost use Rattle.vl_tree.specs.Values.{cat};
ghost use Rattle.vl_model.specs.Meaning.{op_width};
ghost use Rattle.vl_rules.specs.Scope.{widths_at};
ghost use Rattle.vl_rules.specs.Widths.{width_in, parts_width};

use crate::names::Names;
use crate::scope::{Entry, net_width, word_width};
use crate::uses::after;
use sqlite_items::Boxed;
use vl_tree::{Expr, Op};

/// The width of an operator's result, where its operands are equally wide.
fn two(op: Op, w: u64, u: u64) -> Option<u64>
    ensures { result ≡ (if w == u then Some (op_width op w) else None) }
{
    if w == u { Some(after(op, w)) } else { None }
}

/// The width of a choice, where the test has one bit and both branches are equally wide.
fn choice(test: u64, w: u64, u: u64) -> Option<u64>
    ensures { result ≡ (if (test == 1) && (w == u) then Some w else None) }
{
    if test == 1 && w == u { Some(w) } else { None }
}

/// The width of an expression, or nothing where its widths don't agree.
#[cycle(width)]
#[tactic(auto, using(crate::proofs::Sized::widths_of_parts))]
pub fn width(e: &Expr, table: &Names<Entry>, number: usize) -> Option<u64>
    ensures { result ≡ width_in (widths_at table.now number) (read e.now) }
{
    match e {
        Expr::Net(n) => Some(net_width(table, number, n.as_slice())),
        Expr::Number(k) => Some(k.width as u64),
        Expr::Bit(n, i) => {
            if (*i as u64) < net_width(table, number, n.as_slice()) {
                Some(1)
            } else {
                None
            }
        }
        Expr::Part(n, h, l) => {
            if *l <= *h && (*h as u64) < net_width(table, number, n.as_slice()) {
                Some((*h - *l) as u64 + 1)
            } else {
                None
            }
        }
        Expr::Word(n, i) => {
            let _index = boxed(i, table, number)?;
            Some(word_width(table, number, n.as_slice()))
        }
        Expr::Not(a) => boxed(a, table, number),
        Expr::Two(op, a, b) => {
            let w = boxed(a, table, number)?;
            let u = boxed(b, table, number)?;
            two(*op, w, u)
        }
        Expr::If(c, a, b) => {
            let k = boxed(c, table, number)?;
            let w = boxed(a, table, number)?;
            let u = boxed(b, table, number)?;
            choice(k, w, u)
        }
        Expr::Cat(es) => parts(es.as_slice(), table, number),
    }
}

#[cycle(width)]
fn boxed(e: &Boxed<Expr>, table: &Names<Entry>, number: usize) -> Option<u64>
    ensures { result ≡ width_in (widths_at table.now number) (read e.now) }
{
    width(e.get(), table, number)
}

/// The width of a concatenation, at most 64.
#[cycle(width)]
#[tactic(auto, using(crate::proofs::Sized::cat_width))]
fn parts(es: &[Expr], table: &Names<Entry>, number: usize) -> Option<u64>
    ensures { result ≡ width_in (widths_at table.now number) (cat (reads es.now)) }
{
    in_a_row(es, table, number)
}

/// The width of the parts in a row, at most 64.
#[cycle(width)]
#[tactic(auto, using(crate::proofs::Sized::rows))]
fn in_a_row(es: &[Expr], table: &Names<Entry>, number: usize) -> Option<u64>
    ensures { result ≡ parts_width (widths_at table.now number) 0 (reads es.now) }
{
    let mut total: u64 = 0;
    for e in es {
        let k = width(e, table, number)?;
        if 64 < k || 64 < total + k {
            return None;
        }
        total += k;
    }
    Some(total)
}
