//! Expressions.

ghost use Rattle.std.specs.Prelude.{◌≡◌, ◌++◌, OnOk};
ghost use Rattle.vl_tree.specs.Values.{cat};
ghost use Rattle.vl_tree.specs.Read.{read, reads};
ghost use Rattle.vl_tree.specs.Layout.{expr_text};
ghost use Rattle.vl_text.specs.Parts.{comma_text};

use crate::pieces::{constant, op, put, small};
use sqlite_items::Boxed;
use std::alloc::AllocError;
use vl_tree::Expr;

/// An expression.
#[cycle(written)]
pub fn expr(out: &mut Vec<u8>, e: &Expr) -> Result<(), AllocError>
    ensures { OnOk result (out.new.items ≡ out.old.items ++ expr_text (read e.now)) }
{
    match e {
        Expr::Net(n) => put(out, n.as_slice()),
        Expr::Number(k) => constant(out, k),
        Expr::Bit(n, i) => {
            put(out, n.as_slice())?;
            put(out, b"[")?;
            small(out, *i)?;
            put(out, b"]")
        }
        Expr::Part(n, h, l) => {
            put(out, n.as_slice())?;
            put(out, b"[")?;
            small(out, *h)?;
            put(out, b":")?;
            small(out, *l)?;
            put(out, b"]")
        }
        Expr::Word(n, i) => {
            put(out, n.as_slice())?;
            put(out, b"[")?;
            boxed(out, i)?;
            put(out, b"]")
        }
        Expr::Not(a) => {
            put(out, b"(~")?;
            boxed(out, a)?;
            put(out, b")")
        }
        Expr::Two(o, a, b) => {
            put(out, b"(")?;
            boxed(out, a)?;
            op(out, *o)?;
            boxed(out, b)?;
            put(out, b")")
        }
        Expr::If(c, a, b) => {
            put(out, b"(")?;
            boxed(out, c)?;
            put(out, b" ? ")?;
            boxed(out, a)?;
            put(out, b" : ")?;
            boxed(out, b)?;
            put(out, b")")
        }
        Expr::Cat(es) => exprs(out, es.as_slice()),
    }
}

#[cycle(written)]
fn boxed(out: &mut Vec<u8>, e: &Boxed<Expr>) -> Result<(), AllocError>
    ensures { OnOk result (out.new.items ≡ out.old.items ++ expr_text (read e.now)) }
{
    expr(out, e.get())
}

/// The parts of a concatenation, in braces.
#[cycle(written)]
#[tactic(auto, using(crate::proofs::Tails::tail_begins, crate::proofs::Tails::tail_goes_on, crate::proofs::Tails::tail_ends))]
fn exprs(out: &mut Vec<u8>, es: &[Expr]) -> Result<(), AllocError>
    ensures { OnOk result (out.new.items ≡ out.old.items ++ expr_text (cat (reads es.now))) }
{
    put(out, b"{")?;
    let mut first = true;
    for e in es {
        comma(out, first)?;
        expr(out, e)?;
        first = false;
    }
    put(out, b"}")
}

/// What stands before a part.
fn comma(out: &mut Vec<u8>, first: bool) -> Result<(), AllocError>
    ensures { OnOk result (out.new.items ≡ out.old.items ++ comma_text first) }
{
    if first { Ok(()) } else { put(out, b", ") }
}
