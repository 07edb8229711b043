//! The labels of an expression's bits.
ghost use Rattle.std.specs.Prelude.{◌≡◌, ◌+◌, map, IfOk};
ghost use Rattle.vl_tree.specs.Read.{read, reads};
ghost use Rattle.vl_run.specs.Emit.{place_in};
ghost use Rattle.label_audit.specs.Rows.{row_in, cut_row, row_of, rows_of, rows_by, bits_in};

use crate::bit::Bit;
use crate::operator::operator;
use crate::row::{Row, behind, bit, chosen, complement, constant, part, word};
use crate::tables::at;
use sqlite_items::Boxed;
use std::alloc::{AllocError, Global};
use vl_rules::{Entry, Names};
use vl_tree::Expr;

/// What the names of a module are declared as, and the labels of its nets and memories, by the lines that declare them.
#[derive(Clone, Copy)]
pub(crate) struct Scope<'a> {
    pub(crate) declared: &'a Names<Entry>,
    pub(crate) rows: &'a [Row],
}

/// The line that declares the name.
pub(crate) fn place(declared: &Names<Entry>, name: &[u8]) -> usize
    ensures { result ≡ place_in declared.now name.now }
{
    match declared.get(name) {
        Some(entry) => entry.line,
        None => 0,
    }
}

/// How many bits a net has, or a memory's word.
pub(crate) fn wide(declared: &Names<Entry>, name: &[u8]) -> usize
    ensures { result ≡ bits_in declared.now name.now }
{
    match declared.get(name) {
        Some(entry) => entry.high as usize + 1,
        None => 0,
    }
}

/// The labels of the net or the memory of the name.
#[tactic(auto, using(crate::proofs::Rows::rows))]
pub(crate) fn named<'a>(scope: &Scope<'a>, name: &[u8]) -> &'a [Bit]
    ensures { row_in result.now ≡ rows_by (place_in scope.now.declared.now) (map row_in scope.now.rows.now) name.now }
{
    at(scope.rows, place(scope.declared, name))
}

/// The bits of a row again.
pub(crate) fn copy(alloc: Global, row: &[Bit]) -> Result<Row, AllocError>
    ensures { IfOk result (λ v. row_in v ≡ row_in row.now) }
{
    Row::from_slice(alloc, row)
}

/// The bits from `high` down to `low`.
#[tactic(auto, using(crate::proofs::Rows::rows), unfolding(crate::specs::Rows::cut_row))]
fn cut(alloc: Global, row: &[Bit], high: u32, low: u32) -> Result<Row, AllocError>
    ensures { IfOk result (λ v. row_in v ≡ cut_row (row_in row.now) high low) }
{
    part(alloc, row, low, high.saturating_sub(low) as usize + 1)
}

/// The labels of the expression's bits.
#[cycle(bits)]
#[tactic(auto, using(crate::proofs::Rows::rows))]
pub(crate) fn bits(alloc: Global, e: &Expr, scope: &Scope) -> Result<Row, AllocError>
    ensures { IfOk result (λ v. row_in v
        ≡ row_of (rows_by (place_in scope.now.declared.now) (map row_in scope.now.rows.now)) (read e.now)) }
{
    match e {
        Expr::Net(n) => copy(alloc, named(scope, n.as_slice())),
        Expr::Number(k) => constant(alloc, k.value, k.width as usize),
        Expr::Bit(n, i) => part(alloc, named(scope, n.as_slice()), *i, 1),
        Expr::Part(n, high, low) => { cut(alloc, named(scope, n.as_slice()), *high, *low) }
        Expr::Word(n, i) => {
            let index = inner(alloc, i, scope)?;
            word(alloc, named(scope, n.as_slice()), index.as_slice())
        }
        Expr::Not(a) => {
            let row = inner(alloc, a, scope)?;
            complement(alloc, row.as_slice())
        }
        Expr::Two(op, a, b) => {
            let left = inner(alloc, a, scope)?;
            let right = inner(alloc, b, scope)?;
            operator(alloc, *op, left.as_slice(), right.as_slice())
        }
        Expr::If(c, a, b) => {
            let test = inner(alloc, c, scope)?;
            let yes = inner(alloc, a, scope)?;
            let no = inner(alloc, b, scope)?;
            let test = bit(test.as_slice(), 0);
            chosen(alloc, test, yes.as_slice(), no.as_slice())
        }
        Expr::Cat(es) => in_a_row(alloc, es.as_slice(), scope),
    }
}

#[cycle(bits)]
fn inner(alloc: Global, e: &Boxed<Expr>, scope: &Scope) -> Result<Row, AllocError>
    ensures { IfOk result (λ v. row_in v
        ≡ row_of (rows_by (place_in scope.now.declared.now) (map row_in scope.now.rows.now)) (read e.now)) }
{
    bits(alloc, e.get(), scope)
}

/// The parts of a concatenation, the last in the least significant bits.
#[cycle(bits)]
#[tactic(auto, using(crate::proofs::Parts::parts_in))]
fn in_a_row(alloc: Global, es: &[Expr], scope: &Scope) -> Result<Row, AllocError>
    ensures { IfOk result (λ v. row_in v
        ≡ rows_of (rows_by (place_in scope.now.declared.now) (map row_in scope.now.rows.now)) (reads es.now)) }
{
    let mut row = Row::new(alloc);
    for e in es {
        let back = bits(alloc, e, scope)?;
        row = behind(back, row.as_slice())?;
    }
    Ok(row)
}
