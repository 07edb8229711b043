//! The memories that an expression reads, and the widths of their indexes.

ghost use Rattle.std.specs.Prelude.{◌≡◌, ◌==◌, ◌^◌, min};
ghost use Rattle.std.specs.List.{list_any};
ghost use Rattle.vl_tree.specs.Read.{read, reads};
ghost use Rattle.vl_model.specs.Meaning.{uses_of, parts_uses, width_of, widths_of, op_width};
ghost use Rattle.vl_rules.specs.Scope.{widths_at, seen};
ghost use Rattle.vl_model.specs.Lines.{word_count};
ghost use Rattle.vl_rules.specs.Walks.{use_passes};

use crate::names::Names;
use crate::scope::{Entry, Role, is_role, net_width, word_width, words};
use sqlite_items::Boxed;
use vl_tree::{Expr, Op};

/// A test of a memory and the index that it is read at.
#[derive(Clone, Copy)]
pub enum UseTest<'a> {
    /// It is no memory that is declared before the line.
    Unknown(&'a Names<Entry>, usize),
    /// The index doesn't have exactly the bits for its words.
    Unfit(&'a Names<Entry>, usize),
}

/// A width of 64 bits stands for all that are wider.
const MOST: u64 = 64;

/// The width, up to 64.
fn capped(width: u64) -> u64
    ensures { result ≡ min 64 width }
{
    if width < MOST { width } else { MOST }
}

/// The width of an operator's result, for operands of this width.
pub fn after(op: Op, width: u64) -> u64
    ensures { result ≡ op_width op width }
{
    match op {
        Op::Equal | Op::Less => 1,
        _ => width,
    }
}

/// The width of an expression, up to 64 bits.
#[cycle(bits)]
#[tactic(auto, using(crate::proofs::Capped::bits))]
pub fn bits(e: &Expr, table: &Names<Entry>, number: usize) -> u64
    ensures { result ≡ min 64 (width_of (widths_at table.now number) (read e.now)) }
{
    match e {
        Expr::Net(n) => capped(net_width(table, number, n.as_slice())),
        Expr::Number(k) => capped(k.width as u64),
        Expr::Bit(_, _) => 1,
        Expr::Part(_, high, low) => capped(high.saturating_sub(*low) as u64 + 1),
        Expr::Word(n, _) => capped(word_width(table, number, n.as_slice())),
        Expr::Not(a) => boxed_bits(a, table, number),
        Expr::Two(op, a, _) => after(*op, boxed_bits(a, table, number)),
        Expr::If(_, a, _) => boxed_bits(a, table, number),
        Expr::Cat(es) => bits_in(es.as_slice(), table, number),
    }
}

#[cycle(bits)]
fn boxed_bits(e: &Boxed<Expr>, table: &Names<Entry>, number: usize) -> u64
    ensures { result ≡ min 64 (width_of (widths_at table.now number) (read e.now)) }
{
    bits(e.get(), table, number)
}

/// The width of the parts in a row, up to 64.
#[cycle(bits)]
#[tactic(auto, using(crate::proofs::Capped::bits))]
fn bits_in(es: &[Expr], table: &Names<Entry>, number: usize) -> u64
    ensures { result ≡ min 64 (widths_of (widths_at table.now number) (reads es.now)) }
{
    let mut total = 0;
    for e in es {
        total = capped(total + bits(e, table, number));
    }
    total
}

/// Whether the memory has two to the index's width words.
pub fn index_fits(table: &Names<Entry>, number: usize, memory: &[u8], index: &Expr) -> bool
    ensures { result
        ≡ (2 ^ width_of (widths_at table.now number) (read index.now)
        == word_count (seen table.now number memory.now)) }
{
    let width = bits(index, table, number);
    let words = words(table, number, memory);
    width < MOST && 1 << width == words
}

/// Whether the memory and its index pass the test.
fn passes(test: &UseTest, memory: &[u8], index: &Expr) -> bool
    ensures { result ≡ use_passes test.now (record { memory = memory.now; index = read index.now }) }
{
    match test {
        UseTest::Unknown(table, number) => !is_role(table, *number, memory, Role::Memory),
        UseTest::Unfit(table, number) => !index_fits(table, *number, memory, index),
    }
}

/// Whether the expression reads a memory that passes, in an index too.
#[cycle(uses)]
#[tactic(auto, using(crate::proofs::Anys::anys))]
pub fn any_use(e: &Expr, test: &UseTest) -> bool
    ensures { result ≡ list_any (use_passes test.now) (uses_of (read e.now)) }
{
    match e {
        Expr::Net(_) | Expr::Number(_) | Expr::Bit(_, _) | Expr::Part(_, _, _) => false,
        Expr::Word(n, index) => passes(test, n.as_slice(), index.get()) || boxed(index, test),
        Expr::Not(a) => boxed(a, test),
        Expr::Two(_, a, b) => boxed(a, test) || boxed(b, test),
        Expr::If(c, a, b) => boxed(c, test) || boxed(a, test) || boxed(b, test),
        Expr::Cat(es) => any_in(es.as_slice(), test),
    }
}

#[cycle(uses)]
fn boxed(e: &Boxed<Expr>, test: &UseTest) -> bool
    ensures { result ≡ list_any (use_passes test.now) (uses_of (read e.now)) }
{
    any_use(e.get(), test)
}

/// Whether one of the parts reads a memory that passes.
#[cycle(uses)]
#[tactic(auto, using(crate::proofs::Anys::anys))]
fn any_in(es: &[Expr], test: &UseTest) -> bool
    ensures { result ≡ list_any (use_passes test.now) (parts_uses (reads es.now)) }
{
    for e in es {
        if any_use(e, test) {
            return true;
        }
    }
    false
}
