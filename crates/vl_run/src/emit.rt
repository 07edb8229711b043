//! The steps that compute an expression.

ghost use Rattle.std.specs.Prelude.{◌≡◌, ◌+◌, ◌≤◌, ◌∷◌, ◌++◌, [], min, IfOk, OnOk};
ghost use Rattle.vl_tree.specs.Read.{read, reads};
ghost use Rattle.vl_rules.specs.Scope.{widths_at};
ghost use Rattle.vl_model.specs.Meaning.{width_of};
ghost use Rattle.vl_run.specs.Emit.{place_in, mask_of, scale_of, steps_of, parts_steps, fetch, fetched};

use crate::step::{Action, Step};
use sqlite_items::Boxed;
use std::alloc::AllocError;
use vl_rules::{Entry, Names, bits};
use vl_tree::{Expr, Op};

/// What the names of a module are declared as, and how many lines it has.
#[derive(Clone, Copy)]
pub(crate) struct Scope<'a> {
    pub(crate) declared: &'a Names<Entry>,
    pub(crate) lines: usize,
}

/// The number of the line that declares the name.
pub(crate) fn place(scope: &Scope, name: &[u8]) -> usize
    ensures { result ≡ place_in scope.now.declared.now name.now }
{
    match scope.declared.get(name) {
        Some(entry) => entry.line,
        None => 0,
    }
}

/// The number after. One that doesn't fit counts as memory that ran out.
pub(crate) fn next(place: usize) -> Result<usize, AllocError>
    ensures { IfOk result (λ n. n ≡ place + 1) }
{
    match place.checked_add(1) {
        Some(n) => Ok(n),
        None => Err(AllocError),
    }
}

/// How many bits the expression has, up to 64.
fn wide(e: &Expr, scope: &Scope) -> u64
    ensures width { result ≡ min 64 (width_of (widths_at scope.now.declared.now scope.now.lines) (read e.now)) }
    ensures most { result ≤ 64 }
{
    bits(e, scope.declared, scope.lines)
}

/// As many bits as this, all 1.
fn mask(width: u64) -> u64
    ensures { result ≡ mask_of width }
{
    if width < 64 {
        (1 << width) - 1
    } else {
        u64::MAX
    }
}

/// What bits in front of as many as this are worth.
fn scale(width: u64) -> u64
    ensures { result ≡ scale_of width }
{
    if width < 64 { 1 << width } else { 0 }
}

/// Adds a step.
pub(crate) fn put(steps: &mut Vec<Step>, to: usize, action: Action) -> Result<(), AllocError>
    ensures { OnOk result (steps.new.items ≡ steps.old.items ++ record { to = to; action = action } ∷ []) }
{
    steps.push(Step { to, action })?;
    Ok(())
}

/// The bits of a net from `low` on.
fn part_of(from: usize, low: u32, mask: u64) -> Action
    ensures { result ≡ Action.Bits from low mask }
{
    Action::Bits { from, low, mask }
}

/// An operator between two operands that stand at places.
fn two_of(op: Op, mask: u64, left: usize, right: usize) -> Action
    ensures { result ≡ Action.Two op mask left right }
{
    Action::Two {
        op,
        mask,
        left,
        right,
    }
}

/// The first where the test is 1, and else the second, by their places.
fn choice_of(test: usize, first: usize, second: usize) -> Action
    ensures { result ≡ Action.Choose test first second }
{
    Action::Choose {
        test,
        first,
        second,
    }
}

/// Adds the steps that give place `to` the value of the expression. They may write places from `free` on.
#[cycle(emit)]
#[tactic(auto, using(crate::proofs::Emitting::emitting))]
pub(crate) fn emit(
    e: &Expr,
    to: usize,
    free: usize,
    scope: &Scope,
    steps: &mut Vec<Step>,
) -> Result<(), AllocError>
    ensures { OnOk result (steps.new.items ≡ steps.old.items
        ++ steps_of (place_in scope.now.declared.now) (widths_at scope.now.declared.now scope.now.lines) to free
        (read e.now)) }
{
    match e {
        Expr::Net(n) => put(steps, to, Action::Copy(place(scope, n.as_slice()))),
        Expr::Number(k) => put(steps, to, Action::Number(k.value)),
        Expr::Bit(n, i) => put(steps, to, part_of(place(scope, n.as_slice()), *i, 1)),
        Expr::Part(n, high, low) => {
            let mask = mask(high.saturating_sub(*low) as u64 + 1);
            put(steps, to, part_of(place(scope, n.as_slice()), *low, mask))
        }
        Expr::Word(n, i) => {
            let index = operand(i, free, scope, steps)?;
            let memory = place(scope, n.as_slice());
            put(steps, to, Action::Load { memory, index })
        }
        Expr::Not(a) => {
            let from = operand(a, free, scope, steps)?;
            let mask = mask(wide(a.get(), scope));
            put(steps, to, Action::Not { from, mask })
        }
        Expr::Two(op, a, b) => {
            let left = operand(a, free, scope, steps)?;
            let second = next(free)?;
            let right = operand(b, second, scope, steps)?;
            let mask = mask(wide(a.get(), scope));
            put(steps, to, two_of(*op, mask, left, right))
        }
        Expr::If(c, a, b) => {
            let test = operand(c, free, scope, steps)?;
            let second = next(free)?;
            let yes = operand(a, second, scope, steps)?;
            let third = next(second)?;
            let no = operand(b, third, scope, steps)?;
            put(steps, to, choice_of(test, yes, no))
        }
        Expr::Cat(es) => {
            put(steps, free, Action::Number(0))?;
            in_a_row(es.as_slice(), free, scope, steps)?;
            put(steps, to, Action::Copy(free))
        }
    }
}

/// Where the value of the operand will stand, after steps that are added.
#[cycle(emit)]
#[tactic(auto, using(crate::proofs::Emitting::emitting))]
fn operand(
    e: &Boxed<Expr>,
    free: usize,
    scope: &Scope,
    steps: &mut Vec<Step>,
) -> Result<usize, AllocError>
    ensures place { IfOk result (λ p. p ≡ fetched (place_in scope.now.declared.now) free (read e.now)) }
    ensures steps { OnOk result (steps.new.items ≡ steps.old.items
        ++ fetch (read e.now) (steps_of (place_in scope.now.declared.now)
        (widths_at scope.now.declared.now scope.now.lines) free (free + 1) (read e.now))) }
{
    fetched(e.get(), free, scope, steps)
}

/// The place of a net, or the place `free` after the steps that compute anything else there.
#[cycle(emit)]
#[tactic(auto, using(crate::proofs::Emitting::emitting))]
fn fetched(e: &Expr, free: usize, scope: &Scope, steps: &mut Vec<Step>) -> Result<usize, AllocError>
    ensures place { IfOk result (λ p. p ≡ fetched (place_in scope.now.declared.now) free (read e.now)) }
    ensures steps { OnOk result (steps.new.items ≡ steps.old.items
        ++ fetch (read e.now) (steps_of (place_in scope.now.declared.now)
        (widths_at scope.now.declared.now scope.now.lines) free (free + 1) (read e.now))) }
{
    match e {
        Expr::Net(n) => Ok(place(scope, n.as_slice())),
        _ => {
            let more = next(free)?;
            emit(e, free, more, scope, steps)?;
            Ok(free)
        }
    }
}

/// Adds the steps that put the parts, one by one, behind what stands at `all`.
#[cycle(emit)]
#[tactic(auto, using(crate::proofs::Emitting::emitting))]
fn in_a_row(es: &[Expr], all: usize, scope: &Scope, steps: &mut Vec<Step>) -> Result<(), AllocError>
    ensures { OnOk result (steps.new.items ≡ steps.old.items
        ++ parts_steps (place_in scope.now.declared.now) (widths_at scope.now.declared.now scope.now.lines) all
        (reads es.now)) }
{
    let more = next(all)?;
    for e in es {
        let back = fetched(e, more, scope, steps)?;
        let scale = scale(wide(e, scope));
        put(
            steps,
            all,
            Action::Join {
                front: all,
                scale,
                back,
            },
        )?;
    }
    Ok(())
}
