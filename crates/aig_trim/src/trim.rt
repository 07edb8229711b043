//! The gates that are marked, with new numbers.

ghost use Rattle.std.specs.Prelude.{◌≡◌, ℕ, ◌+◌, ◌*◌, ◌/◌, ◌<◌, ◌≤◌, ◌^◌, length, map, slice_index, IfOk};
ghost use Rattle.aig_model.specs.Form.{IsForm};
ghost use Rattle.aig_out.specs.Forms.{form_of};
ghost use Rattle.aig_out.specs.Ran.{at};
ghost use Rattle.aig_trim.specs.Marks.{place, moved, kept};
ghost use Rattle.aig_trim.specs.Trimmed.{IsTrimmed};

use crate::marks::marks_of;
use aig_model::Gate;
use aig_out::{Aig, Gates, Literals};
use std::alloc::{AllocError, Global};
use surf_base::Seq;

/// The new numbers of variables: as many marked ones stand before each. Those of variables without a mark mean nothing.
fn numbers(alloc: Global, marks: &[bool]) -> Result<Vec<u64>, AllocError>
    ensures value { IfOk result (λ r. (x : ℕ) → x < length marks.now → slice_index r.items x ≡ place (at marks.now) x) }
    ensures low { IfOk result (λ r. (x : ℕ) → slice_index r.items x ≤ x) }
{
    let mut numbers = Vec::new(alloc);
    let mut next: u64 = 0;
    for marked in marks {
        numbers.push(next)?;
        if *marked {
            next += 1;
        }
    }
    Ok(numbers)
}

/// A literal of its variable's new number.
fn moved_literal(numbers: &[u64], literal: u64) -> u64
    requires { slice_index numbers.now (literal / 2) ≤ literal / 2 }
    ensures { result ≡ moved (slice_index numbers.now) literal }
{
    let number = match numbers.get((literal / 2) as usize) {
        Some(number) => *number,
        None => 0,
    };
    2 * number + literal % 2
}

/// These literals, of new numbers.
fn moved_literals(alloc: Global, numbers: &[u64], literals: &[u64]) -> Result<Literals, AllocError>
    requires { (x : ℕ) → slice_index numbers.now x ≤ x }
    ensures { IfOk result (λ r. r ≡ map (moved (slice_index numbers.now)) literals.now) }
{
    let mut all = Seq::new(alloc);
    for literal in literals {
        all.push(moved_literal(numbers, *literal))?;
    }
    Ok(all)
}

/// The marked gates, of new numbers. The first gate is variable `first`.
fn kept_gates(
    alloc: Global,
    marks: &[bool],
    numbers: &[u64],
    first: usize,
    gates: &[Gate],
) -> Result<Gates, AllocError>
    requires numbers { (x : ℕ) → slice_index numbers.now x ≤ x }
    requires room { first + length gates.now ≤ length marks.now }
    ensures { IfOk result (λ r. r ≡ kept (at marks.now) (slice_index numbers.now) first gates.now) }
{
    let mut all = Seq::new(alloc);
    for (i, gate) in gates.iter().enumerate() {
        if marks[first + i] {
            all.push(Gate {
                first: moved_literal(numbers, gate.first),
                second: moved_literal(numbers, gate.second),
            })?;
        }
    }
    Ok(all)
}

/// The form without the gates that no output and no latch depends on. The gates that are left keep their order.
///
/// # Errors
///
/// Memory ran out.
pub fn trimmed(alloc: Global, aig: &Aig) -> Result<Aig, AllocError>
    requires { IsForm (form_of aig.now) }
    ensures { IfOk result (λ r. IsTrimmed (form_of aig.now) (form_of r)) }
{
    let marks = marks_of(alloc, aig)?;
    let numbers = numbers(alloc, marks.as_slice())?;
    let first = aig.inputs as usize + aig.latches.len() + 1;
    let latches = moved_literals(alloc, numbers.as_slice(), aig.latches.as_slice())?;
    let outputs = moved_literals(alloc, numbers.as_slice(), aig.outputs.as_slice())?;
    let gates = kept_gates(
        alloc,
        marks.as_slice(),
        numbers.as_slice(),
        first,
        aig.gates.as_slice(),
    )?;
    Ok(Aig {
        inputs: aig.inputs,
        latches,
        outputs,
        gates,
    })
}
