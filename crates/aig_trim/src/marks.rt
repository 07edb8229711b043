//! Marks of the variables that outputs and latches depend on.

ghost use Rattle.std.specs.Prelude.{◌≡◌, ℕ, ◌+◌, ◌*◌, ◌<◌, ◌≤◌, ◌||◌, nat_lt, length, IfOk};
ghost use Rattle.std.specs.List.{AllByRecursion, list_any};
ghost use Rattle.aig_model.specs.Form.{IsForm, AreOrdered, first_gate, last_variable};
ghost use Rattle.aig_out.specs.Forms.{form_of};
ghost use Rattle.aig_out.specs.Ran.{at};
ghost use Rattle.aig_trim.specs.Marks.{is_of, with_reads, needs};

use aig_model::Gate;
use aig_out::Aig;
use std::alloc::{AllocError, Global};

/// The marks of so many variables: those before the first gate are marked.
fn begin(alloc: Global, first: usize, count: usize) -> Result<Vec<bool>, AllocError>
    requires { first ≤ count }
    ensures len { IfOk result (λ r. length r.items ≡ count) }
    ensures value { IfOk result (λ r. (x : ℕ) → at r.items x ≡ nat_lt x first) }
{
    let mut marks = vec![in alloc; false; count]?;
    for x in 0..first {
        marks[x] = true;
    }
    Ok(marks)
}

/// Marks the variables of these literals.
fn mark(marks: &mut [bool], literals: &[u64])
    requires { AllByRecursion (λ l. l < 2 * length marks.old) literals.now }
    ensures len { length marks.new ≡ length marks.old }
    ensures value { (x : ℕ) → at marks.new x ≡ (at marks.old x || list_any (is_of x) literals.now) }
{
    for literal in literals {
        marks[(*literal / 2) as usize] = true;
    }
}

/// Marks what marked gates read, of which the first is variable `first`, from the last one down.
fn mark_gates(marks: &mut [bool], first: usize, gates: &[Gate])
    requires room { first + length gates.now ≤ length marks.old }
    requires ordered { AreOrdered first gates.now }
    ensures len { length marks.new ≡ length marks.old }
    ensures value { (x : ℕ) → at marks.new x ≡ with_reads (at marks.old) first gates.now x }
{
    let mut i = gates.len();
    while 0 < i {
        i -= 1;
        if marks[first + i] {
            let gate = gates[i];
            marks[(gate.first / 2) as usize] = true;
            marks[(gate.second / 2) as usize] = true;
        }
    }
}

/// Marks what outputs and latches depend on, where what stands before the first gate is marked.
fn mark_form(marks: &mut [bool], aig: &Aig, first: usize)
    requires form { IsForm (form_of aig.now) }
    requires room { length marks.old ≡ last_variable (form_of aig.now) + 1 }
    requires first { first ≡ first_gate (form_of aig.now) }
    requires begun { (x : ℕ) → at marks.old x ≡ nat_lt x first }
    ensures len { length marks.new ≡ length marks.old }
    ensures value { (x : ℕ) → at marks.new x ≡ needs (form_of aig.now) x }
{
    mark(marks, aig.outputs.as_slice());
    mark(marks, aig.latches.as_slice());
    mark_gates(marks, first, aig.gates.as_slice());
}

/// The marks of a form's variables: those that outputs and latches depend on, and all before the first gate.
///
/// # Errors
///
/// Memory ran out.
pub(crate) fn marks_of(alloc: Global, aig: &Aig) -> Result<Vec<bool>, AllocError>
    requires { IsForm (form_of aig.now) }
    ensures len { IfOk result (λ r. length r.items ≡ last_variable (form_of aig.now) + 1) }
    ensures value { IfOk result (λ r. (x : ℕ) → at r.items x ≡ needs (form_of aig.now) x) }
{
    let first = aig.inputs as usize + aig.latches.len() + 1;
    let mut marks = begin(alloc, first, first + aig.gates.len())?;
    mark_form(marks.as_mut_slice(), aig, first);
    Ok(marks)
}
