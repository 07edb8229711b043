//! A form that runs.

ghost use Rattle.std.specs.Prelude.{◌≡◌, ℕ, ◌+◌, ◌-◌, ◌<◌, ◌≤◌, ◌==◌, nat_le, Bool, false, length, map, replicate, if◌then◌else◌, IfOk};
ghost use Rattle.aig_model.specs.Form.{IsForm, AreOrdered, literal, with_gates, values as values_in, last_variable};
ghost use Rattle.aig_out.specs.Forms.{form_of};
ghost use Rattle.aig_out.specs.Ran.{at, values_of};

use crate::form::Aig;
use aig_model::Gate;
use std::alloc::{AllocError, Global};
use std::marker::Model;

/// A form that runs, cycle by cycle.
#[derive(Drop)]
pub struct AigRun {
    aig: Aig,
    /// The values of all variables in the last cycle.
    values: Vec<bool>,
    state: Vec<bool>,
}

impl Model for AigRun {
    ghost use Rattle.std.specs.Prelude.{◌≡◌, ◌+◌, length};
    ghost use Rattle.aig_model.specs.Form.{IsForm, last_variable};
    ghost use Rattle.aig_out.specs.Forms.{form_of};
    ghost use Rattle.aig_out.specs.Ran.{Ran};

    ghost Value = { Ran };

    ghost view = { λ r. record { form = form_of r.aig; state = r.state.items } };

    ghost invariant = { λ r. record {
      form : IsForm (form_of r.aig);
      state : length r.state.items ≡ length r.aig.latches;
      values : length r.values.items ≡ last_variable (form_of r.aig) + 1;
    } };
}

/// The value of a literal.
fn value(values: &[bool], number: u64) -> bool
    ensures { result ≡ literal (at values.now) number }
{
    let variable = match values.get((number / 2) as usize) {
        Some(value) => *value,
        None => false,
    };
    if number % 2 == 1 { !variable } else { variable }
}

/// Gives inputs and latches their values.
fn put_given(values: &mut [bool], inputs: &[bool], state: &[bool])
    requires room { length inputs.now + length state.now + 1 ≤ length values.old }
    ensures len { length values.new ≡ length values.old }
    ensures values { (x : ℕ) → x < length inputs.now + length state.now + 1 → at values.new x
        ≡ (if x == 0 then false else if nat_le x (length inputs.now) then at inputs.now (x - 1) else at state.now (x - length inputs.now - 1)) }
{
    values[0] = false;
    for (i, input) in inputs.iter().enumerate() {
        values[1 + i] = *input;
    }
    for (j, latch) in state.iter().enumerate() {
        values[1 + inputs.len() + j] = *latch;
    }
}

/// Gives gates their values in order, of which the first is variable `first`.
fn settle(values: &mut [bool], first: usize, gates: &[Gate])
    requires room { first + length gates.now ≤ length values.old }
    requires ordered { AreOrdered first gates.now }
    ensures len { length values.new ≡ length values.old }
    ensures values { (v : ℕ → Bool) → ((x : ℕ) → x < first → at values.old x ≡ v x)
        → (x : ℕ) → x < first + length gates.now → at values.new x ≡ with_gates v first gates.now x }
{
    for (i, gate) in gates.iter().enumerate() {
        let both = value(values, gate.first) & value(values, gate.second);
        values[first + i] = both;
    }
}

/// The values of these literals.
fn read(values: &[bool], literals: &[u64], bits: &mut [bool])
    requires { length bits.old ≡ length literals.now }
    ensures { bits.new ≡ map (literal (at values.now)) literals.now }
{
    for (i, number) in literals.iter().enumerate() {
        bits[i] = value(values, *number);
    }
}

/// One cycle of a form, where inputs and latches have these values, and its edge.
fn cycle(aig: &Aig, values: &mut [bool], inputs: &[bool], state: &mut [bool], outputs: &mut [bool])
    requires form { IsForm (form_of aig.now) }
    requires room { length values.old ≡ last_variable (form_of aig.now) + 1 }
    requires inputs { length inputs.now ≡ aig.now.inputs }
    requires state { length state.old ≡ length aig.now.latches }
    requires outputs { length outputs.old ≡ length aig.now.outputs }
    ensures outputs { outputs.new ≡ map (literal (values_in (form_of aig.now) (at inputs.now) (at state.old))) aig.now.outputs }
    ensures state { state.new ≡ map (literal (values_in (form_of aig.now) (at inputs.now) (at state.old))) aig.now.latches }
{
    let first = inputs.len() + state.len() + 1;
    put_given(values, inputs, state);
    settle(values, first, aig.gates.as_slice());
    read(values, aig.outputs.as_slice(), outputs);
    read(values, aig.latches.as_slice(), state);
}

/// So many zeros.
fn zeros(alloc: Global, count: usize) -> Result<Vec<bool>, AllocError>
    ensures { IfOk result (λ v. v.items ≡ replicate count false) }
{
    let bits = vec![in alloc; false; count]?;
    Ok(bits)
}

impl AigRun {
    /// The form with all latches at 0.
    ///
    /// # Errors
    ///
    /// Memory ran out; then the form is dropped.
    pub fn new(alloc: Global, aig: Aig) -> Result<AigRun, AllocError>
        requires { IsForm (form_of aig) }
        ensures form { IfOk result (λ r. r.form ≡ form_of aig) }
        ensures state { IfOk result (λ r. r.state ≡ replicate (length r.form.latches) false) }
    {
        let count = aig.inputs as usize + aig.latches.len() + aig.gates.len() + 1;
        let values = zeros(alloc, count)?;
        let state = zeros(alloc, aig.latches.len())?;
        Ok(AigRun { aig, values, state })
    }

    /// One cycle and its edge, where the inputs have these values: writes the outputs of the cycle. Takes no memory.
    pub fn step(&mut self, inputs: &[bool], outputs: &mut [bool])
        requires inputs { length inputs.now ≡ self.now.form.inputs }
        requires outputs { length outputs.old ≡ length self.now.form.outputs }
        ensures form { self.new.form ≡ self.old.form }
        ensures outputs { outputs.new ≡ map (literal (values_of self.old inputs.now)) self.old.form.outputs }
        ensures state { self.new.state ≡ map (literal (values_of self.old inputs.now)) self.old.form.latches }
    {
        cycle(
            &self.aig,
            self.values.as_mut_slice(),
            inputs,
            self.state.as_mut_slice(),
            outputs,
        );
    }
}
