//! Worked forms.

ghost use Rattle.std.specs.Prelude.{◌≡◌, IfOk};
ghost use Rattle.aig_model.specs.Form.{IsForm};
ghost use Rattle.aig_out.specs.Forms.{form_of};

use crate::trimmed;
use aig_model::Gate;
use aig_out::Aig;
use std::alloc::{AllocError, Global};
use std::test::Fail;
use surf_base::Seq;

/// A gate that reads these literals.
fn gate(first: u64, second: u64) -> Gate
    ensures { result ≡ record { first = first; second = second } }
{
    Gate { first, second }
}

/// Two inputs and a latch, variables 1 to 3. Variable 5 is read by variable 6 alone, and nothing reads that.
fn form(alloc: Global) -> Result<Aig, AllocError>
    ensures { IfOk result (λ a. IsForm (form_of a)) }
{
    Ok(Aig {
        inputs: 2,
        latches: Seq::from_slice(alloc, &[14])?,
        outputs: Seq::from_slice(alloc, &[15, 1, 3])?,
        gates: Seq::from_slice(alloc, &[gate(2, 4), gate(3, 6), gate(9, 10), gate(7, 9)])?,
    })
}

#[test]
fn gates_that_nothing_needs_are_left_out(rt: HostRuntime) -> Result<(), Fail> {
    let aig = trimmed(rt.alloc(), &form(rt.alloc())?)?;
    assert_eq!(rt; aig.inputs, 2);
    assert_eq!(rt; aig.latches.as_slice(), [10].as_slice());
    assert_eq!(rt; aig.outputs.as_slice(), [11, 1, 3].as_slice());
    assert_eq!(rt; aig.gates.as_slice(), [gate(2, 4), gate(7, 9)].as_slice());
    Ok(())
}
