//! Tests: a form written as text.

ghost use Rattle.std.specs.Prelude.{◌≡◌, length, IfOk};
ghost use Rattle.aig_model.specs.Form.{IsForm};
ghost use Rattle.aig_out.specs.Forms.{form_of};

use crate::{Aig, AigRun, write_aig};
use aig_model::Gate;
use std::alloc::{AllocError, Global};
use std::test::Fail;
use surf_base::{MemSink, Seq};

/// One input; a register that is 1 after reset and takes it; outputs true, the register, and the input where the
/// register is 1.
fn form(alloc: Global) -> Result<Aig, AllocError>
    ensures form { IfOk result (λ a. IsForm (form_of a)) }
    ensures inputs { IfOk result (λ a. a.inputs ≡ 1) }
    ensures outputs { IfOk result (λ a. length a.outputs ≡ 3) }
{
    Ok(Aig {
        inputs: 1,
        latches: Seq::from_slice(alloc, &[3])?,
        outputs: Seq::from_slice(alloc, &[1, 5, 6])?,
        gates: Seq::from_slice(
            alloc,
            &[Gate {
                first: 2,
                second: 5,
            }],
        )?,
    })
}

#[test]
fn a_form_is_written(rt: HostRuntime) -> Result<(), Fail> {
    let mut sink = MemSink::new(rt.alloc(), 1000, 7, &[])?;
    let written = write_aig(&form(rt.alloc())?, &mut sink);
    assert!(rt; written.is_ok());
    assert_eq!(rt;
        sink.bytes(),
        b"aag 3 1 1 3 1\n2\n4 3\n1\n5\n6\n6 2 5\n".as_slice()
    );
    Ok(())
}

/// The outputs of a cycle.
fn outputs(run: &mut AigRun, input: bool) -> [bool; 3]
    requires inputs { run.now.form.inputs ≡ 1 }
    requires outputs { length run.now.form.outputs ≡ 3 }
    ensures { run.new.form ≡ run.old.form }
{
    let mut bits = [false; 3];
    run.step(&[input], &mut bits);
    bits
}

#[test]
fn a_latch_that_is_1_after_reset_runs(rt: HostRuntime) -> Result<(), Fail> {
    let mut run = AigRun::new(rt.alloc(), form(rt.alloc())?)?;
    assert_eq!(rt; outputs(&mut run, true), [true, true, true]);
    assert_eq!(rt; outputs(&mut run, false), [true, true, false]);
    assert_eq!(rt; outputs(&mut run, true), [true, false, false]);
    assert_eq!(rt; outputs(&mut run, true), [true, true, true]);
    Ok(())
}
