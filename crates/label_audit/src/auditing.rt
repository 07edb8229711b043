//! The audit.
ghost use Rattle.std.specs.Prelude.{◌≡◌, None, IfOk};
ghost use Rattle.vl_tree.specs.Read.{read_design};
ghost use Rattle.vl_rules.specs.Answer.{design_of};
ghost use Rattle.gen_kit.specs.Ports.{ports_fault};
ghost use Rattle.label_audit.specs.Audited.{IsAudit};
ghost use Rattle.label_audit.specs.Whole.{IsShape, phase_in};
ghost use Rattle.label_audit.specs.Walks.{all_tops};

use crate::leaks::{Verdict, judged};
use crate::phase::{Phase, Shape, of_phase, parts};
use crate::tables::Rows;
use crate::walk::least_phases;
use noc_model::Plan;
use std::alloc::{AllocError, Global};
use vl_rules::{Library, Module, Sound, declarations};

/// The labels of the top's nets, by phase.
#[tactic(auto, using(crate::proofs::Instances::instances))]
fn tops(alloc: Global, shape: &Shape, phases: &[Phase]) -> Result<Vec<Rows>, AllocError>
    requires { IsShape shape.now }
    ensures { IfOk result (λ v. phase_in v.items ≡ all_tops shape.now phases.now) }
{
    let mut tops = Vec::new(alloc);
    for f in 0..phases.len() {
        let rows = shape.tops(alloc, of_phase(phases, f))?;
        tops.push(Rows::new(rows))?;
    }
    Ok(tops)
}

/// The verdict on a design.
fn verdict(alloc: Global, shape: &Shape) -> Result<Verdict, AllocError>
    requires { IsShape shape.now }
    ensures { IfOk result (λ verdict. IsAudit shape.now.plan.now (read_design shape.now.design.now) verdict) }
{
    let phases = least_phases(alloc, shape, shape.plan.slots() as usize)?;
    let tops = tops(alloc, shape, phases.as_slice())?;
    Ok(judged(shape, tops.as_slice()))
}

/// Whether each output port of a sound design depends on its own domain's inputs alone, or the first leak. The design
/// has the ports of the plan's text.
///
/// # Errors
///
/// When memory runs out.
pub fn audit(alloc: Global, plan: &Plan, sound: &Sound) -> Result<Verdict, AllocError>
    requires { ports_fault plan.now (read_design (design_of sound.now)) ≡ None }
    ensures { IfOk result (λ verdict. IsAudit plan.now (read_design (design_of sound.now)) verdict) }
{
    plan.known();
    let design = sound.design();
    let library = Library::new(alloc, design.leaves.as_slice())?;
    let declared = declarations(alloc, &Module::Top(&design.top))?;
    let parts = parts(alloc, design.top.items.as_slice(), &library)?;
    let shape = Shape {
        plan,
        design,
        declared: &declared,
        parts: parts.as_slice(),
    };
    verdict(alloc, &shape)
}
