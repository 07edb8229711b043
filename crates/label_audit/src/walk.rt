//! The walk from reset through the phases, until no label rises.
ghost use Rattle.std.specs.Prelude.{◌≡◌, ◌<◌, vec_len, Some, IfOk};
ghost use Rattle.label_audit.specs.Rises.{walk_left};
ghost use Rattle.label_audit.specs.Whole.{IsShape};
ghost use Rattle.label_audit.specs.Walks.{phase_count, AreFirst, IsWalk, IsDone};

use crate::phase::{Phase, Shape, of_phase};
use crate::raising::phase;
use std::alloc::{AllocError, Global};

/// Reset, and behind it what each phase hands over.
fn first_phases(alloc: Global, shape: &Shape, count: usize) -> Result<Vec<Phase>, AllocError>
    requires shape { IsShape shape.now }
    requires some { 0 < count }
    ensures { IfOk result (λ v. AreFirst shape.now count v.items) }
{
    let mut phases = Vec::new(alloc);
    phases.push(shape.first(alloc)?)?;
    for f in 1..count {
        let next = shape.next(alloc, of_phase(phases.as_slice(), f - 1))?;
        phases.push(next)?;
    }
    Ok(phases)
}

/// Hands phase `f` over to the next one, which has to be handed over in turn if one of its labels rose.
fn hand_over(
    alloc: Global,
    shape: &Shape,
    phases: &mut Vec<Phase>,
    f: usize,
) -> Result<Option<usize>, AllocError>
    requires shape { IsShape shape.now }
    requires walk { IsWalk shape.now phases.old.items (Some f) }
    requires within { f < vec_len phases.old }
    ensures walk { IfOk result (λ waits. IsWalk shape.now phases.new.items waits) }
    ensures less { IfOk result (λ waits. walk_left phases.new.items waits < walk_left phases.old.items (Some f)) }
{
    let later = (f + 1) % phases.len();
    let old = of_phase(phases.as_slice(), later);
    let next = shape.next(alloc, of_phase(phases.as_slice(), f))?;
    let (up, rose) = phase(alloc, old, next.as_slice())?;
    if !rose {
        return Ok(None);
    }
    phases[later] = up;
    Ok(Some(later))
}

/// The least labels of registers and memories, by phase.
pub(crate) fn least_phases(
    alloc: Global,
    shape: &Shape,
    count: usize,
) -> Result<Vec<Phase>, AllocError>
    requires shape { IsShape shape.now }
    requires count { count ≡ phase_count shape.now }
    ensures { IfOk result (λ v. IsDone shape.now v.items) }
{
    let mut phases = first_phases(alloc, shape, count)?;
    let mut waits = Some(count - 1);
    while let Some(f) = waits {
        waits = hand_over(alloc, shape, &mut phases, f)?;
    }
    Ok(phases)
}
