//! Labels that rise.
ghost use Rattle.std.specs.Prelude.{◌≡◌, ◌||◌, map, IfOk};
ghost use Rattle.label_model.specs.Labels.{join};
ghost use Rattle.label_audit.specs.Bits.{label_in};
ghost use Rattle.label_audit.specs.Rises.{bit_left, row_left, rows_left, phase_left, IsRaised};
ghost use Rattle.label_audit.specs.Rows.{row_in, joined_row, joined_rows};
ghost use Rattle.label_audit.specs.Whole.{phase_in, joined_in};

use crate::bit::{Bit, is_same, join};
use crate::phase::Phase;
use crate::row::{Row, bit};
use crate::tables::{Rows, at, of_instance};
use std::alloc::{AllocError, Global};

/// The least label above both, and whether it is above the first.
fn raised(old: Bit, new: Bit) -> (Bit, bool)
    ensures above { label_in result.0 ≡ join (label_in old) (label_in new) }
    ensures rises { IsRaised bit_left old result.0 result.1 }
{
    let up = join(old, new);
    (up, !is_same(up, old))
}

/// Whether one of them rose.
fn either(one: bool, other: bool) -> bool
    ensures { result ≡ (one || other) }
{
    one | other
}

/// The labels above both, and whether one rose above the first row's.
#[tactic(auto, using(crate::proofs::Rows::rows))]
fn row(alloc: Global, old: &[Bit], new: &[Bit]) -> Result<(Row, bool), AllocError>
    ensures above { IfOk result (λ r. row_in r.0 ≡ joined_row (row_in old.now) (row_in new.now)) }
    ensures rises { IfOk result (λ r. IsRaised row_left old.now r.0 r.1) }
{
    let mut row = Row::new(alloc);
    let mut rose = false;
    for i in 0..old.len() {
        let (up, more) = raised(old[i], bit(new, i));
        rose = either(rose, more);
        row.push(up)?;
    }
    Ok((row, rose))
}

/// The same of all rows of an instance.
#[tactic(auto, using(crate::proofs::Instances::instances))]
fn instance(alloc: Global, old: &[Row], new: &[Row]) -> Result<(Rows, bool), AllocError>
    ensures above { IfOk result (λ r. map row_in r.0 ≡ joined_rows (map row_in old.now) (map row_in new.now)) }
    ensures rises { IfOk result (λ r. IsRaised rows_left old.now r.0 r.1) }
{
    let mut rows = Vec::new(alloc);
    let mut rose = false;
    for i in 0..old.len() {
        let (up, more) = row(alloc, old[i].as_slice(), at(new, i))?;
        rose = either(rose, more);
        rows.push(up)?;
    }
    Ok((Rows::new(rows), rose))
}

/// The same of all instances.
#[tactic(auto, using(crate::proofs::Instances::instances))]
pub(crate) fn phase(alloc: Global, old: &[Rows], new: &[Rows]) -> Result<(Phase, bool), AllocError>
    ensures above { IfOk result (λ r. phase_in r.0 ≡ joined_in (phase_in old.now) (phase_in new.now)) }
    ensures rises { IfOk result (λ r. IsRaised phase_left old.now r.0 r.1) }
{
    let mut phase = Vec::new(alloc);
    let mut rose = false;
    for i in 0..old.len() {
        let (up, more) = instance(alloc, old[i].as_slice(), of_instance(new, i))?;
        rose = either(rose, more);
        phase.push(up)?;
    }
    Ok((Phase::new(phase), rose))
}
