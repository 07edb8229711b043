//! Judges the draft of a description, and makes the plan of one without a fault.
//!
//! `check` answers the plan that the draft says exactly where the draft has no fault, and else the first one: by its
//! number, then by the least indices; or memory runs out. What a fault is stands in `specs/`, one definition each, as a
//! search along the draft's lists. `draft_of` answers the draft of version 2 that says a plan: it has no fault, and its
//! plan is that plan. Reading the description, and the faults of its keys and values, are left to the crate below.
#![tactic(auto)]

ghost use Rattle.std.specs.Prelude.{◌≡◌, ◌≤◌, length, take, IfOk, IfErr, Some, None};
ghost use Rattle.noc_model.specs.PlanOf.{plan_of};
ghost use Rattle.noc_desc.specs.Draft.{IsMemory};
ghost use Rattle.desc_check.specs.Network.{plan_of_draft};
ghost use Rattle.desc_check.specs.Faults.{places_fault, attach_fault};
ghost use Rattle.desc_check.specs.Line.{line_of};
ghost use Rattle.desc_check.specs.Accepted.{form_fault, domains_fault, tiles_fault, ranges_fault, lists_fault, IsSized, plan_fault, first_fault};

mod domains;
mod form;
mod line;
mod make;
mod ranges;
mod slots;
#[cfg(test)]
mod tests;
mod tiles;
mod upgrade;
mod words;

use noc_desc::{DescFault, Draft};
use noc_model::limits::{MOST_HOSTS, MOST_PLACES};
use noc_model::{Host, Parts, Plan};
use std::alloc::Global;
pub use upgrade::draft_of;
pub use words::is_name;

/// The first fault of a draft's values and lists: all but those of the plan's sizes and of the slots.
fn lists_fault(draft: &Draft) -> Option<DescFault>
    ensures { result ≡ lists_fault draft.now }
{
    if let Some(fault) = form::form_fault(draft) {
        return Some(fault);
    }
    if let Some(fault) = domains::domains_fault(draft) {
        return Some(fault);
    }
    let tiles = form::tile_count(draft.dims.as_slice());
    if let Some(fault) = tiles::tiles_fault(tiles, draft) {
        return Some(fault);
    }
    ranges::ranges_fault(tiles, draft)
}

/// More buffer slots than a network may have.
fn places_fault(count: u32) -> Option<DescFault>
    ensures { result ≡ places_fault count }
{
    words::fault_if(count > MOST_PLACES, DescFault::PlacesMany(u64::from(count)))
}

/// More attachments than a network may have.
fn attach_fault(hosts: &[Host]) -> Option<DescFault>
    ensures { result ≡ attach_fault (length hosts.now) }
{
    words::fault_if(
        hosts.len() > MOST_HOSTS,
        DescFault::AttachMany(hosts.len() as u64),
    )
}

/// Too many buffer slots or attachments.
fn plan_fault(parts: &Parts) -> Option<DescFault>
    requires { IsSized (plan_of parts.now) }
    ensures { result ≡ plan_fault (plan_of parts.now) }
{
    if let Some(fault) = places_fault(parts.places()) {
        return Some(fault);
    }
    attach_fault(parts.hosts.as_slice())
}

/// The plan of a draft without a fault. The draft is spent either way.
///
/// # Errors
///
/// The draft's first fault where it has one, or `Memory` when memory runs out.
pub fn check(alloc: Global, draft: Draft) -> Result<Plan, DescFault>
    ensures ok { IfOk result (λ plan. (first_fault draft ≡ None) × (plan ≡ plan_of_draft draft)) }
    ensures fault { IfErr result (λ fault. ¬ IsMemory fault → first_fault draft ≡ Some fault) }
{
    if let Some(fault) = lists_fault(&draft) {
        return Err(fault);
    }
    let tiles = form::tile_count(draft.dims.as_slice());
    let parts = match make::parts_of(alloc, tiles, &draft) {
        Ok(parts) => parts,
        Err(error) => return Err(DescFault::Memory(error)),
    };
    if let Some(fault) = plan_fault(&parts) {
        return Err(fault);
    }
    if let Some(fault) = slots::slots_fault(&draft) {
        return Err(fault);
    }
    Ok(Plan::new(parts))
}

/// Writes the line of a fault, with its LF, to the front of `buf`, and answers its length in bytes: `surf:
/// description fault N` and the fault's indices, each after a blank, or `surf: no memory`.
pub fn fault_line(fault: &DescFault, buf: &mut [u8; 96]) -> usize
    ensures written { take result buf.new ≡ line_of fault.now }
    ensures fits { result ≤ 96 }
{
    line::put_line(buf, fault)
}
