//! Faults of the slots.

ghost use Rattle.std.specs.Prelude.{◌≡◌};
ghost use Rattle.desc_check.specs.Faults.{slot_count_fault, slot_unknown_fault, slot_missing_fault};
ghost use Rattle.desc_check.specs.Accepted.{slots_fault};

use crate::words::{fault_if, is_among, is_between, is_domain};
use noc_desc::{DescFault, Draft, DraftDomain};
use noc_model::limits::MOST_SLOTS;
use surf_base::Bytes;

/// Version 2 without a slot, or with too many.
fn slot_count_fault(version: i64, slots: &[Bytes]) -> Option<DescFault>
    ensures { result ≡ slot_count_fault version slots.now }
{
    fault_if(
        version == 2 && !is_between(1, MOST_SLOTS, slots.len()),
        DescFault::SlotCount,
    )
}

/// The first slot that is no domain's.
fn slot_unknown_fault(domains: &[DraftDomain], slots: &[Bytes]) -> Option<DescFault>
    ensures { result ≡ slot_unknown_fault domains.now slots.now }
{
    for (i, name) in slots.iter().enumerate() {
        if !is_domain(domains, name.as_slice()) {
            return Some(DescFault::SlotUnknown(i as u64));
        }
    }
    None
}

/// The first domain without a slot, in version 2.
fn slot_missing_fault(version: i64, domains: &[DraftDomain], slots: &[Bytes]) -> Option<DescFault>
    ensures { result ≡ slot_missing_fault version domains.now slots.now }
{
    for (i, domain) in domains.iter().enumerate() {
        if version == 2 && !is_among(slots, domain.name.as_slice()) {
            return Some(DescFault::SlotMissing(i as u64));
        }
    }
    None
}

/// The first fault of the slots.
pub(crate) fn slots_fault(draft: &Draft) -> Option<DescFault>
    ensures { result ≡ slots_fault draft.now }
{
    let domains = draft.domains.as_slice();
    let slots = draft.slots.as_slice();
    if let Some(fault) = slot_count_fault(draft.version, slots) {
        return Some(fault);
    }
    if let Some(fault) = slot_unknown_fault(domains, slots) {
        return Some(fault);
    }
    slot_missing_fault(draft.version, domains, slots)
}
