//! One cycle of the attachments: what they show, and what their driver is notified of.

ghost use Rattle.std.specs.Prelude.{◌≡◌, ◌≢◌, ◌<◌, ◌≤◌, ℕ, Some, length, slice_get};
ghost use Rattle.vl_model.specs.Whole.{Nets};
ghost use Rattle.noc_model.specs.declared.Host.{Host};
ghost use Rattle.tile_drive.specs.Seen.{seen_at};
ghost use Rattle.vl_run.specs.Running.{running};
ghost use Rattle.surf_replay.specs.Cycle.{IsIn, seen_text, notified};

use crate::cycle::{ejected, has_dropped, is_ready};
use noc_model::Plan;
use tile_drive::{Drive, Seen, notify_got, notify_taken};
use vl_run::Machine;

/// One cycle of attachment j.
fn step_attached<D: Drive>(
    machine: &Machine,
    plan: &Plan,
    j: u32,
    cycle: u32,
    drive: &mut D,
    seen: &mut Seen,
)
    requires there { j < length plan.now.hosts }
    requires count { D.count drive.old ≡ length plan.now.hosts }
    requires seen { length seen.old ≡ length plan.now.hosts }
    ensures count { D.count drive.new ≡ D.count drive.old }
    ensures driver { D.driver drive.new ≡ D.driver drive.old }
    ensures state { (nets : Nets) (h : Host) → IsIn (running machine.now) plan.now nets
        → slice_get plan.now.hosts j ≡ Some h
        → D.state drive.new j ≡ notified (D.driver drive.old) cycle j (D.state drive.old j) nets h }
    ensures others { (k : ℕ) → k ≢ j → D.state drive.new k ≡ D.state drive.old k }
    ensures seen { (nets : Nets) (h : Host) → IsIn (running machine.now) plan.now nets
        → slice_get plan.now.hosts j ≡ Some h
        → seen_at seen.new j ≡ seen_text (D.driver drive.old) cycle j (D.state drive.old j) nets h }
    ensures seen_len { length seen.new ≡ length seen.old }
    ensures seen_others { (k : ℕ) → k ≢ j → seen_at seen.new k ≡ seen_at seen.old k }
{
    let offer = drive.offer(j, cycle);
    let hears = drive.hears(j, cycle);
    let ready = is_ready(machine, plan, j);
    let flit = ejected(machine, plan, j);
    let got = if hears { flit } else { None };
    seen.set(j, offer, ready, has_dropped(machine, plan, j), got);
    notify_taken(drive, j, cycle, ready && offer.is_some());
    notify_got(drive, j, cycle, hears, flit);
}

/// One cycle of all attachments.
pub(crate) fn step_all<D: Drive>(
    machine: &Machine,
    plan: &Plan,
    cycle: u32,
    drive: &mut D,
    seen: &mut Seen,
)
    requires count { D.count drive.old ≡ length plan.now.hosts }
    requires seen { length seen.old ≡ length plan.now.hosts }
    ensures count { D.count drive.new ≡ D.count drive.old }
    ensures driver { D.driver drive.new ≡ D.driver drive.old }
    ensures state { (nets : Nets) (j : ℕ) (h : Host) → IsIn (running machine.now) plan.now nets
        → slice_get plan.now.hosts j ≡ Some h
        → D.state drive.new j ≡ notified (D.driver drive.old) cycle j (D.state drive.old j) nets h }
    ensures others { (j : ℕ) → length plan.now.hosts ≤ j → D.state drive.new j ≡ D.state drive.old j }
    ensures seen { (nets : Nets) (j : ℕ) (h : Host) → IsIn (running machine.now) plan.now nets
        → slice_get plan.now.hosts j ≡ Some h
        → seen_at seen.new j ≡ seen_text (D.driver drive.old) cycle j (D.state drive.old j) nets h }
    ensures seen_len { length seen.new ≡ length seen.old }
{
    for j in 0..plan.attach_count() {
        step_attached(machine, plan, j, cycle, drive, seen);
    }
}
