//! What is seen at the attachments in a cycle, what their tiles are told, and what the driver is notified of.

ghost use Rattle.std.specs.Prelude.{◌≡◌, ◌≢◌, ◌<◌, ℕ, true, false, length, None, Some, slice_get};
ghost use Rattle.noc_model.specs.declared.Host.{Host};
ghost use Rattle.noc_model.specs.Plan.{tiles, hosts};
ghost use Rattle.noc_model.specs.Tile.{Tile};
ghost use Rattle.tile_drive.specs.Seen.{seen_at};
ghost use Rattle.router_core.specs.Attachments.{told_at};
ghost use Rattle.router_core.specs.Idle.{IsIdle};
ghost use Rattle.router_core.specs.Parts.{Parts};
ghost use Rattle.router_core.specs.Sizes.{IsMade};
ghost use Rattle.router_core.specs.Shown.{Shows};
ghost use Rattle.cycle_sim.specs.Asleep.{is_awake};
ghost use Rattle.cycle_sim.specs.Attached.{with_told, told_of, told_by, seen_of, state_after};

use noc_model::Plan;
use router_core::{Router, Told};
use tile_drive::{Drive, Seen, notify_got, notify_taken};

/// Attachment `j`, of domain `d`: what is seen there, what its router is told, and what the driver is notified of.
fn see<D: Drive>(
    plan: &Plan,
    cycle: u32,
    j: u32,
    d: u32,
    router: &mut Router,
    drive: &mut D,
    seen: &mut Seen,
)
    requires domain { d < length plan.now.domains }
    requires made { IsMade router.old plan.now }
    requires there { j < D.count drive.old }
    requires seen { j < length seen.old }
    ensures router { router.new
        ≡ with_told router.old (told_of router.old d (told_by (D.driver drive.old) cycle j (D.state drive.old j))) }
    ensures count { D.count drive.new ≡ D.count drive.old }
    ensures driver { D.driver drive.new ≡ D.driver drive.old }
    ensures state { (s : Tile) → Shows router.old plan.now d s
        → D.state drive.new j ≡ state_after plan.now (D.driver drive.old) cycle j s (D.state drive.old j) }
    ensures others { (k : ℕ) → k ≢ j → D.state drive.new k ≡ D.state drive.old k }
    ensures seen { (s : Tile) → Shows router.old plan.now d s
        → seen_at seen.new j ≡ seen_of plan.now (D.driver drive.old) cycle j s (D.state drive.old j) }
    ensures seen_len { length seen.new ≡ length seen.old }
    ensures seen_others { (k : ℕ) → k ≢ j → seen_at seen.new k ≡ seen_at seen.old k }
{
    let offer = drive.offer(j, cycle);
    let hears = drive.hears(j, cycle);
    let ready = router.ready(plan, d);
    let dropped = router.drop_pulse(d);
    let ejected = router.ejected(d);
    let got = if hears { ejected } else { None };
    seen.set(j, offer, ready, dropped, got);
    router.tell(d, Told { offer, hears });
    notify_taken(drive, j, cycle, ready && offer.is_some());
    notify_got(drive, j, cycle, hears, ejected);
}

/// Attachment `j`, of domain `d`: where its tile sleeps, no word is offered, and nothing happens.
fn see_or_sleep<D: Drive>(
    plan: &Plan,
    cycle: u32,
    j: u32,
    d: u32,
    awake: bool,
    router: &mut Router,
    drive: &mut D,
    seen: &mut Seen,
)
    requires domain { d < length plan.now.domains }
    requires made { IsMade router.old plan.now }
    requires there { j < D.count drive.old }
    requires seen { j < length seen.old }
    requires idle { awake ≡ false → IsIdle plan.now router.old }
    requires nothing { awake ≡ false → (D.driver drive.old).offer j (D.state drive.old j) cycle ≡ None }
    ensures router { router.new ≡ with_told router.old router.new.told }
    ensures told_len { length router.new.told ≡ length router.old.told }
    ensures told { awake ≡ true
        → told_at router.new.told d ≡ told_by (D.driver drive.old) cycle j (D.state drive.old j) }
    ensures told_others { (e : ℕ) → e ≢ d → told_at router.new.told e ≡ told_at router.old.told e }
    ensures count { D.count drive.new ≡ D.count drive.old }
    ensures driver { D.driver drive.new ≡ D.driver drive.old }
    ensures state { (s : Tile) → Shows router.old plan.now d s
        → D.state drive.new j ≡ state_after plan.now (D.driver drive.old) cycle j s (D.state drive.old j) }
    ensures others { (k : ℕ) → k ≢ j → D.state drive.new k ≡ D.state drive.old k }
    ensures seen { (s : Tile) → Shows router.old plan.now d s
        → seen_at seen.new j ≡ seen_of plan.now (D.driver drive.old) cycle j s (D.state drive.old j) }
    ensures seen_len { length seen.new ≡ length seen.old }
    ensures seen_others { (k : ℕ) → k ≢ j → seen_at seen.new k ≡ seen_at seen.old k }
{
    plan.known();
    if awake {
        see(plan, cycle, j, d, router, drive, seen);
    } else {
        seen.set(j, None, true, false, None);
    }
}

/// All attachments. At those of tiles that sleep no word is offered.
pub(crate) fn see_all<D: Drive>(
    plan: &Plan,
    cycle: u32,
    awake: &[bool],
    routers: &mut Vec<Router>,
    drive: &mut D,
    seen: &mut Seen,
)
    requires count { D.count drive.old ≡ length plan.now.hosts }
    requires seen { length seen.old ≡ length plan.now.hosts }
    requires awake { length awake.now ≡ tiles plan.now }
    requires routers { length routers.old.items ≡ tiles plan.now }
    requires made { (n : ℕ) (r : Parts) → slice_get routers.old.items n ≡ Some r → IsMade r plan.now }
    requires idle { (n : ℕ) (r : Parts) → slice_get routers.old.items n ≡ Some r → is_awake awake.now n ≡ false
        → IsIdle plan.now r }
    requires nothing { (j : ℕ) (h : Host) → slice_get plan.now.hosts j ≡ Some h → is_awake awake.now h.tile ≡ false
        → (D.driver drive.old).offer j (D.state drive.old j) cycle ≡ None }
    ensures routers { length routers.new.items ≡ tiles plan.now }
    // A router is as it was, but for what it is told.
    ensures same { (n : ℕ) (r new : Parts) → slice_get routers.old.items n ≡ Some r
        → slice_get routers.new.items n ≡ Some new → new ≡ with_told r new.told }
    ensures told_len { (n : ℕ) (r new : Parts) → slice_get routers.old.items n ≡ Some r
        → slice_get routers.new.items n ≡ Some new → length new.told ≡ length r.told }
    ensures told { (j : ℕ) (h : Host) (new : Parts) → slice_get plan.now.hosts j ≡ Some h
        → slice_get routers.new.items h.tile ≡ Some new → is_awake awake.now h.tile ≡ true
        → told_at new.told h.domain ≡ told_by (D.driver drive.old) cycle j (D.state drive.old j) }
    ensures away { (n d : ℕ) (r new : Parts) → slice_get routers.old.items n ≡ Some r
        → slice_get routers.new.items n ≡ Some new → hosts plan.now n d ≡ false
        → told_at new.told d ≡ told_at r.told d }
    ensures count { D.count drive.new ≡ D.count drive.old }
    ensures driver { D.driver drive.new ≡ D.driver drive.old }
    ensures seen_len { length seen.new ≡ length seen.old }
    ensures states { (j : ℕ) (h : Host) (r : Parts) (s : Tile) → slice_get plan.now.hosts j ≡ Some h
        → slice_get routers.old.items h.tile ≡ Some r → Shows r plan.now h.domain s
        → D.state drive.new j ≡ state_after plan.now (D.driver drive.old) cycle j s (D.state drive.old j) }
    ensures seen { (j : ℕ) (h : Host) (r : Parts) (s : Tile) → slice_get plan.now.hosts j ≡ Some h
        → slice_get routers.old.items h.tile ≡ Some r → Shows r plan.now h.domain s
        → seen_at seen.new j ≡ seen_of plan.now (D.driver drive.old) cycle j s (D.state drive.old j) }
{
    plan.known();
    for j in 0..plan.attach_count() {
        let host = plan.attach(j);
        see_or_sleep(
            plan,
            cycle,
            j,
            host.domain,
            awake[host.tile as usize],
            &mut routers[host.tile as usize],
            drive,
            seen,
        );
    }
}
