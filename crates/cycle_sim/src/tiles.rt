//! One cycle of the tiles.

ghost use Rattle.std.specs.Prelude.{◌≡◌, ◌<◌, ◌*◌, ℕ, true, false, length, Some, slice_get};
ghost use Rattle.noc_model.specs.Plan.{tiles, ports};
ghost use Rattle.router_core.specs.declared.router.RouterOut.{RouterOut as Out};
ghost use Rattle.router_core.specs.Parts.{Parts};
ghost use Rattle.cycle_sim.specs.TileCycle.{AreAllPulses, MayStep, HasStepped};
ghost use Rattle.cycle_sim.specs.Net.{IsRouterOf};
ghost use Rattle.cycle_sim.specs.Asleep.{is_awake, HasSlept};
ghost use Rattle.cycle_sim.specs.Near.{IsNear};

use crate::links::{give_back, receive};
use crate::near::Near;
use credit_links::Pipe;
use noc_model::Plan;
use router_core::{Router, RouterOut};
use vc_partition::Lanes;

/// One cycle of a tile: it sends, then the flits that come off its links arrive, then the credits of the last cycle's
/// pulses come back.
fn step_tile(
    plan: &Plan,
    near: &Near,
    tile: u32,
    cycle: u32,
    rows: &[Pipe],
    pulses: &[Lanes<Option<u32>>],
    router: &mut Router,
    out: &mut RouterOut,
)
    requires near { IsNear plan.now near.now }
    requires tile { tile < tiles plan.now }
    requires rows { length rows.now ≡ tiles plan.now * ports plan.now }
    requires pulses { AreAllPulses plan.now pulses.now }
    requires router { IsRouterOf plan.now tile cycle router.old }
    requires links { length out.old.links.items ≡ ports plan.now }
    requires may { (d : ℕ) → d < length plan.now.domains
        → MayStep plan.now d tile cycle rows.now pulses.now router.old }
    ensures { HasStepped plan.now tile cycle rows.now pulses.now router.old router.new out.new.links.items }
{
    plan.known();
    router.advance(plan, out);
    receive(plan, near, tile, cycle, rows, router);
    give_back(plan, near, tile, pulses, router);
    router.tick();
}

/// One cycle of a tile, if it is awake. Else only the owners of its links are those of the next cycle.
fn step_or_sleep(
    plan: &Plan,
    near: &Near,
    tile: u32,
    cycle: u32,
    awake: bool,
    rows: &[Pipe],
    pulses: &[Lanes<Option<u32>>],
    router: &mut Router,
    out: &mut RouterOut,
)
    requires near { IsNear plan.now near.now }
    requires tile { tile < tiles plan.now }
    requires rows { length rows.now ≡ tiles plan.now * ports plan.now }
    requires pulses { AreAllPulses plan.now pulses.now }
    requires router { IsRouterOf plan.now tile cycle router.old }
    requires links { length out.old.links.items ≡ ports plan.now }
    requires may { awake ≡ true → (d : ℕ) → d < length plan.now.domains
        → MayStep plan.now d tile cycle rows.now pulses.now router.old }
    ensures stepped { awake ≡ true
        → HasStepped plan.now tile cycle rows.now pulses.now router.old router.new out.new.links.items }
    ensures slept { awake ≡ false → HasSlept plan.now tile cycle router.old router.new }
    ensures links { length out.new.links.items ≡ ports plan.now }
{
    if awake {
        step_tile(plan, near, tile, cycle, rows, pulses, router, out);
    } else {
        router.tick();
    }
}

/// One cycle of the tiles that are awake. What each sends is put into `outs`.
pub(crate) fn step_tiles(
    plan: &Plan,
    near: &Near,
    cycle: u32,
    awake: &[bool],
    rows: &[Pipe],
    pulses: &[Lanes<Option<u32>>],
    routers: &mut Vec<Router>,
    outs: &mut Vec<RouterOut>,
)
    requires near { IsNear plan.now near.now }
    requires awake { length awake.now ≡ tiles plan.now }
    requires rows { length rows.now ≡ tiles plan.now * ports plan.now }
    requires pulses { AreAllPulses plan.now pulses.now }
    requires routers { length routers.old.items ≡ tiles plan.now }
    requires outs { length outs.old.items ≡ tiles plan.now }
    requires router { (n : ℕ) (r : Parts) → slice_get routers.old.items n ≡ Some r → IsRouterOf plan.now n cycle r }
    requires links { (n : ℕ) (out : Out) → slice_get outs.old.items n ≡ Some out
        → length out.links.items ≡ ports plan.now }
    requires may { (n d : ℕ) (r : Parts) → slice_get routers.old.items n ≡ Some r → is_awake awake.now n ≡ true
        → d < length plan.now.domains → MayStep plan.now d n cycle rows.now pulses.now r }
    ensures routers { length routers.new.items ≡ tiles plan.now }
    ensures outs { length outs.new.items ≡ tiles plan.now }
    ensures stepped { (n : ℕ) (r new : Parts) (out : Out) → slice_get routers.old.items n ≡ Some r
        → slice_get routers.new.items n ≡ Some new → slice_get outs.new.items n ≡ Some out
        → is_awake awake.now n ≡ true
        → HasStepped plan.now n cycle rows.now pulses.now r new out.links.items }
    ensures slept { (n : ℕ) (r new : Parts) → slice_get routers.old.items n ≡ Some r
        → slice_get routers.new.items n ≡ Some new → is_awake awake.now n ≡ false
        → HasSlept plan.now n cycle r new }
    ensures links { (n : ℕ) (out : Out) → slice_get outs.new.items n ≡ Some out
        → length out.links.items ≡ ports plan.now }
{
    for n in 0..plan.tiles() {
        step_or_sleep(
            plan,
            near,
            n,
            cycle,
            awake[n as usize],
            rows,
            pulses,
            &mut routers[n as usize],
            &mut outs[n as usize],
        );
    }
}
