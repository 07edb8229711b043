//! The credit pulses of the last cycle, kept while the tiles make those of this one.

ghost use Rattle.std.specs.Prelude.{◌≡◌, ◌<◌, ℕ, true, false, length, Some, slice_get};
ghost use Rattle.noc_model.specs.Plan.{tiles, ports};
ghost use Rattle.router_core.specs.Parts.{Parts};
ghost use Rattle.router_core.specs.Pulses.{pulse_at};
ghost use Rattle.router_core.specs.Sizes.{HasPorts, IsMade};
ghost use Rattle.cycle_sim.specs.Asleep.{is_awake};
ghost use Rattle.cycle_sim.specs.Links.{pulses_of};

use noc_model::Plan;
use router_core::Router;
use vc_partition::Lanes;

/// Keeps the pulses of a tile.
fn keep(plan: &Plan, router: &Router, kept: &mut Lanes<Option<u32>>)
    requires made { IsMade router.now plan.now }
    requires ports { HasPorts plan.now kept.old }
    ensures ports { HasPorts plan.now kept.new }
    ensures same { (d port : ℕ) → d < length plan.now.domains → port < ports plan.now
        → pulse_at kept.new d port ≡ pulse_at router.now.pulses d port }
{
    let _ = plan;
    kept.copy_from(router.pulses());
}

/// Keeps the pulses of a tile, if it is awake.
fn keep_if(plan: &Plan, awake: bool, router: &Router, kept: &mut Lanes<Option<u32>>)
    requires made { IsMade router.now plan.now }
    requires ports { HasPorts plan.now kept.old }
    ensures ports { HasPorts plan.now kept.new }
    ensures same { awake ≡ true → (d port : ℕ) → d < length plan.now.domains → port < ports plan.now
        → pulse_at kept.new d port ≡ pulse_at router.now.pulses d port }
    ensures asleep { awake ≡ false → kept.new ≡ kept.old }
{
    if awake {
        keep(plan, router, kept);
    }
}

/// Keeps the pulses of the tiles that are awake.
pub(crate) fn keep_all(
    plan: &Plan,
    awake: &[bool],
    routers: &[Router],
    kept: &mut Vec<Lanes<Option<u32>>>,
)
    requires awake { length awake.now ≡ tiles plan.now }
    requires routers { length routers.now ≡ tiles plan.now }
    requires made { (n : ℕ) (r : Parts) → slice_get routers.now n ≡ Some r → IsMade r plan.now }
    requires kept { length kept.old.items ≡ tiles plan.now }
    requires ports { (n : ℕ) → n < tiles plan.now → HasPorts plan.now (pulses_of kept.old.items n) }
    ensures kept { length kept.new.items ≡ tiles plan.now }
    ensures ports { (n : ℕ) → n < tiles plan.now → HasPorts plan.now (pulses_of kept.new.items n) }
    ensures same { (n d port : ℕ) (r : Parts) → slice_get routers.now n ≡ Some r → is_awake awake.now n ≡ true
        → d < length plan.now.domains → port < ports plan.now
        → pulse_at (pulses_of kept.new.items n) d port ≡ pulse_at r.pulses d port }
    ensures asleep { (n : ℕ) → is_awake awake.now n ≡ false
        → pulses_of kept.new.items n ≡ pulses_of kept.old.items n }
{
    for n in 0..plan.tiles() {
        keep_if(
            plan,
            awake[n as usize],
            &routers[n as usize],
            &mut kept[n as usize],
        );
    }
}
