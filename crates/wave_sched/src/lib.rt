//! The wave schedule: links are shared by time, and the slots of the domains move with the packets like a wave.
//!
//! `owner` is the slot owner of a link in a cycle, as `noc_model` defines it, computed with a few divisions. A
//! `Wheel` has the owners of all links of a tile, cycle after cycle and without a division, also of those on which
//! flits arrive. Which domain then sends is left to the switch above.
#![tactic(auto)]

ghost use Rattle.std.specs.Prelude.{◌≡◌, ◌<◌, ◌≤◌, ◌+◌, ◌-◌, ◌*◌, ◌%◌, ◌^◌, length, pos, IsSome};
ghost use Rattle.noc_model.specs.Limits.{most_slots};
ghost use Rattle.noc_model.specs.Plan.{tiles, hop};
ghost use Rattle.noc_model.specs.Place.{owner, slot_of, neighbour, wave};

mod starts;
mod wheels;

use noc_model::{Plan, Way};
pub use wheels::Wheel;

/// The domain that owns the link that leaves `tile` by `port` in a cycle (Wassel et al., SurfNoC, ISCA 2013).
/// The port has a link.
pub fn owner(plan: &Plan, tile: u32, port: u32, cycle: u32) -> u32
    requires tile { tile < tiles plan.now }
    requires link { IsSome (neighbour plan.now tile port) }
    ensures value { result ≡ owner plan.now tile port (pos cycle) }
    ensures domain { result < length plan.now.domains }
{
    plan.slot(slot_at(plan, tile, Way::of_port(port), cycle))
}

/// The slot that the link which leaves a tile this way has in a cycle.
fn slot_at(plan: &Plan, tile: u32, way: Way, cycle: u32) -> u32
    requires { tile < tiles plan.now }
    ensures value { result ≡ slot_of plan.now tile (pos cycle) way }
    ensures below { result < length plan.now.slots }
{
    plan.known();
    let period = plan.slots();
    let shift = plan.hop() * wave(plan, tile) % period;
    match way {
        Way::Local => 0,
        Way::Plus(_) => earlier_slot(cycle, shift, period),
        Way::Minus(_) => later_slot(cycle, shift, period),
    }
}

/// The slot `shift` cycles before a cycle.
fn earlier_slot(cycle: u32, shift: u32, period: u32) -> u32
    requires small { period ≤ most_slots }
    requires within { shift < period }
    ensures { result ≡ (cycle % period + (period - shift)) % period }
{
    let before = cycle % period + (period - shift);
    before % period
}

/// The slot `shift` cycles after a cycle.
fn later_slot(cycle: u32, shift: u32, period: u32) -> u32
    requires small { period ≤ most_slots }
    requires within { shift < period }
    ensures { result ≡ (cycle % period + shift) % period }
{
    let after = cycle % period + shift;
    after % period
}

/// The sum of a tile's coordinates.
fn wave(plan: &Plan, tile: u32) -> u32
    requires { tile < tiles plan.now }
    ensures wave { result ≡ wave plan.now tile }
    ensures small { result ≤ 45 }
{
    plan.known();
    let mut sum = 0;
    for i in 0..plan.dims() {
        sum += plan.coord(tile, i);
    }
    sum
}
