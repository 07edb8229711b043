//! The slots of a tile's links in cycle 0.

ghost use Rattle.std.specs.Prelude.{◌≡◌, ◌<◌, ◌≤◌, ◌+◌, ◌-◌, ◌%◌, length, pos, ◌-ℤ◌};
ghost use Rattle.noc_model.specs.Limits.{most_slots, most_stages};
ghost use Rattle.noc_model.specs.Plan.{tiles, ports};
ghost use Rattle.noc_model.specs.Place.{slot_of, wave, opposite};
ghost use Rattle.leaf_tie.specs.Slots.{leaving_slot, arriving_slot};

use noc_model::{Plan, Way};

// The sum of a tile's coordinates.
fn wave(plan: &Plan, tile: u32) -> u32
    requires { tile < tiles plan.now }
    ensures wave { result ≡ wave plan.now tile }
    ensures small { result ≤ 45 }
{
    plan.known();
    let mut sum = 0;
    for i in 0..plan.dims() {
        sum += plan.coord(tile, i);
    }
    sum
}

// The slot `shift` cycles before slot `from`.
fn earlier_slot(from: u32, shift: u32, period: u32) -> u32
    requires small { period ≤ most_slots }
    requires within { shift < period }
    ensures { result ≡ (from % period + (period - shift)) % period }
{
    let before = from % period + (period - shift);
    before % period
}

// The slot `shift` cycles after slot `from`.
fn later_slot(from: u32, shift: u32, period: u32) -> u32
    requires small { period ≤ most_slots }
    requires within { shift < period }
    ensures { result ≡ (from % period + shift) % period }
{
    let after = from % period + shift;
    after % period
}

// The slot, `ago` cycles before cycle 0, of the link that leaves a tile this way.
fn slot_before(plan: &Plan, tile: u32, way: Way, ago: u32) -> u32
    requires tile { tile < tiles plan.now }
    requires few { ago ≤ most_stages }
    ensures value { result ≡ slot_of plan.now tile (pos 0 -ℤ pos ago) way }
    ensures below { result < length plan.now.slots }
{
    plan.known();
    let period = plan.slots();
    let shift = plan.hop() * wave(plan, tile);
    match way {
        Way::Local => 0,
        Way::Plus(_) => earlier_slot(0, (ago + shift) % period, period),
        Way::Minus(_) => later_slot(
            earlier_slot(0, ago % period, period),
            shift % period,
            period,
        ),
    }
}

/// The number, in cycle 0, of the slot in which the first place of a leaving link is filled.
pub fn leaving_slot(plan: &Plan, tile: u32, out: u32) -> u32
    requires { tile < tiles plan.now }
    ensures value { result ≡ leaving_slot plan.now tile out }
    ensures below { result < length plan.now.slots }
    ensures few { result < 64 }
{
    plan.known();
    slot_before(plan, tile, Way::of_port(out), 0)
}

/// The same of the slot in which the last place of the link was filled that arrives by a port from a tile.
pub fn arriving_slot(plan: &Plan, from: u32, port: u32) -> u32
    requires { from < tiles plan.now }
    ensures value { result ≡ arriving_slot plan.now from (opposite port) }
    ensures below { result < length plan.now.slots }
    ensures few { result < 64 }
{
    plan.known();
    slot_before(plan, from, Way::of_port(port).opposite(), plan.stages())
}
