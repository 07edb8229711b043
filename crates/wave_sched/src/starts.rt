//! Where the slots of a tile's links stand in cycle 0: there a wheel begins.

ghost use Rattle.std.specs.Prelude.{◌≡◌, ◌<◌, ◌≤◌, ◌+◌, ◌*◌, ◌%◌, length, pos, ◌-ℤ◌, if◌then◌else◌, map, IfOk};
ghost use Rattle.std.specs.List.{range_with_len};
ghost use Rattle.noc_model.specs.Limits.{most_stages};
ghost use Rattle.noc_model.specs.Plan.{tiles, ports, hop};
ghost use Rattle.noc_model.specs.Place.{neighbour, slot_of, wave};
ghost use Rattle.wave_sched.specs.Starts.{arriving_from, port_slots};

use crate::{earlier_slot, later_slot, wave};
use noc_model::{Plan, Way};
use std::alloc::{AllocError, Global};

/// The slots of a port's two links: in cycle 0 of the link that leaves by it, and of the link that arrives there as
/// many cycles before as a flit is on it.
#[derive(Clone, Copy)]
pub(crate) struct PortSlots {
    pub leaving: u32,
    pub arriving: u32,
}

/// The slot, `ago` cycles before cycle 0, of the link that leaves a tile this way.
fn slot_before(plan: &Plan, tile: u32, way: Way, ago: u32) -> u32
    requires tile { tile < tiles plan.now }
    requires few { ago ≤ most_stages }
    ensures { result ≡ slot_of plan.now tile (pos 0 -ℤ pos ago) way }
{
    plan.known();
    let period = plan.slots();
    let shift = plan.hop() * wave(plan, tile);
    match way {
        Way::Local => 0,
        Way::Plus(_) => earlier_slot(0, (ago + shift) % period, period),
        Way::Minus(_) => later_slot(
            earlier_slot(0, ago % period, period),
            shift % period,
            period,
        ),
    }
}

/// The slot, `stages` cycles before cycle 0, of the link that arrives at a tile by the port.
fn arriving_slot(plan: &Plan, tile: u32, port: u32) -> u32
    requires tile { tile < tiles plan.now }
    requires port { port < ports plan.now }
    ensures { result ≡ arriving_from plan.now port (neighbour plan.now tile port) }
{
    plan.known();
    match plan.neighbour(tile, port) {
        Some(from) => slot_before(plan, from, Way::of_port(port).opposite(), plan.stages()),
        None => 0,
    }
}

/// The slots of each port's links.
pub(crate) fn starts_of(alloc: Global, plan: &Plan, tile: u32) -> Result<Vec<PortSlots>, AllocError>
    requires { tile < tiles plan.now }
    ensures { IfOk result (λ v. v.items ≡ map (port_slots plan.now tile) (range_with_len 0 (ports plan.now))) }
{
    plan.known();
    let mut starts = Vec::new(alloc);
    for port in 0..1 + 2 * plan.dims() {
        let leaving = slot_before(plan, tile, Way::of_port(port), 0);
        let arriving = arriving_slot(plan, tile, port);
        starts.push(PortSlots { leaving, arriving })?;
    }
    Ok(starts)
}

/// The owners of the slots, in order.
pub(crate) fn owners_of(alloc: Global, plan: &Plan) -> Result<Vec<u32>, AllocError>
    ensures { IfOk result (λ v. v.items ≡ plan.now.slots) }
{
    let mut owners = Vec::new(alloc);
    for i in 0..plan.slots() {
        owners.push(plan.slot(i))?;
    }
    Ok(owners)
}
