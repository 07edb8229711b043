//! The parts of a network in cycle 0.

ghost use Rattle.std.specs.Prelude.{◌≡◌, ◌<◌, ◌*◌, ℕ, length, replicate, slice_get, Some, None, IfOk};
ghost use Rattle.noc_model.specs.Plan.{tiles, ports};
ghost use Rattle.router_core.specs.declared.router.RouterOut.{RouterOut as Out};
ghost use Rattle.router_core.specs.Parts.{Parts};
ghost use Rattle.router_core.specs.Pulses.{no_pulses};
ghost use Rattle.cycle_sim.specs.Net.{IsFresh};

use credit_links::Pipe;
use noc_model::Plan;
use router_core::{Router, RouterOut};
use std::alloc::{AllocError, Global};
use vc_partition::{Lanes, port_counts};

/// The routers of all tiles.
pub(crate) fn routers_of(alloc: Global, plan: &Plan) -> Result<Vec<Router>, AllocError>
    ensures count { IfOk result (λ v. length v.items ≡ tiles plan.now) }
    ensures fresh { IfOk result (λ v. (n : ℕ) (r : Parts) → slice_get v.items n ≡ Some r → IsFresh plan.now n r) }
{
    let mut routers = Vec::new(alloc);
    for n in 0..plan.tiles() {
        routers.push(Router::new(alloc, plan, n)?)?;
    }
    Ok(routers)
}

/// The registers of all links, with nothing in them.
pub(crate) fn rows_of(alloc: Global, plan: &Plan) -> Result<Vec<Pipe>, AllocError>
    ensures { IfOk result (λ v. v.items
        ≡ replicate (tiles plan.now * ports plan.now) (replicate plan.now.stages None)) }
{
    plan.known();
    let mut rows = Vec::new(alloc);
    for _ in 0..plan.tiles() * plan.ports() {
        rows.push(Pipe::new(alloc, plan.stages())?)?;
    }
    Ok(rows)
}

/// A place for the credit pulses of each tile.
pub(crate) fn pulses_of(alloc: Global, plan: &Plan) -> Result<Vec<Lanes<Option<u32>>>, AllocError>
    ensures { IfOk result (λ v. v.items ≡ replicate (tiles plan.now) (no_pulses plan.now)) }
{
    let counts = port_counts(alloc, plan)?;
    let mut pulses = Vec::new(alloc);
    for _ in 0..plan.tiles() {
        pulses.push(Lanes::new(alloc, &counts, None)?)?;
    }
    Ok(pulses)
}

/// A place for what each tile sends.
pub(crate) fn outs_of(alloc: Global, plan: &Plan) -> Result<Vec<RouterOut>, AllocError>
    ensures count { IfOk result (λ v. length v.items ≡ tiles plan.now) }
    ensures links { IfOk result (λ v. (n : ℕ) (out : Out) → slice_get v.items n ≡ Some out
        → length out.links.items ≡ ports plan.now) }
{
    let mut outs = Vec::new(alloc);
    for _ in 0..plan.tiles() {
        outs.push(RouterOut::new(alloc, plan)?)?;
    }
    Ok(outs)
}
