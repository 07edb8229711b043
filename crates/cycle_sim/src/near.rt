//! The neighbours of all tiles, as a table: a cycle asks for each of them, and a plan works them out by divisions.

ghost use Rattle.std.specs.Prelude.{◌≡◌, ◌<◌, IfOk, IfSome};
ghost use Rattle.noc_model.specs.Plan.{tiles, ports};
ghost use Rattle.noc_model.specs.Place.{neighbour};
ghost use Rattle.cycle_sim.specs.Near.{IsNear};

use noc_model::Plan;
use std::alloc::{AllocError, Global};

/// The tile at the other end of each link, by the tile and the port that it leaves by.
#[derive(Drop)]
pub(crate) struct Near {
    ends: Vec<Option<u32>>,
}

impl Near {
    /// The neighbours of all tiles of a plan.
    pub(crate) fn new(alloc: Global, plan: &Plan) -> Result<Near, AllocError>
        ensures { IfOk result (λ near. IsNear plan.now near) }
    {
        plan.known();
        let mut ends = Vec::new(alloc);
        for k in 0..plan.tiles() * plan.ports() {
            ends.push(plan.neighbour(k / plan.ports(), k % plan.ports()))?;
        }
        Ok(Near { ends })
    }

    /// The tile at the other end of the link that leaves a tile by the port.
    pub(crate) fn neighbour(&self, plan: &Plan, tile: u32, port: u32) -> Option<u32>
        requires near { IsNear plan.now self.now }
        requires tile { tile < tiles plan.now }
        requires port { port < ports plan.now }
        ensures value { result ≡ neighbour plan.now tile port }
        ensures tile { IfSome result (λ m. m < tiles plan.now) }
    {
        plan.known();
        self.ends[(tile * plan.ports() + port) as usize]
    }
}
