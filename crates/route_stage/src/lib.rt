//! The route stage of a router: a packet whose head has come to the front gets its output.
//!
//! [`RouteStage`] keeps the output of a tile for each destination (dimension-order routing by a table: Dally and
//! Towles, section 11.1). An idle channel with a flit at its front becomes routed, and all else stays. Which channel of
//! the output the packet gets is left to the allocator.
#![tactic(auto)]

ghost use Rattle.std.specs.Prelude.{◌≡◌, ◌<◌, ℕ, length, map, IfOk};
ghost use Rattle.std.specs.List.{range_with_len};
ghost use Rattle.noc_model.specs.Plan.{tiles, ports};
ghost use Rattle.noc_model.specs.Place.{route};
ghost use Rattle.noc_model.specs.Inputs.{input_count};
ghost use Rattle.route_stage.specs.Routed.{routes_of, front_at, stage_at, with_stage, routed_next, routed_by, routed_to, HasInputs, GoesToTile, GoesBelow};

#[cfg(test)]
mod tests;

use dor_routes::route;
use flit_word::Flit;
use noc_model::Plan;
use std::alloc::{AllocError, Global};
use std::marker::Model;
use vc_partition::{Lanes, Stage};

/// The outputs of a tile, by destination.
#[derive(Drop)]
pub struct RouteStage {
    outs: Vec<u32>,
}

impl Model for RouteStage {
    ghost use Rattle.std.specs.Prelude.{ℕ, List};

    ghost Value = { List ℕ };

    ghost view = { λ a. a.outs.items };
}

/// What comes next of a channel: an idle one with a flit at its front is routed to the flit's output.
fn routed(outs: &[u32], front: Option<Flit>, stage: Stage, next: Stage) -> Stage
    requires { GoesBelow (length outs.now) front }
    ensures { result ≡ routed_by outs.now front stage next }
{
    match (stage, front) {
        (Stage::Idle, Some(flit)) => Stage::Routed {
            out: outs[flit.dest as usize],
        },
        _ => next,
    }
}

impl RouteStage {
    /// The route stage of a tile. All memory is taken here.
    ///
    /// # Errors
    ///
    /// When memory runs out.
    pub fn new(alloc: Global, plan: &Plan, tile: u32) -> Result<RouteStage, AllocError>
        requires { tile < tiles plan.now }
        ensures { IfOk result (λ stage. stage ≡ routes_of plan.now tile) }
    {
        let mut outs = Vec::with_capacity(alloc, plan.tiles() as usize)?;
        for dest in 0..plan.tiles() {
            outs.push(route(plan, tile, dest))?;
        }
        Ok(RouteStage { outs })
    }

    /// Routes the packet of domain `d` at an input: where the channel is idle and has a flit at its front, its stage in
    /// `next` becomes the route. All else in `next` stays.
    pub fn step_one(
        &self,
        plan: &Plan,
        d: u32,
        i: u32,
        fronts: &Lanes<Option<Flit>>,
        stages: &Lanes<Stage>,
        next: &mut Lanes<Stage>,
    )
        requires routes { length self.now ≡ tiles plan.now }
        requires fronts { HasInputs plan.now fronts.now }
        requires stages { HasInputs plan.now stages.now }
        requires next { HasInputs plan.now next.old }
        requires domain { d < length plan.now.domains }
        requires input { i < input_count plan.now d }
        requires dest { GoesToTile plan.now (front_at fronts.now d i) }
        ensures routed { (n : ℕ) → self.now ≡ routes_of plan.now n → next.new ≡ with_stage next.old d i
            (routed_next plan.now n (front_at fronts.now d i) (stage_at stages.now d i) (stage_at next.old d i)) }
        ensures inputs { HasInputs plan.now next.new }
    {
        let stage = routed(
            &self.outs,
            *fronts.at(d, i),
            *stages.at(d, i),
            *next.at(d, i),
        );
        next.set(d, i, stage);
    }

    /// Routes the packets of every domain whose head has come to the front of an idle channel. All else in `next`
    /// stays.
    pub fn step(
        &self,
        plan: &Plan,
        fronts: &Lanes<Option<Flit>>,
        stages: &Lanes<Stage>,
        next: &mut Lanes<Stage>,
    )
        requires routes { length self.now ≡ tiles plan.now }
        requires fronts { HasInputs plan.now fronts.now }
        requires stages { HasInputs plan.now stages.now }
        requires next { HasInputs plan.now next.old }
        requires dest { (d k : ℕ) → GoesToTile plan.now (front_at fronts.now d k) }
        ensures routed { (n d k : ℕ) → self.now ≡ routes_of plan.now n → d < length plan.now.domains
            → k < input_count plan.now d → stage_at next.new d k
            ≡ routed_next plan.now n (front_at fronts.now d k) (stage_at stages.now d k) (stage_at next.old d k) }
        ensures inputs { HasInputs plan.now next.new }
    {
        for d in 0..plan.domains() {
            self.step_domain(plan, d, fronts, stages, next);
        }
    }

    /// The step of one domain.
    fn step_domain(
        &self,
        plan: &Plan,
        d: u32,
        fronts: &Lanes<Option<Flit>>,
        stages: &Lanes<Stage>,
        next: &mut Lanes<Stage>,
    )
        requires routes { length self.now ≡ tiles plan.now }
        requires fronts { HasInputs plan.now fronts.now }
        requires stages { HasInputs plan.now stages.now }
        requires next { HasInputs plan.now next.old }
        requires domain { d < length plan.now.domains }
        requires dest { (k : ℕ) → GoesToTile plan.now (front_at fronts.now d k) }
        ensures routed { (n e k : ℕ) → self.now ≡ routes_of plan.now n → stage_at next.new e k
            ≡ routed_to (input_count plan.now d) plan.now n fronts.now stages.now next.old d e k }
        ensures inputs { HasInputs plan.now next.new }
    {
        for i in 0..plan.ports() * plan.link_channels(d) {
            self.step_one(plan, d, i, fronts, stages, next);
        }
    }
}
