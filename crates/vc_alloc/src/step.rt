//! The step of the allocator: the inputs that wait are made known, and then each output gives a channel.

ghost use Rattle.std.specs.Prelude.{◌≡◌, ◌<◌, ◌≤◌, ◌*◌, ℕ, length};
ghost use Rattle.noc_model.specs.Plan.{tiles, ports};
ghost use Rattle.noc_model.specs.Inputs.{input_count};
ghost use Rattle.vc_partition.specs.Lanes.{lane};
ghost use Rattle.vc_alloc.specs.Allocator.{Allocator, link_channels_at, AreOf};
ghost use Rattle.vc_alloc.specs.Shown.{stage_at, GoesBelow, IsFor};
ghost use Rattle.vc_alloc.specs.Commits.{OnlyLane, OnlyDomain, HaveCommitted, HasAllocated, IsQuiet};

use crate::VcAlloc;
use noc_model::Plan;
use vc_partition::{Lanes, Stage};

impl VcAlloc {
    /// Nothing wants any output any more.
    fn forget(&mut self)
        ensures quiet { IsQuiet self.new }
        ensures rest { self.new ≡ record self.old { best = self.new.best } }
        ensures outputs { length self.new.best ≡ length self.old.best }
    {
        for out in 0..self.outputs() {
            self.put_best(out, None);
        }
    }

    /// Each output of domain `d` gives its best input its channel: that input's stage in `next` is active.
    fn commit_all(&mut self, d: u32, next: &mut Lanes<Stage>)
        requires domain { d < length self.old.channels }
        requires same { AreOf self.old d }
        requires next { d < length next.old }
        requires inputs { length (lane next.old d) ≡ length self.old.best * link_channels_at self.old d }
        ensures { HaveCommitted self.old self.new next.old next.new d (length self.old.best) }
    {
        self.known();
        for out in 0..self.outputs() {
            if let Some(winner) = self.commit(d, out) {
                next.set(d, winner.place, Stage::Active { out, to: winner.to });
            }
        }
    }

    /// Gives the outputs' channels, for domain `d`, to the inputs that win them: in `next` only the winners' stages
    /// change. What was wanted before doesn't count. All other domains stay.
    pub fn step_domain(
        &mut self,
        plan: &Plan,
        d: u32,
        stages: &Lanes<Stage>,
        next: &mut Lanes<Stage>,
    )
        requires tile { self.old.tile < tiles plan.now }
        requires domain { d < length plan.now.domains }
        requires made { IsFor self.old plan.now d }
        requires stages { d < length stages.now }
        requires inputs { length (lane stages.now d) ≡ input_count plan.now d }
        requires outs { (k : ℕ) → GoesBelow (ports plan.now) (stage_at stages.now d k) }
        requires next { d < length next.old }
        requires places { length (lane next.old d) ≡ input_count plan.now d }
        ensures allocated { HasAllocated self.old self.new stages.now next.old next.new plan.now d }
        ensures quiet { IsQuiet self.new }
        ensures allocator { OnlyDomain self.old self.new d }
        ensures next { OnlyLane next.old next.new d }
    {
        self.forget();
        self.want_all(plan, d, stages);
        self.commit_all(d, next);
    }

    /// Gives the outputs' channels of all domains to the inputs that win them: in `next` only the winners' stages
    /// change. No domain's part depends on another's.
    pub fn step(&mut self, plan: &Plan, stages: &Lanes<Stage>, next: &mut Lanes<Stage>)
        requires tile { self.old.tile < tiles plan.now }
        requires made { (d : ℕ) → d < length plan.now.domains → IsFor self.old plan.now d }
        requires stages { length plan.now.domains ≤ length stages.now }
        requires inputs { (d : ℕ) → d < length plan.now.domains → length (lane stages.now d) ≡ input_count plan.now d }
        requires outs { (d k : ℕ) → d < length plan.now.domains
            → GoesBelow (ports plan.now) (stage_at stages.now d k) }
        requires next { length plan.now.domains ≤ length next.old }
        requires places { (d : ℕ) → d < length plan.now.domains → length (lane next.old d) ≡ input_count plan.now d }
        ensures allocated { (d : ℕ) → d < length plan.now.domains
            → HasAllocated self.old self.new stages.now next.old next.new plan.now d }
        ensures made { (d : ℕ) → d < length plan.now.domains → IsFor self.new plan.now d }
        ensures tile { self.new.tile ≡ self.old.tile }
        ensures next { length next.new ≡ length next.old }
        ensures places { (d : ℕ) → d < length plan.now.domains → length (lane next.new d) ≡ input_count plan.now d }
    {
        for d in 0..plan.domains() {
            self.step_domain(plan, d, stages, next);
        }
    }
}
