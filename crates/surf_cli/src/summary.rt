//! The summary of a stress run.

ghost use Rattle.std.specs.Prelude.{◌≡◌, ◌≤◌, IfOk};
ghost use Rattle.surf_base.specs.Block.{Writes, stream};
ghost use Rattle.noc_model.specs.Limits.{most_cycles};
ghost use Rattle.surf_cli.specs.Simulate.{events_of};
ghost use Rattle.surf_cli.specs.Stress.{summary_of, stress_text};

use crate::reports::simulate;
use noc_model::Plan;
use std::alloc::{AllocError, Global};
use stress_gen::{put_summary, shared_corners, stress_trace};
use surf_base::{Block, Failed, Sink};
use tile_drive::Events;

/// The summary of a run that is not written yet.
#[derive(Drop)]
pub(crate) struct Summary {
    plan: Plan,
    events: Events,
}

impl Summary {
    /// The summary of so many cycles of the stress run of this number.
    pub(crate) fn simulated(alloc: Global, number: u32, cycles: u32) -> Result<Summary, AllocError>
        requires { cycles ≤ most_cycles }
        ensures { IfOk result (λ summary. summary_of summary.plan (events_of summary.events) ≡ stress_text number cycles) }
    {
        let plan = shared_corners(alloc)?;
        let trace = stress_trace(alloc, &plan, u64::from(number), cycles)?;
        let events = simulate(alloc, &plan, &trace, cycles)?;
        Ok(Summary { plan, events })
    }

    /// Puts the line of each domain.
    pub(crate) fn put<O: Sink>(&self, block: &mut Block, out: &mut O) -> Result<(), Failed>
        ensures { Writes result (stream (O.written out.old) block.old (O.faults out.old))
            (stream (O.written out.new) block.new (O.faults out.new))
            (summary_of self.now.plan (events_of self.now.events)) }
    {
        for d in 0..self.plan.domains() {
            put_summary(block, out, &self.plan, &self.events, d)?;
        }
        Ok(())
    }
}
