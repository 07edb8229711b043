//! The wheels of all tiles, and the owner table that they give.

ghost use Rattle.std.specs.Prelude.{◌≡◌, ◌+◌, ℕ, IfOk};
ghost use Rattle.noc_model.specs.Plan.{Plan as PlanValue};
ghost use Rattle.surf_cli.specs.Turning.{AllStand};

use crate::table::put_schedule;
use noc_model::Plan;
use std::alloc::{AllocError, Global};
use surf_base::{Block, Failed, Sink};
use wave_sched::Wheel;

/// The wheel of each tile, in cycle 0.
fn wheels_of(alloc: Global, plan: &Plan) -> Result<Vec<Wheel>, AllocError>
    ensures { IfOk result (λ v. AllStand v.items plan.now 0) }
{
    let mut wheels = Vec::new(alloc);
    for tile in 0..plan.tiles() {
        wheels.push(Wheel::new(alloc, plan, tile)?)?;
    }
    Ok(wheels)
}

/// Each wheel goes one cycle on.
pub(crate) fn tick_all(wheels: &mut [Wheel])
    ensures { (p : PlanValue) (t : ℕ) → AllStand wheels.old p t → AllStand wheels.new p (t + 1) }
{
    for i in 0..wheels.len() {
        wheels[i].tick();
    }
}

/// An owner table that is not written yet, and the wheels that will turn for it.
#[derive(Drop)]
pub(crate) struct OwnerTable {
    plan: Plan,
    wheels: Vec<Wheel>,
    cycles: u32,
    ghost stand: { AllStand wheels.items plan 0 },
}

impl OwnerTable {
    ghost use Rattle.surf_base.specs.Block.{Writes, stream};
    ghost use Rattle.surf_cli.specs.Schedule.{schedule_text};

    /// The owner table of the cycles 0 to `cycles - 1`.
    pub(crate) fn new(alloc: Global, plan: Plan, cycles: u32) -> Result<OwnerTable, AllocError>
        ensures plan { IfOk result (λ table. table.plan ≡ plan) }
        ensures cycles { IfOk result (λ table. table.cycles ≡ cycles) }
    {
        let wheels = wheels_of(alloc, &plan)?;
        Ok(OwnerTable {
            plan,
            wheels,
            cycles,
        })
    }

    /// Puts the owner table.
    pub(crate) fn put<O: Sink>(self, block: &mut Block, out: &mut O) -> Result<(), Failed>
        ensures { Writes result (stream (O.written out.old) block.old (O.faults out.old))
            (stream (O.written out.new) block.new (O.faults out.new)) (schedule_text self.plan self.cycles) }
    {
        let OwnerTable {
            plan,
            mut wheels,
            cycles,
        } = self;
        put_schedule(block, out, &plan, wheels.as_mut_slice(), cycles)
    }
}
