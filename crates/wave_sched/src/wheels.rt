//! A tile's wheel: it turns by a slot in each cycle, and has the owners of all links of the tile.

ghost use Rattle.std.specs.Prelude.{◌≡◌, ◌<◌, ◌≤◌, ◌+◌, ◌*◌, ◌%◌, ℕ, length, All, IfOk, Some, slice_index, pos, ◌-ℤ◌};
ghost use Rattle.noc_model.specs.Limits.{most_slots};
ghost use Rattle.noc_model.specs.Plan.{tiles, Plan as PlanValue};
ghost use Rattle.noc_model.specs.Place.{neighbour, opposite, owner, next_in};
ghost use Rattle.wave_sched.specs.Starts.{AreBelow};

use crate::starts::{PortSlots, owners_of, starts_of};
use noc_model::Plan;
use std::alloc::{AllocError, Global};

/// The owners of a tile's links in a cycle, without a division. It may be ticked for ever.
#[derive(Drop)]
pub struct Wheel {
    /// The owners of the slots, in order.
    slots: Vec<u32>,
    /// For each port, the slots of its links in cycle 0.
    starts: Vec<PortSlots>,
    /// The cycles since then, modulo the period.
    phase: u32,
    ghost few: { length slots.items ≤ most_slots },
    ghost here: { phase < length slots.items },
    ghost below: { All (AreBelow (length slots.items)) starts.items },
}

/// The owner of the slot that comes `phase` cycles after the slot `start`.
fn owner_at(slots: &[u32], start: u32, phase: u32) -> u32
    requires few { length slots.now ≤ most_slots }
    requires start { start < length slots.now }
    requires phase { phase < length slots.now }
    ensures { result ≡ slice_index slots.now ((start + phase) % length slots.now) }
{
    slots[within(start + phase, slots.len() as u32) as usize]
}

/// The slot modulo the period.
fn within(slot: u32, count: u32) -> u32
    requires { slot < 2 * count }
    ensures { result ≡ slot % count }
{
    if slot < count { slot } else { slot - count }
}

/// The slot after `slot` of a period of `count`.
fn next_slot(slot: u32, count: u32) -> u32
    requires within { slot < count }
    requires few { count ≤ most_slots }
    ensures value { result ≡ next_in count slot }
    ensures below { result < count }
{
    if slot + 1 == count { 0 } else { slot + 1 }
}

impl Wheel {
    ghost use Rattle.wave_sched.specs.Wheels.{Stands, wheel_ports};

    /// The wheel of a tile, in cycle 0. All memory is taken here.
    ///
    /// # Errors
    ///
    /// When memory runs out.
    pub fn new(alloc: Global, plan: &Plan, tile: u32) -> Result<Wheel, AllocError>
        requires { tile < tiles plan.now }
        ensures { IfOk result (λ wheel. Stands wheel plan.now tile 0) }
    {
        plan.known();
        let slots = owners_of(alloc, plan)?;
        let starts = starts_of(alloc, plan, tile)?;
        Ok(Wheel {
            slots,
            starts,
            phase: 0,
        })
    }

    /// Goes one cycle on.
    pub fn tick(&mut self)
        ensures { (p : PlanValue) (n t : ℕ) → Stands self.old p n t → Stands self.new p n (t + 1) }
    {
        self.phase = next_slot(self.phase, self.slots.len() as u32);
    }

    /// The domain that owns the link that leaves by the port, now. The port has a link.
    pub fn leaving(&self, port: u32) -> u32
        requires { port < wheel_ports self.now }
        ensures value { (p : PlanValue) (n t m : ℕ) → Stands self.now p n t → neighbour p n port ≡ Some m
            → result ≡ owner p n port (pos t) }
        ensures domain { (p : PlanValue) (n t : ℕ) → Stands self.now p n t → result < length p.domains }
    {
        owner_at(&self.slots, self.starts[port as usize].leaving, self.phase)
    }

    /// The domain that owned the link that arrives by the port when a flit that arrives now went onto it: `stages`
    /// cycles ago, also before cycle 0. The port has a link.
    pub fn arriving(&self, port: u32) -> u32
        requires { port < wheel_ports self.now }
        ensures value { (p : PlanValue) (n t m : ℕ) → Stands self.now p n t → neighbour p n port ≡ Some m
            → result ≡ owner p m (opposite port) (pos t -ℤ pos p.stages) }
        ensures domain { (p : PlanValue) (n t : ℕ) → Stands self.now p n t → result < length p.domains }
    {
        owner_at(&self.slots, self.starts[port as usize].arriving, self.phase)
    }
}
