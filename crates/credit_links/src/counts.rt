//! The credits of a tile's outputs.

ghost use Rattle.std.specs.Prelude.{◌≡◌, ◌<◌, ◌≤◌, ◌+◌, ◌-◌, length, IfOk};
ghost use Rattle.vc_partition.specs.Lanes.{lane};
ghost use Rattle.credit_links.specs.Counts.{count_at, with_count, full_counts};

use noc_model::Plan;
use std::alloc::{AllocError, Global};
use std::marker::Model;
use vc_partition::{Lanes, input_counts};

/// The credits of each domain for the channels of a tile's outputs, each at its place.
#[derive(Drop)]
pub struct Credits {
    lanes: Lanes<u32>,
    buffer: u32,
}

impl Model for Credits {
    ghost use Rattle.credit_links.specs.Counts.{Counts};

    ghost Value = { Counts };

    ghost use Rattle.credit_links.specs.Counts.{AreWithin};

    ghost view = { λ a. record { lanes = a.lanes; buffer = a.buffer } };

    ghost invariant = { λ a. AreWithin a.lanes a.buffer };
}

impl Credits {
    /// The credits of a tile at the start: the slots of a buffer for each channel. All memory is taken here.
    ///
    /// # Errors
    ///
    /// When memory runs out.
    pub fn new(alloc: Global, plan: &Plan) -> Result<Credits, AllocError>
        ensures { IfOk result (λ credits. credits ≡ full_counts plan.now) }
    {
        let counts = input_counts(alloc, plan)?;
        let lanes = Lanes::new(alloc, &counts, plan.buffer())?;
        Ok(Credits {
            lanes,
            buffer: plan.buffer(),
        })
    }

    /// The credits of domain `d` for the channel at a place.
    pub fn count(&self, d: u32, place: u32) -> u32
        requires domain { d < length self.now.lanes }
        requires place { place < length (lane self.now.lanes d) }
        ensures value { result ≡ count_at self.now d place }
        ensures few { result ≤ self.now.buffer }
    {
        *self.lanes.at(d, place)
    }

    /// The counts of all domains, by place.
    pub fn counts(&self) -> &Lanes<u32>
        ensures { result.now ≡ self.now.lanes }
    {
        &self.lanes
    }

    /// Takes a credit away: a flit was sent.
    pub fn spend(&mut self, d: u32, place: u32)
        requires domain { d < length self.old.lanes }
        requires place { place < length (lane self.old.lanes d) }
        requires some { 0 < count_at self.old d place }
        ensures { self.new ≡ with_count self.old d place (count_at self.old d place - 1) }
    {
        let count = *self.lanes.at(d, place);
        self.lanes.set(d, place, count - 1);
    }

    /// Adds a credit: a buffer slot at the other end is free again.
    pub fn restore(&mut self, d: u32, place: u32)
        requires domain { d < length self.old.lanes }
        requires place { place < length (lane self.old.lanes d) }
        requires room { count_at self.old d place < self.old.buffer }
        ensures { self.new ≡ with_count self.old d place (count_at self.old d place + 1) }
    {
        let count = *self.lanes.at(d, place);
        self.lanes.set(d, place, count + 1);
    }
}
