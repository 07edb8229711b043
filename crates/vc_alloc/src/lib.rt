//! The virtual-channel allocator of a router: packets that have a route get a channel of their output.
//!
//! [`VcAlloc`] knows for each output channel of a tile which input holds it (Dally and Towles, section 16.1). An input
//! that waits for an output is made known by `want`; for each output a round-robin arbiter picks one of those that
//! could have a free channel of their class, and `commit` gives it the least such channel. Inputs may come in any
//! order: the best so far is all that is kept. `step` does all of this for the inputs of a tile, and each domain's part
//! is that of the definition. When a channel is free again is left to the router.
#![tactic(auto)]

ghost use Rattle.std.specs.Prelude.{◌≡◌, ◌<◌, ◌≤◌, ◌+◌, ◌*◌, ℕ, true, length, map, replicate, None, IfSome, IfOk};
ghost use Rattle.std.specs.List.{range_with_len};
ghost use Rattle.noc_model.specs.Plan.{at_local, channels, link_channels, tiles, ports};
ghost use Rattle.noc_model.specs.Inputs.{input_count};
ghost use Rattle.noc_model.specs.Tile.{Tile};
ghost use Rattle.noc_model.specs.Step.{winner};
ghost use Rattle.vc_partition.specs.Lanes.{lane};
ghost use Rattle.vc_alloc.specs.Chosen.{winner_with, free_at};
ghost use Rattle.vc_alloc.specs.Shown.{stage_at, GoesBelow, IsFor, Shows, wanted_at};
ghost use Rattle.vc_alloc.specs.Allocator.{channels_at, link_channels_at, held_at, best_at, pointer_at, free_in, better_of, wanted, with_best, with_holder, taken, committed, AreOf, start_of, IsAllocator};

pub mod laws;
mod step;
#[cfg(test)]
mod tests;

use dor_routes::class_after;
use noc_model::Plan;
use std::alloc::{AllocError, Global};
use std::marker::Model;
use vc_partition::{Lanes, Stage, channel_count, comes_first, input_counts, port_counts, unpack};

/// An input that gets an output, and the channel that it gets there.
#[derive(Clone, Copy, Debug, PartialEq, Eq)]
pub struct Winner {
    /// The place of the input among the domain's inputs.
    pub place: u32,
    /// The channel of the output.
    pub to: u32,
}

/// Who holds the output channels of a tile, and who is next.
#[derive(Drop)]
pub struct VcAlloc {
    tile: u32,
    channels: Vec<u32>,
    link_channels: Vec<u32>,
    holders: Lanes<Option<u32>>,
    pointers: Lanes<u32>,
    best: Vec<Option<Winner>>,
}

impl Model for VcAlloc {
    ghost use Rattle.vc_alloc.specs.Allocator.{Allocator, IsAllocator};

    ghost Value = { Allocator };

    ghost view = { λ a. record {
      tile = a.tile;
      channels = a.channels.items;
      link_channels = a.link_channels.items;
      holders = a.holders;
      pointers = a.pointers;
      best = a.best.items;
    } };

    ghost invariant = { λ a. IsAllocator (record {
      tile = a.tile;
      channels = a.channels.items;
      link_channels = a.link_channels.items;
      holders = a.holders;
      pointers = a.pointers;
      best = a.best.items;
    }) };
}

/// The channels of one class, of each domain.
fn class_counts(alloc: Global, plan: &Plan) -> Result<Vec<u32>, AllocError>
    ensures { IfOk result (λ v. v.items ≡ map (channels plan.now) (range_with_len 0 (length plan.now.domains))) }
{
    let mut counts = Vec::with_capacity(alloc, plan.domains() as usize)?;
    for d in 0..plan.domains() {
        counts.push(plan.channels(d))?;
    }
    Ok(counts)
}

/// The channels on a link, of each domain.
fn link_counts(alloc: Global, plan: &Plan) -> Result<Vec<u32>, AllocError>
    ensures { IfOk result (λ v. v.items ≡ map (link_channels plan.now) (range_with_len 0 (length plan.now.domains))) }
{
    let mut counts = Vec::with_capacity(alloc, plan.domains() as usize)?;
    for d in 0..plan.domains() {
        counts.push(plan.link_channels(d))?;
    }
    Ok(counts)
}

/// No best input, for each of so many outputs.
fn unwanted(alloc: Global, outputs: u32) -> Result<Vec<Option<Winner>>, AllocError>
    ensures { IfOk result (λ v. v.items ≡ replicate outputs None) }
{
    let mut best = Vec::with_capacity(alloc, outputs as usize)?;
    for _ in 0..outputs {
        best.push(None)?;
    }
    Ok(best)
}

impl VcAlloc {
    /// The allocator of a tile, whose channels are all free. All memory is taken here.
    ///
    /// # Errors
    ///
    /// When memory runs out.
    pub fn new(alloc: Global, plan: &Plan, tile: u32) -> Result<VcAlloc, AllocError>
        requires { tile < tiles plan.now }
        ensures start { IfOk result (λ allocator. allocator ≡ start_of plan.now tile) }
        ensures made { IfOk result (λ allocator. (d : ℕ) → d < length plan.now.domains
            → IsFor allocator plan.now d) }
    {
        plan.known();
        let channels = class_counts(alloc, plan)?;
        let link_channels = link_counts(alloc, plan)?;
        let inputs = input_counts(alloc, plan)?;
        let outputs = port_counts(alloc, plan)?;
        let holders = Lanes::new(alloc, &inputs, None)?;
        let pointers = Lanes::new(alloc, &outputs, 0)?;
        let best = unwanted(alloc, plan.ports())?;
        Ok(VcAlloc {
            tile,
            channels,
            link_channels,
            holders,
            pointers,
            best,
        })
    }

    /// Whether channel `w` of output `out` is held by a packet of domain `d`.
    pub fn held(&self, d: u32, out: u32, w: u32) -> bool
        requires domain { d < length self.now.channels }
        requires output { out < length self.now.best }
        requires channel { w < link_channels_at self.now d }
        ensures { result ≡ held_at self.now d out w }
    {
        self.holders.at(d, self.spot(d, out, w)).is_some()
    }

    /// Where channel `w` of an output stands among the output channels of domain `d`.
    fn spot(&self, d: u32, out: u32, w: u32) -> u32
        requires domain { d < length self.now.channels }
        requires output { out < length self.now.best }
        requires channel { w < link_channels_at self.now d }
        ensures value { result ≡ out * link_channels_at self.now d + w }
        ensures below { result < length self.now.best * link_channels_at self.now d }
        ensures few { length self.now.best * link_channels_at self.now d ≤ 56 }
    {
        out * self.link_channels[d as usize] + w
    }

    /// Frees channel `w` of output `out`, which a packet of domain `d` holds.
    pub fn release(&mut self, d: u32, out: u32, w: u32)
        requires domain { d < length self.old.channels }
        requires output { out < length self.old.best }
        requires channel { w < link_channels_at self.old d }
        requires held { held_at self.old d out w ≡ true }
        ensures { self.new ≡ with_holder self.old d out w None }
    {
        let spot = self.spot(d, out, w);
        self.holders.set(d, spot, None);
    }

    /// The least free channel of a class at an output.
    fn free_channel(&self, d: u32, out: u32, class: u32) -> Option<u32>
        requires domain { d < length self.now.channels }
        requires output { out < length self.now.best }
        requires class { class * channels_at self.now d + channels_at self.now d ≤ link_channels_at self.now d }
        ensures value { result ≡ free_in self.now d out class }
        ensures below { IfSome result (λ w. w < link_channels_at self.now d) }
    {
        let from = class * self.class_channels(d);
        for j in 0..self.class_width(d, out) {
            if !self.held(d, out, from + j) {
                return Some(from + j);
            }
        }
        None
    }

    /// The channels of domain `d` of one class.
    fn class_channels(&self, d: u32) -> u32
        requires { d < length self.now.channels }
        ensures value { result ≡ channels_at self.now d }
        ensures some { 1 ≤ result }
        ensures few { link_channels_at self.now d ≤ 8 }
    {
        self.channels[d as usize]
    }

    /// The channels of domain `d` of one class at an output: the local output has one channel.
    fn class_width(&self, d: u32, out: u32) -> u32
        requires { d < length self.now.channels }
        ensures value { result ≡ at_local out 1 (channels_at self.now d) }
        ensures within { result ≤ channels_at self.now d }
    {
        let channels = self.class_channels(d);
        if out == 0 { 1 } else { channels }
    }

    /// Lets callers' proofs use the invariant. It does nothing.
    fn known(&self)
        ensures { IsAllocator self.now }
    {
        let _ = &self.best;
    }

    /// The outputs of the tile.
    fn outputs(&self) -> u32
        ensures value { result ≡ length self.now.best }
        ensures few { result ≤ 7 }
    {
        self.best.len() as u32
    }

    /// The best input so far that wants an output.
    fn best(&self, out: u32) -> Option<Winner>
        requires { out < length self.now.best }
        ensures { result ≡ best_at self.now out }
    {
        self.best[out as usize]
    }

    /// The input at a place of domain `d` waits for a channel of a class at an output. In a cycle only inputs of one
    /// domain want an output before it is committed.
    pub fn want(&mut self, d: u32, place: u32, out: u32, class: u32)
        requires domain { d < length self.old.channels }
        requires output { out < length self.old.best }
        requires class { class * channels_at self.old d + channels_at self.old d ≤ link_channels_at self.old d }
        requires place { place < length self.old.best * link_channels_at self.old d }
        requires same { AreOf self.old d }
        ensures best { self.new ≡ with_best self.old out
            (wanted (pointer_at self.old d out) (best_at self.old out) place (free_in self.old d out class)) }
        ensures same { AreOf self.new d }
    {
        if let Some(to) = self.free_channel(d, out, class) {
            let better = better_of(
                *self.pointers.at(d, out),
                self.best(out),
                Winner { place, to },
            );
            self.put_best(out, Some(better));
        }
    }

    /// All inputs of domain `d` that wait for an output are made known: the best of each output is the input that wins
    /// it in the definition of a tile's step.
    pub fn want_all(&mut self, plan: &Plan, d: u32, stages: &Lanes<Stage>)
        requires tile { self.old.tile < tiles plan.now }
        requires domain { d < length plan.now.domains }
        requires made { IsFor self.old plan.now d }
        requires stages { d < length stages.now }
        requires inputs { length (lane stages.now d) ≡ input_count plan.now d }
        requires outs { (k : ℕ) → GoesBelow (ports plan.now) (stage_at stages.now d k) }
        requires quiet { (o : ℕ) → best_at self.old o ≡ None }
        ensures best { (s : Tile) (o : ℕ) → Shows self.old stages.now plan.now d s → o < ports plan.now
            → best_at self.new o
            ≡ winner_with (free_at plan.now d self.old.tile s o) (winner plan.now d self.old.tile s o) }
        ensures rest { self.new ≡ record self.old { best = self.new.best } }
        ensures outputs { length self.new.best ≡ length self.old.best }
        ensures same { AreOf self.new d }
    {
        for i in 0..plan.ports() * plan.link_channels(d) {
            self.want_at(plan, d, i, *stages.at(d, i));
        }
    }

    /// The input at place `i` is made known, if its packet waits for an output.
    fn want_at(&mut self, plan: &Plan, d: u32, i: u32, stage: Stage)
        requires tile { self.old.tile < tiles plan.now }
        requires domain { d < length plan.now.domains }
        requires made { IsFor self.old plan.now d }
        requires place { i < input_count plan.now d }
        requires out { GoesBelow (ports plan.now) stage }
        requires same { AreOf self.old d }
        ensures best { self.new ≡ wanted_at self.old plan.now d i stage }
        ensures same { AreOf self.new d }
    {
        let link_channels = plan.link_channels(d);
        let port = i / link_channels;
        let channel = i % link_channels;
        if let Stage::Routed { out } = stage {
            if channel < channel_count(plan, d, port) {
                let class = class_after(plan, self.tile, port, unpack(plan, d, channel).0, out);
                self.want(d, i, out, class);
            }
        }
    }

    /// The best input that wants the output takes its channel, and the output's pointer moves to behind it.
    pub fn commit(&mut self, d: u32, out: u32) -> Option<Winner>
        requires domain { d < length self.old.channels }
        requires output { out < length self.old.best }
        requires same { AreOf self.old d }
        ensures value { result ≡ best_at self.old out }
        ensures committed { self.new ≡ committed self.old d out (best_at self.old out) }
        ensures same { AreOf self.new d }
    {
        let best = self.best(out);
        if let Some(winner) = best {
            self.put_best(out, None);
            self.hold(d, out, winner);
        }
        best
    }

    /// Puts another best input of an output.
    fn put_best(&mut self, out: u32, best: Option<Winner>)
        requires { out < length self.old.best }
        ensures { self.new ≡ with_best self.old out best }
    {
        self.best[out as usize] = best;
    }

    /// An input takes its channel of an output, and the output's pointer moves to behind it.
    fn hold(&mut self, d: u32, out: u32, winner: Winner)
        requires domain { d < length self.old.channels }
        requires output { out < length self.old.best }
        requires channel { winner.to < link_channels_at self.old d }
        requires place { winner.place < length self.old.best * link_channels_at self.old d }
        ensures { self.new ≡ taken self.old d out winner }
    {
        let spot = self.spot(d, out, winner.to);
        self.holders.set(d, spot, Some(winner.place));
        self.pointers.set(d, out, winner.place + 1);
    }
}

/// The better of the best so far and another input, from the pointer on.
fn better_of(pointer: u32, best: Option<Winner>, other: Winner) -> Winner
    ensures { result ≡ better_of pointer best other }
{
    match best {
        Some(best) if !comes_first(pointer, other.place, best.place) => best,
        _ => other,
    }
}
