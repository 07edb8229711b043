//! The heads of a tile's packets: they get a route, and then a channel of their output.

ghost use Rattle.std.specs.Prelude.{◌≡◌, ◌≢◌, ◌<◌, ◌*◌, ℕ, List, length, None};
ghost use Rattle.noc_model.specs.declared.Flit.{Flit as FlitValue};
ghost use Rattle.noc_model.specs.Plan.{tiles, ports};
ghost use Rattle.noc_model.specs.Inputs.{input_count};
ghost use Rattle.vc_partition.specs.Lanes.{lane};
ghost use Rattle.route_stage.specs.Routed.{stage_at, with_stage, HasInputs, GoesToTile};
ghost use Rattle.vc_alloc.specs.Allocator.{link_channels_at, best_at, committed, AreOf};
ghost use Rattle.vc_alloc.specs.Shown.{IsFor, GoesBelow, wanted_at};
ghost use Rattle.vc_alloc.specs.Progress.{KnowsBelow};
ghost use Rattle.router_core.specs.Heads.{front_of, headed, headed_to, given, FrontsGo, GivesBelow};
ghost use Rattle.router_core.specs.Idle.{has_head, is_busy};
ghost use Rattle.router_core.specs.Sizes.{HasBuffers, HasAllocator};

use crate::buffers::Buffers;
use dor_routes::{class_after, route};
use flit_word::Flit;
use noc_model::Plan;
use vc_alloc::VcAlloc;
use vc_partition::{Lanes, Stage, channel_count, unpack};

/// Whether an input that has so many flits, in this stage, is busy.
pub(crate) fn is_busy(count: u32, stage: Stage) -> bool
    ensures { (fs : List FlitValue) → length fs ≡ count → result ≡ is_busy fs stage }
{
    match stage {
        Stage::Idle => count > 0,
        Stage::Routed { .. } | Stage::Active { .. } => true,
    }
}

/// Whether the head of a packet waits at an input that has so many flits, in this stage: for a route, or for a channel of
/// its output.
pub(crate) fn has_head(count: u32, stage: Stage) -> bool
    ensures { (fs : List FlitValue) → length fs ≡ count → result ≡ has_head stage fs }
{
    match stage {
        Stage::Idle => count > 0,
        Stage::Routed { .. } => true,
        Stage::Active { .. } => false,
    }
}

/// The stage of an input at a tile, by the flit at its front: an idle channel is routed to the flit's output.
fn headed(plan: &Plan, tile: u32, front: Option<Flit>, stage: Stage) -> Stage
    requires tile { tile < tiles plan.now }
    requires dest { GoesToTile plan.now front }
    ensures { result ≡ headed plan.now tile front stage }
{
    match (stage, front) {
        (Stage::Idle, Some(flit)) => Stage::Routed {
            out: route(plan, tile, flit.dest),
        },
        _ => stage,
    }
}

/// Routes the packet of domain `d` at an input, if its head has come to the front of an idle channel.
fn route_head(plan: &Plan, tile: u32, d: u32, k: u32, buffers: &Buffers, stages: &mut Lanes<Stage>)
    requires tile { tile < tiles plan.now }
    requires domain { d < length plan.now.domains }
    requires input { k < input_count plan.now d }
    requires buffers { HasBuffers plan.now buffers.now }
    requires stages { HasInputs plan.now stages.old }
    requires dest { GoesToTile plan.now (front_of buffers.now d k) }
    ensures stage { stages.new
        ≡ with_stage stages.old d k (headed plan.now tile (front_of buffers.now d k) (stage_at stages.old d k)) }
    ensures inputs { HasInputs plan.now stages.new }
{
    let stage = headed(plan, tile, buffers.front(d, k), *stages.at(d, k));
    stages.set(d, k, stage);
}

/// Routes each packet of domain `d` whose head has come to the front of an idle channel.
pub(crate) fn route_heads(
    plan: &Plan,
    tile: u32,
    d: u32,
    buffers: &Buffers,
    stages: &mut Lanes<Stage>,
)
    requires tile { tile < tiles plan.now }
    requires domain { d < length plan.now.domains }
    requires buffers { HasBuffers plan.now buffers.now }
    requires stages { HasInputs plan.now stages.old }
    requires dest { FrontsGo plan.now buffers.now d }
    ensures own { (k : ℕ) → stage_at stages.new d k
        ≡ headed_to (input_count plan.now d) plan.now tile buffers.now stages.old d k }
    ensures others { (e : ℕ) → e ≢ d → lane stages.new e ≡ lane stages.old e }
    ensures inputs { HasInputs plan.now stages.new }
{
    for k in 0..plan.ports() * plan.link_channels(d) {
        route_head(plan, tile, d, k, buffers, stages);
    }
}

/// The allocator learns of an input of domain `d`, if its packet waits for an output.
fn want_head(plan: &Plan, tile: u32, d: u32, k: u32, stage: Stage, allocator: &mut VcAlloc)
    requires tile { tile < tiles plan.now }
    requires here { allocator.old.tile ≡ tile }
    requires domain { d < length plan.now.domains }
    requires made { IsFor allocator.old plan.now d }
    requires place { k < input_count plan.now d }
    requires out { GoesBelow (ports plan.now) stage }
    requires same { AreOf allocator.old d }
    ensures best { allocator.new ≡ wanted_at allocator.old plan.now d k stage }
    ensures same { AreOf allocator.new d }
{
    let channels = plan.link_channels(d);
    let port = k / channels;
    let channel = k % channels;
    if let Stage::Routed { out } = stage {
        if channel < channel_count(plan, d, port) {
            let class = class_after(plan, tile, port, unpack(plan, d, channel).0, out);
            allocator.want(d, k, out, class);
        }
    }
}

/// The allocator learns of each input of domain `d` whose packet waits for an output.
pub(crate) fn want_heads(
    plan: &Plan,
    tile: u32,
    d: u32,
    stages: &Lanes<Stage>,
    allocator: &mut VcAlloc,
)
    requires tile { tile < tiles plan.now }
    requires here { allocator.old.tile ≡ tile }
    requires domain { d < length plan.now.domains }
    requires made { IsFor allocator.old plan.now d }
    requires stages { HasInputs plan.now stages.now }
    requires outs { (k : ℕ) → GoesBelow (ports plan.now) (stage_at stages.now d k) }
    requires quiet { (o : ℕ) → best_at allocator.old o ≡ None }
    ensures { KnowsBelow (input_count plan.now d) allocator.old allocator.new plan.now d stages.now }
{
    for k in 0..plan.ports() * plan.link_channels(d) {
        want_head(plan, tile, d, k, *stages.at(d, k), allocator);
    }
}

/// The best input that wants an output of domain `d`, if there is one, gets its channel there.
fn give_channel(d: u32, out: u32, allocator: &mut VcAlloc, stages: &mut Lanes<Stage>)
    requires domain { d < length allocator.old.channels }
    requires output { out < length allocator.old.best }
    requires stages { d < length stages.old }
    requires inputs { length (lane stages.old d) ≡ length allocator.old.best * link_channels_at allocator.old d }
    requires same { AreOf allocator.old d }
    ensures allocator { allocator.new ≡ committed allocator.old d out (best_at allocator.old out) }
    ensures stages { stages.new ≡ given stages.old d out (best_at allocator.old out) }
    ensures same { AreOf allocator.new d }
{
    if let Some(winner) = allocator.commit(d, out) {
        stages.set(d, winner.place, Stage::Active { out, to: winner.to });
    }
}

/// Each output of domain `d` gives its channel to the best input that wants it.
pub(crate) fn give_channels(plan: &Plan, d: u32, allocator: &mut VcAlloc, stages: &mut Lanes<Stage>)
    requires domain { d < length plan.now.domains }
    requires made { HasAllocator plan.now allocator.old.tile allocator.old }
    requires stages { HasInputs plan.now stages.old }
    requires same { AreOf allocator.old d }
    ensures { GivesBelow (ports plan.now) plan.now d allocator.old allocator.new stages.old stages.new }
{
    for out in 0..plan.ports() {
        give_channel(d, out, allocator, stages);
    }
}
