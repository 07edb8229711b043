//! What comes to a tile over its links in a cycle: flits, and credits.

ghost use Rattle.std.specs.Prelude.{◌≡◌, ◌≢◌, ◌<◌, ◌*◌, ℕ, length, Some};
ghost use Rattle.noc_model.specs.declared.LinkFlit.{LinkFlit as LinkFlitValue};
ghost use Rattle.noc_model.specs.Plan.{tiles, ports, link_channels};
ghost use Rattle.noc_model.specs.Inputs.{place};
ghost use Rattle.noc_model.specs.Place.{neighbour};
ghost use Rattle.noc_model.specs.Tile.{Tile};
ghost use Rattle.wave_sched.specs.Wheels.{Stands};
ghost use Rattle.credit_links.specs.Counts.{count_at};
ghost use Rattle.router_core.specs.Buffers.{flits_at};
ghost use Rattle.router_core.specs.Sizes.{HasPorts, IsMade};
ghost use Rattle.router_core.specs.Shown.{Shows};
ghost use Rattle.cycle_sim.specs.Near.{IsNear};
ghost use Rattle.cycle_sim.specs.Links.{arrival_at, credit_at, pulses_of, arrived, received, returned, repaid};

use crate::near::Near;
use credit_links::Pipe;
use noc_model::{Plan, Way};
use router_core::Router;
use vc_partition::Lanes;

/// A flit that comes off the link to a port arrives there.
fn receive_at(
    plan: &Plan,
    near: &Near,
    tile: u32,
    cycle: u32,
    rows: &[Pipe],
    port: u32,
    router: &mut Router,
)
    requires near { IsNear plan.now near.now }
    requires tile { tile < tiles plan.now }
    requires port { port < ports plan.now }
    requires rows { length rows.now ≡ tiles plan.now * ports plan.now }
    requires made { IsMade router.old plan.now }
    requires stands { Stands router.old.wheel plan.now tile cycle }
    requires room { (d : ℕ) (x : LinkFlitValue) → d < length plan.now.domains
        → arrival_at plan.now d tile cycle rows.now port ≡ Some x → (x.channel < link_channels plan.now d)
        × (length (flits_at router.old.buffers d (place plan.now d port x.channel)) < plan.now.buffer) }
    ensures rest { router.new ≡ record router.old { buffers = router.new.buffers } }
    ensures made { IsMade router.new plan.now }
    ensures shows { (d : ℕ) (s : Tile) → d < length plan.now.domains → Shows router.old plan.now d s
        → Shows router.new plan.now d (arrived port (arrival_at plan.now d tile cycle rows.now port) s) }
{
    plan.known();
    if let Some(from) = near.neighbour(plan, tile, port) {
        let back = Way::of_port(port).opposite().port();
        if let Some(x) = rows[(from * plan.ports() + back) as usize].last() {
            router.arrive(plan, router.arriving(port), port, x);
        }
    }
}

/// The flits that come off the links to a tile arrive there.
pub(crate) fn receive(
    plan: &Plan,
    near: &Near,
    tile: u32,
    cycle: u32,
    rows: &[Pipe],
    router: &mut Router,
)
    requires near { IsNear plan.now near.now }
    requires tile { tile < tiles plan.now }
    requires rows { length rows.now ≡ tiles plan.now * ports plan.now }
    requires made { IsMade router.old plan.now }
    requires stands { Stands router.old.wheel plan.now tile cycle }
    requires room { (d port : ℕ) (x : LinkFlitValue) → d < length plan.now.domains
        → arrival_at plan.now d tile cycle rows.now port ≡ Some x → (x.channel < link_channels plan.now d)
        × (length (flits_at router.old.buffers d (place plan.now d port x.channel)) < plan.now.buffer) }
    ensures rest { router.new ≡ record router.old { buffers = router.new.buffers } }
    ensures made { IsMade router.new plan.now }
    ensures shows { (d : ℕ) (s : Tile) → d < length plan.now.domains → Shows router.old plan.now d s
        → Shows router.new plan.now d (received (arrival_at plan.now d tile cycle rows.now) (ports plan.now) s) }
{
    for port in 0..plan.ports() {
        receive_at(plan, near, tile, cycle, rows, port, router);
    }
}

/// A credit of domain `d` comes back by a port, over the link from tile `from`.
fn give_back_at(
    plan: &Plan,
    tile: u32,
    from: u32,
    pulses: &[Lanes<Option<u32>>],
    d: u32,
    port: u32,
    router: &mut Router,
)
    requires tile { tile < tiles plan.now }
    requires link { neighbour plan.now tile port ≡ Some from }
    requires domain { d < length plan.now.domains }
    requires port { port < ports plan.now }
    requires pulses { length pulses.now ≡ tiles plan.now }
    requires pulse_ports { (m : ℕ) → m < tiles plan.now → HasPorts plan.now (pulses_of pulses.now m) }
    requires made { IsMade router.old plan.now }
    requires room { (w : ℕ) → credit_at plan.now d tile pulses.now port ≡ Some w → (w < link_channels plan.now d)
        × (count_at router.old.credits d (place plan.now d port w) < plan.now.buffer) }
    ensures rest { router.new ≡ record router.old { credits = router.new.credits } }
    ensures made { IsMade router.new plan.now }
    ensures own { (s : Tile) → Shows router.old plan.now d s
        → Shows router.new plan.now d (returned port (credit_at plan.now d tile pulses.now port) s) }
    ensures others { (e : ℕ) (s : Tile) → e ≢ d → Shows router.old plan.now e s → Shows router.new plan.now e s }
{
    plan.known();
    let back = Way::of_port(port).opposite().port();
    if let Some(channel) = *pulses[from as usize].at(d, back) {
        router.restore(plan, d, port, channel);
    }
}

/// The credits of all domains come back by a port, over the link from tile `from`.
fn give_back_from(
    plan: &Plan,
    tile: u32,
    from: u32,
    pulses: &[Lanes<Option<u32>>],
    port: u32,
    router: &mut Router,
)
    requires tile { tile < tiles plan.now }
    requires link { neighbour plan.now tile port ≡ Some from }
    requires port { port < ports plan.now }
    requires pulses { length pulses.now ≡ tiles plan.now }
    requires pulse_ports { (m : ℕ) → m < tiles plan.now → HasPorts plan.now (pulses_of pulses.now m) }
    requires made { IsMade router.old plan.now }
    requires room { (d w : ℕ) → d < length plan.now.domains → credit_at plan.now d tile pulses.now port ≡ Some w
        → (w < link_channels plan.now d)
        × (count_at router.old.credits d (place plan.now d port w) < plan.now.buffer) }
    ensures rest { router.new ≡ record router.old { credits = router.new.credits } }
    ensures made { IsMade router.new plan.now }
    ensures shows { (d : ℕ) (s : Tile) → d < length plan.now.domains → Shows router.old plan.now d s
        → Shows router.new plan.now d (returned port (credit_at plan.now d tile pulses.now port) s) }
{
    for d in 0..plan.domains() {
        give_back_at(plan, tile, from, pulses, d, port, router);
    }
}

/// The credits of all domains come back by a port, if it has a link.
fn give_back_by(
    plan: &Plan,
    near: &Near,
    tile: u32,
    pulses: &[Lanes<Option<u32>>],
    port: u32,
    router: &mut Router,
)
    requires near { IsNear plan.now near.now }
    requires tile { tile < tiles plan.now }
    requires port { port < ports plan.now }
    requires pulses { length pulses.now ≡ tiles plan.now }
    requires pulse_ports { (m : ℕ) → m < tiles plan.now → HasPorts plan.now (pulses_of pulses.now m) }
    requires made { IsMade router.old plan.now }
    requires room { (d w : ℕ) → d < length plan.now.domains → credit_at plan.now d tile pulses.now port ≡ Some w
        → (w < link_channels plan.now d)
        × (count_at router.old.credits d (place plan.now d port w) < plan.now.buffer) }
    ensures rest { router.new ≡ record router.old { credits = router.new.credits } }
    ensures made { IsMade router.new plan.now }
    ensures shows { (d : ℕ) (s : Tile) → d < length plan.now.domains → Shows router.old plan.now d s
        → Shows router.new plan.now d (returned port (credit_at plan.now d tile pulses.now port) s) }
{
    if let Some(from) = near.neighbour(plan, tile, port) {
        give_back_from(plan, tile, from, pulses, port, router);
    }
}

/// The credits of all domains come back to a tile.
pub(crate) fn give_back(
    plan: &Plan,
    near: &Near,
    tile: u32,
    pulses: &[Lanes<Option<u32>>],
    router: &mut Router,
)
    requires near { IsNear plan.now near.now }
    requires tile { tile < tiles plan.now }
    requires pulses { length pulses.now ≡ tiles plan.now }
    requires pulse_ports { (m : ℕ) → m < tiles plan.now → HasPorts plan.now (pulses_of pulses.now m) }
    requires made { IsMade router.old plan.now }
    requires room { (d port w : ℕ) → d < length plan.now.domains → port < ports plan.now
        → credit_at plan.now d tile pulses.now port ≡ Some w → (w < link_channels plan.now d)
        × (count_at router.old.credits d (place plan.now d port w) < plan.now.buffer) }
    ensures rest { router.new ≡ record router.old { credits = router.new.credits } }
    ensures made { IsMade router.new plan.now }
    ensures shows { (d : ℕ) (s : Tile) → d < length plan.now.domains → Shows router.old plan.now d s
        → Shows router.new plan.now d (repaid (credit_at plan.now d tile pulses.now) (ports plan.now) s) }
{
    for port in 0..plan.ports() {
        give_back_by(plan, near, tile, pulses, port, router);
    }
}
