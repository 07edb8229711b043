//! What changes with a flit that goes through the switch.

ghost use Rattle.std.specs.Prelude.{◌≡◌, ◌≢◌, ◌<◌, ℕ, length, slice_set, true, None};
ghost use Rattle.noc_model.specs.Plan.{ports, link_channels};
ghost use Rattle.noc_model.specs.Step.{is_tail, with_channel};
ghost use Rattle.vc_partition.specs.Lanes.{lane};
ghost use Rattle.noc_model.specs.Inputs.{place};
ghost use Rattle.credit_links.specs.Counts.{count_at};
ghost use Rattle.vc_alloc.specs.Allocator.{held_at, link_channels_at};
ghost use Rattle.router_core.specs.Crossing.{flit_of, laid_at, laid_on};
ghost use Rattle.router_core.specs.Sends.{pulsed, spent, finished, freed};
ghost use Rattle.router_core.specs.Sizes.{HasCredits};

use credit_links::Credits;
use flit_word::{Flit, LinkFlit};
use noc_model::Plan;
use vc_alloc::VcAlloc;
use vc_partition::{Lanes, Stage, place};

/// Whether there is a flit, and it is a tail.
pub(crate) fn is_tail(flit: Option<Flit>) -> bool
    ensures { result ≡ is_tail flit }
{
    match flit {
        Some(flit) => flit.tail,
        None => false,
    }
}

/// A flit with its channel.
pub(crate) fn with_channel(channel: u32, flit: Option<Flit>) -> Option<LinkFlit>
    ensures { result ≡ with_channel channel flit }
{
    match flit {
        Some(flit) => Some(LinkFlit { channel, flit }),
        None => None,
    }
}

/// A flit of domain `d` left a channel of an input port: there is a credit pulse, except at the local port.
pub(crate) fn pulse(pulses: &mut Lanes<Option<u32>>, d: u32, port: u32, channel: u32)
    requires domain { d < length pulses.old }
    requires port { port < length (lane pulses.old d) }
    ensures { pulses.new ≡ pulsed pulses.old d port channel }
{
    if port != 0 {
        pulses.set(d, port, Some(channel));
    }
}

/// A flit of domain `d` went out in a channel of an output: a credit is spent, except at the local output.
pub(crate) fn spend(plan: &Plan, credits: &mut Credits, d: u32, out: u32, w: u32)
    requires domain { d < length plan.now.domains }
    requires made { HasCredits plan.now credits.old }
    requires output { out < ports plan.now }
    requires channel { w < link_channels plan.now d }
    requires some { out ≢ 0 → 0 < count_at credits.old d (place plan.now d out w) }
    ensures { credits.new ≡ spent credits.old plan.now d out w }
{
    if out != 0 {
        credits.spend(d, place(plan, d, out, w));
    }
}

/// The input at place `k` is idle again, if its packet has gone.
pub(crate) fn finish(stages: &mut Lanes<Stage>, d: u32, k: u32, gone: bool)
    requires domain { d < length stages.old }
    requires place { k < length (lane stages.old d) }
    ensures { stages.new ≡ finished stages.old d k gone }
{
    if gone {
        stages.set(d, k, Stage::Idle);
    }
}

/// The output channel that the packet held is free again, if it has gone.
pub(crate) fn free(allocator: &mut VcAlloc, d: u32, out: u32, w: u32, gone: bool)
    requires domain { d < length allocator.old.channels }
    requires output { out < length allocator.old.best }
    requires channel { w < link_channels_at allocator.old d }
    requires held { gone ≡ true → held_at allocator.old d out w ≡ true }
    ensures { allocator.new ≡ freed allocator.old d out w gone }
{
    if gone {
        allocator.release(d, out, w);
    }
}

/// A flit, if there is one, takes the place of what was at an output.
pub(crate) fn lay(links: &mut [Option<LinkFlit>], out: u32, flit: Option<LinkFlit>)
    requires { out < length links.old }
    ensures { links.new ≡ laid_on links.old out flit }
{
    if flit.is_some() {
        links[out as usize] = flit;
    }
}

/// Nothing goes out by the local port.
pub(crate) fn lift(links: &mut [Option<LinkFlit>])
    requires { 0 < length links.old }
    ensures { links.new ≡ slice_set links.old 0 None }
{
    links[0] = None;
}

/// The flit that goes out by the local port, if there is one.
pub(crate) fn ejecting(links: &[Option<LinkFlit>]) -> Option<Flit>
    requires { 0 < length links.now }
    ensures { result ≡ flit_of (laid_at links.now 0) }
{
    match links[0] {
        Some(x) => Some(x.flit),
        None => None,
    }
}

/// Nothing goes out by any port.
pub(crate) fn empty_links(links: &mut [Option<LinkFlit>])
    ensures none { (o : ℕ) → o < length links.old → laid_at links.new o ≡ None }
    ensures count { length links.new ≡ length links.old }
{
    for k in 0..links.len() {
        links[k] = None;
    }
}
