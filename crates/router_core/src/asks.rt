//! What the input ports of a tile ask for.

ghost use Rattle.std.specs.Prelude.{◌≡◌, ◌<◌, ℕ, length, false, true, slice_index_or, IfSome};
ghost use Rattle.noc_model.specs.Step.{grant_at};
ghost use Rattle.router_core.specs.Asks.{asking};
ghost use Rattle.router_core.specs.Ready.{IsCleared};
ghost use Rattle.router_core.specs.Sizes.{HasPorts, HasSwitch};

use noc_model::Plan;
use slot_switch::SlotSwitch;
use vc_partition::{Grant, Lanes, Stage};

/// What a channel in this stage asks for.
pub(crate) fn grant_at(channel: u32, stage: Stage) -> Option<Grant>
    ensures value { result ≡ grant_at channel stage }
    ensures channel { IfSome result (λ grant. grant.channel ≡ channel) }
{
    match stage {
        Stage::Active { out, to } => Some(Grant { channel, out, to }),
        Stage::Idle | Stage::Routed { .. } => None,
    }
}

/// Marks the output that is asked for, if anything is.
pub(crate) fn mark(outputs: &mut [bool], asked: Option<Grant>)
    ensures count { length outputs.new ≡ length outputs.old }
    ensures kept { (o : ℕ) → slice_index_or outputs.old o false ≡ true → slice_index_or outputs.new o false ≡ true }
    ensures has { IfSome asked (λ grant. grant.out < length outputs.old
        → slice_index_or outputs.new grant.out false ≡ true) }
{
    if let Some(grant) = asked {
        let out = grant.out as usize;
        if out < outputs.len() {
            outputs[out] = true;
        }
    }
}

/// An input port of domain `d` asks for this too, if it is anything.
pub(crate) fn ask(switch: &mut SlotSwitch, d: u32, port: u32, grant: Option<Grant>)
    requires domain { d < length switch.old.asks }
    requires port { port < switch.old.ports }
    requires channel { IfSome grant (λ g. g.channel < 8) }
    ensures { switch.new ≡ asking switch.old d port grant }
{
    if let Some(grant) = grant {
        switch.ask(d, port, grant);
    }
}

/// The input ports of domain `d` ask for nothing, and have no credit pulse, as at the beginning of a cycle.
pub(crate) fn clear_ports(
    plan: &Plan,
    d: u32,
    switch: &mut SlotSwitch,
    pulses: &mut Lanes<Option<u32>>,
)
    requires domain { d < length plan.now.domains }
    requires switch { HasSwitch plan.now switch.old }
    requires pulses { HasPorts plan.now pulses.old }
    ensures { IsCleared plan.now d switch.old switch.new pulses.old pulses.new }
{
    let _ = plan;
    switch.clear_all(d);
    pulses.fill(d, None);
}
