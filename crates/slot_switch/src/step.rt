//! The step of the switch: each input channel that may send is made known, and then each output grants.

ghost use Rattle.std.specs.Prelude.{◌≡◌, ◌≢◌, ◌<◌, ◌≤◌, ℕ, length, slice_get, Some, None, IfSome, pos};
ghost use Rattle.noc_model.specs.Plan.{ports, link_channels, in_channels};
ghost use Rattle.noc_model.specs.Tile.{Tile, TileIn};
ghost use Rattle.noc_model.specs.Step.{takes, asked};
ghost use Rattle.noc_model.specs.SoundState.{IsOutput};
ghost use Rattle.vc_partition.specs.Lanes.{lane};
ghost use Rattle.wave_sched.specs.Wheels.{Stands, wheel_ports};
ghost use Rattle.slot_switch.specs.Switch.{ask_at, turn_at};
ghost use Rattle.slot_switch.specs.Grants.{OnlyLane, OnlyAsks, OnlyDomain, HaveGranted};
ghost use Rattle.slot_switch.specs.Shown.{HasInputs, HasPorts, AreRouted, AreOutputs, IsShown, asking, IsFor, HasSwitched};

use crate::SlotSwitch;
use flit_word::Flit;
use noc_model::Plan;
use vc_partition::{Grant, Lanes, Stage, channel_count, place};
use wave_sched::Wheel;

/// Whether an output takes a flit of domain `d` for its channel `to` in this cycle: a link that the domain owns, with a
/// credit, or the ejection place, empty or heard.
fn takes(
    plan: &Plan,
    d: u32,
    out: u32,
    to: u32,
    wheel: &Wheel,
    credits: &Lanes<u32>,
    room: &[bool],
) -> bool
    requires domain { d < length plan.now.domains }
    requires out { out < ports plan.now }
    requires to { to < link_channels plan.now d }
    requires wheel { wheel_ports wheel.now ≡ ports plan.now }
    requires credits { HasInputs plan.now d credits.now }
    requires room { d < length room.now }
    ensures { (n t : ℕ) (s : Tile) (i : TileIn) → Stands wheel.now plan.now n t
        → AreOutputs plan.now d s i credits.now room.now → IsOutput plan.now n out
        → result ≡ takes plan.now d n (pos t) s i out to }
{
    if out == 0 {
        room[d as usize]
    } else {
        wheel.leaving(out) == d && *credits.at(d, place(plan, d, out, to)) > 0
    }
}

/// What a channel of an input port asks for: nothing where it holds no output, has no flit, or its output takes none.
fn ask_of(
    plan: &Plan,
    d: u32,
    port: u32,
    ch: u32,
    wheel: &Wheel,
    stages: &Lanes<Stage>,
    fronts: &Lanes<Option<Flit>>,
    credits: &Lanes<u32>,
    room: &[bool],
) -> Option<Grant>
    requires domain { d < length plan.now.domains }
    requires port { port < ports plan.now }
    requires channel { ch < in_channels plan.now d port }
    requires wheel { wheel_ports wheel.now ≡ ports plan.now }
    requires stages { HasInputs plan.now d stages.now }
    requires routed { AreRouted plan.now d stages.now }
    requires fronts { HasInputs plan.now d fronts.now }
    requires credits { HasInputs plan.now d credits.now }
    requires room { d < length room.now }
    ensures value { (n t : ℕ) (s : Tile) (i : TileIn)
        → IsShown plan.now d n t s i wheel.now stages.now fronts.now credits.now room.now
        → result ≡ asking plan.now d n (pos t) s i port ch }
    ensures channel { IfSome result (λ g. g.channel ≡ ch) }
{
    let k = place(plan, d, port, ch);
    match *stages.at(d, k) {
        Stage::Active { out, to } => {
            if fronts.at(d, k).is_some() && takes(plan, d, out, to, wheel, credits, room) {
                Some(Grant {
                    channel: ch,
                    out,
                    to,
                })
            } else {
                None
            }
        }
        _ => None,
    }
}

impl SlotSwitch {
    /// An input port asks for the best of its channels that may send.
    fn ask_port(
        &mut self,
        plan: &Plan,
        d: u32,
        port: u32,
        wheel: &Wheel,
        stages: &Lanes<Stage>,
        fronts: &Lanes<Option<Flit>>,
        credits: &Lanes<u32>,
        room: &[bool],
    )
        requires domain { d < length plan.now.domains }
        requires port { port < ports plan.now }
        requires made { IsFor self.old plan.now }
        requires wheel { wheel_ports wheel.now ≡ ports plan.now }
        requires stages { HasInputs plan.now d stages.now }
        requires routed { AreRouted plan.now d stages.now }
        requires fronts { HasInputs plan.now d fronts.now }
        requires credits { HasInputs plan.now d credits.now }
        requires room { d < length room.now }
        ensures asked { (n t : ℕ) (s : Tile) (i : TileIn)
            → IsShown plan.now d n t s i wheel.now stages.now fronts.now credits.now room.now
            → turn_at self.old d port ≡ s.turn port
            → ask_at self.new d port ≡ asked plan.now d n (pos t) s i port }
        ensures only { OnlyAsks self.old d self.new }
        ensures others { (k : ℕ) → k ≢ port → ask_at self.new d k ≡ ask_at self.old d k }
    {
        self.known();
        self.clear(d, port);
        for ch in 0..channel_count(plan, d, port) {
            if let Some(grant) = ask_of(plan, d, port, ch, wheel, stages, fronts, credits, room) {
                self.ask(d, port, grant);
            }
        }
    }

    /// Each output grants, and each grant is put in the place of its input port, which has none before.
    fn grant_all(&mut self, d: u32, grants: &mut Lanes<Option<Grant>>)
        requires domain { d < length self.old.asks }
        requires grants { d < length grants.old }
        requires places { length (lane grants.old d) ≡ self.old.ports }
        requires none { (k : ℕ) → k < self.old.ports → slice_get (lane grants.old d) k ≡ Some None }
        ensures { HaveGranted self.old self.new grants.old grants.new d self.old.ports }
    {
        self.known();
        for out in 0..self.ports() {
            if let Some(granted) = self.commit(d, out) {
                grants.set(d, granted.port, Some(granted.grant));
            }
        }
    }

    /// Grants, for domain `d`, the flits that go through the switch in this cycle: `grants` has what each input port
    /// may send, and the pointers move to behind what was granted. What was asked for before doesn't count. All other
    /// domains stay.
    pub fn step_domain(
        &mut self,
        plan: &Plan,
        d: u32,
        wheel: &Wheel,
        stages: &Lanes<Stage>,
        fronts: &Lanes<Option<Flit>>,
        credits: &Lanes<u32>,
        room: &[bool],
        grants: &mut Lanes<Option<Grant>>,
    )
        requires domain { d < length plan.now.domains }
        requires made { IsFor self.old plan.now }
        requires wheel { wheel_ports wheel.now ≡ ports plan.now }
        requires stages { HasInputs plan.now d stages.now }
        requires routed { AreRouted plan.now d stages.now }
        requires fronts { HasInputs plan.now d fronts.now }
        requires credits { HasInputs plan.now d credits.now }
        requires room { d < length room.now }
        requires grants { HasPorts plan.now d grants.old }
        ensures switched { HasSwitched self.old self.new plan.now d wheel.now stages.now fronts.now credits.now room.now
            grants.new }
        ensures made { IsFor self.new plan.now }
        ensures switch { OnlyDomain self.old self.new d }
        ensures grants { OnlyLane grants.old grants.new d }
    {
        for port in 0..self.ports() {
            self.ask_port(plan, d, port, wheel, stages, fronts, credits, room);
        }
        forget(grants, d, self.ports());
        self.grant_all(d, grants);
    }

    /// Grants flits of all domains: a link takes one of the domain that owns its slot, or none. No domain's grants or
    /// pointers depend on another's.
    pub fn step(
        &mut self,
        plan: &Plan,
        wheel: &Wheel,
        stages: &Lanes<Stage>,
        fronts: &Lanes<Option<Flit>>,
        credits: &Lanes<u32>,
        room: &[bool],
        grants: &mut Lanes<Option<Grant>>,
    )
        requires made { IsFor self.old plan.now }
        requires wheel { wheel_ports wheel.now ≡ ports plan.now }
        requires stages { (d : ℕ) → d < length plan.now.domains → HasInputs plan.now d stages.now }
        requires routed { (d : ℕ) → d < length plan.now.domains → AreRouted plan.now d stages.now }
        requires fronts { (d : ℕ) → d < length plan.now.domains → HasInputs plan.now d fronts.now }
        requires credits { (d : ℕ) → d < length plan.now.domains → HasInputs plan.now d credits.now }
        requires room { length plan.now.domains ≤ length room.now }
        requires grants { (d : ℕ) → d < length plan.now.domains → HasPorts plan.now d grants.old }
        ensures switched { (d : ℕ) → d < length plan.now.domains → HasSwitched self.old self.new plan.now d wheel.now
            stages.now fronts.now credits.now room.now grants.new }
        ensures made { IsFor self.new plan.now }
        ensures grants { (d : ℕ) → d < length plan.now.domains → HasPorts plan.now d grants.new }
    {
        for d in 0..plan.domains() {
            self.step_domain(plan, d, wheel, stages, fronts, credits, room, grants);
        }
    }
}

/// Domain `d` has no grant at any of its ports.
fn forget(grants: &mut Lanes<Option<Grant>>, d: u32, count: u32)
    requires domain { d < length grants.old }
    requires count { length (lane grants.old d) ≡ count }
    ensures none { (k : ℕ) → k < count → slice_get (lane grants.new d) k ≡ Some None }
    ensures only { OnlyLane grants.old grants.new d }
{
    for port in 0..count {
        grants.set(d, port, None);
    }
}
