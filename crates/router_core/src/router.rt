//! The router of a tile.

ghost use Rattle.std.specs.Prelude.{◌≡◌, ◌≢◌, ◌<◌, ◌+◌, ◌++◌, ◌∷◌, ◌↔◌, [], ℕ, List, length, map, replicate, slice_set, true, false, IsTrue, None, Some, pos, ◌-ℤ◌, IfSome, IfOk};
ghost use Rattle.std.specs.List.{range_with_len};
ghost use Rattle.noc_model.specs.declared.Flit.{Flit as FlitValue};
ghost use Rattle.noc_model.specs.declared.Stage.TheVariants.{Idle};
ghost use Rattle.noc_model.specs.Plan.{Plan as PlanValue, tiles, ports, channels, link_channels, out_channels};
ghost use Rattle.noc_model.specs.Inputs.{place, input_count, input_port, input_channel};
ghost use Rattle.noc_model.specs.Place.{owner, neighbour, opposite};
ghost use Rattle.noc_model.specs.SoundState.{IsOutput, HasOutput};
ghost use Rattle.noc_model.specs.Tile.{Tile, start_tile};
ghost use Rattle.noc_model.specs.Step.{asked, is_open, is_ready, is_ready_at, is_ready_packet, sent, takes, tile_step, with_channel};
ghost use Rattle.noc_model.specs.Events.{ejected_of};
ghost use Rattle.wave_sched.specs.Wheels.{Stands, wheel_ports};
ghost use Rattle.vc_partition.specs.Lanes.{lane};
ghost use Rattle.credit_links.specs.Counts.{count_at, with_count};
ghost use Rattle.route_stage.specs.Routed.{stage_at};
ghost use Rattle.vc_alloc.specs.Allocator.{best_at, held_at};
ghost use Rattle.slot_switch.specs.Switch.{ask_at, granted_in};
ghost use Rattle.vc_alloc.specs.Shown.{GoesBelow};
ghost use Rattle.router_core.specs.Buffers.{lists_at, flits_at, with_flits};
ghost use Rattle.router_core.specs.Idle.{has_head, is_busy, IsIdleFor, IsIdle};
ghost use Rattle.tile_iface.specs.Iface.{taken};
ghost use Rattle.router_core.specs.Attachments.{attachment_at, told_at, outside};
ghost use Rattle.router_core.specs.Attach.{entered, attached_parts, attached};
ghost use Rattle.router_core.specs.Asks.{HaveOutputs, AsksBelow, AsksWithin, requested};
ghost use Rattle.router_core.specs.Heads.{FrontsGo, placed, front_of};
ghost use Rattle.router_core.specs.Sends.{ends, passed_parts, passed};
ghost use Rattle.router_core.specs.Advance.{cycled};
ghost use Rattle.router_core.specs.Ready.{AreLawful, IsReady, silent};
ghost use Rattle.router_core.specs.Crossing.{CanPass, CanSend, SendsBelow, laid, laid_at, sent_by, sent_parts, switched};
ghost use Rattle.router_core.specs.Parts.{start_parts};
ghost use Rattle.router_core.specs.Pulses.{ArePulses, no_pulses, pulse_at};
ghost use Rattle.router_core.specs.Sizes.{HasBuffers, IsMade};
ghost use Rattle.router_core.specs.Shown.{Shows, with_flit, with_credit};

use crate::asks::{ask, clear_ports, grant_at, mark};
use crate::attachments::{
    Attachment, Told, attachment_after, nothing_told, start_attachments, stays, taken,
};
use crate::buffers::Buffers;
use crate::heads::{give_channels, has_head, is_busy, route_heads, want_heads};
use crate::sends::{
    ejecting, empty_links, finish, free, is_tail, lay, lift, pulse, spend, with_channel,
};
use credit_links::Credits;
use flit_word::{Ejected, Flit, LinkFlit};
use noc_model::Plan;
use slot_switch::SlotSwitch;
use std::alloc::{AllocError, Global};
use std::marker::Model;
use tile_iface::{ejected_of, entry, is_ready_packet};
use vc_alloc::VcAlloc;
use vc_partition::{Grant, Lanes, Stage, channel_count, input_counts, place, port_counts};
use wave_sched::Wheel;

/// What a tile sends in a cycle.
#[derive(Drop)]
pub struct RouterOut {
    /// By output port, the flit that goes onto the link. Port 0 has none.
    pub links: Vec<Option<LinkFlit>>,
}

impl RouterOut {
    /// Nothing that a tile sends. All memory is taken here.
    ///
    /// # Errors
    ///
    /// When memory runs out.
    pub fn new(alloc: Global, plan: &Plan) -> Result<RouterOut, AllocError>
        ensures { IfOk result (λ out. length out.links.items ≡ ports plan.now) }
    {
        let links = vec![in alloc; None; plan.ports() as usize]?;
        Ok(RouterOut { links })
    }
}

/// What a tile keeps for all domains.
#[derive(Drop)]
pub struct Router {
    tile: u32,
    buffers: Buffers,
    stages: Lanes<Stage>,
    /// Of each domain and input port, the channel that a flit left in the last cycle.
    pulses: Lanes<Option<u32>>,
    allocator: VcAlloc,
    switch: SlotSwitch,
    credits: Credits,
    attachments: Vec<Attachment>,
    told: Vec<Told>,
    wheel: Wheel,
}

impl Model for Router {
    ghost use Rattle.router_core.specs.Parts.{Parts};

    ghost Value = { Parts };

    ghost view = { λ a. record {
      tile = a.tile;
      buffers = a.buffers;
      stages = a.stages;
      pulses = a.pulses;
      allocator = a.allocator;
      switch = a.switch;
      credits = a.credits;
      attachments = a.attachments.items;
      told = a.told.items;
      wheel = a.wheel;
    } };
}

/// The stages of a tile's inputs at the start: no channel has a packet.
fn start_stages(alloc: Global, plan: &Plan) -> Result<Lanes<Stage>, AllocError>
    ensures { IfOk result (λ stages. stages
        ≡ map (λ d. replicate (input_count plan.now d) Idle) (range_with_len 0 (length plan.now.domains))) }
{
    let inputs = input_counts(alloc, plan)?;
    let stages = Lanes::new(alloc, &inputs, Stage::Idle)?;
    Ok(stages)
}

/// The credit pulses of a tile at the start: none.
fn no_pulses(alloc: Global, plan: &Plan) -> Result<Lanes<Option<u32>>, AllocError>
    ensures { IfOk result (λ pulses. pulses ≡ no_pulses plan.now) }
{
    let outputs = port_counts(alloc, plan)?;
    let pulses = Lanes::new(alloc, &outputs, None)?;
    Ok(pulses)
}

impl Router {
    /// The router of a tile (below `tiles`) at the start. All memory is taken here.
    ///
    /// # Errors
    ///
    /// When memory runs out.
    pub fn new(alloc: Global, plan: &Plan, tile: u32) -> Result<Router, AllocError>
        requires { tile < tiles plan.now }
        ensures value { IfOk result (λ router. router ≡ start_parts plan.now tile router.wheel) }
        ensures made { IfOk result (λ router. IsMade router plan.now) }
        ensures wheel { IfOk result (λ router. Stands router.wheel plan.now tile 0) }
        ensures shows { IfOk result (λ router. (d : ℕ) → d < length plan.now.domains
            → Shows router plan.now d (start_tile plan.now)) }
        ensures lawful { IfOk result (λ router. AreLawful plan.now router) }
    {
        plan.known();
        let wheel = Wheel::new(alloc, plan, tile)?;
        let router = Router::with_wheel(alloc, plan, tile, wheel)?;
        Ok(router)
    }

    /// The router of a tile at the start, with this wheel.
    fn with_wheel(alloc: Global, plan: &Plan, tile: u32, wheel: Wheel) -> Result<Router, AllocError>
        requires tile { tile < tiles plan.now }
        requires wheel { Stands wheel plan.now tile 0 }
        ensures value { IfOk result (λ router. router ≡ start_parts plan.now tile wheel) }
        ensures made { IfOk result (λ router. IsMade router plan.now) }
    {
        plan.known();
        let buffers = Buffers::new(alloc, plan)?;
        let stages = start_stages(alloc, plan)?;
        let pulses = no_pulses(alloc, plan)?;
        let allocator = VcAlloc::new(alloc, plan, tile)?;
        let switch = SlotSwitch::new(alloc, plan, tile)?;
        let credits = Credits::new(alloc, plan)?;
        let attachments = start_attachments(alloc, plan)?;
        let told = nothing_told(alloc, plan)?;
        Ok(Router {
            tile,
            buffers,
            stages,
            pulses,
            allocator,
            switch,
            credits,
            attachments,
            told,
            wheel,
        })
    }

    /// What the outside does at the attachment of domain `d` in this cycle. All else stays.
    pub fn tell(&mut self, d: u32, told: Told)
        requires { d < length self.old.told }
        ensures value { self.new ≡ record self.old { told = slice_set self.old.told d told } }
        ensures shows { (p : PlanValue) (e : ℕ) (s : Tile) → Shows self.old p e s → Shows self.new p e s }
        ensures made { (p : PlanValue) → IsMade self.old p → IsMade self.new p }
    {
        self.told[d as usize] = told;
    }

    /// Whether a word that is offered to the attachment of domain `d` is taken.
    pub fn ready(&self, plan: &Plan, d: u32) -> bool
        requires made { IsMade self.now plan.now }
        requires domain { d < length plan.now.domains }
        ensures { (s : Tile) → Shows self.now plan.now d s → result ≡ is_open plan.now s }
    {
        let attachment = self.attachments[d as usize];
        let count = self.buffers.len(d, place(plan, d, 0, attachment.current));
        is_ready_packet(attachment.packet, count as usize, plan.buffer())
    }

    /// The drop pulse of domain `d`: whether a word that was taken in the cycle before was dropped.
    pub fn drop_pulse(&self, d: u32) -> bool
        requires { d < length self.now.attachments }
        ensures { (p : PlanValue) (s : Tile) → Shows self.now p d s → result ≡ s.dropped }
    {
        self.attachments[d as usize].dropped
    }

    /// The flit in the ejection place of domain `d`, as it is given out.
    pub fn ejected(&self, d: u32) -> Option<Ejected>
        requires { d < length self.now.attachments }
        ensures { (p : PlanValue) (s : Tile) → Shows self.now p d s → result ≡ ejected_of s.ejected }
    {
        ejected_of(self.attachments[d as usize].ejected)
    }

    /// A flit of domain `d` arrives by a port (below the tile's ports), on a channel of the domain in whose buffer there
    /// is room.
    pub fn arrive(&mut self, plan: &Plan, d: u32, port: u32, x: LinkFlit)
        requires made { IsMade self.old plan.now }
        requires domain { d < length plan.now.domains }
        requires port { port < ports plan.now }
        requires channel { x.channel < link_channels plan.now d }
        requires room { length (flits_at self.old.buffers d (place plan.now d port x.channel)) < plan.now.buffer }
        ensures value { self.new ≡ record self.old {
          buffers = with_flits self.old.buffers d (place plan.now d port x.channel)
              (flits_at self.old.buffers d (place plan.now d port x.channel) ++ x.flit ∷ []);
        } }
        ensures own { (s : Tile) → Shows self.old plan.now d s → Shows self.new plan.now d (with_flit s port x) }
        ensures others { (e : ℕ) (s : Tile) → e ≢ d → Shows self.old plan.now e s → Shows self.new plan.now e s }
        ensures made { IsMade self.new plan.now }
    {
        self.buffers
            .push(d, place(plan, d, port, x.channel), x.flit);
    }

    /// A credit of domain `d` comes back for channel `w` of an output port that has a link. Not all slots of the buffer
    /// there are free.
    pub fn restore(&mut self, plan: &Plan, d: u32, port: u32, w: u32)
        requires made { IsMade self.old plan.now }
        requires domain { d < length plan.now.domains }
        requires port { port < ports plan.now }
        requires channel { w < link_channels plan.now d }
        requires room { count_at self.old.credits d (place plan.now d port w) < plan.now.buffer }
        ensures value { self.new ≡ record self.old {
          credits = with_count self.old.credits d (place plan.now d port w)
              (count_at self.old.credits d (place plan.now d port w) + 1);
        } }
        ensures own { (s : Tile) → Shows self.old plan.now d s → Shows self.new plan.now d (with_credit s port w) }
        ensures others { (e : ℕ) (s : Tile) → e ≢ d → Shows self.old plan.now e s → Shows self.new plan.now e s }
        ensures made { IsMade self.new plan.now }
    {
        self.credits.restore(d, place(plan, d, port, w));
    }

    /// Domain `d` begins a cycle: none of its input ports asks for anything yet, and none has a credit pulse.
    fn clear(&mut self, plan: &Plan, d: u32)
        requires made { IsMade self.old plan.now }
        requires domain { d < length plan.now.domains }
        ensures rest { self.new ≡ record self.old { switch = self.new.switch; pulses = self.new.pulses } }
        ensures quiet { (port : ℕ) → ask_at self.new.switch d port ≡ None }
        ensures own { (s : Tile) → Shows self.old plan.now d s → Shows self.new plan.now d (silent s) }
        ensures others { (e : ℕ) (s : Tile) → e ≢ d → Shows self.old plan.now e s → Shows self.new plan.now e s }
        ensures made { IsMade self.new plan.now }
        ensures pulses { ArePulses plan.now self.old.pulses → ArePulses plan.now self.new.pulses }
    {
        clear_ports(plan, d, &mut self.switch, &mut self.pulses);
    }

    /// Whether a head of domain `d` waits at the input at place `k`, if none was found before.
    fn finds_head(&self, d: u32, k: u32, found: bool) -> bool
        requires domain { d < length self.now.buffers }
        requires place { k < length (lists_at self.now.buffers d).lists }
        requires stages { d < length self.now.stages }
        requires stage { k < length (lane self.now.stages d) }
        ensures before { result ≡ false → found ≡ false }
        ensures here { result ≡ false
            → has_head (stage_at self.now.stages d k) (flits_at self.now.buffers d k) ≡ false }
    {
        found || has_head(self.buffers.len(d, k), *self.stages.at(d, k))
    }

    /// Places the heads of domain `d`, if any may wait: a packet whose head has come to the front of an idle channel gets
    /// its route, and of the packets that wait for an output the round-robin choice gets the least free channel of its
    /// class.
    fn place_heads(&mut self, plan: &Plan, d: u32, waits: bool)
        requires waits { waits ≡ false → (k : ℕ) → k < input_count plan.now d
            → has_head (stage_at self.old.stages d k) (flits_at self.old.buffers d k) ≡ false }
        requires made { IsMade self.old plan.now }
        requires domain { d < length plan.now.domains }
        requires dest { FrontsGo plan.now self.old.buffers d }
        requires outs { (k : ℕ) → GoesBelow (ports plan.now) (stage_at self.old.stages d k) }
        requires quiet { (o : ℕ) → best_at self.old.allocator o ≡ None }
        ensures rest { self.new ≡ record self.old { allocator = self.new.allocator; stages = self.new.stages } }
        ensures own { (s : Tile) → Shows self.old plan.now d s
            → Shows self.new plan.now d (placed plan.now d self.old.tile s) }
        ensures others { (e : ℕ) (s : Tile) → e ≢ d → Shows self.old plan.now e s → Shows self.new plan.now e s }
        ensures made { IsMade self.new plan.now }
        ensures quiet { (o : ℕ) → o < ports plan.now → best_at self.new.allocator o ≡ None }
    {
        if waits {
            self.place_waiting(plan, d);
        }
    }

    /// Places the heads of domain `d`, as in `place_heads`.
    fn place_waiting(&mut self, plan: &Plan, d: u32)
        requires made { IsMade self.old plan.now }
        requires domain { d < length plan.now.domains }
        requires dest { FrontsGo plan.now self.old.buffers d }
        requires outs { (k : ℕ) → GoesBelow (ports plan.now) (stage_at self.old.stages d k) }
        requires quiet { (o : ℕ) → best_at self.old.allocator o ≡ None }
        ensures rest { self.new ≡ record self.old { allocator = self.new.allocator; stages = self.new.stages } }
        ensures own { (s : Tile) → Shows self.old plan.now d s
            → Shows self.new plan.now d (placed plan.now d self.old.tile s) }
        ensures others { (e : ℕ) (s : Tile) → e ≢ d → Shows self.old plan.now e s → Shows self.new plan.now e s }
        ensures made { IsMade self.new plan.now }
        ensures quiet { (o : ℕ) → o < ports plan.now → best_at self.new.allocator o ≡ None }
    {
        want_heads(plan, self.tile, d, &self.stages, &mut self.allocator);
        route_heads(plan, self.tile, d, &self.buffers, &mut self.stages);
        give_channels(plan, d, &mut self.allocator, &mut self.stages);
    }

    /// Whether the output channel of domain `d` takes a flit in this cycle: a link that the domain owns, with a credit;
    /// or the ejection place, empty or heard.
    fn takes(&self, plan: &Plan, d: u32, out: u32, to: u32) -> bool
        requires made { IsMade self.now plan.now }
        requires domain { d < length plan.now.domains }
        requires output { IsOutput plan.now self.now.tile out }
        requires channel { to < out_channels plan.now d out }
        ensures { (s : Tile) (t : ℕ) → Shows self.now plan.now d s → Stands self.now.wheel plan.now self.now.tile t
            → result ≡ takes plan.now d self.now.tile (pos t) s (outside (told_at self.now.told d)) out to }
    {
        if out == 0 {
            self.attachments[d as usize].ejected.is_none() || self.told[d as usize].hears
        } else {
            self.wheel.leaving(out) == d && self.credits.count(d, place(plan, d, out, to)) > 0
        }
    }

    /// Whether a packet of domain `d` that is in this stage may send a flit in this cycle, if it has one.
    fn may_send(&self, plan: &Plan, d: u32, stage: Stage) -> bool
        requires made { IsMade self.now plan.now }
        requires domain { d < length plan.now.domains }
        requires output { HasOutput plan.now d self.now.tile stage }
        ensures { (s : Tile) (t : ℕ) (f : FlitValue) (fs : List FlitValue) → Shows self.now plan.now d s
            → Stands self.now.wheel plan.now self.now.tile t
            → result ≡ is_ready_at plan.now d self.now.tile (pos t) s (outside (told_at self.now.told d)) (f ∷ fs) stage }
    {
        match stage {
            Stage::Active { out, to } => self.takes(plan, d, out, to),
            Stage::Idle | Stage::Routed { .. } => false,
        }
    }

    /// Whether a flit of domain `d` could go from an input in this cycle.
    fn is_ready(&self, plan: &Plan, d: u32, k: u32) -> bool
        requires made { IsMade self.now plan.now }
        requires domain { d < length plan.now.domains }
        requires input { k < input_count plan.now d }
        requires outs { HaveOutputs plan.now d self.now }
        ensures { (s : Tile) (t : ℕ) → Shows self.now plan.now d s → Stands self.now.wheel plan.now self.now.tile t
            → result ≡ is_ready plan.now d self.now.tile (pos t) s (outside (told_at self.now.told d))
            (input_port plan.now d k) (input_channel plan.now d k) }
    {
        self.buffers.len(d, k) > 0 && self.may_send(plan, d, *self.stages.at(d, k))
    }

    /// What an input of domain `d` asks for in this cycle.
    fn request(&self, plan: &Plan, d: u32, k: u32) -> Option<Grant>
        requires made { IsMade self.now plan.now }
        requires domain { d < length plan.now.domains }
        requires input { k < input_count plan.now d }
        requires outs { HaveOutputs plan.now d self.now }
        ensures value { (s : Tile) (t : ℕ) → Shows self.now plan.now d s → Stands self.now.wheel plan.now self.now.tile t
            → result ≡ requested plan.now d self.now.tile (pos t) s (outside (told_at self.now.told d)) k }
        ensures channel { IfSome result (λ grant. grant.channel < 8) }
    {
        if !self.is_ready(plan, d, k) {
            return None;
        }
        let channels = plan.link_channels(d);
        let channel = k % channels;
        if channel < channel_count(plan, d, k / channels) {
            grant_at(channel, *self.stages.at(d, k))
        } else {
            None
        }
    }

    /// All inputs of domain `d` that may send are made known to the switch: each input port asks for what the
    /// definition's input port asks for in this cycle. Answers whether a head waits at any of the inputs.
    fn ask_all(&mut self, plan: &Plan, d: u32) -> bool
        requires made { IsMade self.old plan.now }
        requires domain { d < length plan.now.domains }
        requires outs { HaveOutputs plan.now d self.old }
        requires quiet { (port : ℕ) → ask_at self.old.switch d port ≡ None }
        ensures rest { self.new ≡ record self.old { switch = self.new.switch } }
        ensures knows { AsksBelow (input_count plan.now d) plan.now d self.old self.new.switch }
        ensures asks { (s : Tile) (t port : ℕ) → Shows self.old plan.now d s
            → Stands self.old.wheel plan.now self.old.tile t → port < ports plan.now → ask_at self.new.switch d port
            ≡ asked plan.now d self.old.tile (pos t) s (outside (told_at self.old.told d)) port }
        ensures heads { result ≡ false → (k : ℕ) → k < input_count plan.now d
            → has_head (stage_at self.old.stages d k) (flits_at self.old.buffers d k) ≡ false }
        ensures shows { (e : ℕ) (s : Tile) → Shows self.old plan.now e s → Shows self.new plan.now e s }
        ensures made { IsMade self.new plan.now }
    {
        let mut waits = false;
        for k in 0..plan.ports() * plan.link_channels(d) {
            waits = self.finds_head(d, k, waits);
            let grant = self.request(plan, d, k);
            ask(&mut self.switch, d, k / plan.link_channels(d), grant);
        }
        waits
    }

    /// The first flit of a channel of domain `d` goes through the switch by a grant: its slot of the buffer is free, a
    /// credit is spent, and the packet of a tail gives its channels back.
    fn pass(&mut self, plan: &Plan, d: u32, port: u32, grant: Grant) -> Option<LinkFlit>
        requires made { IsMade self.old plan.now }
        requires domain { d < length plan.now.domains }
        requires port { port < ports plan.now }
        requires channel { grant.channel < link_channels plan.now d }
        requires output { grant.out < ports plan.now }
        requires to { grant.to < link_channels plan.now d }
        requires some { grant.out ≢ 0 → 0 < count_at self.old.credits d (place plan.now d grant.out grant.to) }
        requires held { ends self.old plan.now d port grant ≡ true
            → held_at self.old.allocator d grant.out grant.to ≡ true }
        ensures flit { result
            ≡ with_channel grant.to (front_of self.old.buffers d (place plan.now d port grant.channel)) }
        ensures value { self.new ≡ passed_parts self.old plan.now d port grant }
        ensures own { (s : Tile) → Shows self.old plan.now d s → Shows self.new plan.now d (passed s port grant) }
        ensures others { (e : ℕ) (s : Tile) → e ≢ d → Shows self.old plan.now e s → Shows self.new plan.now e s }
        ensures made { IsMade self.new plan.now }
    {
        let k = place(plan, d, port, grant.channel);
        let flit = self.buffers.pop(d, k);
        let gone = is_tail(flit);
        pulse(&mut self.pulses, d, port, grant.channel);
        spend(plan, &mut self.credits, d, grant.out, grant.to);
        finish(&mut self.stages, d, k, gone);
        free(&mut self.allocator, d, grant.out, grant.to, gone);
        with_channel(grant.to, flit)
    }

    /// An output of domain `d` picks one of the input ports that ask for it, and sends its flit, if any asks.
    fn send(&mut self, plan: &Plan, d: u32, out: u32, asked: bool) -> Option<LinkFlit>
        requires made { IsMade self.old plan.now }
        requires domain { d < length plan.now.domains }
        requires output { out < ports plan.now }
        requires pass { IfSome (granted_in self.old.switch d out) (λ x. CanPass plan.now d self.old x) }
        requires asked { asked ≡ false → granted_in self.old.switch d out ≡ None }
        ensures flit { result ≡ sent_by self.old plan.now d (granted_in self.old.switch d out) }
        ensures value { self.new ≡ sent_parts self.old plan.now d out (granted_in self.old.switch d out) }
    {
        if asked {
            self.send_chosen(plan, d, out)
        } else {
            None
        }
    }

    /// An output of domain `d` picks one of the input ports that ask for it, and sends its flit.
    fn send_chosen(&mut self, plan: &Plan, d: u32, out: u32) -> Option<LinkFlit>
        requires made { IsMade self.old plan.now }
        requires domain { d < length plan.now.domains }
        requires output { out < ports plan.now }
        requires pass { IfSome (granted_in self.old.switch d out) (λ x. CanPass plan.now d self.old x) }
        ensures flit { result ≡ sent_by self.old plan.now d (granted_in self.old.switch d out) }
        ensures value { self.new ≡ sent_parts self.old plan.now d out (granted_in self.old.switch d out) }
    {
        match self.switch.commit(d, out) {
            Some(granted) => self.pass(plan, d, granted.port, granted.grant),
            None => None,
        }
    }

    /// Marks the outputs that the input ports of domain `d` ask for.
    fn asked_outputs(&self, plan: &Plan, d: u32, outputs: &mut [bool])
        requires made { IsMade self.now plan.now }
        requires domain { d < length plan.now.domains }
        ensures asks { AsksWithin (ports plan.now) self.now.switch d outputs.new }
        ensures count { length outputs.new ≡ length outputs.old }
    {
        for port in 0..plan.ports() {
            mark(outputs, self.switch.asked(d, port));
        }
    }

    /// Each output of domain `d` sends the flit that the definition sends there: it takes the place of what was in
    /// `links`, by port. At the local output that is the flit which is ejected.
    fn send_all(&mut self, plan: &Plan, d: u32, links: &mut [Option<LinkFlit>])
        requires made { IsMade self.old plan.now }
        requires domain { d < length plan.now.domains }
        requires links { length links.old ≡ ports plan.now }
        requires can { CanSend plan.now d self.old }
        ensures { SendsBelow (ports plan.now) plan.now d self.old self.new links.old links.new }
    {
        let mut outputs = [false; 7];
        self.asked_outputs(plan, d, &mut outputs);
        self.send_asked(plan, d, &outputs, links);
    }

    /// Each output of domain `d` sends its flit, as in `send_all`: only those that are marked are asked for.
    fn send_asked(&mut self, plan: &Plan, d: u32, outputs: &[bool], links: &mut [Option<LinkFlit>])
        requires made { IsMade self.old plan.now }
        requires domain { d < length plan.now.domains }
        requires outputs { length outputs.now ≡ 7 }
        requires asks { AsksWithin (ports plan.now) self.old.switch d outputs.now }
        requires links { length links.old ≡ ports plan.now }
        requires can { CanSend plan.now d self.old }
        ensures { SendsBelow (ports plan.now) plan.now d self.old self.new links.old links.new }
    {
        for out in 0..plan.ports() {
            let flit = self.send(plan, d, out, outputs[out as usize]);
            lay(links, out, flit);
        }
    }

    /// Domain `d` places its heads and sends its flits, as the definition does in this cycle: a flit that goes out by a
    /// port takes the place of what was in `links`.
    fn move_flits(&mut self, plan: &Plan, d: u32, links: &mut [Option<LinkFlit>])
        requires made { IsMade self.old plan.now }
        requires domain { d < length plan.now.domains }
        requires ready { IsReady plan.now d self.old }
        requires quiet { (o : ℕ) → best_at self.old.allocator o ≡ None }
        requires links { length links.old ≡ ports plan.now }
        ensures rest { self.new ≡ record self.old {
          buffers = self.new.buffers;
          stages = self.new.stages;
          pulses = self.new.pulses;
          allocator = self.new.allocator;
          switch = self.new.switch;
          credits = self.new.credits;
        } }
        ensures own { (s : Tile) (t : ℕ) → Shows self.old plan.now d s → Stands self.old.wheel plan.now self.old.tile t
            → Shows self.new plan.now d
            (switched plan.now d self.old.tile (pos t) s (outside (told_at self.old.told d))) }
        ensures sent { (s : Tile) (t o : ℕ) → Shows self.old plan.now d s
            → Stands self.old.wheel plan.now self.old.tile t → o < ports plan.now → laid_at links.new o
            ≡ laid (sent plan.now d self.old.tile (pos t) s (outside (told_at self.old.told d)) o)
            (laid_at links.old o) }
        ensures others { (e : ℕ) (s : Tile) → e ≢ d → Shows self.old plan.now e s → Shows self.new plan.now e s }
        ensures made { IsMade self.new plan.now }
        ensures quiet { (o : ℕ) → best_at self.new.allocator o ≡ None }
        ensures pulses { ArePulses plan.now self.old.pulses → ArePulses plan.now self.new.pulses }
        ensures links { length links.new ≡ length links.old }
    {
        self.clear(plan, d);
        let waits = self.ask_all(plan, d);
        self.place_heads(plan, d, waits);
        self.send_all(plan, d, links);
    }

    /// Whether the input of domain `d` at place `i` is busy: it has a flit, or its packet hasn't gone yet. An input that
    /// isn't busy, and to which nothing comes, stays as it is.
    pub fn busy(&self, d: u32, i: u32) -> bool
        requires domain { d < length self.now.buffers }
        requires place { i < length (lists_at self.now.buffers d).lists }
        requires stages { d < length self.now.stages }
        requires stage { i < length (lane self.now.stages d) }
        ensures value { result ≡ is_busy (flits_at self.now.buffers d i) (stage_at self.now.stages d i) }
        ensures shows { (p : PlanValue) (s : Tile) → Shows self.now p d s → i < input_count p d
            → result ≡ is_busy (s.queue (input_port p d i) (input_channel p d i))
            (s.stage (input_port p d i) (input_channel p d i)) }
    {
        is_busy(self.buffers.len(d, i), *self.stages.at(d, i))
    }

    /// Whether none of the inputs of domain `d` is busy.
    fn is_empty(&self, plan: &Plan, d: u32) -> bool
        requires made { IsMade self.now plan.now }
        requires domain { d < length plan.now.domains }
        ensures { IsTrue result ↔ ((k : ℕ) → k < input_count plan.now d
            → is_busy (flits_at self.now.buffers d k) (stage_at self.now.stages d k) ≡ false) }
    {
        for k in 0..plan.ports() * plan.link_channels(d) {
            if self.busy(d, k) {
                return false;
            }
        }
        true
    }

    /// Whether no flit of domain `d` left an input in the last cycle.
    fn is_silent(&self, plan: &Plan, d: u32) -> bool
        requires made { IsMade self.now plan.now }
        requires domain { d < length plan.now.domains }
        ensures { IsTrue result ↔ ((port : ℕ) → port < ports plan.now → pulse_at self.now.pulses d port ≡ None) }
    {
        for port in 0..plan.ports() {
            if self.pulse(d, port).is_some() {
                return false;
            }
        }
        true
    }

    /// Whether domain `d` has nothing to do: a cycle in which nothing comes changes nothing of it.
    fn is_idle_for(&self, plan: &Plan, d: u32) -> bool
        requires made { IsMade self.now plan.now }
        requires domain { d < length plan.now.domains }
        ensures { IsTrue result ↔ IsIdleFor plan.now self.now d }
    {
        let attachment = self.attachments[d as usize];
        self.is_empty(plan, d)
            && self.is_silent(plan, d)
            && attachment.ejected.is_none()
            && !attachment.dropped
    }

    /// Whether no domain has anything to do.
    pub fn is_idle(&self, plan: &Plan) -> bool
        requires { IsMade self.now plan.now }
        ensures { IsTrue result ↔ IsIdle plan.now self.now }
    {
        for d in 0..plan.domains() {
            if !self.is_idle_for(plan, d) {
                return false;
            }
        }
        true
    }

    /// The channel that a flit of domain `d` left in the last cycle, by an input port: a credit goes back for it.
    pub fn pulse(&self, d: u32, port: u32) -> Option<u32>
        requires domain { d < length self.now.pulses }
        requires port { port < length (lane self.now.pulses d) }
        ensures { result ≡ pulse_at self.now.pulses d port }
    {
        *self.pulses.at(d, port)
    }

    /// The channels that flits left in the last cycle, by domain and input port.
    pub fn pulses(&self) -> &Lanes<Option<u32>>
        ensures { result.now ≡ self.now.pulses }
    {
        &self.pulses
    }

    /// The domain of a flit that arrives now by a port, which has a link.
    pub fn arriving(&self, port: u32) -> u32
        requires { port < wheel_ports self.now.wheel }
        ensures value { (p : PlanValue) (n t m : ℕ) → Stands self.now.wheel p n t → neighbour p n port ≡ Some m
            → result ≡ owner p m (opposite port) (pos t -ℤ pos p.stages) }
        ensures domain { (p : PlanValue) (n t : ℕ) → Stands self.now.wheel p n t → result < length p.domains }
    {
        self.wheel.arriving(port)
    }

    /// Goes one cycle on: the owners of the links are those of the next cycle.
    pub fn tick(&mut self)
        ensures rest { self.new ≡ record self.old { wheel = self.new.wheel } }
        ensures stands { (p : PlanValue) (n t : ℕ) → Stands self.old.wheel p n t
            → Stands self.new.wheel p n (t + 1) }
        ensures shows { (p : PlanValue) (d : ℕ) (s : Tile) → Shows self.old p d s → Shows self.new p d s }
        ensures made { (p : PlanValue) (n t : ℕ) → Stands self.old.wheel p n t → IsMade self.old p
            → IsMade self.new p }
    {
        self.wheel.tick();
    }

    /// One cycle of all domains, in which nothing arrives and no credit comes back: what arrives and comes back is added
    /// afterwards, by `arrive` and `restore`. Then `out` has for each port with a link what the domain that owns the
    /// link in this cycle sends.
    pub fn advance(&mut self, plan: &Plan, out: &mut RouterOut)
        requires made { IsMade self.old plan.now }
        requires ready { (d : ℕ) → d < length plan.now.domains → IsReady plan.now d self.old }
        requires quiet { (o : ℕ) → best_at self.old.allocator o ≡ None }
        requires links { length out.old.links.items ≡ ports plan.now }
        ensures steps { (d : ℕ) (s : Tile) (t : ℕ) → d < length plan.now.domains → Shows self.old plan.now d s
            → Stands self.old.wheel plan.now self.old.tile t → Shows self.new plan.now d
            (tile_step plan.now d self.old.tile (pos t) s (outside (told_at self.old.told d))) }
        ensures sent { (d o : ℕ) (s : Tile) (t : ℕ) → d < length plan.now.domains → o ≢ 0 → o < ports plan.now
            → owner plan.now self.old.tile o (pos t) ≡ d → Shows self.old plan.now d s
            → Stands self.old.wheel plan.now self.old.tile t → laid_at out.new.links.items o
            ≡ sent plan.now d self.old.tile (pos t) s (outside (told_at self.old.told d)) o }
        ensures rest { self.new ≡ cycled self.old self.new }
        ensures made { IsMade self.new plan.now }
        ensures quiet { (o : ℕ) → best_at self.new.allocator o ≡ None }
        ensures pulses { ArePulses plan.now self.old.pulses → ArePulses plan.now self.new.pulses }
        ensures links { length out.new.links.items ≡ ports plan.now }
    {
        self.advance_links(plan, &mut out.links);
    }

    /// One cycle of all domains, after which `links` has for each port with a link what goes out there.
    fn advance_links(&mut self, plan: &Plan, links: &mut [Option<LinkFlit>])
        requires made { IsMade self.old plan.now }
        requires ready { (d : ℕ) → d < length plan.now.domains → IsReady plan.now d self.old }
        requires quiet { (o : ℕ) → best_at self.old.allocator o ≡ None }
        requires links { length links.old ≡ ports plan.now }
        ensures steps { (d : ℕ) (s : Tile) (t : ℕ) → d < length plan.now.domains → Shows self.old plan.now d s
            → Stands self.old.wheel plan.now self.old.tile t → Shows self.new plan.now d
            (tile_step plan.now d self.old.tile (pos t) s (outside (told_at self.old.told d))) }
        ensures sent { (d o : ℕ) (s : Tile) (t : ℕ) → d < length plan.now.domains → o ≢ 0 → o < ports plan.now
            → owner plan.now self.old.tile o (pos t) ≡ d → Shows self.old plan.now d s
            → Stands self.old.wheel plan.now self.old.tile t → laid_at links.new o
            ≡ sent plan.now d self.old.tile (pos t) s (outside (told_at self.old.told d)) o }
        ensures rest { self.new ≡ cycled self.old self.new }
        ensures made { IsMade self.new plan.now }
        ensures quiet { (o : ℕ) → best_at self.new.allocator o ≡ None }
        ensures pulses { ArePulses plan.now self.old.pulses → ArePulses plan.now self.new.pulses }
        ensures links { length links.new ≡ length links.old }
    {
        empty_links(links);
        for d in 0..plan.domains() {
            self.advance_or_rest(plan, d, links);
        }
    }

    /// One cycle of domain `d`, as in `advance_domain`. It is left out where the domain has nothing to do and is offered
    /// no word: nothing would change.
    fn advance_or_rest(&mut self, plan: &Plan, d: u32, links: &mut [Option<LinkFlit>])
        requires made { IsMade self.old plan.now }
        requires domain { d < length plan.now.domains }
        requires ready { IsReady plan.now d self.old }
        requires quiet { (o : ℕ) → best_at self.old.allocator o ≡ None }
        requires links { length links.old ≡ ports plan.now }
        ensures rest { self.new ≡ record self.old {
          buffers = self.new.buffers;
          stages = self.new.stages;
          pulses = self.new.pulses;
          allocator = self.new.allocator;
          switch = self.new.switch;
          credits = self.new.credits;
          attachments = self.new.attachments;
        } }
        ensures own { (s : Tile) (t : ℕ) → Shows self.old plan.now d s → Stands self.old.wheel plan.now self.old.tile t
            → Shows self.new plan.now d
            (tile_step plan.now d self.old.tile (pos t) s (outside (told_at self.old.told d))) }
        ensures sent { (s : Tile) (t o : ℕ) → Shows self.old plan.now d s
            → Stands self.old.wheel plan.now self.old.tile t → o ≢ 0 → o < ports plan.now → laid_at links.new o
            ≡ laid (sent plan.now d self.old.tile (pos t) s (outside (told_at self.old.told d)) o)
            (laid_at links.old o) }
        ensures others { (e : ℕ) (s : Tile) → e ≢ d → Shows self.old plan.now e s → Shows self.new plan.now e s }
        ensures made { IsMade self.new plan.now }
        ensures quiet { (o : ℕ) → best_at self.new.allocator o ≡ None }
        ensures pulses { ArePulses plan.now self.old.pulses → ArePulses plan.now self.new.pulses }
        ensures links { length links.new ≡ length links.old }
    {
        if self.told[d as usize].offer.is_some() || !self.is_idle_for(plan, d) {
            self.advance_domain(plan, d, links);
        }
    }

    /// One cycle of domain `d`, in which nothing arrives and no credit comes back: a flit that goes out by a link takes the
    /// place of what was in `links`.
    fn advance_domain(&mut self, plan: &Plan, d: u32, links: &mut [Option<LinkFlit>])
        requires made { IsMade self.old plan.now }
        requires domain { d < length plan.now.domains }
        requires ready { IsReady plan.now d self.old }
        requires quiet { (o : ℕ) → best_at self.old.allocator o ≡ None }
        requires links { length links.old ≡ ports plan.now }
        ensures rest { self.new ≡ record self.old {
          buffers = self.new.buffers;
          stages = self.new.stages;
          pulses = self.new.pulses;
          allocator = self.new.allocator;
          switch = self.new.switch;
          credits = self.new.credits;
          attachments = self.new.attachments;
        } }
        ensures own { (s : Tile) (t : ℕ) → Shows self.old plan.now d s → Stands self.old.wheel plan.now self.old.tile t
            → Shows self.new plan.now d
            (tile_step plan.now d self.old.tile (pos t) s (outside (told_at self.old.told d))) }
        ensures sent { (s : Tile) (t o : ℕ) → Shows self.old plan.now d s
            → Stands self.old.wheel plan.now self.old.tile t → o ≢ 0 → o < ports plan.now → laid_at links.new o
            ≡ laid (sent plan.now d self.old.tile (pos t) s (outside (told_at self.old.told d)) o)
            (laid_at links.old o) }
        ensures others { (e : ℕ) (s : Tile) → e ≢ d → Shows self.old plan.now e s → Shows self.new plan.now e s }
        ensures made { IsMade self.new plan.now }
        ensures quiet { (o : ℕ) → best_at self.new.allocator o ≡ None }
        ensures pulses { ArePulses plan.now self.old.pulses → ArePulses plan.now self.new.pulses }
        ensures links { length links.new ≡ length links.old }
    {
        let ready = self.ready(plan, d);
        lift(links);
        self.move_flits(plan, d, links);
        let eject = ejecting(links);
        self.attach(plan, d, ready, eject);
    }

    /// Whether the attachment of domain `d` stays as it is: it takes no word, ejects no flit and gives up none, and has no
    /// drop pulse.
    fn is_at_rest(&self, d: u32, ready: bool, eject: Option<Flit>) -> bool
        requires told { d < length self.now.told }
        requires domain { d < length self.now.attachments }
        ensures { result ≡ true → (p : PlanValue) → self.now
            ≡ attached_parts self.now p d (taken ready (told_at self.now.told d).offer) eject
            (told_at self.now.told d).hears }
    {
        let told = self.told[d as usize];
        let attachment = self.attachments[d as usize];
        stays(attachment, taken(ready, told.offer), eject, told.hears)
    }

    /// The attachment of domain `d` takes the word that is offered, if it was ready for one, and ejects a flit, if there
    /// is one.
    fn attach(&mut self, plan: &Plan, d: u32, ready: bool, eject: Option<Flit>)
        requires made { IsMade self.old plan.now }
        requires domain { d < length plan.now.domains }
        requires room { ready ≡ true → is_ready_packet (attachment_at self.old.attachments d).packet
            (length (flits_at self.old.buffers d (place plan.now d 0 (attachment_at self.old.attachments d).current)))
            plan.now.buffer ≡ true }
        ensures value { self.new ≡ attached_parts self.old plan.now d (taken ready (told_at self.old.told d).offer) eject
            (told_at self.old.told d).hears }
        ensures own { (s : Tile) → Shows self.old plan.now d s → Shows self.new plan.now d
            (attached plan.now d s (taken ready (told_at self.old.told d).offer) eject (told_at self.old.told d).hears) }
        ensures others { (e : ℕ) (s : Tile) → e ≢ d → Shows self.old plan.now e s → Shows self.new plan.now e s }
        ensures made { IsMade self.new plan.now }
    {
        if !self.is_at_rest(d, ready, eject) {
            self.attach_some(plan, d, ready, eject);
        }
    }

    /// The attachment of domain `d` goes a cycle on, as in `attach`.
    fn attach_some(&mut self, plan: &Plan, d: u32, ready: bool, eject: Option<Flit>)
        requires made { IsMade self.old plan.now }
        requires domain { d < length plan.now.domains }
        requires room { ready ≡ true → is_ready_packet (attachment_at self.old.attachments d).packet
            (length (flits_at self.old.buffers d (place plan.now d 0 (attachment_at self.old.attachments d).current)))
            plan.now.buffer ≡ true }
        ensures value { self.new ≡ attached_parts self.old plan.now d (taken ready (told_at self.old.told d).offer) eject
            (told_at self.old.told d).hears }
        ensures own { (s : Tile) → Shows self.old plan.now d s → Shows self.new plan.now d
            (attached plan.now d s (taken ready (told_at self.old.told d).offer) eject (told_at self.old.told d).hears) }
        ensures others { (e : ℕ) (s : Tile) → e ≢ d → Shows self.old plan.now e s → Shows self.new plan.now e s }
        ensures made { IsMade self.new plan.now }
    {
        let told = self.told[d as usize];
        let attachment = self.attachments[d as usize];
        let word = taken(ready, told.offer);
        let flit = entry(plan, d, attachment.packet, word);
        self.attachments[d as usize] = attachment_after(
            plan, d, attachment, word, eject, told.hears,
        );
        self.enter(plan, d, attachment.current, flit);
    }

    /// This flit of domain `d`, if there is one, enters the buffer of a channel of the local input.
    fn enter(&mut self, plan: &Plan, d: u32, channel: u32, flit: Option<Flit>)
        requires made { HasBuffers plan.now self.old.buffers }
        requires domain { d < length plan.now.domains }
        requires channel { channel < channels plan.now d }
        requires room { IfSome flit
            (λ f. length (flits_at self.old.buffers d (place plan.now d 0 channel)) < plan.now.buffer) }
        ensures { self.new
            ≡ record self.old { buffers = entered self.old.buffers d (place plan.now d 0 channel) flit } }
    {
        if let Some(flit) = flit {
            self.buffers.push(d, place(plan, d, 0, channel), flit);
        }
    }
}
