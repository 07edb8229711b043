//! The switch allocator of a router: which flits go through the switch in a cycle.
//!
//! [`SlotSwitch`] is a separable, input-first allocator (Dally and Towles, section 19.3) for each domain. A channel
//! that may send is made known by `ask`; each input port keeps the best of its channels, from its pointer on, in
//! whatever order they come. Then each output picks one of the ports that ask for it, by `commit`, and only for a grant
//! the two pointers move. `step` does both for all channels of a tile: a link takes flits of the domain alone that owns
//! its slot, and only with a credit, and each domain's grants are those of the definition. Moving the flits is left to
//! the router.
#![tactic(auto)]

ghost use Rattle.std.specs.Prelude.{◌≡◌, ◌<◌, ◌≤◌, ◌+◌, ℕ, true, length, map, replicate, Some, None, IfSome, IfOk};
ghost use Rattle.noc_model.specs.Plan.{tiles};
ghost use Rattle.noc_model.specs.Pick.{least};
ghost use Rattle.noc_model.specs.Step.{asks_for};
ghost use Rattle.noc_model.specs.Tile.{start_tile};
ghost use Rattle.vc_partition.specs.Picks.{from_on};
ghost use Rattle.slot_switch.specs.Switch.{ask_at, turn_at, switch_at, better_ask, with_ask, without_asks, chosen_in, granted_to, granted_in, moved, start_of, IsSwitch};
ghost use Rattle.slot_switch.specs.Shown.{IsFor, Keeps};

pub mod laws;
mod step;
#[cfg(test)]
mod tests;

use noc_model::Plan;
use std::alloc::{AllocError, Global};
use std::marker::Model;
use vc_partition::{Grant, Lanes, comes_first, port_counts};

/// A grant, and the input port that has it.
#[derive(Clone, Copy, Debug, PartialEq, Eq)]
pub struct Granted {
    /// The input port.
    pub port: u32,
    /// The channel that sends, and where it sends to.
    pub grant: Grant,
}

/// What the input ports of a tile ask for, and who is next.
#[derive(Drop)]
pub struct SlotSwitch {
    ports: u32,
    asks: Lanes<Option<Grant>>,
    turns: Lanes<u32>,
    switches: Lanes<u32>,
}

impl Model for SlotSwitch {
    ghost use Rattle.slot_switch.specs.Switch.{Switch, IsSwitch};

    ghost Value = { Switch };

    ghost view = { λ a. record { ports = a.ports; asks = a.asks; turns = a.turns; switches = a.switches } };

    ghost invariant = { λ a. IsSwitch (record {
      ports = a.ports;
      asks = a.asks;
      turns = a.turns;
      switches = a.switches;
    }) };
}

/// The better of what is asked for so far and another, from the pointer on.
fn better_ask(pointer: u32, best: Option<Grant>, other: Grant) -> Grant
    ensures value { result ≡ better_ask pointer best other }
    ensures channel { IfSome best (λ g. g.channel < 8) → other.channel < 8 → result.channel < 8 }
{
    match best {
        Some(best) if !comes_first(pointer, other.channel, best.channel) => best,
        _ => other,
    }
}

/// Whether an output is asked for.
fn asks_for(asked: Option<Grant>, out: u32) -> bool
    ensures { result ≡ asks_for asked out }
{
    match asked {
        Some(grant) => grant.out == out,
        None => false,
    }
}

impl SlotSwitch {
    /// The switch of a tile, where nothing is asked for. It is the same for all tiles. All memory is taken here.
    ///
    /// # Errors
    ///
    /// When memory runs out.
    pub fn new(alloc: Global, plan: &Plan, tile: u32) -> Result<SlotSwitch, AllocError>
        requires { tile < tiles plan.now }
        ensures start { IfOk result (λ switch. switch ≡ start_of plan.now) }
        ensures made { IfOk result (λ switch. IsFor switch plan.now) }
        ensures pointers { IfOk result (λ switch. (d : ℕ) → Keeps switch plan.now d (start_tile plan.now)) }
    {
        plan.known();
        let counts = port_counts(alloc, plan)?;
        let asks = Lanes::new(alloc, &counts, None)?;
        let turns = Lanes::new(alloc, &counts, 0)?;
        let switches = Lanes::new(alloc, &counts, 0)?;
        Ok(SlotSwitch {
            ports: plan.ports(),
            asks,
            turns,
            switches,
        })
    }

    /// What an input port of domain `d` asks for so far.
    pub fn asked(&self, d: u32, port: u32) -> Option<Grant>
        requires domain { d < length self.now.asks }
        requires port { port < self.now.ports }
        ensures value { result ≡ ask_at self.now d port }
        ensures channel { IfSome result (λ grant. grant.channel < 8) }
    {
        *self.asks.at(d, port)
    }

    /// A channel of an input port of domain `d` may send to channel `to` of output `out`: the port asks for the best of
    /// its channels.
    pub fn ask(&mut self, d: u32, port: u32, grant: Grant)
        requires domain { d < length self.old.asks }
        requires port { port < self.old.ports }
        requires channel { grant.channel < 8 }
        ensures { self.new ≡ with_ask self.old d port
            (Some (better_ask (turn_at self.old d port) (ask_at self.old d port) grant)) }
    {
        let better = better_ask(self.turn_of(d, port), self.asked(d, port), grant);
        self.put(d, port, Some(better));
    }

    /// An input port of domain `d` asks for nothing any more.
    pub fn clear(&mut self, d: u32, port: u32)
        requires domain { d < length self.old.asks }
        requires port { port < self.old.ports }
        ensures { self.new ≡ with_ask self.old d port None }
    {
        self.put(d, port, None);
    }

    /// No input port of domain `d` asks for anything any more.
    pub fn clear_all(&mut self, d: u32)
        requires { d < length self.old.asks }
        ensures { self.new ≡ without_asks self.old d }
    {
        self.asks.fill(d, None);
    }

    /// Puts what an input port asks for.
    fn put(&mut self, d: u32, port: u32, grant: Option<Grant>)
        requires domain { d < length self.old.asks }
        requires port { port < self.old.ports }
        requires channel { IfSome grant (λ g. g.channel < 8) }
        ensures { self.new ≡ with_ask self.old d port grant }
    {
        self.asks.set(d, port, grant);
    }

    /// The pointer of an input port.
    fn turn_of(&self, d: u32, port: u32) -> u32
        requires domain { d < length self.now.asks }
        requires port { port < self.now.ports }
        ensures { result ≡ turn_at self.now d port }
    {
        *self.turns.at(d, port)
    }

    /// The least input port from `from` on that asks for an output.
    fn first_asking(&self, d: u32, out: u32, from: u32) -> Option<u32>
        requires domain { d < length self.now.asks }
        ensures value { result
            ≡ least self.now.ports (from_on from (λ port. asks_for (ask_at self.now d port) out)) }
        ensures below { IfSome result (λ port. port < self.now.ports) }
    {
        for port in from..self.ports() {
            if asks_for(self.asked(d, port), out) {
                return Some(port);
            }
        }
        None
    }

    /// Lets callers' proofs use the invariant. It does nothing.
    fn known(&self)
        ensures { IsSwitch self.now }
    {
        let _ = &self.ports;
    }

    /// The ports of the tile.
    fn ports(&self) -> u32
        ensures value { result ≡ self.now.ports }
        ensures few { result ≤ 7 }
    {
        self.ports
    }

    /// The pointer of an output.
    fn switch(&self, d: u32, out: u32) -> u32
        requires domain { d < length self.now.asks }
        requires output { out < self.now.ports }
        ensures { result ≡ switch_at self.now d out }
    {
        *self.switches.at(d, out)
    }

    /// The input port that an output picks among those that ask for it.
    fn chosen(&self, d: u32, out: u32) -> Option<u32>
        requires domain { d < length self.now.asks }
        requires output { out < self.now.ports }
        ensures value { result ≡ chosen_in self.now d out }
        ensures below { IfSome result (λ port. port < self.now.ports) }
    {
        match self.first_asking(d, out, self.switch(d, out)) {
            Some(port) => Some(port),
            None => self.first_asking(d, out, 0),
        }
    }

    /// The grant of an input port.
    fn granted_to(&self, d: u32, port: u32) -> Option<Granted>
        requires domain { d < length self.now.asks }
        requires port { port < self.now.ports }
        ensures value { result ≡ granted_to self.now d port }
        ensures port { IfSome result (λ granted. granted.port ≡ port) }
        ensures channel { IfSome result (λ granted. granted.grant.channel < 8) }
    {
        match self.asked(d, port) {
            Some(grant) => Some(Granted { port, grant }),
            None => None,
        }
    }

    /// What an output grants.
    pub fn granted(&self, d: u32, out: u32) -> Option<Granted>
        requires domain { d < length self.now.asks }
        requires output { out < self.now.ports }
        ensures value { result ≡ granted_in self.now d out }
        ensures below { IfSome result (λ granted. granted.port < self.now.ports) }
        ensures channel { IfSome result (λ granted. granted.grant.channel < 8) }
    {
        match self.chosen(d, out) {
            Some(port) => self.granted_to(d, port),
            None => None,
        }
    }

    /// Grants an output to the input port that it picks among those that ask for it, and moves the pointers behind what
    /// was granted. What the ports ask for stays.
    pub fn commit(&mut self, d: u32, out: u32) -> Option<Granted>
        requires domain { d < length self.old.asks }
        requires output { out < self.old.ports }
        ensures value { result ≡ granted_in self.old d out }
        ensures below { IfSome result (λ granted. granted.port < self.old.ports) }
        ensures moved { self.new ≡ moved self.old d out (granted_in self.old d out) }
    {
        let granted = self.granted(d, out);
        if let Some(granted) = granted {
            self.turn(d, out, granted);
        }
        granted
    }

    /// Moves the pointers behind what was granted.
    fn turn(&mut self, d: u32, out: u32, granted: Granted)
        requires domain { d < length self.old.asks }
        requires output { out < self.old.ports }
        requires port { granted.port < self.old.ports }
        requires channel { granted.grant.channel < 8 }
        ensures { self.new ≡ moved self.old d out (Some granted) }
    {
        self.turns.set(d, granted.port, granted.grant.channel + 1);
        self.switches.set(d, out, granted.port + 1);
    }
}
