//! The attachment of a domain at a tile.

ghost use Rattle.std.specs.Prelude.{◌≡◌, ◌<◌, ◌||◌, true, length, option_map, is_none, IsSome};
ghost use Rattle.noc_model.specs.Plan.{channels};
ghost use Rattle.noc_model.specs.Events.{ejected_of};
ghost use Rattle.tile_iface.specs.Iface.{IsOf, start_attached, is_ready, entering, after_word, after_flit};

use crate::packets::{ejected_of, entry, is_dropped, is_ready_packet, next_current, next_packet};
use flit_word::{Ejected, Flit, Offer};
use noc_model::{Packet, Plan};
use std::marker::Model;

/// What a tile keeps for the attachment of a domain that it hosts: the packet that its words are of, the channel of
/// the local input that the next word goes to, the drop pulse, and the ejection place.
#[derive(Drop)]
pub struct Iface {
    domain: u32,
    channels: u32,
    packet: Packet,
    current: u32,
    dropped: bool,
    ejected: Option<Flit>,
}

impl Model for Iface {
    ghost use Rattle.std.specs.Prelude.{◌<◌};
    ghost use Rattle.tile_iface.specs.Iface.{Attached};

    ghost Value = { Attached };

    ghost view = { λ a. record {
      domain = a.domain;
      channels = a.channels;
      packet = a.packet;
      current = a.current;
      dropped = a.dropped;
      ejected = a.ejected;
    } };

    ghost invariant = { λ a. a.current < a.channels };
}

impl Iface {
    /// The attachment of a domain (below the number of domains) at a tile (below `tiles`), with nothing on its way.
    pub fn new(plan: &Plan, tile: u32, domain: u32) -> Iface
        requires { domain < length plan.now.domains }
        ensures { result ≡ start_attached plan.now domain }
    {
        plan.known();
        Iface {
            domain,
            channels: plan.channels(domain),
            packet: Packet::Between,
            current: 0,
            dropped: false,
            ejected: None,
        }
    }

    /// Whether a word that is offered is taken, where the buffers of the local input have `lengths` flits, by channel.
    pub fn ready(&self, plan: &Plan, lengths: &[u32]) -> bool
        requires all { length lengths.now ≡ self.now.channels }
        ensures { result ≡ is_ready plan.now lengths.now self.now }
    {
        is_ready_packet(
            self.packet,
            lengths[self.current as usize] as usize,
            plan.buffer(),
        )
    }

    /// Takes the word that is offered, if it is ready, and gives the channel of the local input and the flit that
    /// enters there: None exactly where no word was taken, or it was dropped.
    pub fn step(&mut self, plan: &Plan, ready: bool, offer: Option<Offer>) -> Option<(u32, Flit)>
        requires { IsOf plan.now self.old }
        ensures enters { result ≡ option_map (λ flit. (self.old.current, flit))
            (entering plan.now ready offer self.old) }
        ensures after { self.new ≡ after_word plan.now ready offer self.old }
    {
        let word = if ready { offer } else { None };
        let channel = self.current;
        let flit = entry(plan, self.domain, self.packet, word);
        self.dropped = is_dropped(plan, self.domain, self.packet, word);
        self.packet = next_packet(plan, self.domain, self.packet, word);
        self.current = next_current(self.channels, channel, flit);
        let flit = flit?;
        Some((channel, flit))
    }

    /// The drop pulse: whether a word that was taken in the cycle before was dropped.
    pub fn drop_pulse(&self) -> bool
        ensures { result ≡ self.now.dropped }
    {
        self.dropped
    }

    /// The flit in the ejection place, as it is given out.
    pub fn ejected(&self) -> Option<Ejected>
        ensures { result ≡ ejected_of self.now.ejected }
    {
        ejected_of(self.ejected)
    }

    /// One cycle of the ejection place: a flit that is ejected takes it, and one that is heard leaves it. A flit
    /// needs a place that is empty or heard.
    pub fn eject(&mut self, heard: bool, flit: Option<Flit>)
        requires room { IsSome flit → (is_none self.old.ejected || heard) ≡ true }
        ensures { self.new ≡ after_flit heard flit self.old }
    {
        if flit.is_some() {
            self.ejected = flit;
        } else if heard {
            self.ejected = None;
        }
    }
}
