//! The plan of an on-chip network, and the definitions that every other part is proved against.
//!
//! A `Plan` keeps an accepted description: a mesh or torus of tiles, its domains, who hosts whom, the address ranges
//! and the slots of the wave schedule. Contracts see it as the record of these lists, and `Plan::known` gives what
//! holds of every plan. Its accessors answer exactly what the definitions in `specs/` say, and take no memory.
//! `specs/` also has the network itself, one domain alone: what a tile keeps, its step, a run, its events and its
//! report, and `laws` has what holds of every run. Whether a description is accepted, and all that runs or writes a
//! network, stands above.
#![tactic(auto)]

mod copies;
mod domains;
mod drive;
pub mod laws;
pub mod limits;
mod lookups;
mod plan;
mod sides;
#[cfg(test)]
mod tests;
mod ways;

pub use drive::Driving;
pub use plan::{DomainPart, Parts, Plan};
pub use ways::Way;

/// One word of a packet on its way: a flit is the unit of flow control (Dally and Towles, chapter 12).
#[derive(Clone, Copy, Debug, PartialEq, Eq)]
pub struct Flit {
    /// Whether it is the packet's first.
    pub head: bool,
    /// Whether it is the packet's last.
    pub tail: bool,
    /// The tile that the packet goes to.
    pub dest: u32,
    /// The 32 bits that are carried.
    pub payload: u32,
}

/// A flit on a link, with its virtual channel there, below the domain's channels on a link.
#[derive(Clone, Copy, Debug, PartialEq, Eq)]
pub struct LinkFlit {
    pub channel: u32,
    pub flit: Flit,
}

/// A word that is offered to an attachment.
#[derive(Clone, Copy, Debug, PartialEq, Eq)]
pub struct Offer {
    /// Where the packet goes, of which the first word's address decides.
    pub address: u32,
    pub payload: u32,
    /// Whether it is the packet's last word.
    pub last: bool,
}

/// A flit as an attachment gives it out.
#[derive(Clone, Copy, Debug, PartialEq, Eq)]
pub struct Ejected {
    pub head: bool,
    pub tail: bool,
    pub payload: u32,
}

/// Where an input channel's packet stands.
#[derive(Clone, Copy, Debug, PartialEq, Eq)]
pub enum Stage {
    /// No packet, or one whose head has no route yet.
    Idle,
    /// A packet that goes by output port `out`, and has no channel there.
    Routed { out: u32 },
    /// A packet that holds channel `to` of output port `out`.
    Active { out: u32, to: u32 },
}

/// What an input port sends in a cycle: the front flit of its channel, to channel `to` of output port `out`.
#[derive(Clone, Copy, Debug, PartialEq, Eq)]
pub struct Grant {
    pub channel: u32,
    pub out: u32,
    pub to: u32,
}

/// What an attachment does with the packet that it is given.
#[derive(Clone, Copy, Debug, PartialEq, Eq)]
pub enum Packet {
    /// The next word is a packet's first.
    Between,
    /// The packet goes to tile `dest`.
    Passing { dest: u32 },
    /// The packet's address leads nowhere.
    Dropping,
}

/// An attachment: a tile and a domain that it hosts.
#[derive(Clone, Copy, Debug, PartialEq, Eq)]
pub struct Host {
    pub tile: u32,
    pub domain: u32,
}

/// The addresses of a tile, from `first` to `last`.
#[derive(Clone, Copy, Debug, PartialEq, Eq)]
pub struct Range {
    pub tile: u32,
    pub first: u32,
    pub last: u32,
}

/// What happens at an attachment in a cycle.
#[derive(Clone, Copy, Debug, PartialEq, Eq)]
pub enum Kind {
    /// A word that is offered is taken.
    Take { payload: u32 },
    /// A word that is offered is not taken.
    Wait { payload: u32 },
    /// A word that was taken in the cycle before was dropped.
    Drop,
    /// A flit is given out and heard.
    Got { flit: Ejected },
}

/// An event of a domain.
#[derive(Clone, Copy, Debug, PartialEq, Eq)]
pub struct Event {
    pub cycle: u32,
    pub tile: u32,
    pub domain: u32,
    pub kind: Kind,
}
