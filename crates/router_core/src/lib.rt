//! A router: what a tile keeps for all domains, and its part of a cycle.
//!
//! [`Router`] has the buffers of a tile's inputs, the stages of their packets, both allocators, the credits of the
//! outputs and the attachments, for every domain ("input-queued virtual-channel router": Dally and Towles, chapter 16).
//! Its contract says which tile of a domain alone it shows: each call changes that tile as the definition of the network
//! does, and leaves those of all other domains. `advance` is a cycle in which nothing arrives and no credit comes back;
//! `arrive` and `restore` add what does, in any order, and `tick` goes on to the next cycle. What goes over a link, and
//! when, is left to the network.
#![tactic(auto)]

mod asks;
mod attachments;
mod buffers;
mod heads;
mod router;
mod sends;

pub use attachments::Told;
pub use router::{Router, RouterOut};
