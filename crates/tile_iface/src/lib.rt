//! The interface of a tile: the attachment of one domain at one tile, between what is outside and the router.
//!
//! It injects words as flits of packets and ejects flits ("network interface" in Dally and Towles, chapter 20). It
//! looks up a packet's address with the first word: a packet whose address leads to no tile that hosts the domain is
//! taken and dropped word by word. [`Iface`] promises the attachment's part of the step of a tile; the functions beside
//! it are the same rules for a caller that keeps an attachment's state itself. Which flit leaves the router, and where
//! a flit that enters is kept, is left to the parts above.
#![tactic(auto)]

mod attachment;
mod packets;

pub use attachment::Iface;
pub use packets::{ejected_of, entry, is_dropped, is_ready_packet, next_current, next_packet};

#[cfg(test)]
mod tests;
