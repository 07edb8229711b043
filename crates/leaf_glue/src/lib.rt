//! The small groups that stand between the larger ones in a router's leaf, the switch of a domain with one channel at each
//! port, and the buffers.
//!
//! Which places have a flit, may send, and become routed; whose slot a link has in cycle 0; the flits that leave, and
//! what goes by links and to the ejection place; what fills and empties buffers. Each function writes exactly the items
//! of a group of `leaf_tie` behind those that the leaf has. Their order in a leaf is left to the part above.
#![tactic(auto)]

mod buffers;
mod lone;
mod marks;
mod ready;
mod sent;
mod slots;

pub use buffers::{arrival, link_buffer, local_buffer};
pub use lone::switch_part;
pub use marks::{Mark, filled, has_link, has_port, led, tails};
pub use ready::{readies, unready};
pub use sent::{eject, ends, flit, freed, on_channel, pulse, word};
pub use slots::{arriving_slot, leaving_slot};
