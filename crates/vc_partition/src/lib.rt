//! Per-domain storage, the round-robin choice, and the numbers of inputs and channels.
//!
//! [`Lanes`] is one vector in which each domain has its own places: a write to one place leaves all others as they are,
//! those of the other domains too. [`pick`] is the round-robin arbiter's choice (Dally and Towles, section 18.4.2), and
//! [`comes_first`] makes the same choice from one requester after the other, in any order. [`place`] numbers the inputs
//! of a domain at a tile, and [`pack`] the channels of a class. Who requests what is left to the parts above.
#![tactic(auto)]

mod choice;
mod lanes;
mod numbers;
#[cfg(test)]
mod tests;

pub use choice::{comes_first, pick};
pub use lanes::Lanes;
pub use noc_model::{Grant, Stage};
pub use numbers::{channel_count, input_counts, pack, place, port_counts, unpack};
