//! The lists of a router: its input buffers, and the channels that are busy.
//!
//! A [`Pool`] keeps some lists of flits in one vector of nodes, which are linked by index: a flit never moves, and no
//! call but `new` takes memory. Its contract speaks of the lists alone. Its type keeps that every node is in exactly
//! one chain, of a list or of the vacant nodes. A [`Ring`] is a list of numbers, none of them twice, that any of them
//! can leave at once. Which list a channel has, and which channels are busy, is left to the router.
#![tactic(auto)]

mod pool;
mod ring;
mod steps;
#[cfg(test)]
mod tests;

pub use pool::Pool;
pub use ring::Ring;
