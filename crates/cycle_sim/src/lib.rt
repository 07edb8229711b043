//! The simulated network.
//!
//! [`Net`] has a router for each tile and one row of registers for each link, which all domains share. It promises that
//! each step takes every domain's state to what a network of this domain alone makes of it, whatever drives the
//! attachments, and that the driver is notified of exactly what was taken and got. [`run`] promises the events of many
//! cycles in one list, where those of each domain are the events of a run of this domain alone, and that network and
//! driver stand as after that run. What is made of the events is left to the part above.
#![tactic(auto)]

mod begin;
mod cycles;
mod links;
mod near;
mod net;
mod pulses;
mod seeing;
mod shift;
#[cfg(test)]
mod tests;
mod tiles;
mod wake;

pub use cycles::run;
pub use net::Net;
