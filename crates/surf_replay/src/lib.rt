//! A text of a plan, driven like a network.
//!
//! [`ports_fit`] says whether a sound design has the port list of a plan's text. [`replay`] runs such a design: in each
//! cycle it puts what a driver offers and hears on the input ports, reads what the output ports show, notes the events,
//! and notifies the driver of what was taken and got. Its contract is the meaning of the text alone: the events of each
//! domain are those of the driven run of `gen_kit`, over any driver. That they are a network's too is a matter of the
//! text, and left to the parts above.
#![tactic(auto)]

mod attached;
mod cycle;
mod feed;
mod ports;
mod run;

pub use ports::ports_fit;
pub use run::replay;

#[cfg(test)]
mod tests;
