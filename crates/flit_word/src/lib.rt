//! The words of the network: what is offered to an attachment, what travels on a link, and what is given out.
//!
//! A flit is the unit of flow control (Dally and Towles, chapter 12). A packet is one flit or more, the first of them
//! its head and the last its tail. The definitions of the network speak of these four types, so `noc_model` declares
//! them, and this part hands them on under the names that everything above uses. [`to_word`] and [`to_link`] write a
//! flit and a link register as the bits that hardware has; no two flits have one word.
#![tactic(auto)]

#[cfg(test)]
mod tests;
mod widths;
mod words;

pub use noc_model::{Ejected, Flit, LinkFlit, Offer};
pub use widths::{channel_bits, dest_bits, flit_bits, link_bits};
pub use words::{of_word, to_link, to_word};
