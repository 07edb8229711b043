//! The gates of a form, as they are built.
//!
//! A [`Netlist`] is an and-inverter graph with sharing: a gate that is there already is not made again, and a
//! conjunction with a constant, with itself or with its own complement takes no gate. Its bit functions and those over
//! words of literals (from bit 0 up) say in their contracts what the new literals mean in every valuation of inputs and
//! latches; literals that were there keep their meaning. Which nets a word stands for is left to the parts above.
#![tactic(auto)]

mod gates;
mod memory;
mod words;

pub use gates::{Netlist, Place, Sum, Word, complement};
pub use memory::{Row, literals};
pub use words::{Way, bit, complements, number_word, padded, part, single, width};

#[cfg(test)]
mod tests;
