//! A form without the gates that nothing needs.
//!
//! [`trimmed`] marks the gates that outputs and latches depend on, from the last gate down, and leaves the others out.
//! What is left has new numbers, and outputs and latches have in every valuation the values that they had. Each gate is
//! then read by an output, a latch or a later gate. Which design's the form is, is left to the part above;
//! `proofs/OfDesign` shows that it stays that design's.
#![tactic(auto)]

mod marks;
mod trim;

pub use trim::trimmed;

#[cfg(test)]
mod tests;
