//! The AIGER form of a sound design: an and-inverter graph whose outputs are the design's, bit by bit, in every cycle of
//! every run from reset and memories of 0 (Biere, "The AIGER And-Inverter Graph format", 2007).
//!
//! A cycle begins with words of variables: [`put_inputs`] gives them to the top's input ports, [`begin_parts`] to registers
//! and memories, in the order of the form's inputs and latches. `aig_cycle` runs the programs of the design's instances on
//! them, and then [`output_literals`] and [`latch_literals`] collect what outputs show and latches take. [`aig_of`] does
//! all of this, and promises that the form is the design's. That the design is sound is asked of the caller; who gets the
//! form is left to the part above.
#![tactic(auto)]

mod form;
pub mod laws;
mod outputs;
mod start;

pub use form::{aig_of, form_of_design};
pub use outputs::{latch_literals, output_literals};
pub use start::{Begun, Variables, begin_parts, empty_words, pass_inputs, put_inputs};

#[cfg(test)]
mod tests;
