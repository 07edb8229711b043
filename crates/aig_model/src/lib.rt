//! Forms of AIGER, the and-inverter graphs that model checkers and equivalence checkers take (Biere, "The AIGER
//! And-Inverter Graph format", 2007): what a form means, its text in ASCII, and when it is a design's.
//!
//! Here stand definitions (`specs`) and laws over them, and no code that runs but the type of a gate. The contract of
//! each function of `laws` is a law. Making a design's form, running one and writing it are left to the parts above.
#![tactic(auto)]

mod form;
pub mod laws;

pub use form::Gate;
