//! Forms of AIGER, as values and as text.
//!
//! An [`Aig`] is an and-inverter graph with latches (Biere, "The AIGER And-Inverter Graph format", 2007). [`write_aig`]
//! promises that a form's text is appended to the sink, or a prefix of it and that the sink's count of faults rose;
//! [`put_aig`] gathers the same bytes in a `Block`. What a form means, and which design's it is, stands in `aig_model`;
//! making one is left to the parts above.
#![tactic(auto)]

mod form;
pub mod laws;
mod run;
mod text;

pub use form::{Aig, Gates, Literals};
pub use run::AigRun;
pub use text::{put_aig, write_aig};

#[cfg(test)]
mod tests;
