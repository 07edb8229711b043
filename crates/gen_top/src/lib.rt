//! The design of a plan: a leaf for each tile, the top `noc` that joins them, and its text.
//!
//! `design_of` writes the leaves and the top. The top's ports are those of all attachments; between neighbours it has one
//! bundle of wires for the flits of all domains and one or two for their credits; and it has an instance of each tile's
//! leaf, joined to its neighbours (Dally and Towles, chapters 3 and 5, have the torus and the mesh). The contract
//! promises a right design: in every run each domain's outputs are those of a network that it has for itself. `text_of`
//! gives bytes that spell it.
#![tactic(auto)]

mod design;
mod joins;
mod ports;
#[cfg(test)]
mod tests;
mod top;
mod wires;

pub use design::{design_of, text_of};
pub use top::top_of;
