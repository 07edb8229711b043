//! The top of a plan's text: ports, wires and instances, as the shape of the plan has them, keep every rule.
//!
//! Here stands a law alone, over any design of the shape (`specs`). That a leaf is sound is left to the crates of the
//! leaf.
#![tactic(auto)]

pub mod laws;
