//! The design of a plan, and that it is right.
//!
//! Here stand the definition and laws alone (`specs`): a leaf for each tile under its names, joined as the shape of the
//! plan says, is the plan's network. Code that writes this design is left to the crates above.
#![tactic(auto)]

pub mod laws;
