//! What a right design promises those who drive it.
//!
//! Here stand laws alone, over any right design of a plan (`gen_kit`): its domains don't interfere, and its replay is
//! the simulation. That there is a right design of each plan is left to the crates that write one.
#![tactic(auto)]

pub mod laws;
