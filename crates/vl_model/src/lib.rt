//! What a design of the small Verilog means: the rules that a sound one keeps, the one right valuation of its nets in a
//! cycle, the clock edge, and runs.
//!
//! Here stand the definitions (`specs`) and laws over them, each of which is the contract of a function of `laws`. A
//! sound design has exactly one right valuation for each state and inputs, and exactly one run. Judging a design and
//! running one are left to the parts above.
#![tactic(auto)]

mod kind;
pub mod laws;

pub use kind::Kind;
