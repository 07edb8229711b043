//! Reading a text of the small Verilog.
//!
//! `read_design` answers with a design exactly where the bytes spell it, and else with the first fault and
//! its place: a byte that no text has, a place at which no token begins, or the first token with which no
//! text of the grammar goes on. No list of tokens is kept and no line is copied. The rules on names and
//! widths are left to the part above.
#![tactic(auto)]

mod ahead;
mod clean;
mod design;
mod error;
mod expr;
mod items;
mod modules;
mod number;
mod piece;
mod scan;

pub use design::read_design;

#[cfg(test)]
mod tests;
