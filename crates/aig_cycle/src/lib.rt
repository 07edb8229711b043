//! A cycle of a design on words of literals.
//!
//! The programs that `vl_run` makes of a design's instances compute numbers at places. Here they run on words of
//! literals instead, and what they compute becomes gates. The contracts promise that in every valuation of inputs and
//! latches the words have the numbers that the programs compute from the numbers of the words before. Which literals
//! inputs, registers and memories begin with, and what becomes of the words at the end, is left to the part above.
#![tactic(auto)]

mod action;
mod latches;
mod steps;
mod taken;
mod wires;

pub use latches::{latch_literals, latch_word, port_literals};
pub use steps::{put, put_row};
pub use taken::next_literals;
pub use wires::{Wired, edge_all, settle_all, show_all};
