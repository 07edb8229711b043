//! The rules of a sound design, judged.
//!
//! `rules` answers Ok exactly for a design that keeps the rules of `vl_model`, and else with the first fault and its
//! line; or memory ran out. A `Sound` keeps in its type that its design is sound, so no later call has to refuse one.
//! Names are looked up in tables, and each rule is one pass over the lines, so the time grows with the text. What a
//! sound design does is left to the parts above.
#![tactic(auto)]

mod check;
mod driven;
mod fits;
mod judge;
mod judging;
mod known;
mod library;
mod lines;
mod names;
mod scope;
mod site;
mod sound;
mod tallies;
mod uses;
mod walks;
mod widths;

pub use judging::rules;
pub use library::{Known, Library, port};
pub use lines::{Line, Module};
pub use names::Names;
pub use scope::{Entry, declarations};
pub use sound::Sound;
pub use uses::bits;

#[cfg(test)]
mod tests;
