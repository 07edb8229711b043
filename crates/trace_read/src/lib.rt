//! Reads a trace: what is offered to the attachments of a plan, and when they don't hear.
//!
//! A trace is a text of lines. Each line that isn't skipped is a `send`, whose words are offered in order, or a
//! `hold`, for which the attachment is deaf. [`read_trace`] promises exactly the entries of the lines, in order, or
//! the first faulty line with the least fault that holds on it. [`Restrict::of_domain`] keeps the entries of one
//! domain. What drives a network by a trace is left to the part above.
#![tactic(auto)]

mod entries;
mod fault;
mod fault_text;
mod line;
mod reading;
mod restrict;
mod text;

pub use entries::{Entry, Trace, Words};
pub use fault::TraceFault;
pub use fault_text::fault_line;
pub use reading::read_trace;
pub use restrict::Restrict;

#[cfg(test)]
mod tests;
