//! A stress run: the plan and the trace of a large run, and the line of a domain in its summary.
//!
//! [`shared_corners`] promises the plan, sixteen tiles whose corners are shared by four domains; [`stress_trace`] the
//! trace that is drawn from a number, one packet of each attachment every 16 cycles; [`put_summary`] the counts of a
//! domain's events and how many words are held. [`laws::held_words`] says what is held: the flits in the network and
//! the words whose drop pulse is still to be counted. Running the network is left to the part above.
#![tactic(auto)]

mod corners;
mod draws;
pub mod laws;
mod sends;
mod summary;
#[cfg(test)]
mod tests;

pub use corners::shared_corners;
pub use sends::stress_trace;
pub use summary::put_summary;
