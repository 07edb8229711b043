//! An audit of any text: whether it isolates the domains of a plan.
//!
//! [`audit`] labels the bits of a sound design phase by phase, from reset on, until no label rises any more: that is
//! the least lawful labelling of `label_model`. It answers [`Verdict::Clean`] where every output port depends on its own
//! domain's inputs alone, and else the first leak. By the laws of `label_model` a clean design isolates every domain,
//! whoever wrote it; a leak says that a label reaches a port, and not that a run shows it. Labels are kept of registers
//! and memories alone, by phase; those of nets are made anew. Whether a design is sound and has the ports of the plan is
//! judged by the parts below, and the command is left to the part above.
#![tactic(auto)]

mod auditing;
mod bit;
mod expr;
pub mod laws;
mod leaks;
mod operator;
mod part;
mod phase;
mod raising;
mod row;
mod tables;
mod walk;

pub use auditing::audit;
pub use leaks::Verdict;

#[cfg(test)]
mod tests;
