//! A sound design, run cycle by cycle.
//!
//! A [`Machine`] has the one valuation of its design in each cycle: [`Machine::new`] stands at reset with memories of
//! 0, [`Machine::put_mem`] puts another word into a memory, [`Machine::edge`] does one clock edge with the numbers of
//! the top's input ports, and [`Machine::outputs`] says what an output port has. The contracts say so in the words of
//! `vl_model`: the state that a machine stands at, and the valuation that is settled from it. Names are resolved once:
//! each leaf's expressions become a list of steps over places, so a cycle looks up no name and takes no memory. The
//! programs are public, so that a part above can run them on other things than numbers. Whether a design is sound is
//! judged by the part below, and what ports mean is left to the parts above.
#![tactic(auto)]

mod cells;
mod emit;
mod machine;
mod packed;
mod parts;
mod program;
mod put;
mod shown;
mod state;
mod step;

pub use cells::Cells;
pub use machine::{Instances, Machine, begin};
pub use parts::Part;
pub use program::{Link, Memory, Program, Register, Store};
pub use state::State;
pub use step::{Action, Step};

#[cfg(test)]
mod tests;
