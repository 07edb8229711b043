//! Labels of the bits of a design: what is known of a bit in each phase of the schedule, and the domains whose inputs
//! it may depend on. It is an information-flow analysis by types (Denning and Denning, "Certification of programs for
//! secure information flow", 1977) over bits and phases.
//!
//! Here stand the definitions (`specs`) and laws over them, each of which is the contract of a function of `laws`: a
//! sound design whose output ports have labels of their own domains alone isolates every domain. Computing labels is
//! left to the part above.
#![tactic(auto)]

pub mod laws;
