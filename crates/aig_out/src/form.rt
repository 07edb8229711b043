//! Forms.

use aig_model::Gate;
use surf_base::Seq;

/// Literals: `2 * v` for variable `v`, and `2 * v + 1` for its complement; 0 is false and 1 is true.
pub type Literals = Seq<u64>;

/// Gates in order.
pub type Gates = Seq<Gate>;

/// A form. Input `i` is variable `i + 1`; the latches' variables stand behind the inputs', the gates' behind those. All
/// latches begin at 0.
#[derive(Debug, Drop)]
pub struct Aig {
    /// How many inputs there are.
    pub inputs: u64,
    /// The literal that each latch takes at an edge.
    pub latches: Literals,
    pub outputs: Literals,
    pub gates: Gates,
}
