//! The parts of a form.

/// A gate: 1 where both its literals are. A literal is `2 * v` for variable `v`, and `2 * v + 1` for its complement.
#[derive(Clone, Copy, Debug, PartialEq, Eq, Hash)]
pub struct Gate {
    pub first: u64,
    pub second: u64,
}
