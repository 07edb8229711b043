//! The three parts of a group.

/// A part of each group: what it declares, its nets, or what moves at an edge.
#[derive(Clone, Copy)]
pub enum Phase {
    Heads,
    Nets,
    Moves,
}
