//! The leaf of a router: how the registers of a leaf hold the tile parts of all domains.
//!
//! Here stand laws alone, group by group of a leaf's items (`specs`): routing, allocation and switch, slots
//! and links, flits and words, credits and idle places, buffers, the attachment and the ejection place; the whole tie
//! of a leaf to the states of its tile, over one edge and from reset on; and what its output ports show. The list
//! `leaf_groups` of `specs/Whole` has all groups of a leaf. Code that writes these groups is left to the crates above.
#![tactic(auto)]

pub mod laws;
