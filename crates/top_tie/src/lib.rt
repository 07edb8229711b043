//! The whole text: leaves that hold their tiles, joined as the shape of a plan says, are that plan's network.
//!
//! Here stand laws alone, over any design of the shape (`specs`). Which nets of the top the ports of a tile's leaf are;
//! that in every cycle of every run all leaves hold the tile parts of all domains; and so that such a design is right.
//! The leaf itself, and that it is sound, is left to the crates below, and code that writes a whole design to the
//! crates above.
#![tactic(auto)]

pub mod laws;
