//! The generated leaf of a tile: it is sound, and it runs as the tile.
//!
//! Laws over `leaf_module` of `leaf_tie` (`specs/Names`), for every sound plan and each of its tiles: the leaf breaks no
//! rule of the small Verilog, its names and sizes meet what the laws of `leaf_tie` ask for, and in each run of a sound
//! design it holds the tile parts of all domains and shows what they give out. Code that writes the leaf, and the top
//! that joins leaves, are left to the crates above.
//!
//! `proofs/Keyed` reads a name's tag and number back from its bytes, and gives the name a rank, by which the text drives
//! names in rising order. `Typed`, `Walk` and `Items` say when an item is right among the lines of a leaf; the files
//! whose names end in `Items` show it group by group; `Readied` shows that what an item uses stands before it.
#![tactic(auto)]

pub mod laws;
