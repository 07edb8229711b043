//! The parts of a router's leaf as text, group by group: the code that writes what `leaf_tie` ties to a tile.
//!
//! A group declares registers (its heads), assigns nets and moves registers at an edge; a [`Phase`] says which of the
//! three is written. Each function writes exactly the items of a group behind those that the leaf has, under the names
//! that `leaf_tie` chooses. What the groups mean is `leaf_tie`'s; their order in a leaf is left to the crate above.
#![tactic(auto)]

mod alloc;
mod attach;
mod build;
mod counts;
mod link;
mod names;
mod phase;
mod sizes;
mod slot;
mod switch;
mod table;

pub use alloc::allocation;
pub use attach::{attachment, room};
pub use build::{both, clock, clock_zero, empty, equals, gated, least, plus_one, register};
pub use counts::{credits, idle_places};
pub use link::leaving_link;
pub use names::{
    arrival_name, net_name, on_name, owns_name, port_name, register_name, row_name, slot_name,
};
pub use phase::Phase;
pub use sizes::{
    buffer_tag, count_high, current_high, dest_high, high, last_class, last_of_class, out_count,
};
pub use slot::slot_counter;
pub use switch::domain_switch;
pub use table::route_bits;
