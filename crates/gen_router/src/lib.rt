//! The leaf of a router: one tile of a plan as a module of the text.
//!
//! `leaf_of` writes the leaf of any tile of any plan. The contract promises that it is the leaf that `leaf_tie` ties to
//! the tile: its registers and memories hold, in every cycle and for every first content of its memories, the tile
//! parts of all domains (Dally and Towles, chapter 16, describe such a router). The joining of leaves is left to the
//! part above.
#![tactic(auto)]

ghost use Rattle.std.specs.Prelude.{◌≡◌, ◌<◌, IfOk};
ghost use Rattle.vl_tree.specs.Read.{read_leaf};
ghost use Rattle.noc_model.specs.Plan.{tiles};
ghost use Rattle.leaf_tie.specs.Names.{leaf_module};

mod order;
mod outs;
mod ports;
#[cfg(test)]
mod tests;

use gen_kit::LeafWork;
use leaf_parts::Phase;
use noc_model::Plan;
use std::alloc::{AllocError, Global};
use vl_tree::Leaf;

/// The leaf of a tile.
///
/// # Errors
///
/// Memory ran out.
pub fn leaf_of(alloc: Global, plan: &Plan, tile: u32) -> Result<Leaf, AllocError>
    requires { tile < tiles plan.now }
    ensures { IfOk result (λ leaf. read_leaf leaf ≡ leaf_module plan.now tile) }
{
    let mut work = LeafWork::new(alloc, tile)?;
    ports::tile_ports(alloc, plan, tile, &mut work)?;
    order::inner(alloc, Phase::Heads, plan, tile, &mut work)?;
    order::inner(alloc, Phase::Nets, plan, tile, &mut work)?;
    outs::outer(alloc, plan, tile, &mut work)?;
    order::inner(alloc, Phase::Moves, plan, tile, &mut work)?;
    Ok(work.finish())
}
