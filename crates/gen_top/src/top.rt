//! The top of a plan's text.

ghost use Rattle.std.specs.Prelude.{◌≡◌, ◌++◌, map, flat_map, OnOk, IfOk};
ghost use Rattle.gen_kit.specs.Shape.{all_tiles, tile_instance, tile_wires};
ghost use Rattle.plan_design.specs.Design.{top_module};

use crate::joins::tile_instance;
use crate::ports::top_ports;
use crate::wires::tile_wires;
use noc_model::Plan;
use std::alloc::{AllocError, Global};
use surf_base::Seq;
use vl_tree::{Top, TopItems};

/// Adds the wires for all links.
fn all_wires(alloc: Global, plan: &Plan, items: &mut TopItems) -> Result<(), AllocError>
    ensures { OnOk result (items.new ≡ items.old ++ flat_map (tile_wires plan.now) (all_tiles plan.now)) }
{
    for tile in 0..plan.tiles() {
        tile_wires(alloc, plan, tile, items)?;
    }
    Ok(())
}

/// Adds an instance for each tile.
fn all_instances(alloc: Global, plan: &Plan, items: &mut TopItems) -> Result<(), AllocError>
    ensures { OnOk result (items.new ≡ items.old ++ map (tile_instance plan.now) (all_tiles plan.now)) }
{
    for tile in 0..plan.tiles() {
        items.push(tile_instance(alloc, plan, tile)?)?;
    }
    Ok(())
}

/// The top of the plan's design.
///
/// # Errors
///
/// Memory ran out.
pub fn top_of(alloc: Global, plan: &Plan) -> Result<Top, AllocError>
    ensures { IfOk result (λ top. top ≡ top_module plan.now) }
{
    let mut items = Seq::new(alloc);
    all_wires(alloc, plan, &mut items)?;
    all_instances(alloc, plan, &mut items)?;
    Ok(Top {
        ports: top_ports(alloc, plan)?,
        items,
    })
}
