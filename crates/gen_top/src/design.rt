//! The design of a plan, and its text.

ghost use Rattle.std.specs.Prelude.{◌≡◌, map, IfOk};
ghost use Rattle.vl_tree.specs.Read.{read_leaves, read_design};
ghost use Rattle.gen_kit.specs.Right.{IsRightDesign, IsRightText};
ghost use Rattle.gen_kit.specs.Shape.{all_tiles};
ghost use Rattle.leaf_tie.specs.Names.{leaf_module};
ghost use Rattle.plan_design.specs.Design.{design_module};

use crate::top::top_of;
use gen_router::leaf_of;
use noc_model::Plan;
use std::alloc::{AllocError, Global};
use surf_base::Seq;
use vl_text::write_design;
use vl_tree::{Design, Leaves};

/// The leaf of each tile, in order.
fn all_leaves(alloc: Global, plan: &Plan) -> Result<Leaves, AllocError>
    ensures { IfOk result (λ leaves. read_leaves leaves ≡ map (leaf_module plan.now) (all_tiles plan.now)) }
{
    let mut leaves = Seq::new(alloc);
    for tile in 0..plan.tiles() {
        leaves.push(leaf_of(alloc, plan, tile)?)?;
    }
    Ok(leaves)
}

/// The design of the plan: a leaf for each tile, and the top that joins them. In every run, for every first content of
/// its memories and all inputs, each domain's outputs are those of a network of this domain alone.
///
/// # Errors
///
/// Memory ran out.
pub fn design_of(alloc: Global, plan: &Plan) -> Result<Design, AllocError>
    ensures value { IfOk result (λ design. read_design design ≡ design_module plan.now) }
    ensures right { IfOk result (λ design. IsRightDesign plan.now (read_design design)) }
{
    plan.known();
    Ok(Design {
        leaves: all_leaves(alloc, plan)?,
        top: top_of(alloc, plan)?,
    })
}

/// The text of the plan's design, a right text.
///
/// # Errors
///
/// Memory ran out.
pub fn text_of(alloc: Global, plan: &Plan) -> Result<Vec<u8>, AllocError>
    ensures { IfOk result (λ text. IsRightText plan.now text.items) }
{
    let design = design_of(alloc, plan)?;
    write_design(alloc, &design)
}
