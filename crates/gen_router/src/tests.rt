//! Leaves of worked plans: their ports, and that each net, register and memory is driven.

use crate::leaf_of;
use noc_model::Plan;
use std::alloc::{AllocError, Global};
use std::test::Fail;
use vl_tree::{Leaf, LeafItem};
use worked_plans::{cube, one_tile, split_domains, weighted_slots};

// How much a leaf declares and drives.
#[derive(Clone, Copy, Default)]
struct Tally {
    wires: u32,
    assigns: u32,
    registers: u32,
    moves: u32,
    memories: u32,
    stores: u32,
}

fn counted(leaf: &Leaf) -> Tally {
    let mut all = Tally::default();
    for item in leaf.items.as_slice() {
        match item {
            LeafItem::Wire { .. } => all.wires = all.wires.wrapping_add(1),
            LeafItem::Assign { .. } => all.assigns = all.assigns.wrapping_add(1),
            LeafItem::Reg { .. } => all.registers = all.registers.wrapping_add(1),
            LeafItem::Clocked { .. } => all.moves = all.moves.wrapping_add(1),
            LeafItem::Mem { .. } => all.memories = all.memories.wrapping_add(1),
            LeafItem::Store { .. } => all.stores = all.stores.wrapping_add(1),
        }
    }
    all
}

fn first_leaf(alloc: Global, plan: Plan) -> Result<Leaf, AllocError> {
    if plan.tiles() == 0 {
        return Err(AllocError);
    }
    leaf_of(alloc, &plan, 0)
}

#[test]
fn a_leaf_drives_what_it_declares(rt: HostRuntime) -> Result<(), Fail> {
    let alloc = rt.alloc();
    // The ports: eleven of an attachment, four of a link. The outputs: six, and two.
    for (plan, ports, outputs, memories) in [
        (one_tile(alloc)?, 11, 6, 1),
        (split_domains(alloc)?, 15, 8, 3),
        (weighted_slots(alloc)?, 26, 14, 4),
        (cube(alloc)?, 23, 12, 4),
    ] {
        let leaf = first_leaf(alloc, plan)?;
        let all = counted(&leaf);
        assert_eq!(rt; leaf.ports.len(), ports);
        assert_eq!(rt; all.assigns, all.wires.wrapping_add(outputs));
        assert_eq!(rt; all.moves, all.registers);
        assert_eq!(rt; all.memories, memories);
        assert_eq!(rt; all.stores, memories);
    }
    Ok(())
}
