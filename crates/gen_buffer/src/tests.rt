//! The sizes of a buffer's memory and registers.

use crate::{BufferSpec, buffer};
use gen_kit::{LeafWork, name_of};
use std::alloc::{AllocError, Global};
use std::test::Fail;
use vl_tree::{Leaf, LeafItem};

fn leaf(alloc: Global, depth: u32) -> Result<Leaf, AllocError> {
    if depth == 0 || 16 < depth {
        return Err(AllocError);
    }
    let mut work = LeafWork::new(alloc, 0)?;
    let spec = BufferSpec {
        tag: 5,
        depth,
        width: 38,
        push: name_of(alloc, b"push", &[0])?,
        word: name_of(alloc, b"word", &[0])?,
        pop: name_of(alloc, b"pop", &[0])?,
    };
    let nets = buffer(alloc, &mut work, &spec)?;
    work.define(
        alloc,
        37,
        &name_of(alloc, b"f", &[0])?,
        gen_kit::net(alloc, &nets.front)?,
    )?;
    Ok(work.finish())
}

/// The number of the most significant bit of what an item declares, and of the last word of a memory.
fn sizes(item: &LeafItem) -> (u32, u32) {
    match item {
        LeafItem::Mem { high, last, .. } => (*high, *last),
        LeafItem::Reg { high, .. } => (*high, 0),
        _ => (0, 0),
    }
}

#[test]
fn memories_have_a_power_of_two_of_words(rt: HostRuntime) -> Result<(), Fail> {
    // The depth, the last word, the bits of a pointer less 1, and those of the length less 1.
    for (depth, last, index, count) in [
        (1, 1, 0, 0),
        (2, 1, 0, 1),
        (3, 3, 1, 1),
        (4, 3, 1, 2),
        (5, 7, 2, 2),
        (8, 7, 2, 3),
        (9, 15, 3, 3),
        (16, 15, 3, 4),
    ] {
        let leaf = leaf(rt.alloc(), depth)?;
        assert_eq!(rt; leaf.items.len(), 14);
        assert_eq!(rt; sizes(leaf.items.at(0)), (37, last));
        assert_eq!(rt; sizes(leaf.items.at(1)), (index, 0));
        assert_eq!(rt; sizes(leaf.items.at(2)), (index, 0));
        assert_eq!(rt; sizes(leaf.items.at(3)), (count, 0));
    }
    Ok(())
}
