//! The design of a small plan, and its text, which is read back.

use crate::{design_of, text_of};
use std::test::Fail;
use vl_read::read_design;
use vl_text::write_design;
use vl_tree::TopItem;
use worked_plans::{cube, one_tile, split_domains, two_tiles, weighted_slots};

#[test]
fn two_tiles_are_joined_by_two_links(rt: HostRuntime) -> Result<(), Fail> {
    let design = design_of(rt.alloc(), &two_tiles(rt.alloc())?)?;
    assert_eq!(rt; design.leaves.len(), 2);
    assert_eq!(rt; design.top.ports.len(), 44);
    assert_eq!(rt; design.top.items.len(), 6);
    let joins = match design.top.items.at(4) {
        TopItem::Instance { joins, .. } => joins.as_slice(),
        TopItem::Wire { .. } => &[],
    };
    assert_eq!(rt; joins.len(), 26);
    assert_eq!(rt; joins[0].port.as_slice(), b"ov_0_0".as_slice());
    assert_eq!(rt; joins[22].port.as_slice(), b"li_0_1".as_slice());
    assert_eq!(rt; joins[22].net.as_slice(), b"lw_1_2".as_slice());
    Ok(())
}

#[test]
fn a_text_begins_with_the_first_router(rt: HostRuntime) -> Result<(), Fail> {
    let text = text_of(rt.alloc(), &one_tile(rt.alloc())?)?;
    assert!(rt; text.as_slice().starts_with(b"module router_0"));
    Ok(())
}

/// What is read of a text is written with the same bytes, so it is the design that was written.
#[test]
fn each_leaf_is_read_back(rt: HostRuntime) -> Result<(), Fail> {
    let alloc = rt.alloc();
    for plan in [
        one_tile(alloc)?,
        split_domains(alloc)?,
        weighted_slots(alloc)?,
        cube(alloc)?,
    ] {
        let text = text_of(alloc, &plan)?;
        match read_design(alloc, text.as_slice()) {
            Ok(design) => {
                assert_eq!(rt; design.leaves.len(), plan.tiles() as usize);
                assert!(rt; design.plain());
                let again = write_design(alloc, &design)?;
                assert!(rt; again.as_slice() == text.as_slice());
            }
            Err(_) => assert!(rt; false),
        }
    }
    Ok(())
}
