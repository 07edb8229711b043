//! Rows of the allocator, in the network of two tiles, of two domains.

use crate::{VcAlloc, Winner};
use std::test::Fail;
use vc_partition::{Lanes, Stage, input_counts};
use worked_plans::two_tiles;

#[test]
fn the_first_input_from_the_pointer_wins(rt: HostRuntime) -> Result<(), Fail> {
    let plan = two_tiles(rt.alloc())?;
    let mut allocator = VcAlloc::new(rt.alloc(), &plan, 0)?;
    allocator.want(0, 2, 1, 0);
    allocator.want(0, 0, 1, 0);
    assert_eq!(&rt; allocator.commit(0, 1), Some(Winner { place: 0, to: 0 }));
    Ok(())
}

/// All inputs of both domains wait for port 1: in each domain the first gets the channel, and the others wait on.
#[test]
fn each_domain_gives_a_channel_of_its_own(rt: HostRuntime) -> Result<(), Fail> {
    let plan = two_tiles(rt.alloc())?;
    let counts = input_counts(rt.alloc(), &plan)?;
    let stages = Lanes::new(rt.alloc(), &counts, Stage::Routed { out: 1 })?;
    let mut next = Lanes::new(rt.alloc(), &counts, Stage::Routed { out: 1 })?;
    let mut allocator = VcAlloc::new(rt.alloc(), &plan, 0)?;
    allocator.step(&plan, &stages, &mut next);
    assert_eq!(&rt; *next.at(0, 0), Stage::Active { out: 1, to: 0 });
    assert_eq!(&rt; *next.at(0, 1), Stage::Routed { out: 1 });
    assert_eq!(&rt; *next.at(1, 0), Stage::Active { out: 1, to: 0 });
    Ok(())
}
