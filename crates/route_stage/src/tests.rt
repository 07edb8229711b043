//! A row of the route stage, in the network of two tiles.

use crate::RouteStage;
use flit_word::Flit;
use std::test::Fail;
use vc_partition::{Lanes, Stage, input_counts};
use worked_plans::two_tiles;

#[test]
fn a_front_flit_routes_its_channel(rt: HostRuntime) -> Result<(), Fail> {
    let plan = two_tiles(rt.alloc())?;
    let flit = Flit {
        head: true,
        tail: true,
        dest: 1,
        payload: 10,
    };
    let counts = input_counts(rt.alloc(), &plan)?;
    let stage = RouteStage::new(rt.alloc(), &plan, 0)?;
    let fronts = Lanes::new(rt.alloc(), &counts, Some(flit))?;
    let mut stages = Lanes::new(rt.alloc(), &counts, Stage::Idle)?;
    stages.set(1, 0, Stage::Active { out: 1, to: 0 });
    let mut next = Lanes::new(rt.alloc(), &counts, Stage::Idle)?;
    stage.step(&plan, &fronts, &stages, &mut next);
    assert_eq!(&rt; *next.at(0, 0), Stage::Routed { out: 1 });
    assert_eq!(&rt; *next.at(1, 0), Stage::Idle);
    Ok(())
}
