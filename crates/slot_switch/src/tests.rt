//! Rows of the switch, in the network of two tiles, of two domains.

use crate::{Granted, SlotSwitch};
use flit_word::Flit;
use std::test::Fail;
use vc_partition::{Grant, Lanes, Stage, input_counts, port_counts};
use wave_sched::Wheel;
use worked_plans::two_tiles;

#[test]
fn the_first_port_from_the_pointer_is_granted(rt: HostRuntime) -> Result<(), Fail> {
    let plan = two_tiles(rt.alloc())?;
    let grant = Grant {
        channel: 0,
        out: 1,
        to: 0,
    };
    let mut switch = SlotSwitch::new(rt.alloc(), &plan, 0)?;
    switch.ask(0, 2, grant);
    switch.ask(0, 0, grant);
    assert_eq!(&rt; switch.granted(1, 1), None);
    assert_eq!(&rt; switch.commit(0, 1), Some(Granted { port: 0, grant }));
    Ok(())
}

/// Each channel of both domains has a flit for port 1, whose slot in cycle 0 is that of the first domain.
#[test]
fn the_owner_of_the_slot_is_granted(rt: HostRuntime) -> Result<(), Fail> {
    let plan = two_tiles(rt.alloc())?;
    let flit = Flit {
        head: true,
        tail: true,
        dest: 1,
        payload: 10,
    };
    let inputs = input_counts(rt.alloc(), &plan)?;
    let ports = port_counts(rt.alloc(), &plan)?;
    let wheel = Wheel::new(rt.alloc(), &plan, 0)?;
    let stages = Lanes::new(rt.alloc(), &inputs, Stage::Active { out: 1, to: 0 })?;
    let fronts = Lanes::new(rt.alloc(), &inputs, Some(flit))?;
    let credits = Lanes::new(rt.alloc(), &inputs, 2u32)?;
    let mut grants = Lanes::new(rt.alloc(), &ports, None)?;
    let mut switch = SlotSwitch::new(rt.alloc(), &plan, 0)?;
    switch.step(
        &plan,
        &wheel,
        &stages,
        &fronts,
        &credits,
        &[true, true],
        &mut grants,
    );
    let grant = Grant {
        channel: 0,
        out: 1,
        to: 0,
    };
    assert_eq!(&rt; *grants.at(0, 0), Some(grant));
    assert_eq!(&rt; *grants.at(0, 1), None);
    assert_eq!(&rt; *grants.at(1, 0), None);
    Ok(())
}
