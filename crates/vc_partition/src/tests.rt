//! Rows of the round-robin choice, of lanes, and of the numbers of a plan.

use crate::{Lanes, pick};
use std::test::Fail;

#[test]
fn the_choice_turns_round(rt: HostRuntime) -> Result<(), Fail> {
    assert_eq!(&rt; pick(&[false, true, true], 2), Some(2));
    assert_eq!(&rt; pick(&[false, true, true], 3), Some(1));
    assert_eq!(&rt; pick(&[false, false, false], 0), None);
    Ok(())
}

#[test]
fn a_write_stays_in_its_lane(rt: HostRuntime) -> Result<(), Fail> {
    let mut lanes = Lanes::new(rt.alloc(), &[2, 1], 7u32)?;
    lanes.set(0, 1, 9);
    assert_eq!(&rt; *lanes.at(0, 0), 7);
    assert_eq!(&rt; *lanes.at(0, 1), 9);
    assert_eq!(&rt; *lanes.at(1, 0), 7);
    Ok(())
}

#[test]
fn a_lane_is_read_as_a_slice(rt: HostRuntime) -> Result<(), Fail> {
    let mut lanes = Lanes::new(rt.alloc(), &[2, 1, 3], 7u32)?;
    lanes.set(2, 1, 9);
    assert_eq!(&rt; lanes.lane(2), [7, 9, 7].as_slice());
    Ok(())
}

#[test]
fn a_fill_stays_in_its_lane(rt: HostRuntime) -> Result<(), Fail> {
    let mut lanes = Lanes::new(rt.alloc(), &[2, 1, 3], 7u32)?;
    lanes.fill(1, 9);
    assert_eq!(&rt; lanes.lane(0), [7, 7].as_slice());
    assert_eq!(&rt; lanes.lane(1), [9].as_slice());
    assert_eq!(&rt; lanes.lane(2), [7, 7, 7].as_slice());
    Ok(())
}

#[test]
fn lanes_are_copied(rt: HostRuntime) -> Result<(), Fail> {
    let mut lanes = Lanes::new(rt.alloc(), &[2, 1], 7u32)?;
    let other = Lanes::new(rt.alloc(), &[2, 1], 9u32)?;
    lanes.copy_from(&other);
    assert_eq!(&rt; lanes.lane(0), [9, 9].as_slice());
    assert_eq!(&rt; lanes.lane(1), [9].as_slice());
    Ok(())
}
