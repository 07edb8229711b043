//! Rows of a pool of two lists with room for one flit each, and of a ring of three numbers.

use crate::{Pool, Ring};
use flit_word::Flit;
use std::test::Fail;

fn flit(payload: u32) -> Flit {
    Flit {
        head: true,
        tail: true,
        dest: 0,
        payload,
    }
}

#[test]
fn a_full_list_gives_the_flit_back(rt: HostRuntime) -> Result<(), Fail> {
    let mut pool = Pool::new(rt.alloc(), 2, 1)?;
    assert_eq!(&rt; pool.push(0, flit(1)).is_ok(), true);
    assert_eq!(&rt; pool.push(0, flit(2)).is_ok(), false);
    assert_eq!(&rt; pool.push(1, flit(2)).is_ok(), true);
    assert_eq!(&rt; pool.pop(0), Some(flit(1)));
    assert_eq!(&rt; pool.pop(0), None);
    Ok(())
}

#[test]
fn a_number_leaves_the_ring(rt: HostRuntime) -> Result<(), Fail> {
    let mut ring = Ring::new(rt.alloc(), 3)?;
    ring.join(2);
    ring.join(0);
    assert_eq!(&rt; ring.first(), Some(2));
    assert_eq!(&rt; ring.after(2), Some(0));
    assert_eq!(&rt; ring.after(0), None);
    ring.leave(2);
    assert_eq!(&rt; ring.first(), Some(0));
    assert_eq!(&rt; ring.holds(2), false);
    Ok(())
}
