//! Rows of a link of two registers, and of the credits of two domains.

use crate::{Credits, Pipe};
use flit_word::{Flit, LinkFlit};
use std::test::Fail;
use worked_plans::two_tiles;

#[test]
fn a_flit_leaves_two_shifts_later(rt: HostRuntime) -> Result<(), Fail> {
    let flit = Flit {
        head: true,
        tail: true,
        dest: 1,
        payload: 10,
    };
    let x = Some(LinkFlit { channel: 0, flit });
    let mut pipe = Pipe::new(rt.alloc(), 2)?;
    assert_eq!(&rt; pipe.shift(x), None);
    assert_eq!(&rt; pipe.shift(None), None);
    assert_eq!(&rt; pipe.last(), x);
    assert_eq!(&rt; pipe.shift(None), x);
    Ok(())
}

#[test]
fn a_domain_spends_its_own_credits(rt: HostRuntime) -> Result<(), Fail> {
    let plan = two_tiles(rt.alloc())?;
    let mut credits = Credits::new(rt.alloc(), &plan)?;
    credits.spend(0, 1);
    credits.spend(0, 1);
    assert_eq!(&rt; credits.count(0, 1), 0);
    assert_eq!(&rt; credits.count(1, 1), 2);
    credits.restore(0, 1);
    assert_eq!(&rt; *credits.counts().at(0, 1), 1);
    Ok(())
}
