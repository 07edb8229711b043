//! A row of the crossbar, in the network of two tiles, of two domains.

use crate::DomainXbar;
use flit_word::{Flit, LinkFlit};
use std::test::Fail;
use vc_partition::{Grant, Lanes, input_counts, port_counts};
use worked_plans::two_tiles;

#[test]
fn a_granted_flit_goes_to_its_link(rt: HostRuntime) -> Result<(), Fail> {
    let plan = two_tiles(rt.alloc())?;
    let flit = Flit {
        head: true,
        tail: true,
        dest: 1,
        payload: 10,
    };
    let grant = Grant {
        channel: 0,
        out: 1,
        to: 0,
    };
    let inputs = input_counts(rt.alloc(), &plan)?;
    let ports = port_counts(rt.alloc(), &plan)?;
    let fronts = Lanes::new(rt.alloc(), &inputs, Some(flit))?;
    let mut grants = Lanes::new(rt.alloc(), &ports, None)?;
    grants.set(1, 0, Some(grant));
    let mut links = [None, None, None];
    let mut eject = [Some(flit), Some(flit)];
    let crossbar = DomainXbar::new(rt.alloc(), &plan, 0)?;
    crossbar.step(&plan, &grants, &fronts, &mut links, &mut eject);
    assert_eq!(&rt; links[1], Some(LinkFlit { channel: 0, flit }));
    assert_eq!(&rt; links[2], None);
    assert_eq!(&rt; eject[0], None);
    assert_eq!(&rt; eject[1], None);
    Ok(())
}
