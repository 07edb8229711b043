//! Worked rows: packets at the attachment of a tile that answers the addresses from 16 to 31.

use crate::Iface;
use flit_word::{Flit, Offer};
use worked_plans::one_tile;

fn word(address: u32, payload: u32, last: bool) -> Offer {
    Offer {
        address,
        last,
        payload,
    }
}

/// A packet of two words enters, and its second word's address is not looked up.
#[test]
fn words_enter_as_flits(rt: HostRuntime) {
    let plan = one_tile(rt.alloc()).expect(&rt, "memory");
    let mut iface = Iface::new(&plan, 0, 0);
    let first = iface.step(&plan, true, Some(word(16, 1, false)));
    let head = Flit {
        head: true,
        tail: false,
        dest: 0,
        payload: 1,
    };
    assert_eq!(&rt; first, Some((0, head)));
    let second = iface.step(&plan, true, Some(word(99, 2, true)));
    let tail = Flit {
        head: false,
        tail: true,
        dest: 0,
        payload: 2,
    };
    assert_eq!(&rt; second, Some((0, tail)));
}
