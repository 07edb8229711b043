//! Worked plans, whose answers were worked out by hand.

ghost use Rattle.std.specs.Prelude.{IfOk, [], Some, true, refl};
ghost use Rattle.noc_model.specs.PlanOf.{plan_of};
ghost use Rattle.noc_model.specs.Sound.{IsSound};

use crate::{DomainPart, Driving, Host, Parts, Plan, Range, Way};
use std::alloc::{AllocError, Global};
use surf_base::Bytes;

/// Two tiles in a row that both host the domains `a` and `b`, which own the slots in turn.
fn two_tiles(alloc: Global) -> Result<Parts, AllocError>
    ensures { IfOk result (λ a. IsSound (plan_of a)) }
{
    let a = DomainPart {
        name: Bytes::from_slice(alloc, b"a")?,
        channels: 1,
    };
    let b = DomainPart {
        name: Bytes::from_slice(alloc, b"b")?,
        channels: 1,
    };
    Ok(Parts {
        torus: false,
        dims: vec![in alloc; 2]?,
        stages: 1,
        buffer: 2,
        domains: vec![in alloc; a, b]?,
        hosts: vec![in alloc;
            Host { tile: 0, domain: 0 },
            Host { tile: 0, domain: 1 },
            Host { tile: 1, domain: 0 },
            Host { tile: 1, domain: 1 },
        ]?,
        ranges: vec![in alloc;
            Range {
                tile: 0,
                first: 0x0,
                last: 0xff
            },
            Range {
                tile: 1,
                first: 0x100,
                last: 0x1ff
            },
        ]?,
        slots: vec![in alloc; 0, 1]?,
    })
}

#[test]
fn two_tiles_and_their_copy(rt: HostRuntime) {
    let parts = two_tiles(rt.alloc()).expect(&rt, "memory");
    assert_eq!(&rt; parts.places(), 24);
    let first = Plan::new(parts);
    let copy = first.copy(rt.alloc()).expect(&rt, "memory");
    for plan in [&first, &copy] {
        assert_eq!(&rt; plan.tiles(), 2);
        assert_eq!(&rt; plan.places(), 24);
        assert_eq!(&rt; plan.hop(), 4);
        assert_eq!(&rt; plan.find(b"b"), Some(1));
        assert_eq!(&rt; plan.find(b"ab"), None);
        assert_eq!(&rt; plan.attach_count(), 4);
        for (n, d, want) in [
            (0, 0, Some(0)),
            (1, 0, Some(2)),
            (1, 1, Some(3)),
            (1, 2, None),
        ] {
            assert_eq!(&rt; plan.attach_of(n, d), want);
        }
        for (d, addr, want) in [(0, 0x1ff, Some(1)), (1, 0xff, Some(0)), (0, 0x200, None)] {
            assert_eq!(&rt; plan.lookup(d, addr), want);
        }
    }
}

#[test]
fn ways_and_their_ports(rt: HostRuntime) {
    assert_eq!(&rt; Way::of_port(0), Way::Local);
    assert_eq!(&rt; Way::of_port(3), Way::Plus(1));
    assert_eq!(&rt; Way::Minus(2).port(), 6);
    assert_eq!(&rt; Way::Plus(0).opposite(), Way::Minus(0));
}

/// Offers the same word for ever, and always hears.
#[derive(Drop)]
struct Steady {
    count: u32,
}

impl Driving for Steady {
    ghost count = { λ s. s.count };

    ghost driver = { λ s. record {
      offer = λ j state t. Some (record { address = 7; payload = 9; last = true });
      hears = λ j state t. true;
      taken = λ j state t. state;
      got = λ j state t e. state;
    } };

    ghost state = { λ s j. [] };

    ghost keeps_hearing = { λ s j t state offered h. refl };
}

#[test]
fn a_driver_of_one_attachment(rt: HostRuntime) {
    let driver = Steady { count: 1 };
    assert_eq!(&rt; driver.count, 1);
}
