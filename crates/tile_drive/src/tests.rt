//! Worked drivers, views and events.

ghost use Rattle.std.specs.Prelude.{◌≡◌, ◌<◌};

use crate::{Drive, Event, Events, Kind, Seen, TraceDrive};
use flit_word::{Ejected, Offer};
use std::alloc::{AllocError, Global};
use trace_read::{Entry, Trace, Words};
use worked_plans::two_tiles;

/// Two words of attachment 1 from cycle 3 on, and two deaf cycles of attachment 2.
fn small_trace(alloc: Global) -> Result<Trace, AllocError> {
    let mut words = Words::new(alloc);
    words.push(7)?;
    words.push(9)?;
    let mut trace = Trace::new(alloc);
    trace.push(Entry::Send {
        cycle: 3,
        attach: 1,
        address: 16,
        words,
    })?;
    trace.push(Entry::Hold {
        cycle: 10,
        attach: 2,
        count: 2,
    })?;
    Ok(trace)
}

/// What is offered at the attachment in the cycle, which is then taken.
fn take<D: Drive>(drive: &mut D, attach: u32, cycle: u32) -> Option<Offer>
    requires { attach < D.count drive.old }
    ensures { D.count drive.new ≡ D.count drive.old }
{
    let offer = drive.offer(attach, cycle);
    if offer.is_some() {
        drive.taken(attach, cycle);
    }
    offer
}

/// Whether the attachment hears in the cycle, in which it then gets a flit.
fn get<D: Drive>(drive: &mut D, attach: u32, cycle: u32) -> bool
    requires { attach < D.count drive.old }
    ensures { D.count drive.new ≡ D.count drive.old }
{
    let hears = drive.hears(attach, cycle);
    if hears {
        let flit = Ejected {
            head: true,
            tail: true,
            payload: 5,
        };
        drive.got(attach, cycle, flit);
    }
    hears
}

#[test]
fn words_come_in_order_from_their_cycle_on(rt: HostRuntime) {
    let plan = two_tiles(rt.alloc()).expect(&rt, "memory");
    let trace = small_trace(rt.alloc()).expect(&rt, "memory");
    assert_eq!(&rt; plan.attach_count(), 4);
    let mut drive = TraceDrive::new(rt.alloc(), &plan, &trace).expect(&rt, "memory");
    let word = |payload: u32, last: bool| Offer {
        address: 16,
        payload,
        last,
    };
    assert_eq!(&rt; take(&mut drive, 1, 2), None);
    assert_eq!(&rt; take(&mut drive, 0, 3), None);
    assert_eq!(&rt; take(&mut drive, 1, 3), Some(word(7, false)));
    assert_eq!(&rt; take(&mut drive, 1, 3), Some(word(9, true)));
    assert_eq!(&rt; take(&mut drive, 1, 99), None);
}

#[test]
fn a_hold_is_deaf_for_its_cycles(rt: HostRuntime) {
    let plan = two_tiles(rt.alloc()).expect(&rt, "memory");
    let trace = small_trace(rt.alloc()).expect(&rt, "memory");
    assert_eq!(&rt; plan.attach_count(), 4);
    let mut drive = TraceDrive::new(rt.alloc(), &plan, &trace).expect(&rt, "memory");
    for (cycle, want) in [(9, true), (10, false), (11, false), (12, true)] {
        let heard = drive.hears(2, cycle);
        assert_eq!(&rt; heard, want);
    }
    assert_eq!(&rt; get(&mut drive, 2, 9), true);
    assert_eq!(&rt; get(&mut drive, 1, 10), true);
    assert_eq!(&rt; get(&mut drive, 2, 11), false);
}

#[test]
fn a_cycle_is_seen_as_it_was_set(rt: HostRuntime) {
    let plan = two_tiles(rt.alloc()).expect(&rt, "memory");
    assert_eq!(&rt; plan.attach_count(), 4);
    let mut seen = Seen::new(rt.alloc(), &plan).expect(&rt, "memory");
    let offer = Offer {
        address: 1,
        payload: 2,
        last: true,
    };
    seen.set(2, Some(offer), true, true, None);
    assert_eq!(&rt; (seen.offered(2), seen.ready(2)), (Some(offer), true));
    assert_eq!(&rt; (seen.dropped(2), seen.got(2)), (true, None));
    assert_eq!(&rt; (seen.offered(1), seen.ready(1)), (None, false));
}

#[test]
fn events_are_kept_in_order(rt: HostRuntime) {
    let take = Event {
        cycle: 3,
        tile: 1,
        domain: 0,
        kind: Kind::Take { payload: 7 },
    };
    let dropped = Event {
        cycle: 3,
        tile: 1,
        domain: 0,
        kind: Kind::Drop,
    };
    let mut events = Events::new(rt.alloc());
    events.push(take).expect(&rt, "memory");
    events.push(dropped).expect(&rt, "memory");
    assert_eq!(&rt; events.len(), 2);
    assert_eq!(&rt; *events.at(1), dropped);
}
