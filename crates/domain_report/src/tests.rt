//! Reports of worked events, where domain `a` is the only one of the plan.

ghost use Rattle.std.specs.Prelude.{◌≡◌};

use crate::{put_report, report};
use noc_model::{Ejected, Event, Kind};
use std::alloc::{AllocError, Global};
use std::test::Fail;
use surf_base::{Block, MemSink};
use tile_drive::Events;
use worked_plans::one_tile;

fn at(cycle: u32, domain: u32, kind: Kind) -> Event
    ensures cycle { result.cycle ≡ cycle }
    ensures tile { result.tile ≡ 0 }
    ensures domain { result.domain ≡ domain }
    ensures kind { result.kind ≡ kind }
{
    Event {
        cycle,
        tile: 0,
        domain,
        kind,
    }
}

/// A word that is taken, and got four cycles later.
fn taken_and_got(alloc: Global) -> Result<Events, AllocError> {
    let flit = Ejected {
        head: true,
        tail: true,
        payload: 42,
    };
    let mut events = Events::new(alloc);
    events.push(at(0, 0, Kind::Take { payload: 42 }))?;
    events.push(at(4, 0, Kind::Got { flit }))?;
    Ok(events)
}

/// A word that waits, a word of another domain, one that is dropped, and a head that is got.
fn waited_and_dropped(alloc: Global) -> Result<Events, AllocError> {
    let flit = Ejected {
        head: true,
        tail: false,
        payload: 0,
    };
    let mut events = Events::new(alloc);
    events.push(at(10, 0, Kind::Wait { payload: 0xBEEF }))?;
    events.push(at(10, 1, Kind::Take { payload: 7 }))?;
    events.push(at(11, 0, Kind::Drop))?;
    events.push(at(12, 0, Kind::Got { flit }))?;
    Ok(events)
}

/// The report of domain `a`, on a sink that takes at most 5 bytes at a time.
fn reported(alloc: Global, events: &Events) -> Result<MemSink, Fail> {
    let plan = one_tile(alloc)?;
    plan.known();
    let mut sink = MemSink::new(alloc, 1000, 5, &[])?;
    report(&plan, events, 0, &mut sink)?;
    Ok(sink)
}

/// The same, by way of a block.
fn gathered(alloc: Global, events: &Events) -> Result<MemSink, Fail> {
    let plan = one_tile(alloc)?;
    plan.known();
    let mut block = Block::new(alloc)?;
    let mut sink = MemSink::new(alloc, 1000, 5, &[])?;
    put_report(&mut block, &mut sink, &plan, events, 0)?;
    block.flush(&mut sink)?;
    Ok(sink)
}

#[test]
fn a_report_has_the_events_of_its_domain(rt: HostRuntime) -> Result<(), Fail> {
    let alloc = rt.alloc();
    let rows: [(Events, &[u8]); 2] = [
        (
            taken_and_got(alloc)?,
            b"domain a\n0 0 take 0000002a\n4 0 got 11 0000002a\nend 1 0 0 1\n",
        ),
        (
            waited_and_dropped(alloc)?,
            b"domain a\n10 0 wait 0000beef\n11 0 drop\n12 0 got 10 00000000\nend 0 1 1 1\n",
        ),
    ];
    for (events, want) in &rows {
        assert_eq!(rt; reported(alloc, events)?.bytes(), *want);
        assert_eq!(rt; gathered(alloc, events)?.bytes(), *want);
    }
    Ok(())
}
