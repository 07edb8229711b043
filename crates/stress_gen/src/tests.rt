//! A worked trace, and worked lines.

ghost use Rattle.std.specs.Prelude.{◌≡◌};

use crate::{put_summary, shared_corners, stress_trace};
use std::alloc::{AllocError, Global};
use std::test::Fail;
use surf_base::{Block, MemSink};
use tile_drive::{Event, Events, Kind};
use trace_read::Entry;

/// The fields of a send, and its words.
fn send_at(alloc: Global, entry: &Entry) -> Result<Vec<u32>, AllocError> {
    let mut fields = Vec::new(alloc);
    match entry {
        Entry::Send {
            cycle,
            attach,
            address,
            words,
        } => {
            fields.push(*cycle)?;
            fields.push(*attach)?;
            fields.push(*address)?;
            fields.extend_from_slice(words.as_slice())?;
        }
        Entry::Hold { .. } => {}
    }
    Ok(fields)
}

#[test]
fn sends_are_drawn(rt: HostRuntime) -> Result<(), Fail> {
    let alloc = rt.alloc();
    let plan = shared_corners(alloc)?;
    assert_eq!(rt; plan.attach_count(), 28);
    assert_eq!(rt; plan.places(), 1280);
    let trace = stress_trace(alloc, &plan, 1, 17)?;
    assert_eq!(rt; trace.len(), 56);
    let rows: [(usize, &[u32]); 3] = [
        (0, &[0, 0, 0x80cc, 0x3101aae6, 0x65d13b5a, 0x4010c0f3]),
        (27, &[0, 27, 0xf65d, 0x2f705c59, 0x796e8702]),
        (28, &[16, 0, 0x8b89, 0x548c8c02, 0x1fcc9e27]),
    ];
    for (i, fields) in rows {
        match trace.as_slice().get(i) {
            Some(entry) => assert!(rt; send_at(alloc, entry)?.as_slice() == fields),
            None => assert!(rt; false),
        }
    }
    Ok(())
}

fn at(cycle: u32, domain: u32, kind: Kind) -> Event
    ensures cycle { result.cycle ≡ cycle }
    ensures tile { result.tile ≡ 0 }
    ensures domain { result.domain ≡ domain }
    ensures kind { result.kind ≡ kind }
{
    Event {
        cycle,
        tile: 0,
        domain,
        kind,
    }
}

/// Two words of domain 0 that are taken, of which one is dropped, one that waits, and a word of domain 1.
fn taken_and_dropped(alloc: Global) -> Result<Events, AllocError> {
    let mut events = Events::new(alloc);
    events.push(at(0, 0, Kind::Take { payload: 1 }))?;
    events.push(at(1, 0, Kind::Take { payload: 2 }))?;
    events.push(at(1, 1, Kind::Take { payload: 3 }))?;
    events.push(at(2, 0, Kind::Wait { payload: 4 }))?;
    events.push(at(2, 0, Kind::Drop))?;
    Ok(events)
}

#[test]
fn words_that_are_inside_are_held(rt: HostRuntime) -> Result<(), Fail> {
    let alloc = rt.alloc();
    let plan = shared_corners(alloc)?;
    let events = taken_and_dropped(alloc)?;
    let mut out = MemSink::new(alloc, 256, 256, &[])?;
    let mut block = Block::unbuffered();
    put_summary(&mut block, &mut out, &plan, &events, 0)?;
    put_summary(&mut block, &mut out, &plan, &events, 1)?;
    let lines =
        b"d0 takes 2 waits 1 drops 1 gots 0 held 1\nd1 takes 1 waits 0 drops 0 gots 0 held 1\n";
    assert!(rt; out.bytes() == lines.as_slice());
    Ok(())
}
