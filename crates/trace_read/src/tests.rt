//! Worked traces.

use crate::{Entry, Restrict, TraceFault, read_trace};
use noc_model::Plan;
use std::alloc::Global;
use worked_plans::two_tiles;

/// The fault of a trace.
fn fault_of(alloc: Global, plan: &Plan, bytes: &[u8]) -> Option<TraceFault> {
    match read_trace(alloc, plan, bytes) {
        Ok(_) => None,
        Err(fault) => Some(fault),
    }
}

#[test]
fn each_fault_has_its_line(rt: HostRuntime) {
    let plan = two_tiles(rt.alloc()).expect(&rt, "memory");
    let rows = [
        (b"0 0 a send".as_slice(), TraceFault::Syntax { line: 1 }),
        (b"0 9 a send\n".as_slice(), TraceFault::Syntax { line: 1 }),
        (b"0 0 a hold 1 1".as_slice(), TraceFault::Syntax { line: 1 }),
        (
            b"0 0 a send 10 1\r\r\n".as_slice(),
            TraceFault::Syntax { line: 1 },
        ),
        (b"0 0 q hold x".as_slice(), TraceFault::Number { line: 1 }),
        (
            b"4294967296 0 a hold 1".as_slice(),
            TraceFault::Number { line: 1 },
        ),
        (
            b"00000000000 0 a hold 1".as_slice(),
            TraceFault::Number { line: 1 },
        ),
        (
            b"0 0 a send 123456789 1".as_slice(),
            TraceFault::Number { line: 1 },
        ),
        (
            b"0 9 q hold 1".as_slice(),
            TraceFault::TileRange { line: 1 },
        ),
        (
            b"0 0 q hold 1".as_slice(),
            TraceFault::DomainUnknown { line: 1 },
        ),
        (
            b"0 0 a send 10".as_slice(),
            TraceFault::WordCount { line: 1 },
        ),
        (
            b"# comment\n\n0 0 a hold 1\n0 0 q hold 1".as_slice(),
            TraceFault::DomainUnknown { line: 4 },
        ),
    ];
    for (bytes, want) in rows {
        assert_eq!(&rt; fault_of(rt.alloc(), &plan, bytes), Some(want));
    }
}

#[test]
fn a_send_has_256_words_at_most(rt: HostRuntime) {
    let plan = two_tiles(rt.alloc()).expect(&rt, "memory");
    let mut text = Vec::from_slice(rt.alloc(), b"0 0 a send 10").expect(&rt, "memory");
    for _ in 0..256 {
        text.extend_from_slice(b" 1").expect(&rt, "memory");
    }
    assert_eq!(&rt; fault_of(rt.alloc(), &plan, text.as_slice()), None);
    text.extend_from_slice(b" 1").expect(&rt, "memory");
    let want = Some(TraceFault::WordCount { line: 1 });
    assert_eq!(&rt; fault_of(rt.alloc(), &plan, text.as_slice()), want);
}

#[test]
fn entries_of_all_domains_and_of_one(rt: HostRuntime) {
    let plan = two_tiles(rt.alloc()).expect(&rt, "memory");
    let text = b"# \x80\n0 0 a hold 3\r\n\t7 01  b send 00000010 2A ffffffff";
    let Ok(trace) = read_trace(rt.alloc(), &plan, text.as_slice()) else {
        panic!(&rt; "the trace is accepted")
    };
    assert_eq!(&rt; trace.len(), 2);
    let kept = trace.of_domain(rt.alloc(), &plan, 1).expect(&rt, "memory");
    assert_eq!(&rt; kept.len(), 1);
    for entry in [trace.at(1), kept.at(0)] {
        let Entry::Send {
            cycle,
            attach,
            address,
            words,
        } = entry
        else {
            panic!(&rt; "the entry is a send")
        };
        assert_eq!(&rt; (*cycle, *attach, *address), (7, 3, 16));
        assert_eq!(&rt; words.as_slice(), [42, 0xffff_ffff].as_slice());
    }
}
