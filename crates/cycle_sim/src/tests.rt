//! Worked runs of whole networks, whose events were worked out by hand.

ghost use Rattle.std.specs.Prelude.{◌≤◌};

use crate::{Net, run};
use flit_word::LinkFlit;
use noc_model::{Event, Kind, Plan};
use std::alloc::{AllocError, Global};
use std::test::Fail;
use tile_drive::{Seen, TraceDrive};
use trace_read::read_trace;
use worked_plans::{
    five_in_a_row, one_tile, ring_of_four, ring_of_three, three_in_a_row, two_tiles,
};

/// Adds the line of an event: its cycle, tile, domain and kind.
fn add_line(alloc: Global, text: &mut String, event: &Event) -> Result<(), AllocError> {
    let cycle = event.cycle;
    let tile = event.tile;
    let domain = event.domain;
    let line = match event.kind {
        Kind::Take { payload } => format!(in alloc; "{cycle} {tile} {domain} take {payload:x}\n")?,
        Kind::Wait { payload } => format!(in alloc; "{cycle} {tile} {domain} wait {payload:x}\n")?,
        Kind::Drop => format!(in alloc; "{cycle} {tile} {domain} drop\n")?,
        Kind::Got { flit } => {
            let head = u8::from(flit.head);
            let tail = u8::from(flit.tail);
            let payload = flit.payload;
            format!(in alloc; "{cycle} {tile} {domain} got {head}{tail} {payload:x}\n")?
        }
    };
    text.push_str(line.as_str())
}

/// The lines of a run's events, of all domains.
fn printed(alloc: Global, plan: Plan, trace: &str, cycles: u32) -> Result<String, Fail>
    requires { cycles ≤ 100 }
{
    let Ok(trace) = read_trace(alloc, &plan, trace.as_bytes()) else {
        return Ok(String::from_str(alloc, "no trace")?);
    };
    let mut drive = TraceDrive::new(alloc, &plan, &trace)?;
    let mut net = Net::new(alloc, plan)?;
    let events = run(alloc, &mut net, &mut drive, cycles)?;
    let mut text = String::new(alloc);
    for event in events.as_slice() {
        add_line(alloc, &mut text, event)?;
    }
    Ok(text)
}

#[test]
fn words_are_taken_and_got(rt: HostRuntime) -> Result<(), Fail> {
    let alloc = rt.alloc();
    for (trace, cycles, events) in [
        // A word stays four cycles.
        ("0 0 a send 10 2a\n", 6, "0 0 0 take 2a\n4 0 0 got 11 2a\n"),
        // A word that no tile has the address of is taken and dropped.
        ("0 0 a send 20 5\n", 3, "0 0 0 take 5\n1 0 0 drop\n"),
    ] {
        let text = printed(alloc, one_tile(alloc)?, trace, cycles)?;
        assert_eq!(&rt; text.as_str(), events);
    }
    Ok(())
}

#[test]
fn two_domains_share_a_link(rt: HostRuntime) -> Result<(), Fail> {
    let alloc = rt.alloc();
    let trace = "0 0 a send 100 a\n0 0 b send 100 b\n";
    let text = printed(alloc, two_tiles(alloc)?, trace, 12)?;
    assert_eq!(&rt;
        text.as_str(),
        "0 0 0 take a\n0 0 1 take b\n8 1 1 got 11 b\n9 1 0 got 11 a\n"
    );
    Ok(())
}

/// The payload of the flit in the last register of the link from tile 0 to tile 1 of two tiles, after these cycles.
fn on_the_link(alloc: Global, cycles: u32) -> Result<Option<LinkFlit>, Fail>
    requires { cycles ≤ 100 }
{
    let plan = two_tiles(alloc)?;
    let Ok(trace) = read_trace(alloc, &plan, b"0 0 a send 100 a\n0 0 b send 100 b\n") else {
        return Ok(None);
    };
    let mut drive = TraceDrive::new(alloc, &plan, &trace)?;
    let mut net = Net::new(alloc, plan)?;
    let _events = run(alloc, &mut net, &mut drive, cycles)?;
    let plan = net.plan();
    if plan.tiles() > 0 && plan.ports() > 1 && plan.neighbour(0, 1).is_some() {
        return Ok(net.link(0, 1).last());
    }
    Ok(None)
}

#[test]
fn both_domains_are_on_one_row(rt: HostRuntime) -> Result<(), Fail> {
    let alloc = rt.alloc();
    for (cycles, payload) in [(4, 0xb), (5, 0xa)] {
        let Some(x) = on_the_link(alloc, cycles)? else {
            assert_eq!(&rt; cycles, 0);
            continue;
        };
        assert_eq!(&rt; x.channel, 0);
        assert_eq!(&rt; x.flit.payload, payload);
    }
    Ok(())
}

/// How many inputs of domain `d` are busy at a tile of two tiles in cycle 3, where each domain sent a word in cycle 0.
fn busy_in_cycle_three(alloc: Global, tile: u32, d: u32) -> Result<u32, Fail> {
    let plan = two_tiles(alloc)?;
    let Ok(trace) = read_trace(alloc, &plan, b"0 0 a send 100 a\n0 0 b send 100 b\n") else {
        return Ok(9);
    };
    let mut drive = TraceDrive::new(alloc, &plan, &trace)?;
    let mut net = Net::new(alloc, plan)?;
    let _events = run(alloc, &mut net, &mut drive, 3)?;
    Ok(busy_at(&net, tile, d))
}

/// How many inputs of domain `d` are busy at a tile.
fn busy_at(net: &Net, tile: u32, d: u32) -> u32 {
    let plan = net.plan();
    plan.known();
    if tile >= plan.tiles() || d >= plan.domains() {
        return 9;
    }
    let router = net.router(tile);
    let mut count = 0;
    for k in 0..plan.ports() * plan.link_channels(d) {
        if router.busy(d, k) && count < 1000 {
            count += 1;
        }
    }
    count
}

#[test]
fn a_waiting_word_keeps_one_input_busy(rt: HostRuntime) -> Result<(), Fail> {
    let alloc = rt.alloc();
    for (tile, d, busy) in [(0, 0, 1), (0, 1, 1), (1, 0, 0), (1, 1, 0)] {
        assert_eq!(&rt; busy_in_cycle_three(alloc, tile, d)?, busy);
    }
    Ok(())
}

#[test]
fn packets_go_round_and_meet(rt: HostRuntime) -> Result<(), Fail> {
    let alloc = rt.alloc();
    let text = printed(alloc, ring_of_three(alloc)?, "0 2 a send 0 9\n", 10)?;
    assert_eq!(&rt; text.as_str(), "0 2 0 take 9\n8 0 0 got 11 9\n");
    let text = printed(alloc, ring_of_four(alloc)?, "0 0 a send 200 7\n", 14)?;
    assert_eq!(&rt; text.as_str(), "0 0 0 take 7\n12 2 0 got 11 7\n");
    let trace = "0 0 a send 100 a1 a2\n0 2 a send 100 b1 b2\n";
    let text = printed(alloc, three_in_a_row(alloc)?, trace, 14)?;
    assert_eq!(&rt;
        text.as_str(),
        "0 0 0 take a1\n0 2 0 take b1\n1 0 0 take a2\n1 2 0 take b2\n8 1 0 got 10 b1\n9 1 0 got 01 b2\n\
         11 1 0 got 10 a1\n12 1 0 got 01 a2\n"
    );
    let trace = "0 0 a send 400 1\n0 4 b send 0 2\n0 0 c send 400 3\n";
    let text = printed(alloc, five_in_a_row(alloc)?, trace, 36)?;
    assert_eq!(&rt;
        text.as_str(),
        "0 0 0 take 1\n0 0 2 take 3\n0 4 1 take 2\n32 0 1 got 11 2\n32 4 0 got 11 1\n34 4 2 got 11 3\n"
    );
    Ok(())
}
