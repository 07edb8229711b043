//! The trace of a stress run.

ghost use Rattle.std.specs.Prelude.{◌≡◌, ◌≤◌, ◌<◌, ◌++◌, ◌%◌, length, slice_index, IfOk, OnOk, map};
ghost use Rattle.noc_model.specs.Events.{hosts_of};
ghost use Rattle.stress_gen.specs.Draws.{next, draw};
ghost use Rattle.stress_gen.specs.Sends.{domain_of, send, after_send, sends_in, after_sends, stress_trace};

use crate::draws::Draws;
use noc_model::Plan;
use std::alloc::{AllocError, Global};
use trace_read::{Entry, Trace};

/// How many cycles there are from one send of an attachment to its next.
const PERIOD: u32 = 16;

/// The most words of a send.
const MOST_WORDS: u32 = 4;

/// The addresses of a tile.
const ADDRESSES: u32 = 4096;

/// The tiles that host the domain.
fn tiles_of(alloc: Global, plan: &Plan, d: u32) -> Result<Vec<u32>, AllocError>
    ensures { IfOk result (λ tiles. tiles.items ≡ hosts_of plan.now d) }
{
    plan.known();
    let mut tiles = Vec::new(alloc);
    for j in 0..plan.attach_count() {
        let host = plan.attach(j);
        if host.domain == d {
            tiles.push(host.tile)?;
        }
    }
    Ok(tiles)
}

/// Draws one of the tiles.
fn draw_tile(draws: &mut Draws, tiles: &[u32]) -> u32
    requires { 1 ≤ length tiles.now }
    ensures tile { result ≡ slice_index tiles.now (draw draws.old.number 0 % length tiles.now) }
    ensures number { draws.new.number ≡ next draws.old.number }
{
    let drawn = draws.draw() as usize;
    tiles[drawn % tiles.len()]
}

/// Draws the send of an attachment.
fn draw_send(
    alloc: Global,
    plan: &Plan,
    draws: &mut Draws,
    cycle: u32,
    attach: u32,
) -> Result<Entry, AllocError>
    requires { attach < length plan.now.hosts }
    ensures entry { IfOk result (λ entry. entry ≡ send plan.now cycle attach draws.old.number) }
    ensures number { OnOk result (draws.new.number ≡ after_send draws.old.number) }
{
    plan.known();
    let tiles = tiles_of(alloc, plan, plan.attach(attach).domain)?;
    let count = 1 + draws.draw() % MOST_WORDS;
    let tile = draw_tile(draws, tiles.as_slice());
    let address = ADDRESSES * tile + draws.draw() % ADDRESSES;
    let words = draws.words(alloc, count)?;
    Ok(Entry::Send {
        cycle,
        attach,
        address,
        words,
    })
}

/// Adds the sends of a cycle, one of each attachment.
fn add_sends(
    alloc: Global,
    plan: &Plan,
    draws: &mut Draws,
    trace: &mut Trace,
    cycle: u32,
) -> Result<(), AllocError>
    ensures trace { OnOk result (trace.new ≡ trace.old ++ sends_in plan.now draws.old.number cycle) }
    ensures number { OnOk result (draws.new.number ≡ after_sends draws.old.number (length plan.now.hosts)) }
{
    for attach in 0..plan.attach_count() {
        let entry = draw_send(alloc, plan, draws, cycle, attach)?;
        trace.push(entry)?;
    }
    Ok(())
}

/// The trace of so many cycles that is drawn from the number: every 16 cycles a packet of each attachment, of 1 to 4
/// words, to a tile that hosts its domain. How many words there are, the tile, the address and each word are draws.
///
/// # Errors
///
/// When memory runs out.
pub fn stress_trace(
    alloc: Global,
    plan: &Plan,
    number: u64,
    cycles: u32,
) -> Result<Trace, AllocError>
    ensures { IfOk result (λ trace. trace ≡ stress_trace plan.now number cycles) }
{
    let mut draws = Draws { number };
    let mut trace = Trace::new(alloc);
    for cycle in 0..cycles {
        if cycle % PERIOD == 0 {
            add_sends(alloc, plan, &mut draws, &mut trace, cycle)?;
        }
    }
    Ok(trace)
}
