//! The lines of a domain's events.

ghost use Rattle.std.specs.Prelude.{◌≡◌, ◌≤◌, ◌==◌, filter, flat_map, take, IfOk};
ghost use Rattle.surf_base.specs.Block.{Writes, stream};
ghost use Rattle.noc_model.specs.Report.{event_line};
ghost use Rattle.domain_report.specs.Counts.{counts_of};

use crate::counts::Counts;
use crate::fields::put_kind_at;
use noc_model::Event;
use surf_base::{Block, Failed, Sink, put_at, put_labelled_at, put_number_at};

/// Writes the line of an event to the front of `buf`, and answers its length in bytes.
fn write_event(buf: &mut [u8; 64], event: &Event) -> usize
    ensures written { take result buf.new ≡ event_line event.now }
    ensures fits { result ≤ 64 }
{
    let next = put_number_at(buf, 0, u64::from(event.cycle));
    let next = put_labelled_at(buf, next, b" ", u64::from(event.tile));
    let next = put_kind_at(buf, next, event.kind);
    put_at(buf, next, b"\n")
}

/// Puts the line of an event, as one piece.
fn put_event<O: Sink>(block: &mut Block, out: &mut O, event: &Event) -> Result<(), Failed>
    ensures { Writes result (stream (O.written out.old) block.old (O.faults out.old))
        (stream (O.written out.new) block.new (O.faults out.new)) (event_line event.now) }
{
    let mut line = [0; 64];
    let end = write_event(&mut line, event);
    block.put(out, &line[..end])
}

/// Puts the lines of the domain's events, and counts these events.
pub(crate) fn put_events<O: Sink>(
    block: &mut Block,
    out: &mut O,
    events: &[Event],
    d: u32,
) -> Result<Counts, Failed>
    ensures lines { Writes result (stream (O.written out.old) block.old (O.faults out.old))
        (stream (O.written out.new) block.new (O.faults out.new))
        (flat_map event_line (filter (λ e. e.domain == d) events.now)) }
    ensures counts { IfOk result (λ counts. counts ≡ counts_of (filter (λ e. e.domain == d) events.now)) }
{
    let mut counts = Counts {
        takes: 0,
        waits: 0,
        drops: 0,
        gots: 0,
    };
    for event in events {
        if event.domain == d {
            put_event(block, out, event)?;
            counts.add(event.kind);
        }
    }
    Ok(counts)
}
