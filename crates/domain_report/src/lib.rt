//! The report of a domain: what its attachments took and got, and what waited or was dropped.
//!
//! [`report`] promises the bytes of the report that the events of that domain alone have, in the order of the list,
//! at the sink, or a prefix of them and a risen count of faults; [`put_report`] gathers the same bytes in a `Block`.
//! Which domain is reported to whom, and where the events come from, is left to the parts above.
#![tactic(auto)]

ghost use Rattle.std.specs.Prelude.{◌≡◌, ◌==◌, ◌<◌, ◌≤◌, length, filter, OnOk, OnErr};
ghost use Rattle.surf_base.specs.Block.{Writes, stream};
ghost use Rattle.surf_base.specs.Outside.{Rose, appended, GotPrefix};
ghost use Rattle.noc_model.specs.Report.{report};

mod counts;
mod events;
mod fields;
#[cfg(test)]
mod tests;

pub use counts::Counts;
use counts::put_counts;
use events::put_events;
use fields::put_title;
use noc_model::Plan;
use surf_base::{Block, Failed, Sink};
use tile_drive::Events;

/// Writes the report of domain `d`, which is below the plan's domains: its name, a line for each of its events, and
/// how many there are of each kind. Takes no memory.
///
/// # Errors
///
/// The sink failed. A prefix of the report was written, and the sink's count of faults rose.
pub fn report<O: Sink>(plan: &Plan, events: &Events, d: u32, sink: &mut O) -> Result<(), Failed>
    requires { d < length plan.now.domains }
    ensures faults { O.faults sink.old ≤ O.faults sink.new }
    ensures ok { OnOk result (O.written sink.new
        ≡ appended (O.written sink.old) (report plan.now d (filter (λ e. e.domain == d) events.now))) }
    ensures rose { OnErr result (Rose (O.faults sink.old) (O.faults sink.new)) }
    ensures prefix { OnErr result (GotPrefix (O.written sink.old) (O.written sink.new)
        (report plan.now d (filter (λ e. e.domain == d) events.now))) }
{
    let mut block = Block::unbuffered();
    match put_report(&mut block, sink, plan, events, d) {
        Ok(()) => block.flush(sink),
        Err(fault) => Err(fault),
    }
}

/// Puts the report of domain `d`, which is below the plan's domains, by way of a block.
///
/// # Errors
///
/// The sink failed. A prefix of what was gathered and of the report was written.
pub fn put_report<O: Sink>(
    block: &mut Block,
    out: &mut O,
    plan: &Plan,
    events: &Events,
    d: u32,
) -> Result<(), Failed>
    requires { d < length plan.now.domains }
    ensures { Writes result (stream (O.written out.old) block.old (O.faults out.old))
        (stream (O.written out.new) block.new (O.faults out.new))
        (report plan.now d (filter (λ e. e.domain == d) events.now)) }
{
    put_title(block, out, plan.name(d))?;
    let counts = put_events(block, out, events.as_slice(), d)?;
    put_counts(block, out, &counts)
}
