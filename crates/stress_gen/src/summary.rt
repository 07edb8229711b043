//! The line of a domain in the summary of a run.

ghost use Rattle.std.specs.Prelude.{◌≡◌, ◌==◌, ◌<◌, ◌≤◌, length, filter, take};
ghost use Rattle.surf_base.specs.Block.{Writes, stream};
ghost use Rattle.domain_report.specs.Counts.{counts_of};
ghost use Rattle.stress_gen.specs.Summary.{held, counts_line, summary_line};

use domain_report::Counts;
use noc_model::{Event, Plan};
use surf_base::{Block, Failed, Sink, put_at, put_labelled_at};
use tile_drive::Events;

/// How many events of the domain there are of each kind.
fn counts_of(events: &[Event], d: u32) -> Counts
    ensures { result ≡ counts_of (filter (λ e. e.domain == d) events.now) }
{
    let mut counts = Counts {
        takes: 0,
        waits: 0,
        drops: 0,
        gots: 0,
    };
    for event in events {
        if event.domain == d {
            counts.add(event.kind);
        }
    }
    counts
}

/// The words that were taken, and neither counted as dropped nor got.
fn held(counts: &Counts) -> u64
    ensures { result ≡ held counts.now }
{
    counts
        .takes
        .saturating_sub(counts.drops)
        .saturating_sub(counts.gots)
}

/// Writes the line of the counts to the front of `buf`, and answers its length in bytes.
fn write_line(buf: &mut [u8; 160], name: &[u8], counts: &Counts) -> usize
    requires { length name.now ≤ 16 }
    ensures written { take result buf.new ≡ counts_line name.now counts.now }
    ensures fits { result ≤ 160 }
{
    let next = put_at(buf, 0, name);
    let next = put_labelled_at(buf, next, b" takes ", counts.takes);
    let next = put_labelled_at(buf, next, b" waits ", counts.waits);
    let next = put_labelled_at(buf, next, b" drops ", counts.drops);
    let next = put_labelled_at(buf, next, b" gots ", counts.gots);
    let next = put_labelled_at(buf, next, b" held ", held(counts));
    put_at(buf, next, b"\n")
}

/// Puts the line of domain `d`, which is below the plan's domains: its name, how many of its events there are of each
/// kind, and how many words are held.
///
/// # Errors
///
/// The sink failed. A prefix of what was gathered and of the line was written.
pub fn put_summary<O: Sink>(
    block: &mut Block,
    out: &mut O,
    plan: &Plan,
    events: &Events,
    d: u32,
) -> Result<(), Failed>
    requires { d < length plan.now.domains }
    ensures { Writes result (stream (O.written out.old) block.old (O.faults out.old))
        (stream (O.written out.new) block.new (O.faults out.new))
        (summary_line plan.now d (filter (λ e. e.domain == d) events.now)) }
{
    plan.known();
    let counts = counts_of(events.as_slice(), d);
    let mut line = [0; 160];
    let end = write_line(&mut line, plan.name(d), &counts);
    block.put(out, &line[..end])
}
