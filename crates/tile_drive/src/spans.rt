//! Spans of cycles, and whether one of them has a cycle.

ghost use Rattle.std.specs.Prelude.{◌≡◌, ◌+◌, ◌≤◌, nat_le, true, false, length, IfOk};
ghost use Rattle.std.specs.List.{list_any};
ghost use Rattle.std.specs.List.Sorted.{IsNonDecreasingBy, IsPermutation, IsPartitionPoint};
ghost use Rattle.tile_drive.specs.declared.scripts.Span.{Span};
ghost use Rattle.tile_drive.specs.TraceDriver.{covers};
ghost use Rattle.tile_drive.specs.Scripts.{ends_from, end_at, AreSettled};

use crate::scripts::Span;
use std::alloc::{AllocError, Global};

/// Sorts spans by their cycles.
pub(crate) fn sort_spans(spans: &mut Vec<Span>)
    ensures same { IsPermutation spans.old.items spans.new.items }
    ensures sorted { IsNonDecreasingBy (λ (span : Span). span.cycle) spans.new.items }
{
    spans.sort_unstable_by_key(|span| span.cycle);
}

/// The cycle after the last of a span.
fn end_of(span: Span) -> u64
    ensures { result ≡ span.cycle + span.count }
{
    u64::from(span.cycle) + u64::from(span.count)
}

/// The greatest end of the spans up to each.
pub(crate) fn ends_of(alloc: Global, spans: &[Span]) -> Result<Vec<u64>, AllocError>
    ensures { IfOk result (λ ends. ends.items ≡ ends_from 0 spans.now) }
{
    let mut ends = Vec::new(alloc);
    let mut most: u64 = 0;
    let mut rest = spans;
    while let [span, more @ ..] = rest {
        most = most.max(end_of(*span));
        ends.push(most)?;
        rest = more;
    }
    Ok(ends)
}

/// How many spans begin by the cycle.
fn begun_by(spans: &[Span], cycle: u32) -> usize
    requires { IsNonDecreasingBy (λ (span : Span). span.cycle) spans.now }
    ensures bound { result ≤ length spans.now }
    ensures begun { IsPartitionPoint (λ (span : Span). nat_le span.cycle cycle ≡ true)
        (λ (span : Span). nat_le span.cycle cycle ≡ false) spans.now result }
{
    spans.partition_point(|span| span.cycle <= cycle)
}

/// The greatest end of the first `begun` spans.
fn end_by(ends: &[u64], begun: usize) -> u64
    requires { begun ≤ length ends.now }
    ensures { result ≡ end_at 0 ends.now begun }
{
    if begun == 0 { 0 } else { ends[begun - 1] }
}

/// Whether one of the spans has the cycle.
pub(crate) fn is_covered(spans: &[Span], ends: &[u64], cycle: u32) -> bool
    requires { AreSettled spans.now ends.now }
    ensures { result ≡ list_any (covers cycle) spans.now }
{
    let begun = begun_by(spans, cycle);
    u64::from(cycle) < end_by(ends, begun)
}
