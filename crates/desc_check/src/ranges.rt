//! Faults of the address ranges.

ghost use Rattle.std.specs.Prelude.{◌≡◌};
ghost use Rattle.desc_check.specs.Network.{tile_count};
ghost use Rattle.desc_check.specs.Faults.{range_tile_fault, is_in_order, range_order_fault, overlaps_later, overlap_fault, range_overlap_fault};
ghost use Rattle.desc_check.specs.Accepted.{ranges_fault};

use crate::words::is_below;
use noc_desc::{DescFault, Draft, DraftRange};
use noc_model::limits::MOST_RANGES;

/// The first range of no tile, or beyond the most ranges.
fn range_tile_fault(tiles: u32, ranges: &[DraftRange]) -> Option<DescFault>
    ensures { result ≡ range_tile_fault tiles ranges.now }
{
    for (i, range) in ranges.iter().enumerate() {
        if !is_below(tiles, range.tile) || i >= MOST_RANGES {
            return Some(DescFault::RangeTile(i as u64));
        }
    }
    None
}

/// Whether these are addresses, the first not above the last.
#[tactic(auto, unfolding(crate::specs::Faults::is_in_order))]
fn is_in_order(range: &DraftRange) -> bool
    ensures { result ≡ is_in_order range.now }
{
    0 <= range.first && range.first <= range.last && range.last <= 4_294_967_295
}

/// The first range whose addresses are not in order.
fn range_order_fault(ranges: &[DraftRange]) -> Option<DescFault>
    ensures { result ≡ range_order_fault ranges.now }
{
    for (i, range) in ranges.iter().enumerate() {
        if !is_in_order(range) {
            return Some(DescFault::RangeOrder(i as u64));
        }
    }
    None
}

/// Whether range `j` comes after range `i`, and an address is in both.
#[tactic(auto, unfolding(crate::specs::Faults::overlaps_later))]
fn overlaps_later(i: usize, x: &DraftRange, j: usize, y: &DraftRange) -> bool
    ensures { result ≡ overlaps_later i x.now j y.now }
{
    i < j && x.first <= y.last && y.first <= x.last
}

/// The first later range that range `i` overlaps.
fn overlap_fault(ranges: &[DraftRange], i: usize, range: &DraftRange) -> Option<DescFault>
    ensures { result ≡ overlap_fault ranges.now i range.now }
{
    for (j, other) in ranges.iter().enumerate() {
        if overlaps_later(i, range, j, other) {
            return Some(DescFault::RangeOverlap(i as u64, j as u64));
        }
    }
    None
}

/// The first pair of ranges that overlap.
fn range_overlap_fault(ranges: &[DraftRange]) -> Option<DescFault>
    ensures { result ≡ range_overlap_fault ranges.now }
{
    for (i, range) in ranges.iter().enumerate() {
        if let Some(fault) = overlap_fault(ranges, i, range) {
            return Some(fault);
        }
    }
    None
}

/// The first fault of the ranges, in a network of so many tiles.
pub(crate) fn ranges_fault(tiles: u32, draft: &Draft) -> Option<DescFault>
    requires { tiles ≡ tile_count draft.now.dims }
    ensures { result ≡ ranges_fault draft.now }
{
    let ranges = draft.ranges.as_slice();
    if let Some(fault) = range_tile_fault(tiles, ranges) {
        return Some(fault);
    }
    if let Some(fault) = range_order_fault(ranges) {
        return Some(fault);
    }
    range_overlap_fault(ranges)
}
