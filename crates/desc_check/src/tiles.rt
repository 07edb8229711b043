//! Faults of the elements that say which tiles host which domains.

ghost use Rattle.std.specs.Prelude.{◌≡◌};
ghost use Rattle.desc_check.specs.Network.{tile_count};
ghost use Rattle.desc_check.specs.Faults.{tile_range_fault, same_tile_fault, tile_twice_fault, unknown_name_fault, host_unknown_fault, repeated_name_fault, host_twice_fault};
ghost use Rattle.desc_check.specs.Accepted.{tiles_fault};

use crate::words::{is_among, is_below, is_domain};
use noc_desc::{DescFault, Draft, DraftDomain, DraftTile};

/// The first element for no tile.
fn tile_range_fault(tiles: u32, elements: &[DraftTile]) -> Option<DescFault>
    ensures { result ≡ tile_range_fault tiles elements.now }
{
    for (i, element) in elements.iter().enumerate() {
        if !is_below(tiles, element.at) {
            return Some(DescFault::TileRange(i as u64));
        }
    }
    None
}

/// The first later element that is for the tile of element `i`.
fn same_tile_fault(elements: &[DraftTile], i: usize, element: &DraftTile) -> Option<DescFault>
    ensures { result ≡ same_tile_fault elements.now i element.now }
{
    for (j, other) in elements.iter().enumerate() {
        if i < j && element.at == other.at {
            return Some(DescFault::TileTwice(i as u64, j as u64));
        }
    }
    None
}

/// The first pair of elements for one tile. Where each is for a tile, elements that have no such partner are for
/// tiles of their own, so the search is over after one element more than there are tiles.
fn tile_twice_fault(elements: &[DraftTile]) -> Option<DescFault>
    ensures { result ≡ tile_twice_fault elements.now }
{
    for (i, element) in elements.iter().enumerate() {
        if let Some(fault) = same_tile_fault(elements, i, element) {
            return Some(fault);
        }
    }
    None
}

/// The first name of element `i` that is no domain's.
fn unknown_name_fault(domains: &[DraftDomain], i: usize, element: &DraftTile) -> Option<DescFault>
    ensures { result ≡ unknown_name_fault domains.now i element.now }
{
    for (k, name) in element.domains.as_slice().iter().enumerate() {
        if !is_domain(domains, name.as_slice()) {
            return Some(DescFault::HostUnknown(i as u64, k as u64));
        }
    }
    None
}

/// The first name of an element that is no domain's.
fn host_unknown_fault(domains: &[DraftDomain], elements: &[DraftTile]) -> Option<DescFault>
    ensures { result ≡ host_unknown_fault domains.now elements.now }
{
    for (i, element) in elements.iter().enumerate() {
        if let Some(fault) = unknown_name_fault(domains, i, element) {
            return Some(fault);
        }
    }
    None
}

/// The first name of element `i` that stands before in the same element. Where each is a domain's, the search is over
/// after one name more than there are domains.
fn repeated_name_fault(i: usize, element: &DraftTile) -> Option<DescFault>
    ensures { result ≡ repeated_name_fault i element.now }
{
    let names = element.domains.as_slice();
    for (k, name) in names.iter().enumerate() {
        if is_among(&names[..k], name.as_slice()) {
            return Some(DescFault::HostTwice(i as u64, k as u64));
        }
    }
    None
}

/// The first name of an element that stands before in the same element.
fn host_twice_fault(elements: &[DraftTile]) -> Option<DescFault>
    ensures { result ≡ host_twice_fault elements.now }
{
    for (i, element) in elements.iter().enumerate() {
        if let Some(fault) = repeated_name_fault(i, element) {
            return Some(fault);
        }
    }
    None
}

/// The first fault of the elements, in a network of so many tiles.
pub(crate) fn tiles_fault(tiles: u32, draft: &Draft) -> Option<DescFault>
    requires { tiles ≡ tile_count draft.now.dims }
    ensures { result ≡ tiles_fault draft.now }
{
    let elements = draft.tiles.as_slice();
    if let Some(fault) = tile_range_fault(tiles, elements) {
        return Some(fault);
    }
    if let Some(fault) = tile_twice_fault(elements) {
        return Some(fault);
    }
    if let Some(fault) = host_unknown_fault(draft.domains.as_slice(), elements) {
        return Some(fault);
    }
    host_twice_fault(elements)
}
