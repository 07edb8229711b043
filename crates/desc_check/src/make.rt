//! The plan that a draft says.

ghost use Rattle.std.specs.Prelude.{◌≡◌, ◌<◌, ◌≤◌, length, map, true, pos, None, IfOk};
ghost use Rattle.std.specs.List.{list_all, range_with_len};
ghost use Rattle.noc_model.specs.Limits.{most_side, most_tiles, most_stages, most_buffer, most_domains, most_channels};
ghost use Rattle.noc_model.specs.PlanOf.{plan_of};
ghost use Rattle.desc_check.specs.Words.{is_below, is_within, number_of};
ghost use Rattle.desc_check.specs.Network.{tile_count, domain_of, range_of, name_at, is_hosted, hosts_of, domain_number, slots_of, plan_of_draft};
ghost use Rattle.desc_check.specs.Faults.{channels_fault, is_in_order, range_tile_fault, range_order_fault};
ghost use Rattle.desc_check.specs.Accepted.{form_fault, domains_fault, ranges_fault};

use crate::form::number_of;
use crate::words::is_among;
use noc_desc::{Draft, DraftDomain, DraftRange, DraftTile};
use noc_model::{DomainPart, Host, Parts, Range};
use std::alloc::{AllocError, Global};
use surf_base::Bytes;

/// The registers of a link.
fn stages_of(draft: &Draft) -> u32
    requires { is_within 1 most_stages draft.now.stages ≡ true }
    ensures { result ≡ number_of draft.now.stages }
{
    draft.stages as u32
}

/// The flits that a channel's buffer may hold.
fn buffer_of(draft: &Draft) -> u32
    requires { is_within 1 most_buffer draft.now.buffer ≡ true }
    ensures { result ≡ number_of draft.now.buffer }
{
    draft.buffer as u32
}

/// The sides.
fn sides_of(alloc: Global, dims: &[i64]) -> Result<Vec<u32>, AllocError>
    requires { list_all (is_within 1 most_side) dims.now ≡ true }
    ensures { IfOk result (λ v. v.items ≡ map number_of dims.now) }
{
    let mut sides = Vec::new(alloc);
    for side in dims {
        sides.push(number_of(*side))?;
    }
    Ok(sides)
}

/// A domain.
fn domain_of(alloc: Global, domain: &DraftDomain) -> Result<DomainPart, AllocError>
    requires { is_within 1 most_channels domain.now.channels ≡ true }
    ensures { IfOk result (λ x. x ≡ domain_of domain.now) }
{
    let name = domain.name.copy(alloc)?;
    Ok(DomainPart {
        name,
        channels: domain.channels as u32,
    })
}

/// The domains.
fn domains_of(alloc: Global, domains: &[DraftDomain]) -> Result<Vec<DomainPart>, AllocError>
    requires { channels_fault domains.now ≡ None }
    ensures { IfOk result (λ v. v.items ≡ map domain_of domains.now) }
{
    let mut parts = Vec::new(alloc);
    for domain in domains {
        parts.push(domain_of(alloc, domain)?)?;
    }
    Ok(parts)
}

/// A range of one of so many tiles.
#[tactic(auto, unfolding(crate::specs::Faults::is_in_order))]
fn range_of(tiles: u32, range: &DraftRange) -> Range
    requires tile { is_below tiles range.now.tile ≡ true }
    requires order { is_in_order range.now ≡ true }
    ensures { result ≡ range_of range.now }
{
    Range {
        tile: range.tile as u32,
        first: range.first as u32,
        last: range.last as u32,
    }
}

/// The ranges, in a network of so many tiles.
fn ranges_of(alloc: Global, tiles: u32, ranges: &[DraftRange]) -> Result<Vec<Range>, AllocError>
    requires tile { range_tile_fault tiles ranges.now ≡ None }
    requires order { range_order_fault ranges.now ≡ None }
    ensures { IfOk result (λ v. v.items ≡ map range_of ranges.now) }
{
    let mut parts = Vec::new(alloc);
    for range in ranges {
        parts.push(range_of(tiles, range))?;
    }
    Ok(parts)
}

/// The name of domain `d`.
fn name_at(domains: &[DraftDomain], d: u32) -> &[u8]
    requires { d < length domains.now }
    ensures { result.now ≡ name_at domains.now d }
{
    domains[d as usize].name.as_slice()
}

/// Whether an element for the tile names the domain.
fn is_hosted(elements: &[DraftTile], tile: u32, name: &[u8]) -> bool
    ensures { result ≡ is_hosted elements.now tile name.now }
{
    elements.iter().any(|element| {
        element.at == i64::from(tile) && is_among(element.domains.as_slice(), name)
    })
}

/// The attachments, by tile, then by domain.
fn hosts_of(
    alloc: Global,
    tiles: u32,
    domains: &[DraftDomain],
    elements: &[DraftTile],
) -> Result<Vec<Host>, AllocError>
    requires tiles { tiles ≤ most_tiles }
    requires some { 1 ≤ length domains.now }
    requires few { length domains.now ≤ most_domains }
    ensures { IfOk result (λ v. v.items ≡ hosts_of tiles domains.now elements.now) }
{
    let count = domains.len() as u32;
    let mut hosts = Vec::new(alloc);
    for k in 0..tiles * count {
        let host = Host {
            tile: k / count,
            domain: k % count,
        };
        if is_hosted(elements, host.tile, name_at(domains, host.domain)) {
            hosts.push(host)?;
        }
    }
    Ok(hosts)
}

/// A slot for each domain, in order.
fn own_slots(alloc: Global, count: usize) -> Result<Vec<u32>, AllocError>
    requires { count ≤ most_domains }
    ensures { IfOk result (λ v. v.items ≡ range_with_len 0 count) }
{
    let mut slots = Vec::new(alloc);
    for d in 0..count {
        slots.push(d as u32)?;
    }
    Ok(slots)
}

/// The number of the first domain of this name; 0 where there is none.
fn domain_number(domains: &[DraftDomain], name: &[u8]) -> u32
    requires { length domains.now ≤ most_domains }
    ensures { result ≡ domain_number domains.now name.now }
{
    for (d, domain) in domains.iter().enumerate() {
        if domain.name.as_slice() == name {
            return d as u32;
        }
    }
    0
}

/// The slots that are listed.
fn listed_slots(
    alloc: Global,
    domains: &[DraftDomain],
    slots: &[Bytes],
) -> Result<Vec<u32>, AllocError>
    requires { length domains.now ≤ most_domains }
    ensures { IfOk result (λ v. v.items ≡ map (domain_number domains.now) slots.now) }
{
    let mut numbers = Vec::new(alloc);
    for name in slots {
        numbers.push(domain_number(domains, name.as_slice()))?;
    }
    Ok(numbers)
}

/// The slots of a version.
fn slots_of(
    alloc: Global,
    version: i64,
    domains: &[DraftDomain],
    slots: &[Bytes],
) -> Result<Vec<u32>, AllocError>
    requires { length domains.now ≤ most_domains }
    ensures { IfOk result (λ v. v.items ≡ slots_of version domains.now slots.now) }
{
    if version == 1 {
        own_slots(alloc, domains.len())
    } else {
        listed_slots(alloc, domains, slots)
    }
}

/// The parts of the plan that the draft says, of so many tiles.
pub(crate) fn parts_of(alloc: Global, tiles: u32, draft: &Draft) -> Result<Parts, AllocError>
    requires tiles { tiles ≡ tile_count draft.now.dims }
    requires form { form_fault draft.now ≡ None }
    requires domains { domains_fault draft.now ≡ None }
    requires ranges { ranges_fault draft.now ≡ None }
    ensures { IfOk result (λ parts. plan_of parts ≡ plan_of_draft draft.now) }
{
    let domains = draft.domains.as_slice();
    Ok(Parts {
        torus: draft.shape.as_slice() == b"torus".as_slice(),
        dims: sides_of(alloc, draft.dims.as_slice())?,
        stages: stages_of(draft),
        buffer: buffer_of(draft),
        domains: domains_of(alloc, domains)?,
        hosts: hosts_of(alloc, tiles, domains, draft.tiles.as_slice())?,
        ranges: ranges_of(alloc, tiles, draft.ranges.as_slice())?,
        slots: slots_of(alloc, draft.version, domains, draft.slots.as_slice())?,
    })
}
