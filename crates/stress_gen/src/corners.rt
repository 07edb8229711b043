//! The plan of a stress run.

ghost use Rattle.std.specs.Prelude.{◌≡◌, ◌++◌, ◌<◌, map, flat_map, IfOk, OnOk};
ghost use Rattle.std.specs.List.{range_with_len};
ghost use Rattle.stress_gen.specs.Corners.{domain, is_corner, hosts_at, range_of, shared_corners};

use noc_model::{DomainPart, Host, Parts, Plan, Range};
use std::alloc::{AllocError, Global};
use surf_base::Bytes;

/// The number of tiles.
const TILES: u32 = 16;

/// The number of domains.
const DOMAINS: u32 = 4;

/// The addresses of each tile.
const ADDRESSES: u32 = 4096;

/// The domains, by their numbers.
fn domains(alloc: Global) -> Result<Vec<DomainPart>, AllocError>
    ensures { IfOk result (λ domains. domains.items ≡ map domain (range_with_len 0 4)) }
{
    let mut domains = Vec::new(alloc);
    for d in 0..DOMAINS {
        let name = Bytes::from_slice(alloc, &[b'd', b'0' + d as u8])?;
        domains.push(DomainPart { name, channels: 1 })?;
    }
    Ok(domains)
}

/// Whether the tile is a corner.
fn is_corner(tile: u32) -> bool
    ensures { result ≡ is_corner tile }
{
    tile == 0 || tile == 3 || tile == 12 || tile == 15
}

/// Adds the attachments of a tile.
fn add_hosts(hosts: &mut Vec<Host>, tile: u32) -> Result<(), AllocError>
    ensures { OnOk result (hosts.new.items ≡ hosts.old.items ++ hosts_at tile) }
{
    if is_corner(tile) {
        for domain in 0..DOMAINS {
            hosts.push(Host { tile, domain })?;
        }
        return Ok(());
    }
    hosts.push(Host {
        tile,
        domain: tile % DOMAINS,
    })?;
    Ok(())
}

/// All attachments.
fn hosts(alloc: Global) -> Result<Vec<Host>, AllocError>
    ensures { IfOk result (λ hosts. hosts.items ≡ flat_map hosts_at (range_with_len 0 16)) }
{
    let mut hosts = Vec::new(alloc);
    for tile in 0..TILES {
        add_hosts(&mut hosts, tile)?;
    }
    Ok(hosts)
}

/// The addresses of all tiles.
fn ranges(alloc: Global) -> Result<Vec<Range>, AllocError>
    ensures { IfOk result (λ ranges. ranges.items ≡ map range_of (range_with_len 0 16)) }
{
    let mut ranges = Vec::new(alloc);
    for tile in 0..TILES {
        let first = ADDRESSES * tile;
        ranges.push(Range {
            tile,
            first,
            last: first + (ADDRESSES - 1),
        })?;
    }
    Ok(ranges)
}

/// The plan: a mesh of four by four tiles and four domains of one channel, `d0` to `d3`. A corner hosts all of them,
/// and each other tile the domain of its column. The addresses of a tile are the 4096 from 4096 times the tile on.
///
/// # Errors
///
/// When memory runs out.
pub fn shared_corners(alloc: Global) -> Result<Plan, AllocError>
    ensures { IfOk result (λ plan. plan ≡ shared_corners) }
{
    let dims = Vec::from_slice(alloc, &[4, 4])?;
    let domains = domains(alloc)?;
    let hosts = hosts(alloc)?;
    let ranges = ranges(alloc)?;
    let slots = Vec::from_slice(alloc, &[0, 1, 2, 3])?;
    Ok(Plan::new(Parts {
        torus: false,
        dims,
        stages: 1,
        buffer: 4,
        domains,
        hosts,
        ranges,
        slots,
    }))
}
