//! Worked plans: small networks that tests simulate, write and read.
//!
//! Each function makes one plan. Its contract promises the plan of the same name among the examples of `noc_model`,
//! so a test's proof can compute with it. What is worked out over a plan, and by hand, is left to the tests.
#![tactic(auto)]

ghost use Rattle.std.specs.Prelude.{◌≡◌, map, take, IfOk};
ghost use Rattle.noc_model.specs.Sound.{IsSound};
ghost use Rattle.noc_model.specs.Examples as examples;
ghost use Rattle.worked_plans.specs.Shapes.{named, plan_in};

use noc_model::{DomainPart, Host, Parts, Plan, Range};
use std::alloc::{AllocError, Global};
use surf_base::Bytes;

/// What worked plans differ in. Each domain has one channel, and a name of one byte.
#[derive(Clone, Copy)]
struct Shape<'a> {
    torus: bool,
    dims: &'a [u32],
    stages: u32,
    buffer: u32,
    names: &'a [u8],
    hosts: &'a [Host],
    ranges: &'a [Range],
    slots: &'a [u32],
}

/// The domains of these names.
fn domains_of(alloc: Global, names: &[u8]) -> Result<Vec<DomainPart>, AllocError>
    ensures { IfOk result (λ domains. domains.items ≡ map named names.now) }
{
    let mut domains = Vec::new(alloc);
    for name in names {
        let name = Bytes::from_slice(alloc, &[*name])?;
        domains.push(DomainPart { name, channels: 1 })?;
    }
    Ok(domains)
}

/// The plan of a shape.
fn plan_in(alloc: Global, shape: &Shape<'_>) -> Result<Plan, AllocError>
    requires { IsSound (plan_in shape.now) }
    ensures { IfOk result (λ plan. plan ≡ plan_in shape.now) }
{
    let dims = Vec::from_slice(alloc, shape.dims)?;
    let domains = domains_of(alloc, shape.names)?;
    let hosts = Vec::from_slice(alloc, shape.hosts)?;
    let ranges = Vec::from_slice(alloc, shape.ranges)?;
    let slots = Vec::from_slice(alloc, shape.slots)?;
    Ok(Plan::new(Parts {
        torus: shape.torus,
        dims,
        stages: shape.stages,
        buffer: shape.buffer,
        domains,
        hosts,
        ranges,
        slots,
    }))
}

/// An attachment.
fn host(tile: u32, domain: u32) -> Host
    ensures { result ≡ record { tile = tile; domain = domain } }
{
    Host { tile, domain }
}

/// The addresses of a tile.
fn range(tile: u32, first: u32, last: u32) -> Range
    ensures { result ≡ record { tile = tile; first = first; last = last } }
{
    Range { tile, first, last }
}

/// One tile, which hosts domain `a` and answers the addresses 0x10 to 0x1f.
///
/// # Errors
///
/// When memory runs out.
pub fn one_tile(alloc: Global) -> Result<Plan, AllocError>
    ensures { IfOk result (λ plan. plan ≡ examples.one_tile) }
{
    let shape = Shape {
        torus: false,
        dims: &[1],
        stages: 1,
        buffer: 2,
        names: b"a",
        hosts: &[host(0, 0)],
        ranges: &[range(0, 0x10, 0x1f)],
        slots: &[0],
    };
    plan_in(alloc, &shape)
}

/// Two tiles in a row, which both host the domains `a` and `b`. Tile 0 answers the addresses 0 to 0xff, and tile 1
/// those from 0x100 to 0x1ff.
///
/// # Errors
///
/// When memory runs out.
pub fn two_tiles(alloc: Global) -> Result<Plan, AllocError>
    ensures { IfOk result (λ plan. plan ≡ examples.two_tiles) }
{
    let shape = Shape {
        torus: false,
        dims: &[2],
        stages: 1,
        buffer: 2,
        names: b"ab",
        hosts: &[host(0, 0), host(0, 1), host(1, 0), host(1, 1)],
        ranges: &[range(0, 0x0, 0xff), range(1, 0x100, 0x1ff)],
        slots: &[0, 1],
    };
    plan_in(alloc, &shape)
}

/// Three tiles in a row, which all host domain `a`, with buffers of four flits.
///
/// # Errors
///
/// When memory runs out.
pub fn three_in_a_row(alloc: Global) -> Result<Plan, AllocError>
    ensures { IfOk result (λ plan. plan ≡ examples.three_in_a_row) }
{
    let shape = Shape {
        torus: false,
        dims: &[3],
        stages: 1,
        buffer: 4,
        names: b"a",
        hosts: &[host(0, 0), host(1, 0), host(2, 0)],
        ranges: &[range(1, 0x100, 0x1ff)],
        slots: &[0],
    };
    plan_in(alloc, &shape)
}

/// Three tiles in a ring, which all host domain `a`.
///
/// # Errors
///
/// When memory runs out.
pub fn ring_of_three(alloc: Global) -> Result<Plan, AllocError>
    ensures { IfOk result (λ plan. plan ≡ examples.ring_of_three) }
{
    let shape = Shape {
        torus: true,
        dims: &[3],
        stages: 1,
        buffer: 2,
        names: b"a",
        hosts: &[host(0, 0), host(1, 0), host(2, 0)],
        ranges: &[range(0, 0x0, 0xff)],
        slots: &[0],
    };
    plan_in(alloc, &shape)
}

/// Four tiles in a ring, of which tiles 0 and 2 host domain `a`.
///
/// # Errors
///
/// When memory runs out.
pub fn ring_of_four(alloc: Global) -> Result<Plan, AllocError>
    ensures { IfOk result (λ plan. plan ≡ examples.ring_of_four) }
{
    let shape = Shape {
        torus: true,
        dims: &[4],
        stages: 1,
        buffer: 2,
        names: b"a",
        hosts: &[host(0, 0), host(2, 0)],
        ranges: &[range(2, 0x200, 0x2ff)],
        slots: &[0],
    };
    plan_in(alloc, &shape)
}

/// Five tiles in a row, with links of four registers. Both ends host the domains `a`, `b` and `c`.
///
/// # Errors
///
/// When memory runs out.
pub fn five_in_a_row(alloc: Global) -> Result<Plan, AllocError>
    ensures { IfOk result (λ plan. plan ≡ examples.five_in_a_row) }
{
    let shape = Shape {
        torus: false,
        dims: &[5],
        stages: 4,
        buffer: 2,
        names: b"abc",
        hosts: &[
            host(0, 0),
            host(0, 1),
            host(0, 2),
            host(4, 0),
            host(4, 1),
            host(4, 2),
        ],
        ranges: &[range(0, 0x0, 0xff), range(4, 0x400, 0x4ff)],
        slots: &[0, 1, 2],
    };
    plan_in(alloc, &shape)
}

/// The two tiles, of which tile 0 hosts `a` alone and tile 1 `b` alone.
///
/// # Errors
///
/// When memory runs out.
pub fn split_domains(alloc: Global) -> Result<Plan, AllocError>
    ensures { IfOk result (λ plan. plan ≡ examples.split_domains) }
{
    let shape = Shape {
        torus: false,
        dims: &[2],
        stages: 1,
        buffer: 2,
        names: b"ab",
        hosts: &[host(0, 0), host(1, 1)],
        ranges: &[range(1, 0x100, 0x1ff)],
        slots: &[0, 1],
    };
    plan_in(alloc, &shape)
}

/// The two tiles, where `a` owns two of three slots.
///
/// # Errors
///
/// When memory runs out.
pub fn weighted_slots(alloc: Global) -> Result<Plan, AllocError>
    ensures { IfOk result (λ plan. plan ≡ examples.weighted_slots) }
{
    let shape = Shape {
        torus: false,
        dims: &[2],
        stages: 1,
        buffer: 2,
        names: b"ab",
        hosts: &[host(0, 0), host(0, 1), host(1, 0), host(1, 1)],
        ranges: &[range(0, 0x0, 0xff), range(1, 0x100, 0x1ff)],
        slots: &[0, 0, 1],
    };
    plan_in(alloc, &shape)
}

/// Two tiles along each of three dimensions. Two opposite corners host domain `a`.
///
/// # Errors
///
/// When memory runs out.
pub fn cube(alloc: Global) -> Result<Plan, AllocError>
    ensures { IfOk result (λ plan. plan ≡ examples.cube) }
{
    let shape = Shape {
        torus: false,
        dims: &[2, 2, 2],
        stages: 1,
        buffer: 2,
        names: b"a",
        hosts: &[host(0, 0), host(7, 0)],
        ranges: &[range(7, 0x700, 0x7ff)],
        slots: &[0],
    };
    plan_in(alloc, &shape)
}

#[cfg(test)]
mod tests {
    use super::*;
    use std::test::Fail;

    #[test]
    fn plans_are_made(rt: HostRuntime) -> Result<(), Fail> {
        let alloc = rt.alloc();
        for (plan, tiles, places) in [
            (one_tile(alloc)?, 1, 6),
            (two_tiles(alloc)?, 2, 24),
            (three_in_a_row(alloc)?, 3, 36),
            (ring_of_three(alloc)?, 3, 36),
            (ring_of_four(alloc)?, 4, 48),
            (five_in_a_row(alloc)?, 5, 90),
            (split_domains(alloc)?, 2, 24),
            (weighted_slots(alloc)?, 2, 24),
            (cube(alloc)?, 8, 112),
        ] {
            assert_eq!(rt; plan.tiles(), tiles);
            assert_eq!(rt; plan.places(), places);
        }
        Ok(())
    }
}
