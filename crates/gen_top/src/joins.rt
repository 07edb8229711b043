//! The instance of a tile's leaf, and what its ports are joined to.

ghost use Rattle.std.specs.Prelude.{◌≡◌, ◌<◌, ◌++◌, ◌∷◌, [], OnOk, IfOk};
ghost use Rattle.noc_model.specs.Plan.{Plan as PlanValue, tiles, ports};
ghost use Rattle.noc_model.specs.Place.{neighbour, opposite};
ghost use Rattle.gen_kit.specs.Ports.{name_with};
ghost use Rattle.gen_kit.specs.Shape.{first_ties, second_ties, host_ties, link_ties, tile_instance, tile_ties};
ghost use Rattle.gen_top.specs.Joined.{hosts_at, joins_of, ties_below};

use crate::ports::{KINDS, host_port_name};
use crate::wires::credit_bits;
use gen_kit::name_of;
use noc_model::{Host, Plan, Way};
use std::alloc::{AllocError, Global};
use surf_base::Seq;
use vl_tree::{Join, Joins, TopItem};

/// Joins the ports of an attachment to the top's ports of the same names.
fn host_joins(alloc: Global, host: Host, joins: &mut Joins) -> Result<(), AllocError>
    ensures { OnOk result (joins.new ≡ joins.old ++ joins_of (host_ties host)) }
{
    for kind in 0..KINDS {
        let name = host_port_name(alloc, host, kind)?;
        joins.push(Join {
            port: name.copy(alloc)?,
            net: name,
        })?;
    }
    Ok(())
}

/// Joins them where the attachment is of the tile.
fn joins_at(alloc: Global, tile: u32, host: Host, joins: &mut Joins) -> Result<(), AllocError>
    ensures { OnOk result (joins.new ≡ joins.old ++ joins_of (hosts_at tile (host ∷ []))) }
{
    if host.tile != tile {
        return Ok(());
    }
    host_joins(alloc, host, joins)
}

/// The joins of the tile's attachments, in order.
fn all_host_joins(
    alloc: Global,
    plan: &Plan,
    tile: u32,
    joins: &mut Joins,
) -> Result<(), AllocError>
    ensures { OnOk result (joins.new ≡ joins.old ++ joins_of (hosts_at tile plan.now.hosts)) }
{
    for j in 0..plan.attach_count() {
        joins_at(alloc, tile, plan.attach(j), joins)?;
    }
    Ok(())
}

/// The port by which a link arrives that leaves by this one.
fn opposite(port: u32) -> u32
    requires { port < 7 }
    ensures { result ≡ opposite port }
{
    Way::of_port(port).opposite().port()
}

/// Joins a port of an instance to a net of the top, each by its head and its numbers.
fn join(
    alloc: Global,
    port: &[u8],
    at: &[u32],
    net: &[u8],
    from: &[u32],
    joins: &mut Joins,
) -> Result<(), AllocError>
    ensures { OnOk result (joins.new ≡ joins.old
        ++ record { port = name_with port.now at.now; net = name_with net.now from.now } ∷ []) }
{
    joins.push(Join {
        port: name_of(alloc, port, at)?,
        net: name_of(alloc, net, from)?,
    })
}

/// Joins a link's words and its first credits, in and out: what comes in leaves tile `from` by port `back`.
fn first_joins(
    alloc: Global,
    tile: u32,
    port: u32,
    from: u32,
    back: u32,
    joins: &mut Joins,
) -> Result<(), AllocError>
    ensures { (p : PlanValue) → OnOk result
        (joins.new ≡ joins.old ++ joins_of (first_ties p tile port from back)) }
{
    join(alloc, b"li", &[tile, port], b"lw", &[from, back], joins)?;
    join(alloc, b"lo", &[tile, port], b"lw", &[tile, port], joins)?;
    join(alloc, b"ci", &[tile, port], b"cw", &[from, back], joins)?;
    join(alloc, b"co", &[tile, port], b"cw", &[tile, port], joins)
}

/// Joins the credits behind the first 64, in and out.
fn second_joins(
    alloc: Global,
    tile: u32,
    port: u32,
    from: u32,
    back: u32,
    joins: &mut Joins,
) -> Result<(), AllocError>
    ensures { (p : PlanValue) → OnOk result
        (joins.new ≡ joins.old ++ joins_of (second_ties p tile port from back)) }
{
    join(
        alloc,
        b"ci",
        &[tile, port, 1],
        b"cw",
        &[from, back, 1],
        joins,
    )?;
    join(
        alloc,
        b"co",
        &[tile, port, 1],
        b"cw",
        &[tile, port, 1],
        joins,
    )
}

/// Joins the link by a port of the tile, where there is one.
fn link_joins(
    alloc: Global,
    plan: &Plan,
    tile: u32,
    port: u32,
    joins: &mut Joins,
) -> Result<(), AllocError>
    requires tile { tile < tiles plan.now }
    requires port { port < ports plan.now }
    ensures { OnOk result (joins.new
        ≡ joins.old ++ joins_of (link_ties plan.now tile port (neighbour plan.now tile port))) }
{
    plan.known();
    let Some(from) = plan.neighbour(tile, port) else {
        return Ok(());
    };
    let back = opposite(port);
    first_joins(alloc, tile, port, from, back, joins)?;
    if credit_bits(plan) <= 64 {
        return Ok(());
    }
    second_joins(alloc, tile, port, from, back, joins)
}

/// The joins of all links of the tile, by port.
fn all_link_joins(
    alloc: Global,
    plan: &Plan,
    tile: u32,
    joins: &mut Joins,
) -> Result<(), AllocError>
    requires { tile < tiles plan.now }
    ensures { OnOk result (joins.new ≡ joins.old ++ joins_of (ties_below plan.now tile (ports plan.now))) }
{
    for port in 0..plan.ports() {
        link_joins(alloc, plan, tile, port, joins)?;
    }
    Ok(())
}

fn tile_joins(alloc: Global, plan: &Plan, tile: u32) -> Result<Joins, AllocError>
    requires { tile < tiles plan.now }
    ensures { IfOk result (λ joins. joins ≡ joins_of (tile_ties plan.now tile)) }
{
    let mut joins = Seq::new(alloc);
    all_host_joins(alloc, plan, tile, &mut joins)?;
    all_link_joins(alloc, plan, tile, &mut joins)?;
    Ok(joins)
}

/// The instance of a tile's leaf.
///
/// # Errors
///
/// Memory ran out.
pub fn tile_instance(alloc: Global, plan: &Plan, tile: u32) -> Result<TopItem, AllocError>
    requires { tile < tiles plan.now }
    ensures { IfOk result (λ item. item ≡ tile_instance plan.now tile) }
{
    Ok(TopItem::Instance {
        leaf: name_of(alloc, b"router", &[tile])?,
        name: name_of(alloc, b"tile", &[tile])?,
        joins: tile_joins(alloc, plan, tile)?,
    })
}
