//! The ports of a tile's leaf.

ghost use Rattle.std.specs.Prelude.{◌≡◌, ◌<◌, ◌∷◌, [], OnOk};
ghost use Rattle.vl_tree.specs.Read.{read_leaf};
ghost use Rattle.noc_model.specs.Plan.{tiles, ports};
ghost use Rattle.gen_kit.specs.Ports.{host_ports};
ghost use Rattle.gen_kit.specs.Shape.{credit_bits, tile_head};
ghost use Rattle.gen_router.specs.Ports.{with_ports, offer_ports, ejection_ports, first_ports, second_ports, other_ports, link_ports, tile_hosts, tile_links};

use crate::order::bundle_name;
use crate::outs::{credit_bits, lesser};
use flit_word::link_bits;
use gen_kit::LeafWork;
use leaf_glue::has_link;
use leaf_parts::port_name;
use noc_model::{Host, Plan};
use std::alloc::{AllocError, Global};
use vl_tree::{Name, Port};

// Adds a port of `high + 1` bits.
fn port(work: &mut LeafWork, output: bool, high: u32, name: Name) -> Result<(), AllocError>
    ensures { OnOk result (read_leaf work.new.leaf ≡ with_ports (read_leaf work.old.leaf)
        (record { output = output; high = high; name = name } ∷ [])) }
{
    work.push_port(Port { output, high, name })
}

// What an attachment offers, and whether it hears.
fn offer_ports(alloc: Global, tile: u32, domain: u32, work: &mut LeafWork) -> Result<(), AllocError>
    ensures { OnOk result (read_leaf work.new.leaf ≡ with_ports (read_leaf work.old.leaf)
        (offer_ports tile domain)) }
{
    port(work, false, 0, port_name(alloc, b"ov", tile, domain)?)?;
    port(work, false, 31, port_name(alloc, b"oa", tile, domain)?)?;
    port(work, false, 31, port_name(alloc, b"op", tile, domain)?)?;
    port(work, false, 0, port_name(alloc, b"ol", tile, domain)?)?;
    port(work, false, 0, port_name(alloc, b"hr", tile, domain)?)
}

// What it is shown.
fn ejection_ports(
    alloc: Global,
    tile: u32,
    domain: u32,
    work: &mut LeafWork,
) -> Result<(), AllocError>
    ensures { OnOk result (read_leaf work.new.leaf ≡ with_ports (read_leaf work.old.leaf)
        (ejection_ports tile domain)) }
{
    port(work, true, 0, port_name(alloc, b"rd", tile, domain)?)?;
    port(work, true, 0, port_name(alloc, b"dr", tile, domain)?)?;
    port(work, true, 0, port_name(alloc, b"ev", tile, domain)?)?;
    port(work, true, 0, port_name(alloc, b"eh", tile, domain)?)?;
    port(work, true, 0, port_name(alloc, b"et", tile, domain)?)?;
    port(work, true, 31, port_name(alloc, b"ep", tile, domain)?)
}

fn host_ports(alloc: Global, host: Host, work: &mut LeafWork) -> Result<(), AllocError>
    ensures { OnOk result (read_leaf work.new.leaf ≡ with_ports (read_leaf work.old.leaf) (host_ports host)) }
{
    offer_ports(alloc, host.tile, host.domain, work)?;
    ejection_ports(alloc, host.tile, host.domain, work)?;
    Ok(())
}

// The ports of an attachment, where it is of the tile.
fn host_part(alloc: Global, tile: u32, host: Host, work: &mut LeafWork) -> Result<(), AllocError>
    ensures { OnOk result (read_leaf work.new.leaf ≡ with_ports (read_leaf work.old.leaf)
        (tile_hosts tile (host ∷ []))) }
{
    if host.tile != tile {
        return Ok(());
    }
    host_ports(alloc, host, work)?;
    Ok(())
}

// The ports of the tile's attachments, in order.
fn all_host_ports(
    alloc: Global,
    plan: &Plan,
    tile: u32,
    work: &mut LeafWork,
) -> Result<(), AllocError>
    ensures { OnOk result (read_leaf work.new.leaf ≡ with_ports (read_leaf work.old.leaf)
        (tile_hosts tile plan.now.hosts)) }
{
    for j in 0..plan.attach_count() {
        host_part(alloc, tile, plan.attach(j), work)?;
    }
    Ok(())
}

// The words of a link, in and out, and its credits, in and out; all of them, or the first 64.
fn first_ports(
    alloc: Global,
    plan: &Plan,
    tile: u32,
    out: u32,
    work: &mut LeafWork,
) -> Result<(), AllocError>
    ensures { OnOk result (read_leaf work.new.leaf ≡ with_ports (read_leaf work.old.leaf)
        (first_ports plan.now tile out)) }
{
    let word = link_bits(plan) - 1;
    port(work, false, word, port_name(alloc, b"li", tile, out)?)?;
    port(work, true, word, port_name(alloc, b"lo", tile, out)?)?;
    let credits = lesser(credit_bits(plan), 64) - 1;
    port(work, false, credits, port_name(alloc, b"ci", tile, out)?)?;
    port(work, true, credits, port_name(alloc, b"co", tile, out)?)
}

// The other credits.
fn second_ports(
    alloc: Global,
    plan: &Plan,
    tile: u32,
    out: u32,
    work: &mut LeafWork,
) -> Result<(), AllocError>
    requires { 64 < credit_bits plan.now }
    ensures { OnOk result (read_leaf work.new.leaf ≡ with_ports (read_leaf work.old.leaf)
        (second_ports plan.now tile out)) }
{
    let credits = credit_bits(plan) - 64 - 1;
    port(
        work,
        false,
        credits,
        bundle_name(alloc, b"ci", tile, out, 64)?,
    )?;
    port(
        work,
        true,
        credits,
        bundle_name(alloc, b"co", tile, out, 64)?,
    )
}

fn other_ports(
    alloc: Global,
    plan: &Plan,
    tile: u32,
    out: u32,
    work: &mut LeafWork,
) -> Result<(), AllocError>
    ensures { OnOk result (read_leaf work.new.leaf ≡ with_ports (read_leaf work.old.leaf)
        (other_ports plan.now tile out)) }
{
    if credit_bits(plan) <= 64 {
        return Ok(());
    }
    second_ports(alloc, plan, tile, out, work)?;
    Ok(())
}

fn link_ports(
    alloc: Global,
    plan: &Plan,
    tile: u32,
    out: u32,
    work: &mut LeafWork,
) -> Result<(), AllocError>
    requires tile { tile < tiles plan.now }
    requires out { out < ports plan.now }
    ensures { OnOk result (read_leaf work.new.leaf ≡ with_ports (read_leaf work.old.leaf)
        (link_ports plan.now tile out)) }
{
    if !has_link(plan, tile, out) {
        return Ok(());
    }
    first_ports(alloc, plan, tile, out, work)?;
    other_ports(alloc, plan, tile, out, work)?;
    Ok(())
}

fn all_link_ports(
    alloc: Global,
    plan: &Plan,
    tile: u32,
    work: &mut LeafWork,
) -> Result<(), AllocError>
    requires tile { tile < tiles plan.now }
    ensures { OnOk result (read_leaf work.new.leaf ≡ with_ports (read_leaf work.old.leaf)
        (tile_links plan.now tile (ports plan.now))) }
{
    for out in 0..plan.ports() {
        link_ports(alloc, plan, tile, out, work)?;
    }
    Ok(())
}

/// Adds the ports of the tile's leaf.
///
/// # Errors
///
/// Memory ran out.
pub fn tile_ports(
    alloc: Global,
    plan: &Plan,
    tile: u32,
    work: &mut LeafWork,
) -> Result<(), AllocError>
    requires { tile < tiles plan.now }
    ensures { OnOk result (read_leaf work.new.leaf ≡ with_ports (read_leaf work.old.leaf)
        (tile_head plan.now tile).ports) }
{
    all_host_ports(alloc, plan, tile, work)?;
    all_link_ports(alloc, plan, tile, work)?;
    Ok(())
}
