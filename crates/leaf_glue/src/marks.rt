//! Vectors with a bit for each place of a domain, read from the fronts of its buffers.

ghost use Rattle.std.specs.Prelude.{◌≡◌, ◌<◌, ◌≤◌, ◌+◌, ◌-◌, length, is_some, OnOk, IfOk};
ghost use Rattle.vl_tree.specs.Read.{read, read_leaf};
ghost use Rattle.vl_tree.specs.Values as values;
ghost use Rattle.vl_model.specs.Laws.{with_items};
ghost use Rattle.noc_model.specs.Plan.{tiles, ports, link_channels};
ghost use Rattle.noc_model.specs.Place.{neighbour};
ghost use Rattle.flit_word.specs.Words.{dest_bits};
ghost use Rattle.gen_kit.specs.Families.{row_parts};
ghost use Rattle.leaf_tie.specs.Glue.{has_port, has_place, placed, place_bits, filled_group, tails_group, led_group};
ghost use Rattle.leaf_tie.specs.Names.{leaf_names, net_names};
ghost use Rattle.leaf_parts.specs.Phases.{items_of};
ghost use Rattle.leaf_glue.specs.Marks.{mark_at, port_marks, with_bit};

use flit_word::dest_bits;
use gen_kit::{LeafWork, bit, cat, net, not, number, own_name, two};
use leaf_parts::{Phase, buffer_tag, high, net_name, register_name};
use noc_model::Plan;
use sqlite_items::Items;
use std::alloc::{AllocError, Global};
use vc_partition::channel_count;
use vl_tree::{Expr, Op};

/// What is asked of the buffer at a place: whether it has a flit, or a bit of the word at its front.
#[derive(Clone, Copy)]
pub enum Mark {
    Filled,
    Front(u32),
}

/// Whether a link leaves the tile by the port.
pub fn has_link(plan: &Plan, tile: u32, port: u32) -> bool
    requires tile { tile < tiles plan.now }
    requires port { port < ports plan.now }
    ensures { result ≡ is_some (neighbour plan.now tile port) }
{
    plan.neighbour(tile, port).is_some()
}

/// Whether the domain has a port at the tile.
pub fn has_port(plan: &Plan, tile: u32, domain: u32, port: u32) -> bool
    requires tile { tile < tiles plan.now }
    requires port { port < ports plan.now }
    ensures { result ≡ has_port plan.now tile domain port }
{
    if port == 0 {
        plan.hosts(tile, domain)
    } else {
        has_link(plan, tile, port)
    }
}

fn mark_at(
    alloc: Global,
    plan: &Plan,
    domain: u32,
    mark: Mark,
    port: u32,
    channel: u32,
) -> Result<Expr, AllocError>
    requires domain { domain < length plan.now.domains }
    requires port { port < ports plan.now }
    requires channel { channel < 8 }
    ensures { IfOk result (λ e. read e ≡ mark_at domain mark port channel) }
{
    let tag = buffer_tag(plan, domain, port, channel);
    match mark {
        Mark::Filled => not(alloc, net(alloc, &own_name(alloc, tag, &[5])?)?),
        Mark::Front(k) => bit(alloc, &own_name(alloc, tag, &[4])?, k),
    }
}

fn placed(
    alloc: Global,
    plan: &Plan,
    tile: u32,
    domain: u32,
    mark: Mark,
    port: u32,
    channel: u32,
) -> Result<Expr, AllocError>
    requires tile { tile < tiles plan.now }
    requires domain { domain < length plan.now.domains }
    requires port { port < ports plan.now }
    requires channel { channel < 8 }
    ensures { IfOk result (λ e. read e ≡ placed plan.now tile domain (mark_at domain mark) port channel) }
{
    if has_port(plan, tile, domain, port) && channel < channel_count(plan, domain, port) {
        mark_at(alloc, plan, domain, mark, port, channel)
    } else {
        Ok(number(1, 0))
    }
}

// The marks of a port's channels, the last channel first.
fn port_marks(
    alloc: Global,
    plan: &Plan,
    tile: u32,
    domain: u32,
    mark: Mark,
    port: u32,
) -> Result<Expr, AllocError>
    requires tile { tile < tiles plan.now }
    requires domain { domain < length plan.now.domains }
    requires port { port < ports plan.now }
    ensures { IfOk result (λ e. read e ≡ port_marks plan.now tile domain mark port) }
{
    let count = plan.link_channels(domain) - 1 + 1;
    let mut row = Items::new(alloc);
    for channel in 0..count {
        let one = placed(alloc, plan, tile, domain, mark, port, count - 1 - channel)?;
        row.push(one)?;
    }
    Ok(cat(row))
}

// The marks of all places.
fn place_bits(
    alloc: Global,
    plan: &Plan,
    tile: u32,
    domain: u32,
    mark: Mark,
) -> Result<Expr, AllocError>
    requires tile { tile < tiles plan.now }
    requires domain { domain < length plan.now.domains }
    ensures { IfOk result (λ e. read e ≡ place_bits plan.now tile domain (mark_at domain mark)) }
{
    let count = plan.ports() - 1 + 1;
    let mut row = Items::new(alloc);
    for port in 0..count {
        let one = port_marks(alloc, plan, tile, domain, mark, count - 1 - port)?;
        row.push(one)?;
    }
    Ok(cat(row))
}

/// Writes a part of the group of the places that have a flit.
///
/// # Errors
///
/// Memory ran out.
pub fn filled(
    alloc: Global,
    phase: Phase,
    plan: &Plan,
    tile: u32,
    domain: u32,
    work: &mut LeafWork,
) -> Result<(), AllocError>
    requires tile { tile < tiles plan.now }
    requires domain { domain < length plan.now.domains }
    ensures { OnOk result (read_leaf work.new.leaf ≡ with_items (read_leaf work.old.leaf)
        (items_of phase (filled_group plan.now tile leaf_names net_names domain))) }
{
    match phase {
        Phase::Nets => {
            let value = place_bits(alloc, plan, tile, domain, Mark::Filled)?;
            let name = net_name(alloc, plan, domain, 0, 0, 0)?;
            work.define(alloc, high(plan, domain), &name, value)
        }
        _ => Ok(()),
    }
}

// The places with a flit whose word has bit `k`.
fn with_bit(alloc: Global, plan: &Plan, tile: u32, domain: u32, k: u32) -> Result<Expr, AllocError>
    requires tile { tile < tiles plan.now }
    requires domain { domain < length plan.now.domains }
    ensures { IfOk result (λ e. read e ≡ with_bit plan.now tile domain k) }
{
    plan.known();
    let these = place_bits(alloc, plan, tile, domain, Mark::Front(k))?;
    let filled = net(alloc, &net_name(alloc, plan, domain, 0, 0, 0)?)?;
    two(alloc, Op::And, filled, these)
}

/// Writes a part of the group of the places whose front flit is the last of its packet.
///
/// # Errors
///
/// Memory ran out.
pub fn tails(
    alloc: Global,
    phase: Phase,
    plan: &Plan,
    tile: u32,
    domain: u32,
    work: &mut LeafWork,
) -> Result<(), AllocError>
    requires tile { tile < tiles plan.now }
    requires domain { domain < length plan.now.domains }
    ensures { OnOk result (read_leaf work.new.leaf ≡ with_items (read_leaf work.old.leaf)
        (items_of phase (tails_group plan.now tile leaf_names net_names (dest_bits plan.now) domain))) }
{
    plan.known();
    match phase {
        Phase::Nets => {
            let value = with_bit(alloc, plan, tile, domain, 32 + dest_bits(plan))?;
            let name = net_name(alloc, plan, domain, 0, 0, 1)?;
            work.define(alloc, high(plan, domain), &name, value)
        }
        _ => Ok(()),
    }
}

/// Writes a part of the group of the places that become routed to an output.
///
/// # Errors
///
/// Memory ran out.
pub fn led(
    alloc: Global,
    phase: Phase,
    plan: &Plan,
    tile: u32,
    domain: u32,
    out: u32,
    work: &mut LeafWork,
) -> Result<(), AllocError>
    requires tile { tile < tiles plan.now }
    requires domain { domain < length plan.now.domains }
    requires out { out < ports plan.now }
    ensures { OnOk result (read_leaf work.new.leaf ≡ with_items (read_leaf work.old.leaf)
        (items_of phase (led_group plan.now tile leaf_names net_names (dest_bits plan.now) domain out))) }
{
    plan.known();
    match phase {
        Phase::Nets => {
            let idle = register_name(alloc, plan, domain, 3, 0, 0)?;
            let these = with_bit(alloc, plan, tile, domain, 34 + dest_bits(plan) + out)?;
            let value = two(alloc, Op::And, net(alloc, &idle)?, these)?;
            let name = net_name(alloc, plan, domain, 1, out, 0)?;
            work.define(alloc, high(plan, domain), &name, value)
        }
        _ => Ok(()),
    }
}
