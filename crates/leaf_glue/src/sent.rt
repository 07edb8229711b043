//! The flits that leave a domain's input ports, and what goes by its outputs.

ghost use Rattle.std.specs.Prelude.{◌≡◌, ◌<◌, ◌≤◌, ◌+◌, ◌-◌, length, OnOk, IfOk};
ghost use Rattle.vl_tree.specs.Read.{read, read_leaf};
ghost use Rattle.vl_tree.specs.Values as values;
ghost use Rattle.vl_model.specs.Laws.{with_items};
ghost use Rattle.noc_model.specs.Plan.{tiles, ports, link_channels, in_channels, out_channels};
ghost use Rattle.flit_word.specs.Words.{dest_bits, channel_bits, flit_bits};
ghost use Rattle.gen_kit.specs.Families.{in_bits, or_upto, row_parts};
ghost use Rattle.leaf_tie.specs.Glue.{ends_group, some_active, on_group, freed_group, out_high, flit_group, port_flit, out_flit, out_channel, word_group, eject_group, pulse_group};
ghost use Rattle.leaf_tie.specs.Names.{leaf_names, net_names, port_names};
ghost use Rattle.leaf_parts.specs.Phases.{items_of};
ghost use Rattle.leaf_glue.specs.Sent.{ends_at_channel, gated_front, gated_port, gated_channel, on_net, ejected_word};

use crate::marks::has_port;
use flit_word::{channel_bits, dest_bits, flit_bits};
use gen_kit::{LeafWork, bit, cat, cond, net, not, number, own_name, part, two};
use leaf_parts::{
    Phase, both, buffer_tag, clock_zero, empty, gated, high, net_name, on_name, out_count,
    port_name, register, register_name,
};
use noc_model::Plan;
use sqlite_items::Items;
use std::alloc::{AllocError, Global};
use vc_partition::channel_count;
use vl_tree::{Expr, Name, Op};

/// Writes a part of the group of the places that the last flit of a packet leaves.
///
/// # Errors
///
/// Memory ran out.
pub fn ends(
    alloc: Global,
    phase: Phase,
    plan: &Plan,
    domain: u32,
    work: &mut LeafWork,
) -> Result<(), AllocError>
    requires domain { domain < length plan.now.domains }
    ensures { OnOk result (read_leaf work.new.leaf ≡ with_items (read_leaf work.old.leaf)
        (items_of phase (ends_group plan.now net_names domain))) }
{
    plan.known();
    match phase {
        Phase::Nets => {
            let leaves = net_name(alloc, plan, domain, 7, 0, 0)?;
            let tails = net_name(alloc, plan, domain, 0, 0, 1)?;
            let value = both(alloc, &leaves, &tails)?;
            let name = net_name(alloc, plan, domain, 7, 0, 1)?;
            work.define(alloc, high(plan, domain), &name, value)
        }
        _ => Ok(()),
    }
}

// Whether a place that is active on a channel is among these.
fn some_active(
    alloc: Global,
    plan: &Plan,
    domain: u32,
    out: u32,
    these: &Name,
    channel: u32,
) -> Result<Expr, AllocError>
    requires domain { domain < length plan.now.domains }
    requires out { out < ports plan.now }
    requires channel { channel < 8 }
    ensures { IfOk result (λ e. read e ≡ some_active plan.now leaf_names domain out these.now channel) }
{
    let active = register_name(alloc, plan, domain, 0, out, 3 + channel)?;
    let none = empty(alloc, high(plan, domain), both(alloc, &active, these)?)?;
    not(alloc, none)
}

/// Writes a part of the group that says whether a flit goes by a channel of an output; the net has stage 9 for a link
/// and 11 for the local output.
///
/// # Errors
///
/// Memory ran out.
pub fn on_channel(
    alloc: Global,
    phase: Phase,
    plan: &Plan,
    domain: u32,
    out: u32,
    channel: u32,
    work: &mut LeafWork,
) -> Result<(), AllocError>
    requires domain { domain < length plan.now.domains }
    requires out { out < ports plan.now }
    requires channel { channel < 8 }
    ensures { OnOk result (read_leaf work.new.leaf ≡ with_items (read_leaf work.old.leaf)
        (items_of phase (on_group plan.now leaf_names net_names domain out channel))) }
{
    plan.known();
    match phase {
        Phase::Nets => {
            let leaves = net_name(alloc, plan, domain, 7, 0, 0)?;
            let value = some_active(alloc, plan, domain, out, &leaves, channel)?;
            let name = on_name(alloc, plan, domain, out, channel)?;
            work.define(alloc, 0, &name, value)
        }
        _ => Ok(()),
    }
}

// Whether the last flit of a packet goes by a channel of an output.
fn ends_at_channel(
    alloc: Global,
    plan: &Plan,
    domain: u32,
    out: u32,
    channel: u32,
) -> Result<Expr, AllocError>
    requires domain { domain < length plan.now.domains }
    requires out { out < ports plan.now }
    requires channel { channel < 8 }
    ensures { IfOk result (λ e. read e ≡ ends_at_channel plan.now domain out channel) }
{
    plan.known();
    let ends = net_name(alloc, plan, domain, 7, 0, 1)?;
    some_active(alloc, plan, domain, out, &ends, channel)
}

// The channels of an output that the last flit of a packet goes by, the last channel first.
fn freed_row(alloc: Global, plan: &Plan, domain: u32, out: u32) -> Result<Expr, AllocError>
    requires domain { domain < length plan.now.domains }
    requires out { out < ports plan.now }
    ensures { IfOk result (λ e. read e ≡ values.cat (row_parts (ends_at_channel plan.now domain out) (out_high plan.now domain out))) }
{
    let count = out_count(plan, domain, out);
    let mut row = Items::new(alloc);
    for channel in 0..count {
        let one = ends_at_channel(alloc, plan, domain, out, count - 1 - channel)?;
        row.push(one)?;
    }
    Ok(cat(row))
}

/// Writes a part of the group of the channels of an output that the last flit of a packet goes by.
///
/// # Errors
///
/// Memory ran out.
pub fn freed(
    alloc: Global,
    phase: Phase,
    plan: &Plan,
    domain: u32,
    out: u32,
    work: &mut LeafWork,
) -> Result<(), AllocError>
    requires domain { domain < length plan.now.domains }
    requires out { out < ports plan.now }
    ensures { OnOk result (read_leaf work.new.leaf ≡ with_items (read_leaf work.old.leaf)
        (items_of phase (freed_group plan.now leaf_names net_names domain out))) }
{
    match phase {
        Phase::Nets => {
            let value = freed_row(alloc, plan, domain, out)?;
            let name = net_name(alloc, plan, domain, 8, out, 0)?;
            work.define(alloc, out_count(plan, domain, out) - 1, &name, value)
        }
        _ => Ok(()),
    }
}

// The flit at the front of a channel, where it leaves.
fn gated_front(
    alloc: Global,
    plan: &Plan,
    domain: u32,
    port: u32,
    channel: u32,
) -> Result<Expr, AllocError>
    requires domain { domain < length plan.now.domains }
    requires port { port < ports plan.now }
    requires channel { channel < 8 }
    ensures { IfOk result (λ e. read e ≡ gated_front plan.now domain port channel) }
{
    plan.known();
    let bits = dest_bits(plan);
    let place = port * plan.link_channels(domain) + channel;
    let leaves = net_name(alloc, plan, domain, 7, 0, 0)?;
    let front = own_name(alloc, buffer_tag(plan, domain, port, channel), &[4])?;
    let word = part(alloc, &front, 33 + bits, 0)?;
    gated(alloc, 34 + bits, bit(alloc, &leaves, place)?, word)
}

fn leaving_flit(alloc: Global, plan: &Plan, domain: u32, port: u32) -> Result<Expr, AllocError>
    requires domain { domain < length plan.now.domains }
    requires port { port < ports plan.now }
    ensures { IfOk result (λ e. read e
        ≡ or_upto (in_channels plan.now domain port - 1) (gated_front plan.now domain port)) }
{
    let mut all = gated_front(alloc, plan, domain, port, 0)?;
    for channel in 0..channel_count(plan, domain, port) - 1 {
        let more = gated_front(alloc, plan, domain, port, channel + 1)?;
        all = two(alloc, Op::Or, all, more)?;
    }
    Ok(all)
}

/// Writes a part of the group of the flit that leaves an input port.
///
/// # Errors
///
/// Memory ran out.
pub fn flit(
    alloc: Global,
    phase: Phase,
    plan: &Plan,
    domain: u32,
    port: u32,
    work: &mut LeafWork,
) -> Result<(), AllocError>
    requires domain { domain < length plan.now.domains }
    requires port { port < ports plan.now }
    ensures { OnOk result (read_leaf work.new.leaf ≡ with_items (read_leaf work.old.leaf)
        (items_of phase (flit_group plan.now leaf_names net_names (dest_bits plan.now) domain port))) }
{
    match phase {
        Phase::Nets => {
            let value = leaving_flit(alloc, plan, domain, port)?;
            let name = net_name(alloc, plan, domain, 8, port, 1)?;
            work.define(alloc, 33 + dest_bits(plan), &name, value)
        }
        _ => Ok(()),
    }
}

// The flit of an input port: a port that is not there has none.
fn port_flit(
    alloc: Global,
    plan: &Plan,
    tile: u32,
    domain: u32,
    port: u32,
) -> Result<Expr, AllocError>
    requires tile { tile < tiles plan.now }
    requires domain { domain < length plan.now.domains }
    requires port { port < ports plan.now }
    ensures { IfOk result (λ e. read e ≡ port_flit plan.now tile net_names (dest_bits plan.now) domain port) }
{
    if has_port(plan, tile, domain, port) {
        net(alloc, &net_name(alloc, plan, domain, 8, port, 1)?)
    } else {
        Ok(number(34 + dest_bits(plan), 0))
    }
}

// The flit of an input port, where an output's choice is the port.
fn gated_port(
    alloc: Global,
    plan: &Plan,
    tile: u32,
    domain: u32,
    out: u32,
    port: u32,
) -> Result<Expr, AllocError>
    requires tile { tile < tiles plan.now }
    requires domain { domain < length plan.now.domains }
    requires out { out < ports plan.now }
    requires port { port < ports plan.now }
    ensures { IfOk result (λ e. read e ≡ gated_port plan.now tile domain out port) }
{
    let winner = net_name(alloc, plan, domain, 5, out, 3)?;
    let flit = port_flit(alloc, plan, tile, domain, port)?;
    gated(
        alloc,
        34 + dest_bits(plan),
        bit(alloc, &winner, port)?,
        flit,
    )
}

// The flit that goes by an output, and 0 where none does.
fn out_flit(
    alloc: Global,
    plan: &Plan,
    tile: u32,
    domain: u32,
    out: u32,
) -> Result<Expr, AllocError>
    requires tile { tile < tiles plan.now }
    requires domain { domain < length plan.now.domains }
    requires out { out < ports plan.now }
    ensures { IfOk result (λ e. read e
        ≡ out_flit plan.now tile leaf_names net_names (dest_bits plan.now) domain out) }
{
    plan.known();
    let mut all = gated_port(alloc, plan, tile, domain, out, 0)?;
    for port in 0..plan.ports() - 1 {
        let more = gated_port(alloc, plan, tile, domain, out, port + 1)?;
        all = two(alloc, Op::Or, all, more)?;
    }
    Ok(all)
}

/// The number of a channel of a link.
pub fn channel_number(plan: &Plan, domain: u32, channel: u32) -> Expr
    requires domain { domain < length plan.now.domains }
    requires channel { channel < link_channels plan.now domain }
    ensures { read result ≡ in_bits (channel_bits plan.now) channel }
{
    number(channel_bits(plan), channel as u64)
}

// A channel's number, where a flit goes by the channel.
fn gated_channel(
    alloc: Global,
    plan: &Plan,
    domain: u32,
    out: u32,
    channel: u32,
) -> Result<Expr, AllocError>
    requires domain { domain < length plan.now.domains }
    requires out { out < ports plan.now }
    requires channel { channel < link_channels plan.now domain }
    ensures { IfOk result (λ e. read e ≡ gated_channel plan.now domain out channel) }
{
    let bits = channel_bits(plan);
    let on = net(alloc, &on_name(alloc, plan, domain, out, channel)?)?;
    gated(alloc, bits, on, channel_number(plan, domain, channel))
}

fn out_channel(alloc: Global, plan: &Plan, domain: u32, out: u32) -> Result<Expr, AllocError>
    requires domain { domain < length plan.now.domains }
    requires out { out < ports plan.now }
    ensures { IfOk result (λ e. read e ≡ out_channel plan.now net_names (channel_bits plan.now) domain out) }
{
    let last = plan.link_channels(domain) - 1;
    let mut all = gated_channel(alloc, plan, domain, out, 0)?;
    for channel in 0..last {
        let more = gated_channel(alloc, plan, domain, out, channel + 1)?;
        all = two(alloc, Op::Or, all, more)?;
    }
    Ok(all)
}

// Whether a flit goes by a link.
fn some_on(alloc: Global, plan: &Plan, domain: u32, out: u32) -> Result<Expr, AllocError>
    requires domain { domain < length plan.now.domains }
    requires out { out < ports plan.now }
    ensures { IfOk result (λ e. read e ≡ or_upto (link_channels plan.now domain - 1) (on_net domain out)) }
{
    let mut all = net(alloc, &on_name(alloc, plan, domain, out, 0)?)?;
    for channel in 0..plan.link_channels(domain) - 1 {
        let more = net(alloc, &on_name(alloc, plan, domain, out, channel + 1)?)?;
        all = two(alloc, Op::Or, all, more)?;
    }
    Ok(all)
}

/// Writes a part of the group of the word that the domain sends by a link.
///
/// # Errors
///
/// Memory ran out.
pub fn word(
    alloc: Global,
    phase: Phase,
    plan: &Plan,
    tile: u32,
    domain: u32,
    out: u32,
    work: &mut LeafWork,
) -> Result<(), AllocError>
    requires tile { tile < tiles plan.now }
    requires domain { domain < length plan.now.domains }
    requires out { out < ports plan.now }
    ensures { OnOk result (read_leaf work.new.leaf ≡ with_items (read_leaf work.old.leaf) (items_of phase
        (word_group plan.now tile leaf_names net_names (dest_bits plan.now) (flit_bits plan.now) (channel_bits plan.now)
        domain out))) }
{
    match phase {
        Phase::Nets => {
            let mut parts = Items::new(alloc);
            parts.push(some_on(alloc, plan, domain, out)?)?;
            parts.push(out_channel(alloc, plan, domain, out)?)?;
            parts.push(out_flit(alloc, plan, tile, domain, out)?)?;
            let high = channel_bits(plan) + flit_bits(plan);
            let name = net_name(alloc, plan, domain, 9, out, 8)?;
            work.define(alloc, high, &name, cat(parts))
        }
        _ => Ok(()),
    }
}

// What the ejection place has of a flit: a bit 1, head, tail, payload.
fn ejected_word(alloc: Global, plan: &Plan, domain: u32) -> Result<Expr, AllocError>
    requires domain { domain < length plan.now.domains }
    ensures { IfOk result (λ e. read e ≡ ejected_word plan.now domain) }
{
    plan.known();
    let bits = dest_bits(plan);
    let flit = net_name(alloc, plan, domain, 11, 0, 1)?;
    let mut parts = Items::new(alloc);
    parts.push(number(1, 1))?;
    parts.push(part(alloc, &flit, 33 + bits, 32 + bits)?)?;
    parts.push(part(alloc, &flit, 31, 0)?)?;
    Ok(cat(parts))
}

fn eject_moves(
    alloc: Global,
    plan: &Plan,
    tile: u32,
    domain: u32,
    work: &mut LeafWork,
) -> Result<(), AllocError>
    requires domain { domain < length plan.now.domains }
    ensures { OnOk result (read_leaf work.new.leaf ≡ with_items (read_leaf work.old.leaf)
        (eject_group plan.now tile leaf_names net_names (port_names tile) (dest_bits plan.now) domain).moves) }
{
    plan.known();
    let ejected = register_name(alloc, plan, domain, 5, 0, 0)?;
    let hears = net(alloc, &port_name(alloc, b"hr", tile, domain)?)?;
    let stays = cond(alloc, hears, number(35, 0), net(alloc, &ejected)?)?;
    let on = net(alloc, &on_name(alloc, plan, domain, 0, 0)?)?;
    let value = cond(alloc, on, ejected_word(alloc, plan, domain)?, stays)?;
    clock_zero(alloc, work, 34, &ejected, value)
}

/// Writes a part of the group of a domain's ejection place.
///
/// # Errors
///
/// Memory ran out.
pub fn eject(
    alloc: Global,
    phase: Phase,
    plan: &Plan,
    tile: u32,
    domain: u32,
    work: &mut LeafWork,
) -> Result<(), AllocError>
    requires tile { tile < tiles plan.now }
    requires domain { domain < length plan.now.domains }
    ensures { OnOk result (read_leaf work.new.leaf ≡ with_items (read_leaf work.old.leaf) (items_of phase
        (eject_group plan.now tile leaf_names net_names (port_names tile) (dest_bits plan.now) domain))) }
{
    plan.known();
    match phase {
        Phase::Heads => register(
            alloc,
            work,
            34,
            &register_name(alloc, plan, domain, 5, 0, 0)?,
        ),
        Phase::Nets => {
            let value = out_flit(alloc, plan, tile, domain, 0)?;
            let name = net_name(alloc, plan, domain, 11, 0, 1)?;
            work.define(alloc, 33 + dest_bits(plan), &name, value)
        }
        Phase::Moves => eject_moves(alloc, plan, tile, domain, work),
    }
}

/// Writes a part of the group of the credit pulses of an input port.
///
/// # Errors
///
/// Memory ran out.
pub fn pulse(
    alloc: Global,
    phase: Phase,
    plan: &Plan,
    domain: u32,
    port: u32,
    work: &mut LeafWork,
) -> Result<(), AllocError>
    requires domain { domain < length plan.now.domains }
    requires port { port < ports plan.now }
    ensures { OnOk result (read_leaf work.new.leaf ≡ with_items (read_leaf work.old.leaf) (items_of phase
        (pulse_group plan.now leaf_names net_names domain port))) }
{
    plan.known();
    let high = plan.link_channels(domain) - 1;
    let pulse = register_name(alloc, plan, domain, 4, port, 8)?;
    match phase {
        Phase::Heads => register(alloc, work, high, &pulse),
        Phase::Nets => Ok(()),
        Phase::Moves => {
            let leaves = net_name(alloc, plan, domain, 7, 0, 0)?;
            let first = port * (high + 1);
            let these = part(alloc, &leaves, first + high, first)?;
            clock_zero(alloc, work, high, &pulse, these)
        }
    }
}
