//! The places of a domain that may send by an output.

ghost use Rattle.std.specs.Prelude.{◌≡◌, ◌<◌, ◌≤◌, ◌+◌, ◌-◌, length, OnOk, IfOk};
ghost use Rattle.vl_tree.specs.Read.{read, read_leaf};
ghost use Rattle.vl_model.specs.Laws.{with_items};
ghost use Rattle.noc_model.specs.Plan.{tiles, ports};
ghost use Rattle.gen_kit.specs.Families.{or_upto};
ghost use Rattle.leaf_tie.specs.Glue.{able, out_high, ready_group, unready_group};
ghost use Rattle.leaf_tie.specs.Names.{leaf_names, net_names, port_names, leaf_sizes};
ghost use Rattle.leaf_parts.specs.Phases.{items_of};
ghost use Rattle.leaf_glue.specs.Sent.{able_place};

use crate::slots::leaving_slot;
use gen_kit::{LeafWork, net, not, number, two};
use leaf_parts::{
    Phase, count_high, empty, gated, high, net_name, out_count, owns_name, port_name, register_name,
};
use noc_model::Plan;
use std::alloc::{AllocError, Global};
use vl_tree::{Expr, Op};

// Whether the output takes a flit for a channel.
fn able(
    alloc: Global,
    plan: &Plan,
    tile: u32,
    domain: u32,
    out: u32,
    channel: u32,
) -> Result<Expr, AllocError>
    requires tile { tile < tiles plan.now }
    requires domain { domain < length plan.now.domains }
    requires out { out < ports plan.now }
    ensures { IfOk result (λ e. read e ≡ able plan.now tile leaf_names (port_names tile) (leaf_sizes plan.now) domain out
        channel) }
{
    plan.known();
    if out == 0 {
        let ejected = register_name(alloc, plan, domain, 5, 0, 0)?;
        let none = empty(alloc, 34, net(alloc, &ejected)?)?;
        let hears = net(alloc, &port_name(alloc, b"hr", tile, domain)?)?;
        two(alloc, Op::Or, none, hears)
    } else {
        let slot = leaving_slot(plan, tile, out);
        let own = net(alloc, &owns_name(alloc, slot, domain)?)?;
        let credits = register_name(alloc, plan, domain, 4, out, channel)?;
        let none = empty(alloc, count_high(plan.buffer()), net(alloc, &credits)?)?;
        two(alloc, Op::And, own, not(alloc, none)?)
    }
}

// The places that are active on a channel for which the output takes a flit.
fn able_place(
    alloc: Global,
    plan: &Plan,
    tile: u32,
    domain: u32,
    out: u32,
    channel: u32,
) -> Result<Expr, AllocError>
    requires tile { tile < tiles plan.now }
    requires domain { domain < length plan.now.domains }
    requires out { out < ports plan.now }
    requires channel { channel < 8 }
    ensures { IfOk result (λ e. read e ≡ able_place plan.now tile domain out channel) }
{
    let active = net(
        alloc,
        &register_name(alloc, plan, domain, 0, out, 3 + channel)?,
    )?;
    let test = able(alloc, plan, tile, domain, out, channel)?;
    gated(alloc, high(plan, domain) + 1, test, active)
}

fn able_places(
    alloc: Global,
    plan: &Plan,
    tile: u32,
    domain: u32,
    out: u32,
) -> Result<Expr, AllocError>
    requires tile { tile < tiles plan.now }
    requires domain { domain < length plan.now.domains }
    requires out { out < ports plan.now }
    ensures { IfOk result (λ e. read e ≡ or_upto (out_high plan.now domain out) (able_place plan.now tile domain out)) }
{
    let mut all = able_place(alloc, plan, tile, domain, out, 0)?;
    for channel in 0..out_count(plan, domain, out) - 1 {
        let more = able_place(alloc, plan, tile, domain, out, channel + 1)?;
        all = two(alloc, Op::Or, all, more)?;
    }
    Ok(all)
}

/// Writes a part of the group of the places that may send by an output.
///
/// # Errors
///
/// Memory ran out.
pub fn readies(
    alloc: Global,
    phase: Phase,
    plan: &Plan,
    tile: u32,
    domain: u32,
    out: u32,
    work: &mut LeafWork,
) -> Result<(), AllocError>
    requires tile { tile < tiles plan.now }
    requires domain { domain < length plan.now.domains }
    requires out { out < ports plan.now }
    ensures { OnOk result (read_leaf work.new.leaf ≡ with_items (read_leaf work.old.leaf) (items_of phase
        (ready_group plan.now tile leaf_names net_names (port_names tile) (leaf_sizes plan.now) domain out))) }
{
    match phase {
        Phase::Nets => {
            let these = able_places(alloc, plan, tile, domain, out)?;
            let filled = net_name(alloc, plan, domain, 0, 0, 0)?;
            let value = two(alloc, Op::And, net(alloc, &filled)?, these)?;
            let name = net_name(alloc, plan, domain, 1, out, 10)?;
            work.define(alloc, high(plan, domain), &name, value)
        }
        _ => Ok(()),
    }
}

/// Writes a part of the group of an output that is not there: with one channel at each port it has none.
///
/// # Errors
///
/// Memory ran out.
pub fn unready(
    alloc: Global,
    phase: Phase,
    plan: &Plan,
    domain: u32,
    out: u32,
    work: &mut LeafWork,
) -> Result<(), AllocError>
    requires domain { domain < length plan.now.domains }
    requires out { out < ports plan.now }
    ensures { OnOk result (read_leaf work.new.leaf ≡ with_items (read_leaf work.old.leaf) (items_of phase
        (unready_group plan.now net_names domain out))) }
{
    match phase {
        Phase::Nets => {
            if plan.link_channels(domain) == 1 {
                return Ok(());
            }
            let high = high(plan, domain);
            let name = net_name(alloc, plan, domain, 1, out, 10)?;
            work.define(alloc, high, &name, number(high + 1, 0))
        }
        _ => Ok(()),
    }
}
