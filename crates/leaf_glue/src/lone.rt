//! The switch of a domain. With one channel at each port no port has a channel to pick: an output that is there chooses
//! among its ready places as they are.

ghost use Rattle.std.specs.Prelude.{◌≡◌, ◌<◌, ◌+◌, ◌-◌, length, OnOk, IfOk};
ghost use Rattle.vl_tree.specs.Read.{read, read_leaf};
ghost use Rattle.vl_model.specs.Laws.{with_items};
ghost use Rattle.noc_model.specs.Plan.{tiles, ports};
ghost use Rattle.gen_kit.specs.Families.{for_each, or_upto};
ghost use Rattle.gen_kit.specs.RotateOf.{names_of};
ghost use Rattle.leaf_tie.specs.Glue.{has_port, switch_part};
ghost use Rattle.leaf_tie.specs.Names.{leaf_names, net_names};
ghost use Rattle.leaf_tie.specs.Switch.{lone_choice, lone_switch_group};
ghost use Rattle.leaf_parts.specs.Phases.{items_of};
ghost use Rattle.leaf_glue.specs.Lone.{its_switch, output_heads, output_nets, output_moves, output_place};

use crate::marks::has_port;
use gen_kit::{LeafWork, Rotate, net, number, two};
use leaf_parts::{Phase, domain_switch, net_name, register_name};
use noc_model::Plan;
use std::alloc::{AllocError, Global};
use vl_tree::{Expr, Op};

// An output's choice among its ready places.
fn choice(alloc: Global, plan: &Plan, domain: u32, out: u32) -> Result<Rotate, AllocError>
    requires domain { domain < length plan.now.domains }
    requires out { out < ports plan.now }
    ensures names { IfOk result (λ r. names_of r ≡ lone_choice (its_switch domain) out) }
    ensures high { IfOk result (λ r. r.high ≡ ports plan.now - 1) }
    ensures few { IfOk result (λ r. r.high < 64) }
{
    Ok(Rotate {
        request: net_name(alloc, plan, domain, 1, out, 10)?,
        pointer: register_name(alloc, plan, domain, 1, out, 0)?,
        some: net_name(alloc, plan, domain, 5, out, 2)?,
        winner: net_name(alloc, plan, domain, 5, out, 3)?,
        high: plan.ports() - 1,
    })
}

// The pointer of an output that is there.
fn output_head(
    alloc: Global,
    plan: &Plan,
    tile: u32,
    domain: u32,
    out: u32,
    work: &mut LeafWork,
) -> Result<(), AllocError>
    requires tile { tile < tiles plan.now }
    requires domain { domain < length plan.now.domains }
    requires out { out < ports plan.now }
    ensures { OnOk result (read_leaf work.new.leaf ≡ with_items (read_leaf work.old.leaf) (output_heads plan.now tile domain out)) }
{
    if has_port(plan, tile, domain, out) {
        choice(alloc, plan, domain, out)?.heads(alloc, work)
    } else {
        Ok(())
    }
}

fn lone_heads(
    alloc: Global,
    plan: &Plan,
    tile: u32,
    domain: u32,
    work: &mut LeafWork,
) -> Result<(), AllocError>
    requires tile { tile < tiles plan.now }
    requires domain { domain < length plan.now.domains }
    ensures { OnOk result (read_leaf work.new.leaf ≡ with_items (read_leaf work.old.leaf)
        (for_each (ports plan.now - 1 + 1) (output_heads plan.now tile domain))) }
{
    plan.known();
    let last = plan.ports() - 1;
    for out in 0..last + 1 {
        output_head(alloc, plan, tile, domain, out, work)?;
    }
    Ok(())
}

// The choice of an output that is there.
fn output_net(
    alloc: Global,
    plan: &Plan,
    tile: u32,
    domain: u32,
    out: u32,
    work: &mut LeafWork,
) -> Result<(), AllocError>
    requires tile { tile < tiles plan.now }
    requires domain { domain < length plan.now.domains }
    requires out { out < ports plan.now }
    ensures { OnOk result (read_leaf work.new.leaf ≡ with_items (read_leaf work.old.leaf) (output_nets plan.now tile domain out)) }
{
    if has_port(plan, tile, domain, out) {
        choice(alloc, plan, domain, out)?.nets(alloc, work)
    } else {
        Ok(())
    }
}

fn lone_choices(
    alloc: Global,
    plan: &Plan,
    tile: u32,
    domain: u32,
    work: &mut LeafWork,
) -> Result<(), AllocError>
    requires tile { tile < tiles plan.now }
    requires domain { domain < length plan.now.domains }
    ensures { OnOk result (read_leaf work.new.leaf ≡ with_items (read_leaf work.old.leaf)
        (for_each (ports plan.now - 1 + 1) (output_nets plan.now tile domain))) }
{
    plan.known();
    let last = plan.ports() - 1;
    for out in 0..last + 1 {
        output_net(alloc, plan, tile, domain, out, work)?;
    }
    Ok(())
}

// What moves the pointer of an output that is there.
fn output_move(
    alloc: Global,
    plan: &Plan,
    tile: u32,
    domain: u32,
    out: u32,
    work: &mut LeafWork,
) -> Result<(), AllocError>
    requires tile { tile < tiles plan.now }
    requires domain { domain < length plan.now.domains }
    requires out { out < ports plan.now }
    ensures { OnOk result (read_leaf work.new.leaf ≡ with_items (read_leaf work.old.leaf) (output_moves plan.now tile domain out)) }
{
    if has_port(plan, tile, domain, out) {
        choice(alloc, plan, domain, out)?.moves(alloc, work)
    } else {
        Ok(())
    }
}

fn lone_moves(
    alloc: Global,
    plan: &Plan,
    tile: u32,
    domain: u32,
    work: &mut LeafWork,
) -> Result<(), AllocError>
    requires tile { tile < tiles plan.now }
    requires domain { domain < length plan.now.domains }
    ensures { OnOk result (read_leaf work.new.leaf ≡ with_items (read_leaf work.old.leaf)
        (for_each (ports plan.now - 1 + 1) (output_moves plan.now tile domain))) }
{
    plan.known();
    let last = plan.ports() - 1;
    for out in 0..last + 1 {
        output_move(alloc, plan, tile, domain, out, work)?;
    }
    Ok(())
}

// The place that an output chose: none where the output is not there.
fn output_place(
    alloc: Global,
    plan: &Plan,
    tile: u32,
    domain: u32,
    out: u32,
) -> Result<Expr, AllocError>
    requires tile { tile < tiles plan.now }
    requires domain { domain < length plan.now.domains }
    requires out { out < ports plan.now }
    ensures { IfOk result (λ e. read e ≡ output_place plan.now tile domain out) }
{
    plan.known();
    if has_port(plan, tile, domain, out) {
        net(alloc, &net_name(alloc, plan, domain, 5, out, 3)?)
    } else {
        let last = plan.ports() - 1;
        Ok(number(last + 1, 0))
    }
}

// The places that a flit leaves.
fn leaving(alloc: Global, plan: &Plan, tile: u32, domain: u32) -> Result<Expr, AllocError>
    requires tile { tile < tiles plan.now }
    requires domain { domain < length plan.now.domains }
    ensures { IfOk result (λ e. read e ≡ or_upto (ports plan.now - 1) (output_place plan.now tile domain)) }
{
    plan.known();
    let mut all = output_place(alloc, plan, tile, domain, 0)?;
    for out in 0..plan.ports() - 1 {
        let more = output_place(alloc, plan, tile, domain, out + 1)?;
        all = two(alloc, Op::Or, all, more)?;
    }
    Ok(all)
}

fn lone_nets(
    alloc: Global,
    plan: &Plan,
    tile: u32,
    domain: u32,
    work: &mut LeafWork,
) -> Result<(), AllocError>
    requires tile { tile < tiles plan.now }
    requires domain { domain < length plan.now.domains }
    ensures { OnOk result (read_leaf work.new.leaf ≡ with_items (read_leaf work.old.leaf)
        (lone_switch_group (its_switch domain) (ports plan.now - 1) (has_port plan.now tile domain)).nets) }
{
    plan.known();
    lone_choices(alloc, plan, tile, domain, work)?;
    let value = leaving(alloc, plan, tile, domain)?;
    let name = net_name(alloc, plan, domain, 7, 0, 0)?;
    work.define(alloc, plan.ports() - 1, &name, value)
}

// The group of the switch of a domain with one channel at each port.
fn lone_switch(
    alloc: Global,
    phase: Phase,
    plan: &Plan,
    tile: u32,
    domain: u32,
    work: &mut LeafWork,
) -> Result<(), AllocError>
    requires tile { tile < tiles plan.now }
    requires domain { domain < length plan.now.domains }
    ensures { OnOk result (read_leaf work.new.leaf ≡ with_items (read_leaf work.old.leaf) (items_of phase
        (lone_switch_group (its_switch domain) (ports plan.now - 1) (has_port plan.now tile domain)))) }
{
    match phase {
        Phase::Heads => lone_heads(alloc, plan, tile, domain, work),
        Phase::Nets => lone_nets(alloc, plan, tile, domain, work),
        Phase::Moves => lone_moves(alloc, plan, tile, domain, work),
    }
}

/// Writes a part of the group of a domain's switch at a tile.
///
/// # Errors
///
/// Memory ran out.
pub fn switch_part(
    alloc: Global,
    phase: Phase,
    plan: &Plan,
    tile: u32,
    domain: u32,
    work: &mut LeafWork,
) -> Result<(), AllocError>
    requires tile { tile < tiles plan.now }
    requires domain { domain < length plan.now.domains }
    ensures { OnOk result (read_leaf work.new.leaf ≡ with_items (read_leaf work.old.leaf) (items_of phase
        (switch_part plan.now tile leaf_names net_names domain))) }
{
    if plan.link_channels(domain) == 1 {
        lone_switch(alloc, phase, plan, tile, domain, work)
    } else {
        domain_switch(alloc, phase, plan, domain, work)
    }
}
