//! Which flit of a domain goes by which output: one ready place of each input port, and one of these for each output.

ghost use Rattle.std.specs.Prelude.{◌≡◌, ◌<◌, ◌+◌, ◌-◌, length, OnOk, IfOk};
ghost use Rattle.vl_tree.specs.Read.{read, read_leaf};
ghost use Rattle.vl_tree.specs.Values as values;
ghost use Rattle.vl_model.specs.Laws.{with_items};
ghost use Rattle.noc_model.specs.Plan.{ports, link_channels};
ghost use Rattle.gen_kit.specs.Families.{for_each, or_upto, row_parts};
ghost use Rattle.gen_kit.specs.RotateOf.{names_of};
ghost use Rattle.leaf_tie.specs.Glue.{switch_names, switch_size};
ghost use Rattle.leaf_tie.specs.Names.{leaf_names, net_names, switch_rotate, turn_rotate};
ghost use Rattle.leaf_tie.specs.Switch.{switch_group, place_count, port_part, port_nets, output_nets, grant_nets};
ghost use Rattle.leaf_parts.specs.Phases.{items_of};
ghost use Rattle.leaf_parts.specs.Parts.{choice_heads, turn_heads, choice_moves, turn_moves, ready_net, turn_winner, granted_net, some_asks, asks_nets, wins_port};

use crate::Phase;
use crate::build::{both, empty, gated};
use crate::names::{net_name, register_name};
use gen_kit::{LeafWork, Rotate, bit, cat, net, not, part, two};
use noc_model::Plan;
use sqlite_items::Items;
use std::alloc::{AllocError, Global};
use vl_tree::{Expr, Name, Op};

// An output's choice among the input ports that ask for it.
fn choice(alloc: Global, plan: &Plan, domain: u32, out: u32) -> Result<Rotate, AllocError>
    requires domain { domain < length plan.now.domains }
    requires out { out < ports plan.now }
    ensures names { IfOk result (λ r. names_of r ≡ switch_rotate domain out) }
    ensures high { IfOk result (λ r. r.high ≡ ports plan.now - 1) }
    ensures few { IfOk result (λ r. r.high < 64) }
{
    Ok(Rotate {
        request: net_name(alloc, plan, domain, 5, out, 1)?,
        pointer: register_name(alloc, plan, domain, 1, out, 0)?,
        some: net_name(alloc, plan, domain, 5, out, 2)?,
        winner: net_name(alloc, plan, domain, 5, out, 3)?,
        high: plan.ports() - 1,
    })
}

// An input port's choice among its ready channels.
fn turn(alloc: Global, plan: &Plan, domain: u32, port: u32) -> Result<Rotate, AllocError>
    requires domain { domain < length plan.now.domains }
    requires port { port < ports plan.now }
    ensures names { IfOk result (λ r. names_of r ≡ turn_rotate domain port) }
    ensures high { IfOk result (λ r. r.high ≡ link_channels plan.now domain - 1) }
    ensures few { IfOk result (λ r. r.high < 64) }
{
    Ok(Rotate {
        request: net_name(alloc, plan, domain, 3, port, 0)?,
        pointer: register_name(alloc, plan, domain, 2, port, 0)?,
        some: net_name(alloc, plan, domain, 3, port, 1)?,
        winner: net_name(alloc, plan, domain, 3, port, 2)?,
        high: plan.link_channels(domain) - 1,
    })
}

// The same choice, of which the pointer moves by what is granted.
fn granted_turn(alloc: Global, plan: &Plan, domain: u32, port: u32) -> Result<Rotate, AllocError>
    requires domain { domain < length plan.now.domains }
    requires port { port < ports plan.now }
    ensures pointer { IfOk result (λ r. r.pointer ≡ (turn_rotate domain port).pointer) }
    ensures by { IfOk result (λ r. r.winner ≡ net_names.granted domain port) }
    ensures high { IfOk result (λ r. r.high ≡ link_channels plan.now domain - 1) }
    ensures few { IfOk result (λ r. r.high < 64) }
{
    Ok(Rotate {
        request: net_name(alloc, plan, domain, 3, port, 0)?,
        pointer: register_name(alloc, plan, domain, 2, port, 0)?,
        some: net_name(alloc, plan, domain, 3, port, 1)?,
        winner: net_name(alloc, plan, domain, 6, port, 0)?,
        high: plan.link_channels(domain) - 1,
    })
}

// The places of a port in a vector.
fn port_part(
    alloc: Global,
    plan: &Plan,
    domain: u32,
    name: &Name,
    port: u32,
) -> Result<Expr, AllocError>
    requires domain { domain < length plan.now.domains }
    requires port { port < ports plan.now }
    ensures { IfOk result (λ e. read e ≡ port_part (switch_size plan.now domain) name.now port) }
{
    plan.known();
    let last = plan.link_channels(domain) - 1;
    part(alloc, name, port * (last + 1) + last, port * (last + 1))
}

// The ready places of all outputs.
fn all_ready(alloc: Global, plan: &Plan, domain: u32) -> Result<Expr, AllocError>
    requires { domain < length plan.now.domains }
    ensures { IfOk result (λ e. read e ≡ or_upto (ports plan.now - 1) (ready_net domain)) }
{
    plan.known();
    let mut all = net(alloc, &net_name(alloc, plan, domain, 1, 0, 10)?)?;
    for out in 0..plan.ports() - 1 {
        let more = net(alloc, &net_name(alloc, plan, domain, 1, out + 1, 10)?)?;
        all = two(alloc, Op::Or, all, more)?;
    }
    Ok(all)
}

fn port_nets(
    alloc: Global,
    plan: &Plan,
    domain: u32,
    port: u32,
    work: &mut LeafWork,
) -> Result<(), AllocError>
    requires domain { domain < length plan.now.domains }
    requires port { port < ports plan.now }
    ensures { OnOk result (read_leaf work.new.leaf ≡ with_items (read_leaf work.old.leaf)
        (port_nets (switch_names leaf_names net_names domain) (switch_size plan.now domain) port)) }
{
    let all = net_name(alloc, plan, domain, 2, 0, 0)?;
    let request = net_name(alloc, plan, domain, 3, port, 0)?;
    let value = port_part(alloc, plan, domain, &all, port)?;
    work.define(alloc, plan.link_channels(domain) - 1, &request, value)?;
    turn(alloc, plan, domain, port)?.nets(alloc, work)
}

fn all_port_nets(
    alloc: Global,
    plan: &Plan,
    domain: u32,
    work: &mut LeafWork,
) -> Result<(), AllocError>
    requires { domain < length plan.now.domains }
    ensures { OnOk result (read_leaf work.new.leaf ≡ with_items (read_leaf work.old.leaf)
        (for_each (ports plan.now - 1 + 1) (port_nets (switch_names leaf_names net_names domain)
        (switch_size plan.now domain)))) }
{
    plan.known();
    let last = plan.ports() - 1;
    for port in 0..last + 1 {
        port_nets(alloc, plan, domain, port, work)?;
    }
    Ok(())
}

// The winner of a port's turn.
fn turn_winner(alloc: Global, plan: &Plan, domain: u32, port: u32) -> Result<Expr, AllocError>
    requires domain { domain < length plan.now.domains }
    requires port { port < ports plan.now }
    ensures { IfOk result (λ e. read e ≡ turn_winner domain port) }
{
    net(alloc, &net_name(alloc, plan, domain, 3, port, 2)?)
}

// What is granted to a port.
fn granted_net(alloc: Global, plan: &Plan, domain: u32, port: u32) -> Result<Expr, AllocError>
    requires domain { domain < length plan.now.domains }
    requires port { port < ports plan.now }
    ensures { IfOk result (λ e. read e ≡ granted_net domain port) }
{
    net(alloc, &net_name(alloc, plan, domain, 6, port, 0)?)
}

// Whether a port asks for an output.
fn some_asks(
    alloc: Global,
    plan: &Plan,
    domain: u32,
    out: u32,
    port: u32,
) -> Result<Expr, AllocError>
    requires domain { domain < length plan.now.domains }
    requires out { out < ports plan.now }
    requires port { port < ports plan.now }
    ensures { IfOk result (λ e. read e ≡ some_asks plan.now domain out port) }
{
    let asks = net_name(alloc, plan, domain, 5, out, 0)?;
    let these = port_part(alloc, plan, domain, &asks, port)?;
    not(alloc, empty(alloc, plan.link_channels(domain) - 1, these)?)
}

// What each port picks, the last port first.
fn picked(alloc: Global, plan: &Plan, domain: u32) -> Result<Expr, AllocError>
    requires { domain < length plan.now.domains }
    ensures { IfOk result (λ e. read e ≡ values.cat (row_parts (turn_winner domain) (ports plan.now - 1))) }
{
    plan.known();
    let count = plan.ports() - 1 + 1;
    let mut row = Items::new(alloc);
    for port in 0..count {
        let one = turn_winner(alloc, plan, domain, count - 1 - port)?;
        row.push(one)?;
    }
    Ok(cat(row))
}

// Which ports ask for an output, the last port first.
fn asking(alloc: Global, plan: &Plan, domain: u32, out: u32) -> Result<Expr, AllocError>
    requires domain { domain < length plan.now.domains }
    requires out { out < ports plan.now }
    ensures { IfOk result (λ e. read e
        ≡ values.cat (row_parts (some_asks plan.now domain out) (ports plan.now - 1))) }
{
    plan.known();
    let count = plan.ports() - 1 + 1;
    let mut row = Items::new(alloc);
    for port in 0..count {
        let one = some_asks(alloc, plan, domain, out, count - 1 - port)?;
        row.push(one)?;
    }
    Ok(cat(row))
}

// The places that an output is asked by, and the ports.
fn asks_nets(
    alloc: Global,
    plan: &Plan,
    domain: u32,
    out: u32,
    work: &mut LeafWork,
) -> Result<(), AllocError>
    requires domain { domain < length plan.now.domains }
    requires out { out < ports plan.now }
    ensures { OnOk result (read_leaf work.new.leaf ≡ with_items (read_leaf work.old.leaf)
        (asks_nets plan.now domain out)) }
{
    plan.known();
    let asks = net_name(alloc, plan, domain, 5, out, 0)?;
    let picked = net_name(alloc, plan, domain, 4, 0, 0)?;
    let ready = net_name(alloc, plan, domain, 1, out, 10)?;
    let value = both(alloc, &picked, &ready)?;
    work.define(alloc, vector_high(plan, domain), &asks, value)?;
    let request = net_name(alloc, plan, domain, 5, out, 1)?;
    let value = asking(alloc, plan, domain, out)?;
    work.define(alloc, plan.ports() - 1, &request, value)
}

fn output_nets(
    alloc: Global,
    plan: &Plan,
    domain: u32,
    out: u32,
    work: &mut LeafWork,
) -> Result<(), AllocError>
    requires domain { domain < length plan.now.domains }
    requires out { out < ports plan.now }
    ensures { OnOk result (read_leaf work.new.leaf ≡ with_items (read_leaf work.old.leaf)
        (output_nets (switch_names leaf_names net_names domain) (switch_size plan.now domain) out)) }
{
    asks_nets(alloc, plan, domain, out, work)?;
    choice(alloc, plan, domain, out)?.nets(alloc, work)
}

fn all_output_nets(
    alloc: Global,
    plan: &Plan,
    domain: u32,
    work: &mut LeafWork,
) -> Result<(), AllocError>
    requires { domain < length plan.now.domains }
    ensures { OnOk result (read_leaf work.new.leaf ≡ with_items (read_leaf work.old.leaf)
        (for_each (ports plan.now - 1 + 1) (output_nets (switch_names leaf_names net_names domain)
        (switch_size plan.now domain)))) }
{
    plan.known();
    let last = plan.ports() - 1;
    for out in 0..last + 1 {
        output_nets(alloc, plan, domain, out, work)?;
    }
    Ok(())
}

// Whether some output's choice is the port.
fn wins(alloc: Global, plan: &Plan, domain: u32, port: u32) -> Result<Expr, AllocError>
    requires domain { domain < length plan.now.domains }
    requires port { port < ports plan.now }
    ensures { IfOk result (λ e. read e ≡ or_upto (ports plan.now - 1) (wins_port domain port)) }
{
    plan.known();
    let mut all = bit(alloc, &net_name(alloc, plan, domain, 5, 0, 3)?, port)?;
    for out in 0..plan.ports() - 1 {
        let more = bit(alloc, &net_name(alloc, plan, domain, 5, out + 1, 3)?, port)?;
        all = two(alloc, Op::Or, all, more)?;
    }
    Ok(all)
}

fn grant_nets(
    alloc: Global,
    plan: &Plan,
    domain: u32,
    port: u32,
    work: &mut LeafWork,
) -> Result<(), AllocError>
    requires domain { domain < length plan.now.domains }
    requires port { port < ports plan.now }
    ensures { OnOk result (read_leaf work.new.leaf ≡ with_items (read_leaf work.old.leaf)
        (grant_nets (switch_names leaf_names net_names domain) (switch_size plan.now domain) port)) }
{
    let last = plan.link_channels(domain) - 1;
    let granted = net_name(alloc, plan, domain, 6, port, 0)?;
    let winner = net_name(alloc, plan, domain, 3, port, 2)?;
    let test = wins(alloc, plan, domain, port)?;
    let value = gated(alloc, last + 1, test, net(alloc, &winner)?)?;
    work.define(alloc, last, &granted, value)
}

fn all_grant_nets(
    alloc: Global,
    plan: &Plan,
    domain: u32,
    work: &mut LeafWork,
) -> Result<(), AllocError>
    requires { domain < length plan.now.domains }
    ensures { OnOk result (read_leaf work.new.leaf ≡ with_items (read_leaf work.old.leaf)
        (for_each (ports plan.now - 1 + 1) (grant_nets (switch_names leaf_names net_names domain)
        (switch_size plan.now domain)))) }
{
    plan.known();
    let last = plan.ports() - 1;
    for port in 0..last + 1 {
        grant_nets(alloc, plan, domain, port, work)?;
    }
    Ok(())
}

// What is granted to each port, the last port first.
fn all_granted(alloc: Global, plan: &Plan, domain: u32) -> Result<Expr, AllocError>
    requires { domain < length plan.now.domains }
    ensures { IfOk result (λ e. read e ≡ values.cat (row_parts (granted_net domain) (ports plan.now - 1))) }
{
    plan.known();
    let count = plan.ports() - 1 + 1;
    let mut row = Items::new(alloc);
    for port in 0..count {
        let one = granted_net(alloc, plan, domain, count - 1 - port)?;
        row.push(one)?;
    }
    Ok(cat(row))
}

// One less than the places, as the switch counts them.
fn vector_high(plan: &Plan, domain: u32) -> u32
    requires { domain < length plan.now.domains }
    ensures value { result ≡ place_count (switch_size plan.now domain) - 1 }
    ensures few { result < 56 }
{
    plan.known();
    let last = plan.ports() - 1;
    let channel = plan.link_channels(domain) - 1;
    (last + 1) * (channel + 1) - 1
}

fn nets(alloc: Global, plan: &Plan, domain: u32, work: &mut LeafWork) -> Result<(), AllocError>
    requires { domain < length plan.now.domains }
    ensures { OnOk result (read_leaf work.new.leaf ≡ with_items (read_leaf work.old.leaf)
        (switch_group (switch_names leaf_names net_names domain) (switch_size plan.now domain)).nets) }
{
    plan.known();
    let size = vector_high(plan, domain);
    let all = net_name(alloc, plan, domain, 2, 0, 0)?;
    work.define(alloc, size, &all, all_ready(alloc, plan, domain)?)?;
    all_port_nets(alloc, plan, domain, work)?;
    let name = net_name(alloc, plan, domain, 4, 0, 0)?;
    work.define(alloc, size, &name, picked(alloc, plan, domain)?)?;
    all_output_nets(alloc, plan, domain, work)?;
    all_grant_nets(alloc, plan, domain, work)?;
    let name = net_name(alloc, plan, domain, 7, 0, 0)?;
    work.define(alloc, size, &name, all_granted(alloc, plan, domain)?)
}

// The pointer of an output.
fn choice_head(
    alloc: Global,
    plan: &Plan,
    domain: u32,
    out: u32,
    work: &mut LeafWork,
) -> Result<(), AllocError>
    requires domain { domain < length plan.now.domains }
    requires out { out < ports plan.now }
    ensures { OnOk result (read_leaf work.new.leaf ≡ with_items (read_leaf work.old.leaf) (choice_heads plan.now domain out)) }
{
    choice(alloc, plan, domain, out)?.heads(alloc, work)
}

fn choice_heads(
    alloc: Global,
    plan: &Plan,
    domain: u32,
    work: &mut LeafWork,
) -> Result<(), AllocError>
    requires { domain < length plan.now.domains }
    ensures { OnOk result (read_leaf work.new.leaf ≡ with_items (read_leaf work.old.leaf)
        (for_each (ports plan.now - 1 + 1) (choice_heads plan.now domain))) }
{
    plan.known();
    let last = plan.ports() - 1;
    for out in 0..last + 1 {
        choice_head(alloc, plan, domain, out, work)?;
    }
    Ok(())
}

// The pointer of an input port.
fn turn_head(
    alloc: Global,
    plan: &Plan,
    domain: u32,
    port: u32,
    work: &mut LeafWork,
) -> Result<(), AllocError>
    requires domain { domain < length plan.now.domains }
    requires port { port < ports plan.now }
    ensures { OnOk result (read_leaf work.new.leaf ≡ with_items (read_leaf work.old.leaf) (turn_heads plan.now domain port)) }
{
    turn(alloc, plan, domain, port)?.heads(alloc, work)
}

fn turn_heads(
    alloc: Global,
    plan: &Plan,
    domain: u32,
    work: &mut LeafWork,
) -> Result<(), AllocError>
    requires { domain < length plan.now.domains }
    ensures { OnOk result (read_leaf work.new.leaf ≡ with_items (read_leaf work.old.leaf)
        (for_each (ports plan.now - 1 + 1) (turn_heads plan.now domain))) }
{
    plan.known();
    let last = plan.ports() - 1;
    for port in 0..last + 1 {
        turn_head(alloc, plan, domain, port, work)?;
    }
    Ok(())
}

// What moves the pointer of an output.
fn choice_move(
    alloc: Global,
    plan: &Plan,
    domain: u32,
    out: u32,
    work: &mut LeafWork,
) -> Result<(), AllocError>
    requires domain { domain < length plan.now.domains }
    requires out { out < ports plan.now }
    ensures { OnOk result (read_leaf work.new.leaf ≡ with_items (read_leaf work.old.leaf) (choice_moves plan.now domain out)) }
{
    choice(alloc, plan, domain, out)?.moves(alloc, work)
}

fn choice_moves(
    alloc: Global,
    plan: &Plan,
    domain: u32,
    work: &mut LeafWork,
) -> Result<(), AllocError>
    requires { domain < length plan.now.domains }
    ensures { OnOk result (read_leaf work.new.leaf ≡ with_items (read_leaf work.old.leaf)
        (for_each (ports plan.now - 1 + 1) (choice_moves plan.now domain))) }
{
    plan.known();
    let last = plan.ports() - 1;
    for out in 0..last + 1 {
        choice_move(alloc, plan, domain, out, work)?;
    }
    Ok(())
}

// What moves the pointer of an input port.
fn turn_move(
    alloc: Global,
    plan: &Plan,
    domain: u32,
    port: u32,
    work: &mut LeafWork,
) -> Result<(), AllocError>
    requires domain { domain < length plan.now.domains }
    requires port { port < ports plan.now }
    ensures { OnOk result (read_leaf work.new.leaf ≡ with_items (read_leaf work.old.leaf) (turn_moves plan.now domain port)) }
{
    granted_turn(alloc, plan, domain, port)?.moves(alloc, work)
}

fn turn_moves(
    alloc: Global,
    plan: &Plan,
    domain: u32,
    work: &mut LeafWork,
) -> Result<(), AllocError>
    requires { domain < length plan.now.domains }
    ensures { OnOk result (read_leaf work.new.leaf ≡ with_items (read_leaf work.old.leaf)
        (for_each (ports plan.now - 1 + 1) (turn_moves plan.now domain))) }
{
    plan.known();
    let last = plan.ports() - 1;
    for port in 0..last + 1 {
        turn_move(alloc, plan, domain, port, work)?;
    }
    Ok(())
}

/// Writes a part of the group of a domain's switch.
///
/// # Errors
///
/// Memory ran out.
pub fn domain_switch(
    alloc: Global,
    phase: Phase,
    plan: &Plan,
    domain: u32,
    work: &mut LeafWork,
) -> Result<(), AllocError>
    requires { domain < length plan.now.domains }
    ensures { OnOk result (read_leaf work.new.leaf ≡ with_items (read_leaf work.old.leaf) (items_of phase
        (switch_group (switch_names leaf_names net_names domain) (switch_size plan.now domain)))) }
{
    match phase {
        Phase::Heads => {
            choice_heads(alloc, plan, domain, work)?;
            turn_heads(alloc, plan, domain, work)
        }
        Phase::Nets => nets(alloc, plan, domain, work),
        Phase::Moves => {
            choice_moves(alloc, plan, domain, work)?;
            turn_moves(alloc, plan, domain, work)
        }
    }
}
