//! What a leaf gives out: all of it is read from registers.

ghost use Rattle.std.specs.Prelude.{◌≡◌, ◌<◌, ◌≤◌, ◌+◌, ◌-◌, ◌∷◌, [], min, length, OnOk, IfOk};
ghost use Rattle.vl_tree.specs.Read.{read, read_leaf};
ghost use Rattle.vl_tree.specs.Values as values;
ghost use Rattle.vl_model.specs.Laws.{with_items};
ghost use Rattle.noc_model.specs.Plan.{tiles, ports};
ghost use Rattle.gen_kit.specs.Families.{row_parts};
ghost use Rattle.gen_kit.specs.Shape.{credit_bits};
ghost use Rattle.gen_kit.specs.Ports.{name_with};
ghost use Rattle.leaf_parts.specs.declared.phase.Phase.TheVariants.{Nets};
ghost use Rattle.leaf_tie.specs.Names.{credit_bundle, credit_domain, leaf_names, link_outs, out_groups, out_names};
ghost use Rattle.leaf_tie.specs.Outs.{link_out_group};
ghost use Rattle.leaf_tie.specs.Whole.{each_group};
ghost use Rattle.leaf_parts.specs.Phases.{all_of};
ghost use Rattle.gen_router.specs.Ordered.{its_outs, port_outs};
ghost use Rattle.gen_router.specs.Outs.{credit_net, ejected_outs, entry_outs, other_outs};

use crate::order::{bundle_name, credit_base};
use gen_kit::{LeafWork, bit, cat, net, part, two};
use leaf_glue::has_link;
use leaf_parts::{Phase, port_name, register_name, room, row_name};
use noc_model::Plan;
use sqlite_items::Items;
use std::alloc::{AllocError, Global};
use vl_tree::{Expr, LeafItem, Op};

// Assigns a port of the leaf.
fn give(
    alloc: Global,
    work: &mut LeafWork,
    head: &[u8],
    tile: u32,
    number: u32,
    value: Expr,
) -> Result<(), AllocError>
    ensures { OnOk result (read_leaf work.new.leaf ≡ with_items (read_leaf work.old.leaf)
        (values.assign (name_with head.now (tile ∷ number ∷ [])) (read value) ∷ [])) }
{
    work.push_item(LeafItem::Assign {
        name: port_name(alloc, head, tile, number)?,
        value,
    })
}

// The word in the last place of a link.
fn link_out(
    alloc: Global,
    plan: &Plan,
    tile: u32,
    out: u32,
    work: &mut LeafWork,
) -> Result<(), AllocError>
    requires out { out < ports plan.now }
    ensures { OnOk result (read_leaf work.new.leaf ≡ with_items (read_leaf work.old.leaf)
        (link_out_group plan.now leaf_names (out_names tile) out).nets) }
{
    plan.known();
    let value = net(alloc, &row_name(alloc, out, plan.stages() - 1)?)?;
    give(alloc, work, b"lo", tile, out, value)
}

// The domain of a credit.
fn credit_domain(plan: &Plan, credit: u32) -> u32
    ensures value { result ≡ credit_domain plan.now credit }
    ensures below { result < length plan.now.domains }
{
    plan.known();
    let mut domain = plan.domains();
    while domain > 0 {
        domain -= 1;
        if credit_base(plan, domain) <= credit {
            return domain;
        }
    }
    0
}

// The pulse of a credit.
fn credit_net(alloc: Global, plan: &Plan, port: u32, credit: u32) -> Result<Expr, AllocError>
    requires port { port < ports plan.now }
    ensures { IfOk result (λ e. read e ≡ credit_net plan.now port credit) }
{
    let domain = credit_domain(plan, credit);
    let base = credit_base(plan, domain);
    let channel = if credit < base { 0 } else { credit - base };
    bit(
        alloc,
        &register_name(alloc, plan, domain, 4, port, 8)?,
        channel,
    )
}

// The pulses of so many credits from the first on, the last credit first.
fn pulses(alloc: Global, plan: &Plan, port: u32, first: u32, count: u32) -> Result<Expr, AllocError>
    requires port { port < ports plan.now }
    requires first { first ≤ 64 }
    requires some { 1 ≤ count }
    requires count { count ≤ 128 }
    ensures { IfOk result (λ e. read e
        ≡ values.cat (row_parts (λ k. credit_net plan.now port (first + k)) (count - 1))) }
{
    let mut row = Items::new(alloc);
    for k in 0..count {
        let one = credit_net(alloc, plan, port, first + (count - 1 - k))?;
        row.push(one)?;
    }
    Ok(cat(row))
}

// A bundle of credits.
fn credit_out(
    alloc: Global,
    plan: &Plan,
    tile: u32,
    port: u32,
    first: u32,
    count: u32,
    work: &mut LeafWork,
) -> Result<(), AllocError>
    requires port { port < ports plan.now }
    requires first { first ≤ 64 }
    requires some { 1 ≤ count }
    requires count { count ≤ 128 }
    ensures { OnOk result (read_leaf work.new.leaf ≡ with_items (read_leaf work.old.leaf)
        (credit_bundle plan.now tile port first count).nets) }
{
    let value = pulses(alloc, plan, port, first, count)?;
    work.push_item(LeafItem::Assign {
        name: bundle_name(alloc, b"co", tile, port, first)?,
        value,
    })
}

/// The credits of a link.
pub fn credit_bits(plan: &Plan) -> u32
    ensures value { result ≡ credit_bits plan.now }
    ensures some { 1 ≤ result }
    ensures few { result ≤ 128 }
{
    plan.known();
    credit_base(plan, plan.domains())
}

/// The lesser of two numbers.
pub fn lesser(a: u32, b: u32) -> u32
    ensures { result ≡ min a b }
{
    if a < b { a } else { b }
}

// The first bundle of credits of a link.
fn first_out(
    alloc: Global,
    plan: &Plan,
    tile: u32,
    out: u32,
    work: &mut LeafWork,
) -> Result<(), AllocError>
    requires out { out < ports plan.now }
    ensures { OnOk result (read_leaf work.new.leaf ≡ with_items (read_leaf work.old.leaf)
        (credit_bundle plan.now tile out 0 (min (credit_bits plan.now) 64)).nets) }
{
    let count = lesser(credit_bits(plan), 64);
    credit_out(alloc, plan, tile, out, 0, count, work)
}

// The second one, where there is one.
fn other_out(
    alloc: Global,
    plan: &Plan,
    tile: u32,
    out: u32,
    work: &mut LeafWork,
) -> Result<(), AllocError>
    requires out { out < ports plan.now }
    ensures { OnOk result (read_leaf work.new.leaf ≡ with_items (read_leaf work.old.leaf)
        (all_of Nets (other_outs plan.now tile out))) }
{
    if credit_bits(plan) <= 64 {
        return Ok(());
    }
    credit_out(alloc, plan, tile, out, 64, credit_bits(plan) - 64, work)?;
    Ok(())
}

// What goes out by a link.
fn link_outs(
    alloc: Global,
    plan: &Plan,
    tile: u32,
    out: u32,
    work: &mut LeafWork,
) -> Result<(), AllocError>
    requires out { out < ports plan.now }
    ensures { OnOk result (read_leaf work.new.leaf ≡ with_items (read_leaf work.old.leaf)
        (all_of Nets (link_outs plan.now tile out))) }
{
    link_out(alloc, plan, tile, out, work)?;
    first_out(alloc, plan, tile, out, work)?;
    other_out(alloc, plan, tile, out, work)?;
    Ok(())
}

fn port_outs(
    alloc: Global,
    plan: &Plan,
    tile: u32,
    out: u32,
    work: &mut LeafWork,
) -> Result<(), AllocError>
    requires tile { tile < tiles plan.now }
    requires out { out < ports plan.now }
    ensures { OnOk result (read_leaf work.new.leaf ≡ with_items (read_leaf work.old.leaf)
        (all_of Nets (port_outs plan.now tile out))) }
{
    if !has_link(plan, tile, out) {
        return Ok(());
    }
    link_outs(alloc, plan, tile, out, work)?;
    Ok(())
}

fn all_port_outs(
    alloc: Global,
    plan: &Plan,
    tile: u32,
    work: &mut LeafWork,
) -> Result<(), AllocError>
    requires tile { tile < tiles plan.now }
    ensures { OnOk result (read_leaf work.new.leaf ≡ with_items (read_leaf work.old.leaf)
        (all_of Nets (each_group (ports plan.now) (port_outs plan.now tile)))) }
{
    for out in 0..plan.ports() {
        port_outs(alloc, plan, tile, out, work)?;
    }
    Ok(())
}

// The flit in the ejection place.
fn ejected_outs(
    alloc: Global,
    plan: &Plan,
    tile: u32,
    domain: u32,
    work: &mut LeafWork,
) -> Result<(), AllocError>
    requires domain { domain < length plan.now.domains }
    ensures { OnOk result (read_leaf work.new.leaf ≡ with_items (read_leaf work.old.leaf)
        (ejected_outs tile domain)) }
{
    plan.known();
    let ejected = register_name(alloc, plan, domain, 5, 0, 0)?;
    give(alloc, work, b"ev", tile, domain, bit(alloc, &ejected, 34)?)?;
    give(alloc, work, b"eh", tile, domain, bit(alloc, &ejected, 33)?)?;
    give(alloc, work, b"et", tile, domain, bit(alloc, &ejected, 32)?)?;
    give(
        alloc,
        work,
        b"ep",
        tile,
        domain,
        part(alloc, &ejected, 31, 0)?,
    )
}

// The drop pulse, and whether a word is taken.
fn entry_outs(
    alloc: Global,
    plan: &Plan,
    tile: u32,
    domain: u32,
    work: &mut LeafWork,
) -> Result<(), AllocError>
    requires domain { domain < length plan.now.domains }
    ensures { OnOk result (read_leaf work.new.leaf ≡ with_items (read_leaf work.old.leaf)
        (entry_outs plan.now tile domain)) }
{
    plan.known();
    let dropped = register_name(alloc, plan, domain, 5, 0, 5)?;
    give(alloc, work, b"dr", tile, domain, net(alloc, &dropped)?)?;
    let dropping = net(alloc, &register_name(alloc, plan, domain, 5, 0, 2)?)?;
    let open = two(alloc, Op::Or, dropping, room(alloc, plan, domain)?)?;
    give(alloc, work, b"rd", tile, domain, open)
}

// What a domain gives out.
fn domain_outs(
    alloc: Global,
    plan: &Plan,
    tile: u32,
    domain: u32,
    work: &mut LeafWork,
) -> Result<(), AllocError>
    requires domain { domain < length plan.now.domains }
    ensures { OnOk result (read_leaf work.new.leaf ≡ with_items (read_leaf work.old.leaf)
        (all_of Nets (its_outs plan.now tile domain))) }
{
    if !plan.hosts(tile, domain) {
        return Ok(());
    }
    ejected_outs(alloc, plan, tile, domain, work)?;
    entry_outs(alloc, plan, tile, domain, work)?;
    Ok(())
}

fn all_domain_outs(
    alloc: Global,
    plan: &Plan,
    tile: u32,
    work: &mut LeafWork,
) -> Result<(), AllocError>
    ensures { OnOk result (read_leaf work.new.leaf ≡ with_items (read_leaf work.old.leaf)
        (all_of Nets (each_group (length plan.now.domains) (its_outs plan.now tile)))) }
{
    for domain in 0..plan.domains() {
        domain_outs(alloc, plan, tile, domain, work)?;
    }
    Ok(())
}

/// Assigns the output ports of the leaf.
///
/// # Errors
///
/// Memory ran out.
pub fn outer(alloc: Global, plan: &Plan, tile: u32, work: &mut LeafWork) -> Result<(), AllocError>
    requires { tile < tiles plan.now }
    ensures { OnOk result (read_leaf work.new.leaf ≡ with_items (read_leaf work.old.leaf)
        (all_of Nets (out_groups plan.now tile))) }
{
    all_port_outs(alloc, plan, tile, work)?;
    all_domain_outs(alloc, plan, tile, work)?;
    Ok(())
}
