//! Slot counters, and whose slot it is.

ghost use Rattle.std.specs.Prelude.{◌≡◌, ◌<◌, ◌≤◌, ◌+◌, ◌^◌, length, slice_index, OnOk, IfOk};
ghost use Rattle.vl_tree.specs.Read.{read, read_leaf};
ghost use Rattle.vl_model.specs.Laws.{with_items};
ghost use Rattle.gen_kit.specs.Families.{for_each};
ghost use Rattle.leaf_tie.specs.Names.{slot_names};
ghost use Rattle.leaf_tie.specs.Slots.{owned, owned_nets, slot_group};
ghost use Rattle.leaf_parts.specs.Phases.{items_of};
ghost use Rattle.leaf_parts.specs.Parts.{owned_from};

use crate::Phase;
use crate::build::{clock, equals, plus_one, register};
use crate::names::{owns_name, slot_name};
use gen_kit::{LeafWork, cond, number, two};
use noc_model::Plan;
use std::alloc::{AllocError, Global};
use vl_tree::{Const, Expr, Op};

// Whether a counter names slot `k`, where the slot is the domain's, or what the rest says.
fn owned_from(
    alloc: Global,
    plan: &Plan,
    first: u32,
    high: u32,
    domain: u32,
    k: u32,
    rest: Expr,
) -> Result<Expr, AllocError>
    requires k { k < length plan.now.slots }
    requires first { first < 64 }
    requires high { high < 63 }
    requires fits { length plan.now.slots ≤ 2 ^ (high + 1) }
    ensures { IfOk result (λ e. read e ≡ owned_from (slot_names first).count high k (slice_index plan.now.slots k) domain (read rest)) }
{
    if plan.slot(k) != domain {
        return Ok(rest);
    }
    let here = equals(alloc, &slot_name(alloc, first)?, high + 1, k as u64)?;
    two(alloc, Op::Or, here, rest)
}

// Whether the counter that begins at slot `first` names one of the domain's slots.
fn owned(alloc: Global, plan: &Plan, first: u32, high: u32, domain: u32) -> Result<Expr, AllocError>
    requires first { first < 64 }
    requires high { high < 63 }
    requires fits { length plan.now.slots ≤ 2 ^ (high + 1) }
    ensures { IfOk result (λ e. read e ≡ owned (slot_names first) high 0 plan.now.slots domain) }
{
    let mut rest = number(1, 0);
    let mut k = plan.slots();
    while k > 0 {
        k -= 1;
        let next = owned_from(alloc, plan, first, high, domain, k, rest)?;
        rest = next;
    }
    Ok(rest)
}

// The net that says whether the slot is a domain's.
fn owned_net(
    alloc: Global,
    plan: &Plan,
    first: u32,
    high: u32,
    domain: u32,
    work: &mut LeafWork,
) -> Result<(), AllocError>
    requires first { first < 64 }
    requires high { high < 63 }
    requires fits { length plan.now.slots ≤ 2 ^ (high + 1) }
    ensures { OnOk result (read_leaf work.new.leaf ≡ with_items (read_leaf work.old.leaf)
        (owned_nets (slot_names first) high plan.now.slots domain)) }
{
    let value = owned(alloc, plan, first, high, domain)?;
    work.define(alloc, 0, &owns_name(alloc, first, domain)?, value)
}

fn nets(
    alloc: Global,
    plan: &Plan,
    first: u32,
    high: u32,
    work: &mut LeafWork,
) -> Result<(), AllocError>
    requires first { first < 64 }
    requires high { high < 63 }
    requires fits { length plan.now.slots ≤ 2 ^ (high + 1) }
    ensures { OnOk result (read_leaf work.new.leaf ≡ with_items (read_leaf work.old.leaf) (for_each
        (length plan.now.domains) (owned_nets (slot_names first) high plan.now.slots))) }
{
    for domain in 0..plan.domains() {
        owned_net(alloc, plan, first, high, domain, work)?;
    }
    Ok(())
}

fn moves(
    alloc: Global,
    plan: &Plan,
    first: u32,
    high: u32,
    work: &mut LeafWork,
) -> Result<(), AllocError>
    requires first { first < 64 }
    requires high { high < 63 }
    requires fits { length plan.now.slots ≤ 2 ^ (high + 1) }
    ensures { OnOk result (read_leaf work.new.leaf ≡ with_items (read_leaf work.old.leaf) (slot_group
        (slot_names first) high plan.now.slots (length plan.now.domains) first).moves) }
{
    plan.known();
    let count = slot_name(alloc, first)?;
    let test = equals(alloc, &count, high + 1, (plan.slots() - 1) as u64)?;
    let begin = number(high + 1, 0);
    let value = cond(alloc, test, begin, plus_one(alloc, high, &count)?)?;
    let reset = Const {
        width: high + 1,
        value: first as u64,
    };
    clock(alloc, work, &count, reset, value)
}

/// Writes a part of the group of the counter that begins at slot `first`, in `high + 1` bits.
///
/// # Errors
///
/// Memory ran out.
pub fn slot_counter(
    alloc: Global,
    phase: Phase,
    plan: &Plan,
    first: u32,
    high: u32,
    work: &mut LeafWork,
) -> Result<(), AllocError>
    requires first { first < 64 }
    requires high { high < 63 }
    requires fits { length plan.now.slots ≤ 2 ^ (high + 1) }
    ensures { OnOk result (read_leaf work.new.leaf ≡ with_items (read_leaf work.old.leaf) (items_of phase
        (slot_group (slot_names first) high plan.now.slots (length plan.now.domains) first))) }
{
    match phase {
        Phase::Heads => register(alloc, work, high, &slot_name(alloc, first)?),
        Phase::Nets => nets(alloc, plan, first, high, work),
        Phase::Moves => moves(alloc, plan, first, high, work),
    }
}
