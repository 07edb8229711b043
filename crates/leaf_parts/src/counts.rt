//! The places that are idle, and the credits of a leaving link's channel.

ghost use Rattle.std.specs.Prelude.{◌≡◌, ◌<◌, ◌+◌, ◌-◌, ◌^◌, length, OnOk, IfOk};
ghost use Rattle.vl_tree.specs.Read.{read, read_leaf};
ghost use Rattle.vl_tree.specs.Values as values;
ghost use Rattle.vl_model.specs.Laws.{with_items};
ghost use Rattle.noc_model.specs.Plan.{ports};
ghost use Rattle.leaf_tie.specs.Counts.{idle_group, credit_group};
ghost use Rattle.leaf_tie.specs.Glue.{high};
ghost use Rattle.leaf_tie.specs.Names.{leaf_names, net_names};
ghost use Rattle.leaf_parts.specs.Phases.{items_of};
ghost use Rattle.leaf_parts.specs.Parts.{more_credits, fewer_credits};

use crate::Phase;
use crate::build::{clock, plus_one, register};
use crate::names::{net_name, on_name, register_name};
use crate::sizes::high;
use gen_kit::{LeafWork, bit, cond, net, not, number, two};
use noc_model::Plan;
use std::alloc::{AllocError, Global};
use vl_tree::{Const, Expr, Name, Op};

// `high + 1` bits that are 1.
fn ones(high: u32) -> u64
    requires high { high < 64 }
    ensures { result ≡ 2 ^ (high + 1) - 1 }
{
    u64::MAX >> (63 - high)
}

fn idle_moves(
    alloc: Global,
    plan: &Plan,
    domain: u32,
    work: &mut LeafWork,
) -> Result<(), AllocError>
    requires { domain < length plan.now.domains }
    ensures { OnOk result (read_leaf work.new.leaf ≡ with_items (read_leaf work.old.leaf) (idle_group
        (leaf_names.idle domain) (net_names.filled domain) (net_names.ends domain) (high plan.now domain)).moves) }
{
    let idle = register_name(alloc, plan, domain, 3, 0, 0)?;
    let filled = net_name(alloc, plan, domain, 0, 0, 0)?;
    let ends = net_name(alloc, plan, domain, 7, 0, 1)?;
    let empty = not(alloc, net(alloc, &filled)?)?;
    let stays = two(alloc, Op::And, net(alloc, &idle)?, empty)?;
    let value = two(alloc, Op::Or, stays, net(alloc, &ends)?)?;
    let high = high(plan, domain);
    let reset = Const {
        width: high + 1,
        value: ones(high),
    };
    clock(alloc, work, &idle, reset, value)
}

/// Writes a part of the group of a domain's idle places.
///
/// # Errors
///
/// Memory ran out.
pub fn idle_places(
    alloc: Global,
    phase: Phase,
    plan: &Plan,
    domain: u32,
    work: &mut LeafWork,
) -> Result<(), AllocError>
    requires { domain < length plan.now.domains }
    ensures { OnOk result (read_leaf work.new.leaf ≡ with_items (read_leaf work.old.leaf) (items_of phase (idle_group
        (leaf_names.idle domain) (net_names.filled domain) (net_names.ends domain) (high plan.now domain)))) }
{
    match phase {
        Phase::Heads => {
            let idle = register_name(alloc, plan, domain, 3, 0, 0)?;
            register(alloc, work, high(plan, domain), &idle)
        }
        Phase::Nets => Ok(()),
        Phase::Moves => idle_moves(alloc, plan, domain, work),
    }
}

// The credits where one comes back.
fn more_credits(alloc: Global, count: &Name, on: &Name, high: u32) -> Result<Expr, AllocError>
    requires { high < 64 }
    ensures { IfOk result (λ e. read e ≡ more_credits count.now (values.net on.now) high) }
{
    let more = plus_one(alloc, high, count)?;
    let same = net(alloc, count)?;
    cond(alloc, net(alloc, on)?, same, more)
}

// The credits where none comes back.
fn fewer_credits(alloc: Global, count: &Name, on: &Name, high: u32) -> Result<Expr, AllocError>
    requires { high < 64 }
    ensures { IfOk result (λ e. read e ≡ fewer_credits count.now (values.net on.now) high) }
{
    let fewer = two(alloc, Op::Sub, net(alloc, count)?, number(high + 1, 1))?;
    let same = net(alloc, count)?;
    cond(alloc, net(alloc, on)?, fewer, same)
}

/// Writes a part of the group of the credits of channel `channel` of a leaving link, in `high + 1` bits: a pulse, bit
/// `place` of `bundle`, adds one, and a flit that goes out takes one.
///
/// # Errors
///
/// Memory ran out.
pub fn credits(
    alloc: Global,
    phase: Phase,
    plan: &Plan,
    domain: u32,
    out: u32,
    channel: u32,
    bundle: &Name,
    place: u32,
    high: u32,
    work: &mut LeafWork,
) -> Result<(), AllocError>
    requires domain { domain < length plan.now.domains }
    requires out { out < ports plan.now }
    requires high { high < 64 }
    ensures { OnOk result (read_leaf work.new.leaf ≡ with_items (read_leaf work.old.leaf) (items_of phase (credit_group
        (leaf_names.credits domain out channel) (values.bit bundle.now place) (values.net
        (net_names.on domain out channel)) high plan.now.buffer))) }
{
    let count = register_name(alloc, plan, domain, 4, out, channel)?;
    match phase {
        Phase::Heads => register(alloc, work, high, &count),
        Phase::Nets => Ok(()),
        Phase::Moves => {
            let on = on_name(alloc, plan, domain, out, channel)?;
            let pulse = bit(alloc, bundle, place)?;
            let more = more_credits(alloc, &count, &on, high)?;
            let fewer = fewer_credits(alloc, &count, &on, high)?;
            let value = cond(alloc, pulse, more, fewer)?;
            let reset = Const {
                width: high + 1,
                value: plan.buffer() as u64,
            };
            clock(alloc, work, &count, reset, value)
        }
    }
}
