//! Who waits for an output of a domain, and which of its channels are held by whom.

ghost use Rattle.std.specs.Prelude.{◌≡◌, ◌<◌, ◌≤◌, ◌+◌, ◌-◌, ◌*◌, ◌^◌, length, OnOk, IfOk};
ghost use Rattle.vl_tree.specs.Read.{read, read_leaf};
ghost use Rattle.vl_tree.specs.Values as values;
ghost use Rattle.vl_model.specs.Laws.{with_items};
ghost use Rattle.noc_model.specs.Plan.{ports, tiles, link_channels};
ghost use Rattle.gen_kit.specs.Families.{for_each, or_upto};
ghost use Rattle.gen_kit.specs.Masks.{mask};
ghost use Rattle.gen_kit.specs.RotateOf.{names_of};
ghost use Rattle.leaf_tie.specs.Alloc.{alloc_group, in_class, class_number, class_nets, class_start, asks_class, taken_nets, taken_parts, taken_channels, becomes_active, lone_requests, class_requests, active_move, active_moves, out_count};
ghost use Rattle.leaf_tie.specs.Glue.{high};
ghost use Rattle.leaf_tie.specs.Names.{alloc_names};
ghost use Rattle.leaf_tie.specs.Tie.{alloc_size};
ghost use Rattle.leaf_parts.specs.Phases.{items_of};
ghost use Rattle.leaf_parts.specs.Parts.{active_heads, own_moves, some_winner, taken_net};

use crate::Phase;
use crate::build::{clock, clock_zero, empty, gated, least, register};
use crate::names::{net_name, register_name};
use crate::sizes::{high, last_class, last_of_class, out_count};
use dor_routes::class_after;
use gen_kit::{LeafWork, Rotate, bit, cat, cond, net, not, number, part, two};
use noc_model::Plan;
use sqlite_items::Items;
use std::alloc::{AllocError, Global};
use vc_partition::channel_count;
use vl_tree::{Const, Expr, Op};

// Whether a packet at the place would go on by the output in this class.
fn in_class(plan: &Plan, tile: u32, domain: u32, out: u32, class: u32, place: u32) -> bool
    requires tile { tile < tiles plan.now }
    requires domain { domain < length plan.now.domains }
    requires out { out < ports plan.now }
    requires place { place < ports plan.now * link_channels plan.now domain }
    ensures { result ≡ in_class plan.now domain tile out class place }
{
    let channels = plan.link_channels(domain);
    let port = place / channels;
    let channel = place % channels;
    channel < channel_count(plan, domain, port)
        && class_after(plan, tile, port, channel / plan.channels(domain), out) == class
}

// The set of the places from which a packet would go on in the class.
fn class_mask(plan: &Plan, tile: u32, domain: u32, out: u32, class: u32) -> u64
    requires tile { tile < tiles plan.now }
    requires domain { domain < length plan.now.domains }
    requires out { out < ports plan.now }
    ensures value { result ≡ mask (high plan.now domain + 1) (in_class plan.now domain tile out class) }
    ensures fits { result < 2 ^ (high plan.now domain + 1) }
{
    let mut mask = 0u64;
    for place in 0..high(plan, domain) + 1 {
        if in_class(plan, tile, domain, out, class, place) {
            mask += 2u64.pow(place);
        }
    }
    mask
}

fn class_number(plan: &Plan, tile: u32, domain: u32, out: u32, class: u32) -> Expr
    requires tile { tile < tiles plan.now }
    requires domain { domain < length plan.now.domains }
    requires out { out < ports plan.now }
    ensures { read result ≡ class_number plan.now domain tile out (alloc_size plan.now domain out) class }
{
    let mask = class_mask(plan, tile, domain, out, class);
    number(high(plan, domain) + 1, mask)
}

// The free channels of a class, and the least of them.
fn class_nets(
    alloc: Global,
    plan: &Plan,
    domain: u32,
    out: u32,
    class: u32,
    work: &mut LeafWork,
) -> Result<(), AllocError>
    requires domain { domain < length plan.now.domains }
    requires out { out < ports plan.now }
    requires class { class < 2 }
    ensures { OnOk result (read_leaf work.new.leaf ≡ with_items (read_leaf work.old.leaf)
        (class_nets (alloc_names domain out) (alloc_size plan.now domain out) class)) }
{
    let size = last_of_class(plan, domain, out);
    let start = class * (size + 1);
    let held = register_name(alloc, plan, domain, 0, out, 1)?;
    let free = net_name(alloc, plan, domain, 1, out, 1 + 2 * class)?;
    let value = not(alloc, part(alloc, &held, start + size, start)?)?;
    work.define(alloc, size, &free, value)?;
    let name = net_name(alloc, plan, domain, 1, out, 2 + 2 * class)?;
    work.define(alloc, size, &name, least(alloc, size, &free)?)
}

fn all_class_nets(
    alloc: Global,
    plan: &Plan,
    domain: u32,
    out: u32,
    work: &mut LeafWork,
) -> Result<(), AllocError>
    requires domain { domain < length plan.now.domains }
    requires out { out < ports plan.now }
    ensures { OnOk result (read_leaf work.new.leaf ≡ with_items (read_leaf work.old.leaf)
        (for_each ((alloc_size plan.now domain out).last + 1)
        (class_nets (alloc_names domain out) (alloc_size plan.now domain out)))) }
{
    for class in 0..last_class(plan, domain, out) + 1 {
        class_nets(alloc, plan, domain, out, class, work)?;
    }
    Ok(())
}

// The places that wait for a free channel of a class.
fn asks_class(
    alloc: Global,
    plan: &Plan,
    tile: u32,
    domain: u32,
    out: u32,
    class: u32,
) -> Result<Expr, AllocError>
    requires tile { tile < tiles plan.now }
    requires domain { domain < length plan.now.domains }
    requires out { out < ports plan.now }
    requires class { class < 2 }
    ensures { IfOk result (λ e. read e ≡ asks_class plan.now domain tile out (alloc_names domain out)
        (alloc_size plan.now domain out) class) }
{
    let free = net_name(alloc, plan, domain, 1, out, 1 + 2 * class)?;
    let none = empty(alloc, last_of_class(plan, domain, out), net(alloc, &free)?)?;
    let waiting = register_name(alloc, plan, domain, 0, out, 0)?;
    let these = class_number(plan, tile, domain, out, class);
    let asks = two(alloc, Op::And, net(alloc, &waiting)?, these)?;
    cond(alloc, none, number(high(plan, domain) + 1, 0), asks)
}

fn requests(
    alloc: Global,
    plan: &Plan,
    tile: u32,
    domain: u32,
    out: u32,
) -> Result<Expr, AllocError>
    requires tile { tile < tiles plan.now }
    requires domain { domain < length plan.now.domains }
    requires out { out < ports plan.now }
    ensures { IfOk result (λ e. read e ≡ or_upto (alloc_size plan.now domain out).last (asks_class plan.now domain tile out
        (alloc_names domain out) (alloc_size plan.now domain out))) }
{
    let mut all = asks_class(alloc, plan, tile, domain, out, 0)?;
    for class in 0..last_class(plan, domain, out) {
        let more = asks_class(alloc, plan, tile, domain, out, class + 1)?;
        all = two(alloc, Op::Or, all, more)?;
    }
    Ok(all)
}

// The channel of a class that is taken, if the winner goes on in this class.
fn taken_nets(
    alloc: Global,
    plan: &Plan,
    tile: u32,
    domain: u32,
    out: u32,
    class: u32,
    work: &mut LeafWork,
) -> Result<(), AllocError>
    requires tile { tile < tiles plan.now }
    requires domain { domain < length plan.now.domains }
    requires out { out < ports plan.now }
    requires class { class < 2 }
    ensures { OnOk result (read_leaf work.new.leaf ≡ with_items (read_leaf work.old.leaf)
        (taken_nets plan.now domain tile out (alloc_names domain out) (alloc_size plan.now domain out) class)) }
{
    let size = last_of_class(plan, domain, out);
    let winner = net_name(alloc, plan, domain, 1, out, 7)?;
    let these = class_number(plan, tile, domain, out, class);
    let wins = two(alloc, Op::And, net(alloc, &winner)?, these)?;
    let none = empty(alloc, high(plan, domain), wins)?;
    let free = net_name(alloc, plan, domain, 1, out, 2 + 2 * class)?;
    let value = cond(alloc, none, number(size + 1, 0), net(alloc, &free)?)?;
    let name = net_name(alloc, plan, domain, 1, out, 8 + class)?;
    work.define(alloc, size, &name, value)
}

fn all_taken_nets(
    alloc: Global,
    plan: &Plan,
    tile: u32,
    domain: u32,
    out: u32,
    work: &mut LeafWork,
) -> Result<(), AllocError>
    requires tile { tile < tiles plan.now }
    requires domain { domain < length plan.now.domains }
    requires out { out < ports plan.now }
    ensures { OnOk result (read_leaf work.new.leaf ≡ with_items (read_leaf work.old.leaf)
        (for_each ((alloc_size plan.now domain out).last + 1) (taken_nets plan.now domain tile out
        (alloc_names domain out) (alloc_size plan.now domain out)))) }
{
    for class in 0..last_class(plan, domain, out) + 1 {
        taken_nets(alloc, plan, tile, domain, out, class, work)?;
    }
    Ok(())
}

// The channel of a class that is taken.
fn taken_net(
    alloc: Global,
    plan: &Plan,
    domain: u32,
    out: u32,
    class: u32,
) -> Result<Expr, AllocError>
    requires domain { domain < length plan.now.domains }
    requires out { out < ports plan.now }
    requires class { class < 2 }
    ensures { IfOk result (λ e. read e ≡ taken_net domain out class) }
{
    net(alloc, &net_name(alloc, plan, domain, 1, out, 8 + class)?)
}

// The channels that are taken, those of the last class first.
fn taken_row(alloc: Global, plan: &Plan, domain: u32, out: u32) -> Result<Expr, AllocError>
    requires domain { domain < length plan.now.domains }
    requires out { out < ports plan.now }
    ensures { IfOk result (λ e. read e
        ≡ values.cat (taken_parts (alloc_names domain out) (alloc_size plan.now domain out).last)) }
{
    let count = last_class(plan, domain, out) + 1;
    let mut row = Items::new(alloc);
    for class in 0..count {
        let one = taken_net(alloc, plan, domain, out, count - 1 - class)?;
        row.push(one)?;
    }
    Ok(cat(row))
}

// Whether a place wins the output's one channel.
fn some_winner(alloc: Global, plan: &Plan, domain: u32, out: u32) -> Result<Expr, AllocError>
    requires domain { domain < length plan.now.domains }
    requires out { out < ports plan.now }
    ensures { IfOk result (λ e. read e ≡ some_winner plan.now domain out) }
{
    let winner = net(alloc, &net_name(alloc, plan, domain, 1, out, 7)?)?;
    not(alloc, empty(alloc, high(plan, domain), winner)?)
}

// The channels that are taken.
fn taken_channels(alloc: Global, plan: &Plan, domain: u32, out: u32) -> Result<Expr, AllocError>
    requires domain { domain < length plan.now.domains }
    requires out { out < ports plan.now }
    ensures { IfOk result (λ e. read e
        ≡ taken_channels (alloc_names domain out) (alloc_size plan.now domain out)) }
{
    if out_count(plan, domain, out) == 1 {
        some_winner(alloc, plan, domain, out)
    } else {
        taken_row(alloc, plan, domain, out)
    }
}

// The place that becomes active on channel `j` of a class.
fn becomes_active(
    alloc: Global,
    plan: &Plan,
    domain: u32,
    out: u32,
    class: u32,
    j: u32,
) -> Result<Expr, AllocError>
    requires domain { domain < length plan.now.domains }
    requires out { out < ports plan.now }
    requires class { class < 2 }
    requires j { j < 4 }
    ensures { IfOk result (λ e. read e
        ≡ becomes_active (alloc_names domain out) (alloc_size plan.now domain out) class j) }
{
    let winner = net(alloc, &net_name(alloc, plan, domain, 1, out, 7)?)?;
    if out_count(plan, domain, out) == 1 {
        Ok(winner)
    } else {
        let taken = net_name(alloc, plan, domain, 1, out, 8 + class)?;
        gated(
            alloc,
            high(plan, domain) + 1,
            bit(alloc, &taken, j)?,
            winner,
        )
    }
}

// The places that are active on channel `j` of a class.
fn active_move(
    alloc: Global,
    plan: &Plan,
    domain: u32,
    out: u32,
    class: u32,
    j: u32,
    work: &mut LeafWork,
) -> Result<(), AllocError>
    requires domain { domain < length plan.now.domains }
    requires out { out < ports plan.now }
    requires class { class < 2 }
    requires j { j < 4 }
    ensures { OnOk result (read_leaf work.new.leaf ≡ with_items (read_leaf work.old.leaf)
        (active_move (alloc_names domain out) (alloc_size plan.now domain out) class j)) }
{
    let high = high(plan, domain);
    let channel = class * (last_of_class(plan, domain, out) + 1) + j;
    let name = register_name(alloc, plan, domain, 0, out, 3 + channel)?;
    let ends = net_name(alloc, plan, domain, 7, 0, 1)?;
    let ends = not(alloc, net(alloc, &ends)?)?;
    let stays = two(alloc, Op::And, net(alloc, &name)?, ends)?;
    let wins = becomes_active(alloc, plan, domain, out, class, j)?;
    clock_zero(alloc, work, high, &name, two(alloc, Op::Or, stays, wins)?)
}

fn class_moves(
    alloc: Global,
    plan: &Plan,
    domain: u32,
    out: u32,
    class: u32,
    work: &mut LeafWork,
) -> Result<(), AllocError>
    requires domain { domain < length plan.now.domains }
    requires out { out < ports plan.now }
    requires class { class < 2 }
    ensures { OnOk result (read_leaf work.new.leaf ≡ with_items (read_leaf work.old.leaf)
        (for_each ((alloc_size plan.now domain out).size + 1)
        (active_move (alloc_names domain out) (alloc_size plan.now domain out) class))) }
{
    for j in 0..last_of_class(plan, domain, out) + 1 {
        active_move(alloc, plan, domain, out, class, j, work)?;
    }
    Ok(())
}

fn all_active_moves(
    alloc: Global,
    plan: &Plan,
    domain: u32,
    out: u32,
    work: &mut LeafWork,
) -> Result<(), AllocError>
    requires domain { domain < length plan.now.domains }
    requires out { out < ports plan.now }
    ensures { OnOk result (read_leaf work.new.leaf ≡ with_items (read_leaf work.old.leaf)
        (active_moves (alloc_names domain out) (alloc_size plan.now domain out))) }
{
    for class in 0..last_class(plan, domain, out) + 1 {
        class_moves(alloc, plan, domain, out, class, work)?;
    }
    Ok(())
}

// The register of the places that are active on a channel.
fn active_head(
    alloc: Global,
    plan: &Plan,
    domain: u32,
    out: u32,
    channel: u32,
    work: &mut LeafWork,
) -> Result<(), AllocError>
    requires domain { domain < length plan.now.domains }
    requires out { out < ports plan.now }
    requires channel { channel < 8 }
    ensures { OnOk result (read_leaf work.new.leaf ≡ with_items (read_leaf work.old.leaf)
        (active_heads plan.now domain out channel)) }
{
    let name = register_name(alloc, plan, domain, 0, out, 3 + channel)?;
    register(alloc, work, high(plan, domain), &name)
}

fn all_active_heads(
    alloc: Global,
    plan: &Plan,
    domain: u32,
    out: u32,
    work: &mut LeafWork,
) -> Result<(), AllocError>
    requires domain { domain < length plan.now.domains }
    requires out { out < ports plan.now }
    ensures { OnOk result (read_leaf work.new.leaf ≡ with_items (read_leaf work.old.leaf)
        (for_each (out_count (alloc_size plan.now domain out)) (active_heads plan.now domain out))) }
{
    for channel in 0..out_count(plan, domain, out) {
        active_head(alloc, plan, domain, out, channel, work)?;
    }
    Ok(())
}

// The choice among the places that ask.
fn choice(alloc: Global, plan: &Plan, domain: u32, out: u32) -> Result<Rotate, AllocError>
    requires domain { domain < length plan.now.domains }
    requires out { out < ports plan.now }
    ensures names { IfOk result (λ r. names_of r ≡ (alloc_names domain out).choice) }
    ensures high { IfOk result (λ r. r.high ≡ high plan.now domain) }
    ensures few { IfOk result (λ r. r.high < 64) }
{
    Ok(Rotate {
        request: net_name(alloc, plan, domain, 1, out, 5)?,
        pointer: register_name(alloc, plan, domain, 0, out, 2)?,
        some: net_name(alloc, plan, domain, 1, out, 6)?,
        winner: net_name(alloc, plan, domain, 1, out, 7)?,
        high: high(plan, domain),
    })
}

fn heads(
    alloc: Global,
    plan: &Plan,
    tile: u32,
    domain: u32,
    out: u32,
    work: &mut LeafWork,
) -> Result<(), AllocError>
    requires domain { domain < length plan.now.domains }
    requires out { out < ports plan.now }
    ensures { OnOk result (read_leaf work.new.leaf ≡ with_items (read_leaf work.old.leaf)
        (alloc_group plan.now domain tile out (alloc_names domain out) (alloc_size plan.now domain out)).heads) }
{
    let waiting = register_name(alloc, plan, domain, 0, out, 0)?;
    register(alloc, work, high(plan, domain), &waiting)?;
    let held = register_name(alloc, plan, domain, 0, out, 1)?;
    register(alloc, work, out_count(plan, domain, out) - 1, &held)?;
    choice(alloc, plan, domain, out)?.heads(alloc, work)?;
    all_active_heads(alloc, plan, domain, out, work)
}

// The nets of an output with one channel: all that wait for it ask for it, if nobody holds it.
fn lone_requests(
    alloc: Global,
    plan: &Plan,
    domain: u32,
    out: u32,
    work: &mut LeafWork,
) -> Result<(), AllocError>
    requires domain { domain < length plan.now.domains }
    requires out { out < ports plan.now }
    ensures { OnOk result (read_leaf work.new.leaf ≡ with_items (read_leaf work.old.leaf)
        (lone_requests (alloc_names domain out) (alloc_size plan.now domain out))) }
{
    let high = high(plan, domain);
    let held = net(alloc, &register_name(alloc, plan, domain, 0, out, 1)?)?;
    let waiting = net(alloc, &register_name(alloc, plan, domain, 0, out, 0)?)?;
    let value = cond(alloc, held, number(high + 1, 0), waiting)?;
    let request = net_name(alloc, plan, domain, 1, out, 5)?;
    work.define(alloc, high, &request, value)?;
    choice(alloc, plan, domain, out)?.nets(alloc, work)
}

// The nets of an output with more channels: the free ones of each class, who asks for one, and what is taken.
fn class_requests(
    alloc: Global,
    plan: &Plan,
    tile: u32,
    domain: u32,
    out: u32,
    work: &mut LeafWork,
) -> Result<(), AllocError>
    requires tile { tile < tiles plan.now }
    requires domain { domain < length plan.now.domains }
    requires out { out < ports plan.now }
    ensures { OnOk result (read_leaf work.new.leaf ≡ with_items (read_leaf work.old.leaf)
        (class_requests plan.now domain tile out (alloc_names domain out) (alloc_size plan.now domain out))) }
{
    all_class_nets(alloc, plan, domain, out, work)?;
    let value = requests(alloc, plan, tile, domain, out)?;
    let request = net_name(alloc, plan, domain, 1, out, 5)?;
    work.define(alloc, high(plan, domain), &request, value)?;
    choice(alloc, plan, domain, out)?.nets(alloc, work)?;
    all_taken_nets(alloc, plan, tile, domain, out, work)
}

fn nets(
    alloc: Global,
    plan: &Plan,
    tile: u32,
    domain: u32,
    out: u32,
    work: &mut LeafWork,
) -> Result<(), AllocError>
    requires tile { tile < tiles plan.now }
    requires domain { domain < length plan.now.domains }
    requires out { out < ports plan.now }
    ensures { OnOk result (read_leaf work.new.leaf ≡ with_items (read_leaf work.old.leaf)
        (alloc_group plan.now domain tile out (alloc_names domain out) (alloc_size plan.now domain out)).nets) }
{
    if out_count(plan, domain, out) == 1 {
        lone_requests(alloc, plan, domain, out, work)
    } else {
        class_requests(alloc, plan, tile, domain, out, work)
    }
}

// The places that wait, and the channels that are held.
fn own_moves(
    alloc: Global,
    plan: &Plan,
    domain: u32,
    out: u32,
    work: &mut LeafWork,
) -> Result<(), AllocError>
    requires domain { domain < length plan.now.domains }
    requires out { out < ports plan.now }
    ensures { OnOk result (read_leaf work.new.leaf ≡ with_items (read_leaf work.old.leaf)
        (own_moves plan.now domain out)) }
{
    let waiting = register_name(alloc, plan, domain, 0, out, 0)?;
    let winner = net_name(alloc, plan, domain, 1, out, 7)?;
    let led = net_name(alloc, plan, domain, 1, out, 0)?;
    let loses = not(alloc, net(alloc, &winner)?)?;
    let stays = two(alloc, Op::And, net(alloc, &waiting)?, loses)?;
    let value = two(alloc, Op::Or, stays, net(alloc, &led)?)?;
    clock_zero(alloc, work, high(plan, domain), &waiting, value)?;
    let held = register_name(alloc, plan, domain, 0, out, 1)?;
    let freed = net_name(alloc, plan, domain, 8, out, 0)?;
    let kept = not(alloc, net(alloc, &freed)?)?;
    let stays = two(alloc, Op::And, net(alloc, &held)?, kept)?;
    let value = two(
        alloc,
        Op::Or,
        stays,
        taken_channels(alloc, plan, domain, out)?,
    )?;
    let reset = Const {
        width: out_count(plan, domain, out),
        value: 0,
    };
    clock(alloc, work, &held, reset, value)
}

fn moves(
    alloc: Global,
    plan: &Plan,
    tile: u32,
    domain: u32,
    out: u32,
    work: &mut LeafWork,
) -> Result<(), AllocError>
    requires domain { domain < length plan.now.domains }
    requires out { out < ports plan.now }
    ensures { OnOk result (read_leaf work.new.leaf ≡ with_items (read_leaf work.old.leaf)
        (alloc_group plan.now domain tile out (alloc_names domain out) (alloc_size plan.now domain out)).moves) }
{
    own_moves(alloc, plan, domain, out, work)?;
    choice(alloc, plan, domain, out)?.moves(alloc, work)?;
    all_active_moves(alloc, plan, domain, out, work)
}

/// Writes a part of the allocation of an output of a domain.
///
/// # Errors
///
/// Memory ran out.
pub fn allocation(
    alloc: Global,
    phase: Phase,
    plan: &Plan,
    tile: u32,
    domain: u32,
    out: u32,
    work: &mut LeafWork,
) -> Result<(), AllocError>
    requires tile { tile < tiles plan.now }
    requires domain { domain < length plan.now.domains }
    requires out { out < ports plan.now }
    ensures { OnOk result (read_leaf work.new.leaf ≡ with_items (read_leaf work.old.leaf) (items_of phase
        (alloc_group plan.now domain tile out (alloc_names domain out) (alloc_size plan.now domain out)))) }
{
    match phase {
        Phase::Heads => heads(alloc, plan, tile, domain, out, work),
        Phase::Nets => nets(alloc, plan, tile, domain, out, work),
        Phase::Moves => moves(alloc, plan, tile, domain, out, work),
    }
}
