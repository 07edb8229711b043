//! The attachment of a domain at a tile: whether a word is taken, where its packet goes, and what enters.

ghost use Rattle.std.specs.Prelude.{◌≡◌, ◌<◌, ◌≤◌, length, OnOk, IfOk};
ghost use Rattle.vl_tree.specs.Read.{read, read_leaf};
ghost use Rattle.vl_model.specs.Laws.{with_items};
ghost use Rattle.noc_model.specs.Plan.{tiles, channels};
ghost use Rattle.flit_word.specs.Words.{dest_bits};
ghost use Rattle.leaf_tie.specs.Attach.{in_range, not_above, not_below, looked, reach, room_expr, next_channel, entry_word};
ghost use Rattle.leaf_tie.specs.Names.{port_names};
ghost use Rattle.leaf_parts.specs.Phases.{items_of};
ghost use Rattle.leaf_parts.specs.Entries.{its_names, its_size, entry_group, range_nets, has_room, range_choice, look_net, packet_heads, entry_heads, found_net, taken_net, goes_net, to_net, enters_nets, passing_move, dropping_move, dest_move, current_move, drop_move};

use crate::Phase;
use crate::build::{both, clock, clock_zero, equals, plus_one, register};
use crate::names::{net_name, port_name, register_name};
use crate::sizes::{buffer_tag, count_high, current_high, dest_high};
use crate::table::route_bits;
use flit_word::dest_bits;
use gen_kit::{LeafWork, bit, cat, cond, net, not, number, own_name, part, two};
use noc_model::{Plan, Range};
use sqlite_items::Items;
use std::alloc::{AllocError, Global};
use vl_tree::{Const, Expr, LeafItem, Name, Op};

// Whether an address is not below the first of a range.
fn not_below(alloc: Global, address: &Name, range: Range) -> Result<Expr, AllocError>
    ensures { IfOk result (λ e. read e ≡ not_below address.now range) }
{
    let first = number(32, range.first as u64);
    not(alloc, two(alloc, Op::Less, net(alloc, address)?, first)?)
}

// Whether an address is not above the last of a range.
fn not_above(alloc: Global, address: &Name, range: Range) -> Result<Expr, AllocError>
    ensures { IfOk result (λ e. read e ≡ not_above address.now range) }
{
    let last = number(32, range.last as u64);
    if range.last == u32::MAX {
        let below = two(alloc, Op::Less, net(alloc, address)?, last)?;
        let last = number(32, range.last as u64);
        let same = two(alloc, Op::Equal, net(alloc, address)?, last)?;
        two(alloc, Op::Or, below, same)
    } else {
        not(alloc, two(alloc, Op::Less, last, net(alloc, address)?)?)
    }
}

// Whether an address is in a range.
fn in_range(alloc: Global, address: &Name, range: Range) -> Result<Expr, AllocError>
    ensures { IfOk result (λ e. read e ≡ in_range address.now range) }
{
    if range.first == 0 {
        not_above(alloc, address, range)
    } else {
        let begun = not_below(alloc, address, range)?;
        two(alloc, Op::And, begun, not_above(alloc, address, range)?)
    }
}

// What an address finds among the last `count` ranges.
fn looked(
    alloc: Global,
    plan: &Plan,
    domain: u32,
    bits: u32,
    count: u32,
) -> Result<Expr, AllocError>
    requires domain { domain < length plan.now.domains }
    requires bits { bits ≤ 8 }
    requires count { count ≤ 1024 }
    ensures { IfOk result (λ e. read e ≡ looked (its_names domain).look bits count) }
{
    if count == 0 {
        return Ok(number(bits + 1, 0));
    }
    net(alloc, &net_name(alloc, plan, domain, 11, 0, 1 + count)?)
}

// What an address finds among a range and the `count` behind it.
fn range_choice(
    alloc: Global,
    plan: &Plan,
    tile: u32,
    domain: u32,
    range: Range,
    count: u32,
) -> Result<Expr, AllocError>
    requires domain { domain < length plan.now.domains }
    requires range { range.tile < tiles plan.now }
    requires count { count ≤ 1024 }
    ensures { IfOk result (λ e. read e ≡ range_choice plan.now tile domain range count) }
{
    let bits = dest_bits(plan);
    let address = port_name(alloc, b"oa", tile, domain)?;
    let test = in_range(alloc, &address, range)?;
    let found = number(bits + 1, 2u64.pow(bits) + range.tile as u64);
    cond(
        alloc,
        test,
        found,
        looked(alloc, plan, domain, bits, count)?,
    )
}

// The net of what an address finds among a range and the `count` behind it.
fn look_net(
    alloc: Global,
    plan: &Plan,
    tile: u32,
    domain: u32,
    range: Range,
    count: u32,
    work: &mut LeafWork,
) -> Result<(), AllocError>
    requires domain { domain < length plan.now.domains }
    requires range { range.tile < tiles plan.now }
    requires count { count ≤ 1024 }
    ensures { OnOk result (read_leaf work.new.leaf ≡ with_items (read_leaf work.old.leaf)
        (look_net plan.now tile domain range count)) }
{
    plan.known();
    let value = range_choice(alloc, plan, tile, domain, range, count)?;
    let name = net_name(alloc, plan, domain, 11, 0, 1 + (count + 1))?;
    work.define(alloc, dest_bits(plan), &name, value)?;
    Ok(())
}

// The tile of each range that hosts the domain, the last range first.
fn look_nets(
    alloc: Global,
    plan: &Plan,
    tile: u32,
    domain: u32,
    work: &mut LeafWork,
) -> Result<u32, AllocError>
    requires domain { domain < length plan.now.domains }
    ensures count { IfOk result (λ k. k ≡ length (reach plan.now domain)) }
    ensures few { IfOk result (λ k. k ≤ 1024) }
    ensures items { IfOk result (λ k. read_leaf work.new.leaf ≡ with_items (read_leaf work.old.leaf)
        (range_nets plan.now tile domain plan.now.ranges)) }
{
    plan.known();
    let mut count = 0;
    let mut i = plan.range_count();
    while i > 0 {
        i -= 1;
        let range = plan.range(i);
        if plan.hosts(range.tile, domain) {
            look_net(alloc, plan, tile, domain, range, count, work)?;
            count += 1;
        }
    }
    Ok(count)
}

// Whether a channel is the current one, and its buffer has room.
fn has_room(alloc: Global, plan: &Plan, domain: u32, channel: u32) -> Result<Expr, AllocError>
    requires domain { domain < length plan.now.domains }
    requires channel { channel < channels plan.now domain }
    ensures { IfOk result (λ e. read e ≡ has_room plan.now domain channel) }
{
    plan.known();
    let current = register_name(alloc, plan, domain, 5, 0, 4)?;
    let bits = current_high(plan.channels(domain)) + 1;
    let here = equals(alloc, &current, bits, channel as u64)?;
    let count = own_name(alloc, buffer_tag(plan, domain, 0, channel), &[3])?;
    let depth = plan.buffer();
    let full = number(count_high(depth) + 1, depth as u64);
    let room = two(alloc, Op::Less, net(alloc, &count)?, full)?;
    two(alloc, Op::And, here, room)
}

/// Whether the current channel's buffer has room.
///
/// # Errors
///
/// Memory ran out.
pub fn room(alloc: Global, plan: &Plan, domain: u32) -> Result<Expr, AllocError>
    requires domain { domain < length plan.now.domains }
    ensures { IfOk result (λ e. read e ≡ room_expr plan.now domain (its_names domain) (its_size plan.now domain)) }
{
    let last = plan.channels(domain) - 1;
    let mut all = has_room(alloc, plan, domain, 0)?;
    for channel in 0..last {
        let more = has_room(alloc, plan, domain, channel + 1)?;
        all = two(alloc, Op::Or, all, more)?;
    }
    Ok(all)
}

// The current channel's number after a last flit.
fn next_channel(alloc: Global, plan: &Plan, domain: u32) -> Result<Expr, AllocError>
    requires domain { domain < length plan.now.domains }
    ensures { IfOk result (λ e. read e
        ≡ next_channel plan.now domain (its_names domain) (its_size plan.now domain)) }
{
    plan.known();
    let count = plan.channels(domain);
    let high = current_high(count);
    let current = register_name(alloc, plan, domain, 5, 0, 4)?;
    let test = equals(alloc, &current, high + 1, (count - 1) as u64)?;
    cond(
        alloc,
        test,
        number(high + 1, 0),
        plus_one(alloc, high, &current)?,
    )
}

// The word that is stored of an entering flit.
fn entry_word(alloc: Global, plan: &Plan, tile: u32, domain: u32) -> Result<Expr, AllocError>
    requires tile { tile < tiles plan.now }
    requires domain { domain < length plan.now.domains }
    ensures { IfOk result (λ e. read e ≡ entry_word plan.now tile (its_names domain) ((port_names tile).last domain)
        ((port_names tile).payload domain) (dest_bits plan.now)) }
{
    plan.known();
    let to = net_name(alloc, plan, domain, 12, 0, 3)?;
    let mut parts = Items::new(alloc);
    parts.push(route_bits(alloc, plan, tile, &to, dest_bits(plan))?)?;
    let passing = register_name(alloc, plan, domain, 5, 0, 1)?;
    parts.push(not(alloc, net(alloc, &passing)?)?)?;
    parts.push(net(alloc, &port_name(alloc, b"ol", tile, domain)?)?)?;
    parts.push(net(alloc, &to)?)?;
    parts.push(net(alloc, &port_name(alloc, b"op", tile, domain)?)?)?;
    Ok(cat(parts))
}

// Whether a word is taken.
fn taken_net(
    alloc: Global,
    plan: &Plan,
    tile: u32,
    domain: u32,
    work: &mut LeafWork,
) -> Result<(), AllocError>
    requires domain { domain < length plan.now.domains }
    ensures { OnOk result (read_leaf work.new.leaf ≡ with_items (read_leaf work.old.leaf)
        (taken_net plan.now tile domain)) }
{
    plan.known();
    let dropping = register_name(alloc, plan, domain, 5, 0, 2)?;
    let open = two(
        alloc,
        Op::Or,
        net(alloc, &dropping)?,
        room(alloc, plan, domain)?,
    )?;
    let offered = net(alloc, &port_name(alloc, b"ov", tile, domain)?)?;
    let value = two(alloc, Op::And, offered, open)?;
    let taken = net_name(alloc, plan, domain, 12, 0, 1)?;
    work.define(alloc, 0, &taken, value)
}

// Whether its packet goes to a tile.
fn goes_net(alloc: Global, plan: &Plan, domain: u32, work: &mut LeafWork) -> Result<(), AllocError>
    requires domain { domain < length plan.now.domains }
    ensures { OnOk result (read_leaf work.new.leaf ≡ with_items (read_leaf work.old.leaf)
        (goes_net plan.now domain)) }
{
    plan.known();
    let bits = dest_bits(plan);
    let passing = register_name(alloc, plan, domain, 5, 0, 1)?;
    let dropping = register_name(alloc, plan, domain, 5, 0, 2)?;
    let found = net_name(alloc, plan, domain, 12, 0, 0)?;
    let stays = not(alloc, net(alloc, &dropping)?)?;
    let begins = two(alloc, Op::And, stays, bit(alloc, &found, bits)?)?;
    let value = two(alloc, Op::Or, net(alloc, &passing)?, begins)?;
    let goes = net_name(alloc, plan, domain, 12, 0, 2)?;
    work.define(alloc, 0, &goes, value)
}

// The tile that it goes to.
fn to_net(alloc: Global, plan: &Plan, domain: u32, work: &mut LeafWork) -> Result<(), AllocError>
    requires domain { domain < length plan.now.domains }
    ensures { OnOk result (read_leaf work.new.leaf ≡ with_items (read_leaf work.old.leaf)
        (to_net plan.now domain)) }
{
    plan.known();
    let high = dest_high(plan);
    let passing = register_name(alloc, plan, domain, 5, 0, 1)?;
    let dest = register_name(alloc, plan, domain, 5, 0, 3)?;
    let found = net_name(alloc, plan, domain, 12, 0, 0)?;
    let begins = part(alloc, &found, high, 0)?;
    let value = cond(alloc, net(alloc, &passing)?, net(alloc, &dest)?, begins)?;
    let to = net_name(alloc, plan, domain, 12, 0, 3)?;
    work.define(alloc, high, &to, value)
}

// Whether a flit enters, and the word that is stored.
fn enters_nets(
    alloc: Global,
    plan: &Plan,
    tile: u32,
    domain: u32,
    work: &mut LeafWork,
) -> Result<(), AllocError>
    requires tile { tile < tiles plan.now }
    requires domain { domain < length plan.now.domains }
    ensures { OnOk result (read_leaf work.new.leaf ≡ with_items (read_leaf work.old.leaf)
        (enters_nets plan.now tile domain)) }
{
    plan.known();
    let taken = net_name(alloc, plan, domain, 12, 0, 1)?;
    let goes = net_name(alloc, plan, domain, 12, 0, 2)?;
    let enters = net_name(alloc, plan, domain, 12, 0, 4)?;
    work.define(alloc, 0, &enters, both(alloc, &taken, &goes)?)?;
    work.push_item(LeafItem::Assign {
        name: net_name(alloc, plan, domain, 12, 0, 5)?,
        value: entry_word(alloc, plan, tile, domain)?,
    })
}

// What an address finds among all ranges, of which `count` are there.
fn found_net(
    alloc: Global,
    plan: &Plan,
    domain: u32,
    count: u32,
    work: &mut LeafWork,
) -> Result<(), AllocError>
    requires domain { domain < length plan.now.domains }
    requires count { count ≤ 1024 }
    ensures { OnOk result (read_leaf work.new.leaf ≡ with_items (read_leaf work.old.leaf)
        (found_net plan.now domain count)) }
{
    plan.known();
    let bits = dest_bits(plan);
    let found = net_name(alloc, plan, domain, 12, 0, 0)?;
    let value = looked(alloc, plan, domain, bits, count)?;
    work.define(alloc, bits, &found, value)
}

fn nets(
    alloc: Global,
    plan: &Plan,
    tile: u32,
    domain: u32,
    work: &mut LeafWork,
) -> Result<(), AllocError>
    requires tile { tile < tiles plan.now }
    requires domain { domain < length plan.now.domains }
    ensures { OnOk result (read_leaf work.new.leaf ≡ with_items (read_leaf work.old.leaf)
        (entry_group plan.now tile domain).nets) }
{
    let count = look_nets(alloc, plan, tile, domain, work)?;
    found_net(alloc, plan, domain, count, work)?;
    taken_net(alloc, plan, tile, domain, work)?;
    goes_net(alloc, plan, domain, work)?;
    to_net(alloc, plan, domain, work)?;
    enters_nets(alloc, plan, tile, domain, work)?;
    Ok(())
}

// The registers that say where a packet goes.
fn packet_heads(
    alloc: Global,
    plan: &Plan,
    domain: u32,
    work: &mut LeafWork,
) -> Result<(), AllocError>
    requires domain { domain < length plan.now.domains }
    ensures { OnOk result (read_leaf work.new.leaf ≡ with_items (read_leaf work.old.leaf)
        (packet_heads plan.now domain)) }
{
    plan.known();
    let passing = register_name(alloc, plan, domain, 5, 0, 1)?;
    register(alloc, work, 0, &passing)?;
    let dropping = register_name(alloc, plan, domain, 5, 0, 2)?;
    register(alloc, work, 0, &dropping)?;
    let dest = register_name(alloc, plan, domain, 5, 0, 3)?;
    register(alloc, work, dest_high(plan), &dest)
}

// The current channel, the drop pulse, and the word that is stored.
fn entry_heads(
    alloc: Global,
    plan: &Plan,
    domain: u32,
    work: &mut LeafWork,
) -> Result<(), AllocError>
    requires domain { domain < length plan.now.domains }
    ensures { OnOk result (read_leaf work.new.leaf ≡ with_items (read_leaf work.old.leaf)
        (entry_heads plan.now domain)) }
{
    plan.known();
    let current = register_name(alloc, plan, domain, 5, 0, 4)?;
    register(alloc, work, current_high(plan.channels(domain)), &current)?;
    let dropped = register_name(alloc, plan, domain, 5, 0, 5)?;
    register(alloc, work, 0, &dropped)?;
    work.push_item(LeafItem::Wire {
        high: plan.ports() + 33 + dest_bits(plan),
        name: net_name(alloc, plan, domain, 12, 0, 5)?,
    })
}

fn heads(
    alloc: Global,
    plan: &Plan,
    tile: u32,
    domain: u32,
    work: &mut LeafWork,
) -> Result<(), AllocError>
    requires domain { domain < length plan.now.domains }
    ensures { OnOk result (read_leaf work.new.leaf ≡ with_items (read_leaf work.old.leaf)
        (entry_group plan.now tile domain).heads) }
{
    packet_heads(alloc, plan, domain, work)?;
    entry_heads(alloc, plan, domain, work)
}

// Whether a packet passes after an edge: as it did, or as the word that is taken says.
fn passing_move(
    alloc: Global,
    plan: &Plan,
    tile: u32,
    domain: u32,
    work: &mut LeafWork,
) -> Result<(), AllocError>
    requires domain { domain < length plan.now.domains }
    ensures { OnOk result (read_leaf work.new.leaf ≡ with_items (read_leaf work.old.leaf)
        (passing_move tile domain)) }
{
    plan.known();
    let taken = net_name(alloc, plan, domain, 12, 0, 1)?;
    let goes = net_name(alloc, plan, domain, 12, 0, 2)?;
    let last = port_name(alloc, b"ol", tile, domain)?;
    let passing = register_name(alloc, plan, domain, 5, 0, 1)?;
    let more = not(alloc, net(alloc, &last)?)?;
    let next = two(alloc, Op::And, more, net(alloc, &goes)?)?;
    let value = cond(alloc, net(alloc, &taken)?, next, net(alloc, &passing)?)?;
    clock_zero(alloc, work, 0, &passing, value)
}

// Whether a packet is dropped after an edge.
fn dropping_move(
    alloc: Global,
    plan: &Plan,
    tile: u32,
    domain: u32,
    work: &mut LeafWork,
) -> Result<(), AllocError>
    requires domain { domain < length plan.now.domains }
    ensures { OnOk result (read_leaf work.new.leaf ≡ with_items (read_leaf work.old.leaf)
        (dropping_move tile domain)) }
{
    plan.known();
    let taken = net_name(alloc, plan, domain, 12, 0, 1)?;
    let goes = net_name(alloc, plan, domain, 12, 0, 2)?;
    let last = port_name(alloc, b"ol", tile, domain)?;
    let dropping = register_name(alloc, plan, domain, 5, 0, 2)?;
    let more = not(alloc, net(alloc, &last)?)?;
    let next = two(alloc, Op::And, more, not(alloc, net(alloc, &goes)?)?)?;
    let value = cond(alloc, net(alloc, &taken)?, next, net(alloc, &dropping)?)?;
    clock_zero(alloc, work, 0, &dropping, value)
}

// Where a packet goes after an edge.
fn dest_move(alloc: Global, plan: &Plan, domain: u32, work: &mut LeafWork) -> Result<(), AllocError>
    requires domain { domain < length plan.now.domains }
    ensures { OnOk result (read_leaf work.new.leaf ≡ with_items (read_leaf work.old.leaf)
        (dest_move plan.now domain)) }
{
    plan.known();
    let taken = net_name(alloc, plan, domain, 12, 0, 1)?;
    let to = net_name(alloc, plan, domain, 12, 0, 3)?;
    let dest = register_name(alloc, plan, domain, 5, 0, 3)?;
    let value = cond(
        alloc,
        net(alloc, &taken)?,
        net(alloc, &to)?,
        net(alloc, &dest)?,
    )?;
    let reset = Const {
        width: dest_bits(plan),
        value: 0,
    };
    clock(alloc, work, &dest, reset, value)
}

// The current channel after an edge.
fn current_move(
    alloc: Global,
    plan: &Plan,
    tile: u32,
    domain: u32,
    work: &mut LeafWork,
) -> Result<(), AllocError>
    requires domain { domain < length plan.now.domains }
    ensures { OnOk result (read_leaf work.new.leaf ≡ with_items (read_leaf work.old.leaf)
        (current_move plan.now tile domain)) }
{
    plan.known();
    let enters = net_name(alloc, plan, domain, 12, 0, 4)?;
    let ends = both(alloc, &enters, &port_name(alloc, b"ol", tile, domain)?)?;
    let current = register_name(alloc, plan, domain, 5, 0, 4)?;
    let next = next_channel(alloc, plan, domain)?;
    let value = cond(alloc, ends, next, net(alloc, &current)?)?;
    clock_zero(
        alloc,
        work,
        current_high(plan.channels(domain)),
        &current,
        value,
    )
}

// The drop pulse after an edge.
fn drop_move(alloc: Global, plan: &Plan, domain: u32, work: &mut LeafWork) -> Result<(), AllocError>
    requires domain { domain < length plan.now.domains }
    ensures { OnOk result (read_leaf work.new.leaf ≡ with_items (read_leaf work.old.leaf)
        (drop_move domain)) }
{
    plan.known();
    let taken = net_name(alloc, plan, domain, 12, 0, 1)?;
    let goes = net_name(alloc, plan, domain, 12, 0, 2)?;
    let lost = not(alloc, net(alloc, &goes)?)?;
    let value = two(alloc, Op::And, net(alloc, &taken)?, lost)?;
    clock_zero(
        alloc,
        work,
        0,
        &register_name(alloc, plan, domain, 5, 0, 5)?,
        value,
    )
}

fn moves(
    alloc: Global,
    plan: &Plan,
    tile: u32,
    domain: u32,
    work: &mut LeafWork,
) -> Result<(), AllocError>
    requires domain { domain < length plan.now.domains }
    ensures { OnOk result (read_leaf work.new.leaf ≡ with_items (read_leaf work.old.leaf)
        (entry_group plan.now tile domain).moves) }
{
    passing_move(alloc, plan, tile, domain, work)?;
    dropping_move(alloc, plan, tile, domain, work)?;
    dest_move(alloc, plan, domain, work)?;
    current_move(alloc, plan, tile, domain, work)?;
    drop_move(alloc, plan, domain, work)?;
    Ok(())
}

/// Writes a part of the group of a domain's attachment.
///
/// # Errors
///
/// Memory ran out.
pub fn attachment(
    alloc: Global,
    phase: Phase,
    plan: &Plan,
    tile: u32,
    domain: u32,
    work: &mut LeafWork,
) -> Result<(), AllocError>
    requires tile { tile < tiles plan.now }
    requires domain { domain < length plan.now.domains }
    ensures { OnOk result (read_leaf work.new.leaf ≡ with_items (read_leaf work.old.leaf)
        (items_of phase (entry_group plan.now tile domain))) }
{
    match phase {
        Phase::Heads => heads(alloc, plan, tile, domain, work),
        Phase::Nets => nets(alloc, plan, tile, domain, work),
        Phase::Moves => moves(alloc, plan, tile, domain, work),
    }
}
