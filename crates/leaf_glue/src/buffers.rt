//! The buffers of a domain, and the word that an arriving link stores.

ghost use Rattle.std.specs.Prelude.{◌≡◌, ◌<◌, ◌≤◌, ◌+◌, ◌-◌, ◌^◌, ◌∷◌, [], length, OnOk, IfOk};
ghost use Rattle.vl_tree.specs.Read.{read, read_leaf};
ghost use Rattle.vl_tree.specs.Values as values;
ghost use Rattle.vl_model.specs.Laws.{with_items};
ghost use Rattle.noc_model.specs.Plan.{tiles, ports, channels, link_channels};
ghost use Rattle.flit_word.specs.Words.{dest_bits, channel_bits, flit_bits};
ghost use Rattle.gen_buffer.specs.Buffer.{fifo_names};
ghost use Rattle.leaf_tie.specs.Attach.{enter_at};
ghost use Rattle.leaf_tie.specs.Buffers.{buffer_group};
ghost use Rattle.leaf_tie.specs.Glue.{arrival_group, link_push, pop_of};
ghost use Rattle.leaf_tie.specs.Names.{buffer_names, leaf_names, net_names, port_names, leaf_sizes};
ghost use Rattle.leaf_parts.specs.Entries.{its_names, its_size};
ghost use Rattle.leaf_parts.specs.Phases.{items_of};
ghost use Rattle.leaf_glue.specs.Filled.{mover_name, its_buffer, buffer_heads, buffer_nets, stored_word};

use crate::sent::channel_number;
use crate::slots::arriving_slot;
use flit_word::{channel_bits, dest_bits, flit_bits};
use gen_buffer::{BufferSpec, buffer};
use gen_kit::{LeafWork, bit, cat, net, part, two};
use leaf_parts::{
    Phase, arrival_name, buffer_tag, current_high, dest_high, equals, net_name, owns_name,
    port_name, register_name, route_bits,
};
use noc_model::Plan;
use sqlite_items::Items;
use std::alloc::{AllocError, Global};
use vl_tree::{Expr, LeafItem, Name, Op};

// The word that is stored of an arriving flit: its route bits and the flit.
fn stored_word(alloc: Global, plan: &Plan, tile: u32, port: u32) -> Result<Expr, AllocError>
    requires tile { tile < tiles plan.now }
    requires port { port < ports plan.now }
    ensures { IfOk result (λ e. read e ≡ stored_word plan.now tile port) }
{
    plan.known();
    let bits = dest_bits(plan);
    let goal = arrival_name(alloc, port, 0)?;
    let link = port_name(alloc, b"li", tile, port)?;
    let mut parts = Items::new(alloc);
    parts.push(route_bits(alloc, plan, tile, &goal, bits)?)?;
    parts.push(part(alloc, &link, 33 + bits, 0)?)?;
    Ok(cat(parts))
}

/// Writes a part of the group of the word that an arriving link stores.
///
/// # Errors
///
/// Memory ran out.
pub fn arrival(
    alloc: Global,
    phase: Phase,
    plan: &Plan,
    tile: u32,
    port: u32,
    work: &mut LeafWork,
) -> Result<(), AllocError>
    requires tile { tile < tiles plan.now }
    requires port { port < ports plan.now }
    ensures { OnOk result (read_leaf work.new.leaf ≡ with_items (read_leaf work.old.leaf) (items_of phase
        (arrival_group plan.now tile net_names (port_names tile) (leaf_sizes plan.now) (dest_bits plan.now) port))) }
{
    plan.known();
    let bits = dest_bits(plan);
    match phase {
        Phase::Heads => work.push_item(LeafItem::Wire {
            high: plan.ports() + 33 + bits,
            name: arrival_name(alloc, port, 1)?,
        }),
        Phase::Nets => {
            let link = port_name(alloc, b"li", tile, port)?;
            let goal = arrival_name(alloc, port, 0)?;
            work.define(
                alloc,
                dest_high(plan),
                &goal,
                part(alloc, &link, 31 + bits, 32)?,
            )?;
            work.push_item(LeafItem::Assign {
                name: arrival_name(alloc, port, 1)?,
                value: stored_word(alloc, plan, tile, port)?,
            })
        }
        Phase::Moves => Ok(()),
    }
}

// The net that pushes a buffer, and with 1 more the net that pops it.
fn mover_name(
    alloc: Global,
    plan: &Plan,
    domain: u32,
    port: u32,
    number: u32,
) -> Result<Name, AllocError>
    requires domain { domain < length plan.now.domains }
    requires port { port < ports plan.now }
    ensures { IfOk result (λ n. n ≡ mover_name domain port number) }
{
    let stage = if port == 0 { 13 } else { 10 };
    net_name(alloc, plan, domain, stage, port, number)
}

// The net of the word that a buffer stores.
fn word_name(alloc: Global, plan: &Plan, domain: u32, port: u32) -> Result<Name, AllocError>
    requires domain { domain < length plan.now.domains }
    requires port { port < ports plan.now }
    ensures { IfOk result (λ n. n ≡ (buffer_names domain port 0).word) }
{
    plan.known();
    if port == 0 {
        net_name(alloc, plan, domain, 12, 0, 5)
    } else {
        arrival_name(alloc, port, 1)
    }
}

fn spec(
    alloc: Global,
    plan: &Plan,
    domain: u32,
    port: u32,
    channel: u32,
) -> Result<BufferSpec, AllocError>
    requires domain { domain < length plan.now.domains }
    requires port { port < ports plan.now }
    requires channel { channel < 8 }
    ensures names { IfOk result (λ s. fifo_names s ≡ buffer_names domain port channel) }
    ensures depth { IfOk result (λ s. s.depth ≡ plan.now.buffer) }
    ensures width { IfOk result (λ s. s.width ≡ ports plan.now + 34 + dest_bits plan.now) }
    ensures few { IfOk result (λ s. s.width ≤ 64) }
{
    plan.known();
    Ok(BufferSpec {
        tag: buffer_tag(plan, domain, port, channel),
        depth: plan.buffer(),
        width: plan.ports() + 34 + dest_bits(plan),
        push: mover_name(alloc, plan, domain, port, 2 * channel)?,
        word: word_name(alloc, plan, domain, port)?,
        pop: mover_name(alloc, plan, domain, port, 2 * channel + 1)?,
    })
}

// The buffer of a channel.
fn its_buffer(
    alloc: Global,
    plan: &Plan,
    domain: u32,
    port: u32,
    channel: u32,
    work: &mut LeafWork,
) -> Result<(), AllocError>
    requires domain { domain < length plan.now.domains }
    requires port { port < ports plan.now }
    requires channel { channel < 8 }
    ensures { OnOk result (read_leaf work.new.leaf ≡ with_items (read_leaf work.old.leaf)
        (its_buffer plan.now domain port channel)) }
{
    plan.known();
    let made = spec(alloc, plan, domain, port, channel)?;
    let _nets = buffer(alloc, work, &made)?;
    Ok(())
}

// A wire that pushes or pops a buffer.
fn mover_wire(
    alloc: Global,
    plan: &Plan,
    domain: u32,
    port: u32,
    number: u32,
    work: &mut LeafWork,
) -> Result<(), AllocError>
    requires domain { domain < length plan.now.domains }
    requires port { port < ports plan.now }
    ensures { OnOk result (read_leaf work.new.leaf ≡ with_items (read_leaf work.old.leaf)
        (values.wire 0 (mover_name domain port number) ∷ [])) }
{
    work.push_item(LeafItem::Wire {
        high: 0,
        name: mover_name(alloc, plan, domain, port, number)?,
    })
}

// Two wires, which move it, and the buffer.
fn buffer_heads(
    alloc: Global,
    plan: &Plan,
    domain: u32,
    port: u32,
    channel: u32,
    work: &mut LeafWork,
) -> Result<(), AllocError>
    requires domain { domain < length plan.now.domains }
    requires port { port < ports plan.now }
    requires channel { channel < 8 }
    ensures { OnOk result (read_leaf work.new.leaf ≡ with_items (read_leaf work.old.leaf)
        (buffer_heads plan.now domain port channel)) }
{
    mover_wire(alloc, plan, domain, port, 2 * channel, work)?;
    mover_wire(alloc, plan, domain, port, 2 * channel + 1, work)?;
    its_buffer(alloc, plan, domain, port, channel, work)?;
    Ok(())
}

// What pushes a buffer, and whether a flit leaves it.
fn buffer_nets(
    alloc: Global,
    plan: &Plan,
    domain: u32,
    port: u32,
    channel: u32,
    push: Expr,
    work: &mut LeafWork,
) -> Result<(), AllocError>
    requires domain { domain < length plan.now.domains }
    requires port { port < ports plan.now }
    requires channel { channel < 8 }
    ensures { OnOk result (read_leaf work.new.leaf ≡ with_items (read_leaf work.old.leaf)
        (buffer_nets plan.now domain port channel (read push))) }
{
    plan.known();
    work.push_item(LeafItem::Assign {
        name: mover_name(alloc, plan, domain, port, 2 * channel)?,
        value: push,
    })?;
    let leaves = net_name(alloc, plan, domain, 7, 0, 0)?;
    let place = port * plan.link_channels(domain) + channel;
    work.push_item(LeafItem::Assign {
        name: mover_name(alloc, plan, domain, port, 2 * channel + 1)?,
        value: bit(alloc, &leaves, place)?,
    })
}

// Whether a word that arrives by a link from a tile is for the channel.
fn link_push(
    alloc: Global,
    plan: &Plan,
    tile: u32,
    from: u32,
    domain: u32,
    port: u32,
    channel: u32,
) -> Result<Expr, AllocError>
    requires from { from < tiles plan.now }
    requires domain { domain < length plan.now.domains }
    requires channel { channel < link_channels plan.now domain }
    ensures { IfOk result (λ e. read e ≡ link_push plan.now leaf_names (port_names tile) (flit_bits plan.now)
        (channel_bits plan.now) domain port from channel) }
{
    let own = owns_name(alloc, arriving_slot(plan, from, port), domain)?;
    let link = port_name(alloc, b"li", tile, port)?;
    let flit = flit_bits(plan);
    let bits = channel_bits(plan);
    let its = part(alloc, &link, bits + flit - 1, flit)?;
    let same = two(alloc, Op::Equal, its, channel_number(plan, domain, channel))?;
    let there = two(alloc, Op::And, bit(alloc, &link, bits + flit)?, same)?;
    two(alloc, Op::And, net(alloc, &own)?, there)
}

/// Writes a part of the group of a buffer that is filled by a link from a tile.
///
/// # Errors
///
/// Memory ran out.
pub fn link_buffer(
    alloc: Global,
    phase: Phase,
    plan: &Plan,
    tile: u32,
    from: u32,
    domain: u32,
    port: u32,
    channel: u32,
    work: &mut LeafWork,
) -> Result<(), AllocError>
    requires from { from < tiles plan.now }
    requires domain { domain < length plan.now.domains }
    requires port { port < ports plan.now }
    requires few { channel < 8 }
    requires channel { channel < link_channels plan.now domain }
    ensures { OnOk result (read_leaf work.new.leaf ≡ with_items (read_leaf work.old.leaf) (items_of phase (buffer_group
        (leaf_names.buffer domain port channel) (leaf_sizes plan.now) (link_push plan.now leaf_names (port_names tile)
        (flit_bits plan.now) (channel_bits plan.now) domain port from channel)
        (pop_of plan.now net_names domain port channel)))) }
{
    match phase {
        Phase::Heads => buffer_heads(alloc, plan, domain, port, channel, work),
        Phase::Nets => {
            let push = link_push(alloc, plan, tile, from, domain, port, channel)?;
            buffer_nets(alloc, plan, domain, port, channel, push, work)
        }
        Phase::Moves => Ok(()),
    }
}

// Whether a flit enters a channel.
fn enter_at(alloc: Global, plan: &Plan, domain: u32, channel: u32) -> Result<Expr, AllocError>
    requires domain { domain < length plan.now.domains }
    requires channel { channel < channels plan.now domain }
    ensures { IfOk result (λ e. read e ≡ enter_at (its_names domain) (its_size plan.now domain) channel) }
{
    plan.known();
    let enters = net_name(alloc, plan, domain, 12, 0, 4)?;
    let current = register_name(alloc, plan, domain, 5, 0, 4)?;
    let bits = current_high(plan.channels(domain)) + 1;
    let here = equals(alloc, &current, bits, channel as u64)?;
    two(alloc, Op::And, net(alloc, &enters)?, here)
}

/// Writes a part of the group of a buffer that the attachment fills.
///
/// # Errors
///
/// Memory ran out.
pub fn local_buffer(
    alloc: Global,
    phase: Phase,
    plan: &Plan,
    domain: u32,
    channel: u32,
    work: &mut LeafWork,
) -> Result<(), AllocError>
    requires domain { domain < length plan.now.domains }
    requires few { channel < 8 }
    requires channel { channel < channels plan.now domain }
    ensures { OnOk result (read_leaf work.new.leaf ≡ with_items (read_leaf work.old.leaf) (items_of phase (buffer_group
        (leaf_names.buffer domain 0 channel) (leaf_sizes plan.now)
        (enter_at (its_names domain) (its_size plan.now domain) channel)
        (pop_of plan.now net_names domain 0 channel)))) }
{
    plan.known();
    match phase {
        Phase::Heads => buffer_heads(alloc, plan, domain, 0, channel, work),
        Phase::Nets => {
            let push = enter_at(alloc, plan, domain, channel)?;
            buffer_nets(alloc, plan, domain, 0, channel, push, work)
        }
        Phase::Moves => Ok(()),
    }
}
