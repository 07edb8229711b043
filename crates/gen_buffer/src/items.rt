//! The items of a buffer, one by one.

ghost use Rattle.std.specs.Prelude.{◌≡◌, ◌<◌, ◌≤◌, ◌+◌, ◌-◌, ◌^◌, ◌∷◌, [], OnOk, IfOk};
ghost use Rattle.vl_tree.specs.Read.{read, read_leaf};
ghost use Rattle.vl_model.specs.Laws.{with_items};
ghost use Rattle.gen_kit.specs.OwnNames.{own_name_of};
ghost use Rattle.gen_kit.specs.Work.{with_item};
ghost use Rattle.gen_buffer.specs.Fifo.{FifoNames, clocked_from_zero, steps_by, one_more, one_less, next_count, fifo_heads, fifo_nets, fifo_moves};
ghost use Rattle.gen_buffer.specs.Sizes as sizes;
ghost use Rattle.gen_buffer.specs.Buffer.{fifo_names, nets_of, buffer_items};

use crate::{BufferNets, BufferSpec};
use gen_kit::{LeafWork, cond, net, number, own_name, two, word};
use std::alloc::{AllocError, Global};
use vl_tree::{Const, Expr, LeafItem, Name, Op};

/// One less than the bits of the pointers.
fn index_high(depth: u32) -> u32
    ensures same { result ≡ sizes.index_high depth }
    ensures few { result < 4 }
{
    if depth < 3 {
        0
    } else if depth < 5 {
        1
    } else if depth < 9 {
        2
    } else {
        3
    }
}

/// One less than the bits of the length.
fn count_high(depth: u32) -> u32
    ensures same { result ≡ sizes.count_high depth }
    ensures few { result < 5 }
{
    if depth < 2 {
        0
    } else if depth < 4 {
        1
    } else if depth < 8 {
        2
    } else if depth < 16 {
        3
    } else {
        4
    }
}

fn plus_one(alloc: Global, high: u32, name: &Name) -> Result<Expr, AllocError>
    requires { high < 64 }
    ensures { IfOk result (λ e. read e ≡ one_more high name.now) }
{
    two(alloc, Op::Add, net(alloc, name)?, number(high + 1, 1))
}

fn minus_one(alloc: Global, high: u32, name: &Name) -> Result<Expr, AllocError>
    requires { high < 64 }
    ensures { IfOk result (λ e. read e ≡ one_less high name.now) }
{
    two(alloc, Op::Sub, net(alloc, name)?, number(high + 1, 1))
}

/// A register that begins at 0.
fn clock(
    alloc: Global,
    work: &mut LeafWork,
    high: u32,
    name: &Name,
    value: Expr,
) -> Result<(), AllocError>
    requires { high < 64 }
    ensures { OnOk result (read_leaf work.new.leaf
        ≡ with_item (read_leaf work.old.leaf) (clocked_from_zero high name.now (read value))) }
{
    work.push_item(LeafItem::Clocked {
        name: name.copy(alloc)?,
        reset: Const {
            width: high + 1,
            value: 0,
        },
        value,
    })
}

/// A pointer that a net of one bit moves on.
fn step(
    alloc: Global,
    work: &mut LeafWork,
    high: u32,
    name: &Name,
    by: &Name,
) -> Result<(), AllocError>
    requires { high < 64 }
    ensures { OnOk result (read_leaf work.new.leaf
        ≡ with_item (read_leaf work.old.leaf) (steps_by high name.now by.now)) }
{
    let test = net(alloc, by)?;
    let next = plus_one(alloc, high, name)?;
    let value = cond(alloc, test, next, net(alloc, name)?)?;
    clock(alloc, work, high, name, value)
}

/// The length after a push, a pop, both or neither.
fn counted(alloc: Global, high: u32, spec: &BufferSpec, count: &Name) -> Result<Expr, AllocError>
    requires high { high < 64 }
    requires name { count.now ≡ (fifo_names spec.now).count }
    ensures { IfOk result (λ e. read e ≡ next_count (fifo_names spec.now) high) }
{
    let pop = net(alloc, &spec.pop)?;
    let both = net(alloc, count)?;
    let more = cond(alloc, pop, both, plus_one(alloc, high, count)?)?;
    let pop = net(alloc, &spec.pop)?;
    let less = minus_one(alloc, high, count)?;
    let less = cond(alloc, pop, less, net(alloc, count)?)?;
    cond(alloc, net(alloc, &spec.push)?, more, less)
}

fn declare(alloc: Global, work: &mut LeafWork, spec: &BufferSpec) -> Result<(), AllocError>
    requires { 1 ≤ spec.now.width }
    ensures { OnOk result (read_leaf work.new.leaf ≡ with_items (read_leaf work.old.leaf)
        (fifo_heads (fifo_names spec.now) (sizes.index_high spec.now.depth) (sizes.count_high spec.now.depth)
        (spec.now.width - 1))) }
{
    let high = index_high(spec.depth);
    work.push_item(LeafItem::Mem {
        high: spec.width - 1,
        name: own_name(alloc, spec.tag, &[0])?,
        last: (2 << high) - 1,
    })?;
    work.push_item(LeafItem::Reg {
        high,
        name: own_name(alloc, spec.tag, &[1])?,
    })?;
    work.push_item(LeafItem::Reg {
        high,
        name: own_name(alloc, spec.tag, &[2])?,
    })?;
    work.push_item(LeafItem::Reg {
        high: count_high(spec.depth),
        name: own_name(alloc, spec.tag, &[3])?,
    })
}

fn show(
    alloc: Global,
    work: &mut LeafWork,
    spec: &BufferSpec,
    nets: &BufferNets,
) -> Result<(), AllocError>
    requires width { 1 ≤ spec.now.width }
    requires nets { nets.now ≡ nets_of spec.now }
    ensures { OnOk result (read_leaf work.new.leaf ≡ with_items (read_leaf work.old.leaf)
        (fifo_nets (fifo_names spec.now) (sizes.count_high spec.now.depth) (spec.now.width - 1))) }
{
    let memory = own_name(alloc, spec.tag, &[0])?;
    let read = own_name(alloc, spec.tag, &[1])?;
    let value = word(alloc, &memory, net(alloc, &read)?)?;
    work.define(alloc, spec.width - 1, &nets.front, value)?;
    let none = number(count_high(spec.depth) + 1, 0);
    let value = two(alloc, Op::Equal, net(alloc, &nets.length)?, none)?;
    work.define(alloc, 0, &nets.empty, value)
}

fn moves(
    alloc: Global,
    work: &mut LeafWork,
    spec: &BufferSpec,
    count: &Name,
) -> Result<(), AllocError>
    requires { count.now ≡ (fifo_names spec.now).count }
    ensures { OnOk result (read_leaf work.new.leaf ≡ with_items (read_leaf work.old.leaf)
        (fifo_moves (fifo_names spec.now) (sizes.index_high spec.now.depth) (sizes.count_high spec.now.depth))) }
{
    let high = index_high(spec.depth);
    let read = own_name(alloc, spec.tag, &[1])?;
    step(alloc, work, high, &read, &spec.pop)?;
    let write = own_name(alloc, spec.tag, &[2])?;
    step(alloc, work, high, &write, &spec.push)?;
    let bits = count_high(spec.depth);
    let next = counted(alloc, bits, spec, count)?;
    clock(alloc, work, bits, count, next)?;
    work.push_item(LeafItem::Store {
        enable: net(alloc, &spec.push)?,
        name: own_name(alloc, spec.tag, &[0])?,
        index: net(alloc, &write)?,
        value: net(alloc, &spec.word)?,
    })
}

/// The nets that a buffer shows itself by.
pub(crate) fn shown(alloc: Global, spec: &BufferSpec) -> Result<BufferNets, AllocError>
    ensures { IfOk result (λ nets. nets ≡ nets_of spec.now) }
{
    Ok(BufferNets {
        front: own_name(alloc, spec.tag, &[4])?,
        empty: own_name(alloc, spec.tag, &[5])?,
        length: own_name(alloc, spec.tag, &[3])?,
    })
}

/// All items.
pub(crate) fn push_items(
    alloc: Global,
    work: &mut LeafWork,
    spec: &BufferSpec,
    nets: &BufferNets,
) -> Result<(), AllocError>
    requires width { 1 ≤ spec.now.width }
    requires nets { nets.now ≡ nets_of spec.now }
    ensures { OnOk result (read_leaf work.new.leaf ≡ with_items (read_leaf work.old.leaf) (buffer_items spec.now)) }
{
    declare(alloc, work, spec)?;
    show(alloc, work, spec, nets)?;
    moves(alloc, work, spec, &nets.length)?;
    Ok(())
}
