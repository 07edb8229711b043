//! What a leaf's items become, and the links of an instance.

ghost use Rattle.std.specs.Prelude.{◌≡◌, ◌+◌, ◌++◌, IfOk, OnOk, length};
ghost use Rattle.vl_tree.specs.Read.{read, read_item, read_items, read_leaf};
ghost use Rattle.vl_model.specs.Lines.{leaf_lines, port_named};
ghost use Rattle.vl_model.specs.Rules.{is_output_port};
ghost use Rattle.vl_model.specs.Settle.{is_input_port};
ghost use Rattle.vl_rules.specs.Scope.{widths_at, Declares};
ghost use Rattle.vl_run.specs.Emit.{place_in, steps_of};
ghost use Rattle.vl_run.specs.Program.{item_assigns, item_next, item_moves, item_stores, item_resets, free_after, assign_steps, next_steps, move_steps, stores_of, reset_steps, join_feeds, join_outs, feeds_of, outs_of, item_registers, item_memories, registers_of, memories_of};
ghost use Rattle.vl_run.specs.State.{code_of};

use crate::emit::{Scope, emit, next, place, put};
use crate::step::{Action, Step};
use std::alloc::{AllocError, Global};
use std::marker::Model;
use vl_rules::{Known, Module, port};
use vl_tree::{Expr, Join, LeafItem};

/// A word that a memory takes at an edge, where the enable is 1. All are places.
#[derive(Clone, Copy)]
pub struct Store {
    pub memory: usize,
    pub enable: usize,
    pub index: usize,
    pub value: usize,
}

/// A number that goes from a place of one row to a place of another.
#[derive(Clone, Copy)]
pub struct Link {
    pub from: usize,
    pub to: usize,
}

/// A register: its place, and its highest bit.
#[derive(Clone, Copy)]
pub struct Register {
    pub place: usize,
    pub high: u32,
}

/// A memory: its place, the highest bit of its words, and the number of the last.
#[derive(Clone, Copy)]
pub struct Memory {
    pub place: usize,
    pub high: u32,
    pub last: u32,
}

/// The code of an instance.
#[derive(Drop)]
pub struct Program {
    /// Within a cycle: the assigns.
    pub settle: Vec<Step>,
    /// Towards an edge: what registers and memories are to take.
    pub next: Vec<Step>,
    /// At the edge: what memories take.
    pub stores: Vec<Store>,
    /// At the edge: what registers take.
    pub moves: Vec<Step>,
    /// From the top's nets to input ports.
    pub feeds: Vec<Link>,
    /// From output ports to the top's nets.
    pub outs: Vec<Link>,
    /// The registers that the instance keeps, in order of declaration.
    pub registers: Vec<Register>,
    /// The memories that the instance keeps, in order of declaration.
    pub memories: Vec<Memory>,
}

impl Model for Program {
    ghost use Rattle.vl_run.specs.State.{Code};

    ghost Value = { Code };

    ghost view = { λ p. record {
      settle = p.settle.items;
      next = p.next.items;
      stores = p.stores.items;
      moves = p.moves.items;
      feeds = p.feeds.items;
      outs = p.outs.items;
      registers = p.registers.items;
      memories = p.memories.items;
    } };
}

/// Adds the steps of an assign.
fn add_assign(item: &LeafItem, scope: &Scope, steps: &mut Vec<Step>) -> Result<(), AllocError>
    ensures { OnOk result (steps.new.items ≡ steps.old.items
        ++ item_assigns (place_in scope.now.declared.now)
        (widths_at scope.now.declared.now scope.now.lines) scope.now.lines (read_item item.now)) }
{
    match item {
        LeafItem::Assign { name, value } => {
            emit(
                value,
                place(scope, name.as_slice()),
                scope.lines,
                scope,
                steps,
            )
        }
        _ => Ok(()),
    }
}

/// The steps of all assigns, in order.
#[tactic(auto, using(crate::proofs::Items::items))]
fn assigns(alloc: Global, items: &[LeafItem], scope: &Scope) -> Result<Vec<Step>, AllocError>
    ensures { IfOk result (λ v. v.items ≡ assign_steps (place_in scope.now.declared.now)
        (widths_at scope.now.declared.now scope.now.lines) scope.now.lines (read_items items.now)) }
{
    let mut steps = Vec::new(alloc);
    for item in items {
        add_assign(item, scope, &mut steps)?;
    }
    Ok(steps)
}

/// The first place that is free behind what the item takes.
fn after(item: &LeafItem, free: usize) -> Result<usize, AllocError>
    ensures { IfOk result (λ n. n ≡ free_after free (read_item item.now)) }
{
    match item {
        LeafItem::Clocked { .. } => next(free),
        LeafItem::Store { .. } => next(next(next(free)?)?),
        _ => Ok(free),
    }
}

/// Adds the steps that give a memory's enable, index and word to the places from `free` on.
fn add_store(
    enable: &Expr,
    index: &Expr,
    value: &Expr,
    free: usize,
    scope: &Scope,
    steps: &mut Vec<Step>,
) -> Result<(), AllocError>
    ensures { OnOk result (steps.new.items ≡ steps.old.items
        ++ ((steps_of (place_in scope.now.declared.now) (widths_at scope.now.declared.now scope.now.lines)
        free (free + 1) (read enable.now)
        ++ steps_of (place_in scope.now.declared.now) (widths_at scope.now.declared.now scope.now.lines)
        (free + 1) (free + 1 + 1) (read index.now))
        ++ steps_of (place_in scope.now.declared.now) (widths_at scope.now.declared.now scope.now.lines)
        (free + 1 + 1) (free + 1 + 1 + 1) (read value.now))) }
{
    let second = next(free)?;
    let third = next(second)?;
    let last = next(third)?;
    emit(enable, free, second, scope, steps)?;
    emit(index, second, third, scope, steps)?;
    emit(value, third, last, scope, steps)?;
    Ok(())
}

/// Adds the steps that compute what the item takes at an edge.
fn add_next(
    item: &LeafItem,
    free: usize,
    scope: &Scope,
    steps: &mut Vec<Step>,
) -> Result<(), AllocError>
    ensures { OnOk result (steps.new.items ≡ steps.old.items
        ++ item_next (place_in scope.now.declared.now) (widths_at scope.now.declared.now scope.now.lines) free
        (read_item item.now)) }
{
    match item {
        LeafItem::Clocked { value, .. } => {
            let more = next(free)?;
            emit(value, free, more, scope, steps)
        }
        LeafItem::Store {
            enable,
            index,
            value,
            ..
        } => add_store(enable, index, value, free, scope, steps),
        _ => Ok(()),
    }
}

/// The steps that compute what registers and memories take at an edge, each at places of its own.
#[tactic(auto, using(crate::proofs::Items::items))]
fn next_edge(alloc: Global, items: &[LeafItem], scope: &Scope) -> Result<Vec<Step>, AllocError>
    ensures { IfOk result (λ v. v.items ≡ next_steps (place_in scope.now.declared.now)
        (widths_at scope.now.declared.now scope.now.lines) scope.now.lines (read_items items.now)) }
{
    let mut steps = Vec::new(alloc);
    let mut free = scope.lines;
    for item in items {
        add_next(item, free, scope, &mut steps)?;
        free = after(item, free)?;
    }
    Ok(steps)
}

/// Adds the step that gives a register what stands at `free` for it.
fn add_move(
    item: &LeafItem,
    free: usize,
    scope: &Scope,
    steps: &mut Vec<Step>,
) -> Result<(), AllocError>
    ensures { OnOk result (steps.new.items ≡ steps.old.items
        ++ item_moves (place_in scope.now.declared.now) free (read_item item.now)) }
{
    match item {
        LeafItem::Clocked { name, .. } => {
            let to = place(scope, name.as_slice());
            put(steps, to, Action::Copy(free))
        }
        _ => Ok(()),
    }
}

/// The steps that give registers what stands there for them.
#[tactic(auto, using(crate::proofs::Items::items))]
fn moves(alloc: Global, items: &[LeafItem], scope: &Scope) -> Result<Vec<Step>, AllocError>
    ensures { IfOk result (λ v. v.items ≡ move_steps (place_in scope.now.declared.now) scope.now.lines
        (read_items items.now)) }
{
    let mut steps = Vec::new(alloc);
    let mut free = scope.lines;
    for item in items {
        add_move(item, free, scope, &mut steps)?;
        free = after(item, free)?;
    }
    Ok(steps)
}

/// Adds the store of a memory, whose enable, index and word stand at the places from `free` on.
fn add_stores(
    item: &LeafItem,
    free: usize,
    scope: &Scope,
    stores: &mut Vec<Store>,
) -> Result<(), AllocError>
    ensures { OnOk result (stores.new.items ≡ stores.old.items
        ++ item_stores (place_in scope.now.declared.now) free (read_item item.now)) }
{
    if let LeafItem::Store { name, .. } = item {
        let index = next(free)?;
        let value = next(index)?;
        stores.push(Store {
            memory: place(scope, name.as_slice()),
            enable: free,
            index,
            value,
        })?;
    }
    Ok(())
}

/// The stores of the memories.
#[tactic(auto, using(crate::proofs::Items::items))]
fn stores(alloc: Global, items: &[LeafItem], scope: &Scope) -> Result<Vec<Store>, AllocError>
    ensures { IfOk result (λ v. v.items ≡ stores_of (place_in scope.now.declared.now) scope.now.lines
        (read_items items.now)) }
{
    let mut all = Vec::new(alloc);
    let mut free = scope.lines;
    for item in items {
        add_stores(item, free, scope, &mut all)?;
        free = after(item, free)?;
    }
    Ok(all)
}

/// Adds the step that gives a register its reset constant.
fn add_reset(item: &LeafItem, scope: &Scope, steps: &mut Vec<Step>) -> Result<(), AllocError>
    ensures { OnOk result (steps.new.items ≡ steps.old.items
        ++ item_resets (place_in scope.now.declared.now) (read_item item.now)) }
{
    match item {
        LeafItem::Clocked { name, reset, .. } => {
            let to = place(scope, name.as_slice());
            put(steps, to, Action::Number(reset.value))
        }
        _ => Ok(()),
    }
}

/// The steps that give registers their reset constants.
#[tactic(auto, using(crate::proofs::Items::items))]
pub(crate) fn resets(
    alloc: Global,
    items: &[LeafItem],
    scope: &Scope,
) -> Result<Vec<Step>, AllocError>
    ensures { IfOk result (λ v. v.items ≡ reset_steps (place_in scope.now.declared.now) (read_items items.now)) }
{
    let mut steps = Vec::new(alloc);
    for item in items {
        add_reset(item, scope, &mut steps)?;
    }
    Ok(steps)
}

/// Adds the register, if the item declares one.
fn add_register(item: &LeafItem, scope: &Scope, all: &mut Vec<Register>) -> Result<(), AllocError>
    ensures { OnOk result (all.new.items ≡ all.old.items
        ++ item_registers (place_in scope.now.declared.now) (read_item item.now)) }
{
    match item {
        LeafItem::Reg { high, name } => {
            all.push(Register {
                place: place(scope, name.as_slice()),
                high: *high,
            })?;
            Ok(())
        }
        _ => Ok(()),
    }
}

/// The registers that the items declare.
#[tactic(auto, using(crate::proofs::Items::items))]
fn registers(alloc: Global, items: &[LeafItem], scope: &Scope) -> Result<Vec<Register>, AllocError>
    ensures { IfOk result (λ v. v.items ≡ registers_of (place_in scope.now.declared.now) (read_items items.now)) }
{
    let mut all = Vec::new(alloc);
    for item in items {
        add_register(item, scope, &mut all)?;
    }
    Ok(all)
}

/// Adds the memory, if the item declares one.
fn add_memory(item: &LeafItem, scope: &Scope, all: &mut Vec<Memory>) -> Result<(), AllocError>
    ensures { OnOk result (all.new.items ≡ all.old.items
        ++ item_memories (place_in scope.now.declared.now) (read_item item.now)) }
{
    match item {
        LeafItem::Mem { high, name, last } => {
            all.push(Memory {
                place: place(scope, name.as_slice()),
                high: *high,
                last: *last,
            })?;
            Ok(())
        }
        _ => Ok(()),
    }
}

/// The memories that the items declare.
#[tactic(auto, using(crate::proofs::Items::items))]
fn memories(alloc: Global, items: &[LeafItem], scope: &Scope) -> Result<Vec<Memory>, AllocError>
    ensures { IfOk result (λ v. v.items ≡ memories_of (place_in scope.now.declared.now) (read_items items.now)) }
{
    let mut all = Vec::new(alloc);
    for item in items {
        add_memory(item, scope, &mut all)?;
    }
    Ok(all)
}

/// Whether the leaf has an input port of the name, and whether it has an output port of it.
fn ways(leaf: &Known, name: &[u8]) -> (bool, bool)
    requires { Declares leaf.now.declared.now (leaf_lines (read_leaf leaf.now.leaf.now)) }
    ensures input { result.0 ≡ is_input_port (port_named leaf.now.leaf.now.ports name.now) }
    ensures output { result.1 ≡ is_output_port (port_named leaf.now.leaf.now.ports name.now) }
{
    match port(leaf, name) {
        Some(shape) => (!shape.output, shape.output),
        None => (false, false),
    }
}

/// Adds a link from the top's net to the port, if it is an input port.
fn add_feed(
    join: &Join,
    leaf: &Known,
    scope: &Scope,
    top: &Scope,
    links: &mut Vec<Link>,
) -> Result<(), AllocError>
    requires { Declares leaf.now.declared.now (leaf_lines (read_leaf leaf.now.leaf.now)) }
    ensures { OnOk result (links.new.items ≡ links.old.items
        ++ join_feeds (read_leaf leaf.now.leaf.now) (place_in scope.now.declared.now)
        (place_in top.now.declared.now) join.now) }
{
    if ways(leaf, join.port.as_slice()).0 {
        links.push(Link {
            from: place(top, join.net.as_slice()),
            to: place(scope, join.port.as_slice()),
        })?;
    }
    Ok(())
}

/// The links from the top's nets to input ports.
#[tactic(auto, using(crate::proofs::Items::items))]
fn feeds(
    alloc: Global,
    joins: &[Join],
    leaf: &Known,
    scope: &Scope,
    top: &Scope,
) -> Result<Vec<Link>, AllocError>
    requires { Declares leaf.now.declared.now (leaf_lines (read_leaf leaf.now.leaf.now)) }
    ensures { IfOk result (λ v. v.items ≡ feeds_of (read_leaf leaf.now.leaf.now) (place_in scope.now.declared.now)
        (place_in top.now.declared.now) joins.now) }
{
    let mut links = Vec::new(alloc);
    for join in joins {
        add_feed(join, leaf, scope, top, &mut links)?;
    }
    Ok(links)
}

/// Adds a link from the port to the top's net, if it is an output port.
fn add_out(
    join: &Join,
    leaf: &Known,
    scope: &Scope,
    top: &Scope,
    links: &mut Vec<Link>,
) -> Result<(), AllocError>
    requires { Declares leaf.now.declared.now (leaf_lines (read_leaf leaf.now.leaf.now)) }
    ensures { OnOk result (links.new.items ≡ links.old.items
        ++ join_outs (read_leaf leaf.now.leaf.now) (place_in scope.now.declared.now)
        (place_in top.now.declared.now) join.now) }
{
    if ways(leaf, join.port.as_slice()).1 {
        links.push(Link {
            from: place(scope, join.port.as_slice()),
            to: place(top, join.net.as_slice()),
        })?;
    }
    Ok(())
}

/// The links from output ports to the top's nets.
#[tactic(auto, using(crate::proofs::Items::items))]
fn outs(
    alloc: Global,
    joins: &[Join],
    leaf: &Known,
    scope: &Scope,
    top: &Scope,
) -> Result<Vec<Link>, AllocError>
    requires { Declares leaf.now.declared.now (leaf_lines (read_leaf leaf.now.leaf.now)) }
    ensures { IfOk result (λ v. v.items ≡ outs_of (read_leaf leaf.now.leaf.now) (place_in scope.now.declared.now)
        (place_in top.now.declared.now) joins.now) }
{
    let mut links = Vec::new(alloc);
    for join in joins {
        add_out(join, leaf, scope, top, &mut links)?;
    }
    Ok(links)
}

/// The scope of a leaf.
pub(crate) fn scope_of<'a>(leaf: &Known<'a>) -> Scope<'a>
    ensures declared { result.declared.now ≡ leaf.now.declared.now }
    ensures lines { result.lines ≡ length (leaf_lines (read_leaf leaf.now.leaf.now)) }
{
    Scope {
        declared: leaf.declared,
        lines: Module::Leaf(leaf.leaf).len(),
    }
}

impl Program {
    /// The program of an instance of the leaf with these joins.
    pub(crate) fn new(
        alloc: Global,
        leaf: &Known,
        joins: &[Join],
        top: &Scope,
    ) -> Result<Program, AllocError>
        requires { Declares leaf.now.declared.now (leaf_lines (read_leaf leaf.now.leaf.now)) }
        ensures { IfOk result (λ p. p ≡ code_of (place_in leaf.now.declared.now)
            (widths_at leaf.now.declared.now (length (leaf_lines (read_leaf leaf.now.leaf.now))))
            (place_in top.now.declared.now) (read_leaf leaf.now.leaf.now) joins.now) }
    {
        let scope = scope_of(leaf);
        let items = leaf.leaf.items.as_slice();
        Ok(Program {
            settle: assigns(alloc, items, &scope)?,
            next: next_edge(alloc, items, &scope)?,
            stores: stores(alloc, items, &scope)?,
            moves: moves(alloc, items, &scope)?,
            feeds: feeds(alloc, joins, leaf, &scope, top)?,
            outs: outs(alloc, joins, leaf, &scope, top)?,
            registers: registers(alloc, items, &scope)?,
            memories: memories(alloc, items, &scope)?,
        })
    }
}
