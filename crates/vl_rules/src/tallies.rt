//! How often each name of a module is driven, and which names depend on its input ports.

ghost use Rattle.std.specs.Prelude.{◌≡◌, ◌+◌, List, OnOk, IfOk, min, take, bytes_eq, count_by};
ghost use Rattle.vl_tree.specs.Read.{read_leaf, read_leaves};
ghost use Rattle.vl_tree.specs.Values.{Name};
ghost use Rattle.vl_model.specs.Lines.{leaf_lines};
ghost use Rattle.vl_model.specs.Meaning.{one_if};
ghost use Rattle.vl_model.specs.Rules.{drives, join_drives, depending};
ghost use Rattle.vl_rules.specs.Lines.{lines_of, line_of};
ghost use Rattle.vl_rules.specs.Scope.{count, Declares};
ghost use Rattle.vl_rules.specs.Library.{IsLibrary};
ghost use Rattle.vl_rules.specs.Tallies.{Counts, IsSet, Depends};

use crate::library::{Known, Library, port};
use crate::lines::{Line, Module};
use crate::names::Names;
use crate::walks::{NetTest, any_net};
use std::alloc::{AllocError, Global};
use vl_tree::{Join, LeafItem, TopItem};

/// Counts the name once more, up to two.
pub fn count_one(alloc: Global, table: &mut Names<u8>, name: &[u8]) -> Result<(), AllocError>
    ensures { OnOk result ((n : Name) → count table.new n ≡ min 2 (count table.old n + one_if (bytes_eq n name.now))) }
{
    let times = table.get(name).unwrap_or(0);
    if times < 2 {
        table.put(alloc, name, times + 1)?;
    }
    Ok(())
}

/// Counts the net of the join, if it is joined to an output port.
fn count_join(
    alloc: Global,
    table: &mut Names<u8>,
    known: &Known,
    join: &Join,
) -> Result<(), AllocError>
    requires { Declares known.now.declared.now (leaf_lines (read_leaf known.now.leaf.now)) }
    ensures { OnOk result ((n : Name) → count table.new n
        ≡ min 2 (count table.old n + one_if (join_drives (read_leaf known.now.leaf.now) n join.now))) }
{
    match port(known, join.port.as_slice()) {
        Some(shape) => {
            if shape.output {
                count_one(alloc, table, join.net.as_slice())
            } else {
                Ok(())
            }
        }
        None => Ok(()),
    }
}

/// Counts the nets that are joined to an output port.
fn count_joins(
    alloc: Global,
    table: &mut Names<u8>,
    known: &Known,
    joins: &[Join],
) -> Result<(), AllocError>
    requires { Declares known.now.declared.now (leaf_lines (read_leaf known.now.leaf.now)) }
    ensures { OnOk result ((n : Name) → count table.new n
        ≡ min 2 (count table.old n + count_by (join_drives (read_leaf known.now.leaf.now) n) joins.now)) }
{
    for join in joins {
        count_join(alloc, table, known, join)?;
    }
    Ok(())
}

/// Counts what the line drives, where this many leaves stand before it.
fn count_line(
    alloc: Global,
    table: &mut Names<u8>,
    library: &Library,
    leaves: usize,
    line: &Line,
) -> Result<(), AllocError>
    requires { IsLibrary library.now }
    ensures { OnOk result ((n : Name) → count table.new n
        ≡ min 2 (count table.old n + drives (take leaves (read_leaves library.now.leaves.now)) n (line_of line.now))) }
{
    match line {
        Line::Item(LeafItem::Assign { name, .. }) => count_one(alloc, table, name.as_slice()),
        Line::Item(LeafItem::Clocked { name, .. }) => count_one(alloc, table, name.as_slice()),
        Line::Item(LeafItem::Store { name, .. }) => count_one(alloc, table, name.as_slice()),
        Line::Joint(TopItem::Instance { leaf, joins, .. }) => {
            match library.leaf(leaves, leaf.as_slice()) {
                Some(known) => count_joins(alloc, table, &known, joins.as_slice()),
                None => Ok(()),
            }
        }
        _ => Ok(()),
    }
}

/// How often each name is driven in the module, where two stands for all that is more.
pub fn driver_counts(
    alloc: Global,
    library: &Library,
    leaves: usize,
    subject: &Module,
) -> Result<Names<u8>, AllocError>
    requires { IsLibrary library.now }
    ensures { IfOk result (λ t. Counts t (take leaves (read_leaves library.now.leaves.now)) (lines_of subject.now)) }
{
    let mut table = Names::new(alloc);
    for number in 0..subject.len() {
        let line = subject.line(number);
        count_line(alloc, &mut table, library, leaves, &line)?;
    }
    Ok(table)
}

/// Adds what depends on the names of the set, or on the outside, by this line.
fn mark_line(alloc: Global, set: &mut Names<()>, line: &Line) -> Result<(), AllocError>
    ensures { OnOk result ((ns : List Name) → IsSet set.old ns → IsSet set.new (depending ns (line_of line.now))) }
{
    match line {
        Line::Port(p) => {
            if p.output {
                Ok(())
            } else {
                set.put(alloc, p.name.as_slice(), ())
            }
        }
        Line::Item(LeafItem::Assign { name, value }) => {
            if any_net(value, &NetTest::Within(set)) {
                set.put(alloc, name.as_slice(), ())
            } else {
                Ok(())
            }
        }
        _ => Ok(()),
    }
}

/// The names that depend on an input port of the module within a cycle.
pub fn dependents(alloc: Global, subject: &Module) -> Result<Names<()>, AllocError>
    ensures { IfOk result (λ t. Depends t (lines_of subject.now)) }
{
    let mut set = Names::new(alloc);
    for number in 0..subject.len() {
        let line = subject.line(number);
        mark_line(alloc, &mut set, &line)?;
    }
    Ok(set)
}
