//! Nets are assigned before they are read, are driven once, and don't go through from input ports.

ghost use Rattle.std.specs.Prelude.{◌≡◌, IfOk, min, bytes_eq, count_by, ◌==◌};
ghost use Rattle.std.specs.List.{list_all};
ghost use Rattle.vl_tree.specs.Values.{Name};
ghost use Rattle.vl_tree.specs.declared.tree.Port.{Port};
ghost use Rattle.vl_tree.specs.declared.tree.Join.{Join};
ghost use Rattle.vl_model.specs.Lines.{declared};
ghost use Rattle.vl_model.specs.Rules as rules;
ghost use Rattle.vl_rules.specs.Lines.{line_of, lines_of};
ghost use Rattle.vl_rules.specs.Scope.{Assigns, count};
ghost use Rattle.vl_rules.specs.Site.{IsKnown, leaves_before, lines_before};
ghost use Rattle.vl_rules.specs.Tallies.{Counts, Depends};

use crate::lines::{Line, declared_by};
use crate::names::Names;
use crate::site::Site;
use crate::tallies::count_one;
use crate::walks::{NetTest, any_net};
use std::alloc::{AllocError, Global};
use vl_model::Kind;
use vl_tree::{Join, LeafItem, Port, TopItem};

/// Whether the line is an assign that reads a wire or an output port which no earlier line assigns.
pub fn reads_early(site: &Site, assigned: &Names<usize>, number: usize, line: &Line) -> bool
    requires known { IsKnown site.now }
    requires assigned { Assigns assigned.now (lines_of site.now.subject) }
    ensures { result ≡ rules.reads_early (lines_before site.now number) (line_of line.now) }
{
    match line {
        Line::Item(LeafItem::Assign { value, .. }) => {
            any_net(value, &NetTest::Early(site.declared, assigned, number))
        }
        _ => false,
    }
}

/// Whether what is declared in this way is driven from within its module.
fn wants_driver(kind: Kind) -> bool
    ensures { result ≡ rules.wants_driver kind }
{
    match kind {
        Kind::Input | Kind::Child => false,
        _ => true,
    }
}

/// Whether the line declares what is to be driven and is not driven exactly once.
pub fn lacks_driver(site: &Site, counts: &Names<u8>, line: &Line) -> bool
    requires { Counts counts.now (leaves_before site.now) (lines_of site.now.subject) }
    ensures { result ≡ rules.lacks_driver (leaves_before site.now) (lines_of site.now.subject)
        (declared (line_of line.now)) }
{
    match declared_by(line) {
        Some(x) => wants_driver(x.kind) && counts.get(x.name).unwrap_or(0) != 1,
        None => false,
    }
}

/// Whether the line is an output port that depends on an input port.
pub fn is_through(site: &Site, dependents: &Names<()>, line: &Line) -> bool
    requires { Depends dependents.now (lines_of site.now.subject) }
    ensures { result ≡ rules.is_through (lines_of site.now.subject) (line_of line.now) }
{
    match line {
        Line::Port(p) => p.output && dependents.get(p.name.as_slice()).is_some(),
        _ => false,
    }
}

/// How often each port is joined, where two stands for all that is more.
fn port_counts(alloc: Global, joins: &[Join]) -> Result<Names<u8>, AllocError>
    ensures { IfOk result (λ t. (n : Name) → count t n ≡ min 2 (count_by (λ (j : Join). bytes_eq n j.port) joins.now)) }
{
    let mut table = Names::new(alloc);
    for join in joins {
        count_one(alloc, &mut table, join.port.as_slice())?;
    }
    Ok(table)
}

/// Whether the port is joined exactly once.
fn is_once(counts: &Names<u8>, port: &Port, joins: &[Join]) -> bool
    requires { (n : Name) → count counts.now n ≡ min 2 (count_by (λ (j : Join). bytes_eq n j.port) joins.now) }
    ensures { result ≡ (count_by (λ (j : Join). bytes_eq port.now.name j.port) joins.now == 1) }
{
    counts.get(port.name.as_slice()).unwrap_or(0) == 1
}

/// Whether each of the ports is joined exactly once.
fn each_once(counts: &Names<u8>, ports: &[Port], joins: &[Join]) -> bool
    requires { (n : Name) → count counts.now n ≡ min 2 (count_by (λ (j : Join). bytes_eq n j.port) joins.now) }
    ensures { result ≡ list_all (λ (p : Port). count_by (λ (j : Join). bytes_eq p.name j.port) joins.now == 1)
        ports.now }
{
    for port in ports {
        if !is_once(counts, port, joins) {
            return false;
        }
    }
    true
}

/// Whether the line, if it is an instance, joins each port of its leaf exactly once.
pub fn joins_each(alloc: Global, site: &Site, line: &Line) -> Result<bool, AllocError>
    requires { IsKnown site.now }
    ensures { IfOk result (λ b. b ≡ rules.line_joins (leaves_before site.now) (line_of line.now)) }
{
    match line {
        Line::Joint(TopItem::Instance { leaf, joins, .. }) => {
            match site.library.leaf(site.leaves, leaf.as_slice()) {
                Some(known) => {
                    let counts = port_counts(alloc, joins.as_slice())?;
                    Ok(each_once(&counts, known.leaf.ports.as_slice(), joins.as_slice()))
                }
                None => Ok(true),
            }
        }
        _ => Ok(true),
    }
}
