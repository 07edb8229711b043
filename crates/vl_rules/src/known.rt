//! Names are declared once, and in the right way before they are used.

ghost use Rattle.std.specs.Prelude.{◌≡◌, not, ◌&&◌};
ghost use Rattle.std.specs.List.{list_all};
ghost use Rattle.vl_tree.specs.Read.{read, read_leaf, read_item};
ghost use Rattle.vl_tree.specs.declared.tree.Join.{Join};
ghost use Rattle.vl_model.specs.Lines.{leaf_lines, port_named, item};
ghost use Rattle.vl_model.specs.Rules as rules;
ghost use Rattle.vl_rules.specs.Lines.{line_of};
ghost use Rattle.vl_rules.specs.Scope.{Declares, role_passes};
ghost use Rattle.vl_rules.specs.Site.{IsKnown, leaves_before, lines_before};

use crate::library::{Known, port};
use crate::lines::{Line, declared_by};
use crate::scope::{Role, is_role, seen_before};
use crate::site::Site;
use crate::uses::{UseTest, any_use};
use crate::walks::{NetTest, any_net};
use vl_tree::{Expr, Join, LeafItem, TopItem};

/// Whether the line declares a name that its scope has already.
pub fn repeats(site: &Site, number: usize, line: &Line) -> bool
    requires { IsKnown site.now }
    ensures { result ≡ rules.repeats (leaves_before site.now) (lines_before site.now number) (line_of line.now) }
{
    if let Line::Heading(name) = line {
        return site.library.leaf(site.leaves, name).is_some();
    }
    match declared_by(line) {
        Some(x) => seen_before(site.declared, number, x.name).is_some(),
        None => false,
    }
}

/// Whether the name is declared before the line, in the role.
fn is_declared(site: &Site, number: usize, name: &[u8], role: Role) -> bool
    requires { IsKnown site.now }
    ensures { result ≡ rules.is_kind (role_passes role) (lines_before site.now number) name.now }
{
    is_role(site.declared, number, name, role)
}

/// Whether neither holds.
fn neither(a: bool, b: bool) -> bool
    ensures { result ≡ (not a && not b) }
{
    !a && !b
}

/// Whether each net and each memory that the expression reads is declared as one.
fn knows(site: &Site, number: usize, e: &Expr) -> bool
    requires { IsKnown site.now }
    ensures { result ≡ rules.knows (lines_before site.now number) (read e.now) }
{
    let nets = any_net(e, &NetTest::Unknown(site.declared, number));
    let memories = any_use(e, &UseTest::Unknown(site.declared, number));
    neither(nets, memories)
}

/// Whether each name that an item uses is declared before it in the right way.
fn knows_item(site: &Site, number: usize, subject: &LeafItem) -> bool
    requires { IsKnown site.now }
    ensures { result ≡ rules.line_known (leaves_before site.now) (lines_before site.now number)
        (item (read_item subject.now)) }
{
    match subject {
        LeafItem::Assign { name, value } => {
            is_declared(site, number, name.as_slice(), Role::Driven) && knows(site, number, value)
        }
        LeafItem::Clocked { name, value, .. } => {
            is_declared(site, number, name.as_slice(), Role::Register) && knows(site, number, value)
        }
        LeafItem::Store {
            enable,
            name,
            index,
            value,
        } => {
            is_declared(site, number, name.as_slice(), Role::Memory)
                && knows(site, number, enable)
                && knows(site, number, index)
                && knows(site, number, value)
        }
        _ => true,
    }
}

/// Whether a join ties an output port to what may be driven, or an input port to a net.
fn knows_join(site: &Site, number: usize, leaf: &Known, join: &Join) -> bool
    requires known { IsKnown site.now }
    requires leaf { Declares leaf.now.declared.now (leaf_lines (read_leaf leaf.now.leaf.now)) }
    ensures { result ≡ rules.joins_known (lines_before site.now number) join.now.net
        (port_named leaf.now.leaf.now.ports join.now.port) }
{
    match port(leaf, join.port.as_slice()) {
        Some(shape) => {
            let role = if shape.output {
                Role::Driven
            } else {
                Role::Net
            };
            is_declared(site, number, join.net.as_slice(), role)
        }
        None => false,
    }
}

/// Whether each join does.
fn knows_joins(site: &Site, number: usize, leaf: &Known, joins: &[Join]) -> bool
    requires known { IsKnown site.now }
    requires leaf { Declares leaf.now.declared.now (leaf_lines (read_leaf leaf.now.leaf.now)) }
    ensures { result
        ≡ list_all (λ (j : Join). rules.joins_known (lines_before site.now number) j.net
        (port_named leaf.now.leaf.now.ports j.port)) joins.now }
{
    for join in joins {
        if !knows_join(site, number, leaf, join) {
            return false;
        }
    }
    true
}

/// Whether each name that the line uses is declared before it in the right way.
pub fn knows_line(site: &Site, number: usize, line: &Line) -> bool
    requires { IsKnown site.now }
    ensures { result ≡ rules.line_known (leaves_before site.now) (lines_before site.now number) (line_of line.now) }
{
    match line {
        Line::Item(item) => knows_item(site, number, item),
        Line::Joint(TopItem::Instance { leaf, joins, .. }) => {
            match site.library.leaf(site.leaves, leaf.as_slice()) {
                Some(leaf) => knows_joins(site, number, &leaf, joins.as_slice()),
                None => false,
            }
        }
        _ => true,
    }
}
