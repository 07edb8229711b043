//! Widths are 1 to 64 and agree, and an index has exactly the bits for the words of its memory.

ghost use Rattle.std.specs.Prelude.{◌≡◌, ◌==◌, ◌&&◌, ◌+◌, ◌∷◌, ◌++◌, not};
ghost use Rattle.std.specs.List.{list_all};
ghost use Rattle.vl_tree.specs.Read.{read, read_leaf, read_item};
ghost use Rattle.vl_tree.specs.declared.tree.Join.{Join};
ghost use Rattle.vl_model.specs.Lines.{leaf_lines, port_named, item, widths};
ghost use Rattle.vl_model.specs.Meaning.{width_of, agrees, uses_of};
ghost use Rattle.vl_model.specs.Rules as rules;
ghost use Rattle.vl_rules.specs.Lines.{line_of};
ghost use Rattle.vl_rules.specs.Scope.{Declares, widths_at};
ghost use Rattle.vl_rules.specs.Site.{IsKnown, leaves_before, lines_before};

use crate::library::{Known, port};
use crate::lines::Line;
use crate::scope::{net_width, word_width};
use crate::site::Site;
use crate::uses::{UseTest, any_use, index_fits};
use crate::widths::width;
use vl_tree::{Expr, Join, LeafItem, TopItem};

/// Whether the expression's widths agree, and it is so wide.
fn is_as_wide(site: &Site, number: usize, e: &Expr, wide: u64) -> bool
    ensures { result ≡ (agrees (widths_at site.now.declared.now number) (read e.now)
        && (width_of (widths_at site.now.declared.now number) (read e.now) == wide)) }
{
    match width(e, site.declared, number) {
        Some(w) => w == wide,
        None => false,
    }
}

/// Whether the expression's widths agree.
fn does_agree(site: &Site, number: usize, e: &Expr) -> bool
    ensures { result ≡ agrees (widths_at site.now.declared.now number) (read e.now) }
{
    width(e, site.declared, number).is_some()
}

/// Whether the widths of an item are at most 64 and agree.
fn fits_item(site: &Site, number: usize, subject: &LeafItem) -> bool
    ensures { result ≡ rules.line_fits (leaves_before site.now) (widths_at site.now.declared.now number)
        (item (read_item subject.now)) }
{
    match subject {
        LeafItem::Wire { high, .. } => *high < 64,
        LeafItem::Reg { high, .. } => *high < 64,
        LeafItem::Mem { high, .. } => *high < 64,
        LeafItem::Assign { name, value } => {
            let wide = net_width(site.declared, number, name.as_slice());
            is_as_wide(site, number, value, wide)
        }
        LeafItem::Clocked { name, reset, value } => {
            let wide = net_width(site.declared, number, name.as_slice());
            is_as_wide(site, number, value, wide) && reset.width as u64 == wide
        }
        LeafItem::Store {
            enable,
            name,
            index,
            value,
        } => {
            let wide = word_width(site.declared, number, name.as_slice());
            is_as_wide(site, number, enable, 1)
                && does_agree(site, number, index)
                && is_as_wide(site, number, value, wide)
        }
    }
}

/// Whether the net of a join is as wide as the port.
fn fits_join(site: &Site, number: usize, leaf: &Known, join: &Join) -> bool
    requires { Declares leaf.now.declared.now (leaf_lines (read_leaf leaf.now.leaf.now)) }
    ensures { result ≡ rules.join_fits (widths_at site.now.declared.now number) join.now.net
        (port_named leaf.now.leaf.now.ports join.now.port) }
{
    match port(leaf, join.port.as_slice()) {
        Some(shape) => {
            shape.high as u64 + 1 == net_width(site.declared, number, join.net.as_slice())
        }
        None => true,
    }
}

/// Whether each join ties a port and a net of one width.
fn fits_joins(site: &Site, number: usize, leaf: &Known, joins: &[Join]) -> bool
    requires { Declares leaf.now.declared.now (leaf_lines (read_leaf leaf.now.leaf.now)) }
    ensures { result
        ≡ list_all (λ (j : Join). rules.join_fits (widths_at site.now.declared.now number) j.net
        (port_named leaf.now.leaf.now.ports j.port)) joins.now }
{
    for join in joins {
        if !fits_join(site, number, leaf, join) {
            return false;
        }
    }
    true
}

/// Whether the widths of a line are at most 64 and agree.
fn fits(site: &Site, number: usize, line: &Line) -> bool
    requires { IsKnown site.now }
    ensures { result ≡ rules.line_fits (leaves_before site.now) (widths_at site.now.declared.now number)
        (line_of line.now) }
{
    match line {
        Line::Heading(_) => true,
        Line::Port(p) => p.high < 64,
        Line::Item(item) => fits_item(site, number, item),
        Line::Joint(TopItem::Wire { high, .. }) => *high < 64,
        Line::Joint(TopItem::Instance { leaf, joins, .. }) => {
            match site.library.leaf(site.leaves, leaf.as_slice()) {
                Some(leaf) => fits_joins(site, number, &leaf, joins.as_slice()),
                None => true,
            }
        }
    }
}

/// Whether the widths of the line are 1 to 64 and agree.
pub fn fits_line(site: &Site, number: usize, line: &Line) -> bool
    requires { IsKnown site.now }
    ensures { result ≡ rules.line_fits (leaves_before site.now) (widths (lines_before site.now number))
        (line_of line.now) }
{
    fits(site, number, line)
}

/// Whether a memory may have so many words.
fn is_size(words: u64) -> bool
    ensures { result ≡ rules.is_size words }
{
    match words {
        2 | 4 | 8 | 16 | 32 | 64 | 128 | 256 | 512 | 1024 => true,
        _ => false,
    }
}

/// Whether the index has exactly the bits for the memory's words.
fn one_fits(site: &Site, number: usize, memory: &[u8], index: &Expr) -> bool
    requires { IsKnown site.now }
    ensures { result ≡ rules.use_fits (lines_before site.now number)
        (record { memory = memory.now; index = read index.now }) }
{
    index_fits(site.declared, number, memory, index)
}

/// Whether each index in the expression fits its memory.
fn indexes_fit(site: &Site, number: usize, e: &Expr) -> bool
    requires { IsKnown site.now }
    ensures { result ≡ list_all (rules.use_fits (lines_before site.now number)) (uses_of (read e.now)) }
{
    !any_use(e, &UseTest::Unfit(site.declared, number))
}

/// Whether the indexes of a store fit their memories.
#[tactic(auto, using(crate::proofs::Judged::uses))]
fn store_fits(
    site: &Site,
    number: usize,
    enable: &Expr,
    memory: &[u8],
    index: &Expr,
    value: &Expr,
) -> bool
    requires { IsKnown site.now }
    ensures { result ≡ list_all (rules.use_fits (lines_before site.now number))
        (record { memory = memory.now; index = read index.now }
        ∷ (uses_of (read enable.now) ++ (uses_of (read index.now) ++ uses_of (read value.now)))) }
{
    one_fits(site, number, memory, index)
        && indexes_fit(site, number, enable)
        && indexes_fit(site, number, index)
        && indexes_fit(site, number, value)
}

/// Whether the line's memory has a size that it may have, and the line's indexes fit their memories.
pub fn has_size(site: &Site, number: usize, line: &Line) -> bool
    requires { IsKnown site.now }
    ensures { result ≡ rules.has_size (lines_before site.now number) (line_of line.now) }
{
    match line {
        Line::Item(LeafItem::Mem { last, .. }) => is_size(*last as u64 + 1),
        Line::Item(LeafItem::Assign { value, .. }) => indexes_fit(site, number, value),
        Line::Item(LeafItem::Clocked { value, .. }) => indexes_fit(site, number, value),
        Line::Item(
            LeafItem::Store {
                enable,
                name,
                index,
                value,
            },
        ) => { store_fits(site, number, enable, name.as_slice(), index, value) }
        _ => true,
    }
}
