//! Modules and whole designs.

ghost use Rattle.std.specs.Prelude.{◌≡◌};
ghost use Rattle.vl_tree.specs.Read.{read_item, read_items, read_leaf, read_leaves, read_design};
ghost use Rattle.vl_tree.specs.Reading as reading;
ghost use Rattle.vl_read.specs.View.{placed};
ghost use Rattle.vl_read.specs.Gives.{Gives};
ghost use Rattle.vl_read.specs.Parts as parts;

use crate::ahead::{Ahead, at_mark, at_name, goes_on, left_of, name, phrase, way};
use crate::error::ReadError;
use crate::items::{item, range, wire};
use std::alloc::Global;
use surf_base::Seq;
use vl_tree::{
    Design, Join, Joins, Leaf, LeafItems, Leaves, Name, Port, Ports, Top, TopItem, TopItems,
};

/// A port with the comma before it.
#[tactic(auto, unfolding(vl_tree::specs::Reading::both, vl_tree::specs::Reading::made, vl_tree::specs::Reading::port_at))]
fn one_port<'a>(alloc: Global, ts: Ahead<'a>) -> Result<(Port, Ahead<'a>), ReadError>
    ensures { Gives (λ x. (x.0, placed x.1)) result (reading.port_at (placed ts.entry)) }
{
    let ts = phrase(ts, b",")?;
    let (output, ts) = way(ts)?;
    let ts = phrase(ts, b"wire")?;
    let (high, ts) = range(ts)?;
    let (name, ts) = name(alloc, ts)?;
    Ok((Port { output, high, name }, ts))
}

/// The ports of a module, and the end of its port list.
#[tactic(auto, using(crate::proofs::Lists::more_none))]
fn port_list<'a>(alloc: Global, ts: Ahead<'a>) -> Result<(Ports, Ahead<'a>), ReadError>
    ensures { Gives (λ x. ((x.0, tt), placed x.1)) result (parts.ports_at (placed ts.entry)) }
{
    let mut ports = Seq::new(alloc);
    let mut rest = ts;
    'ports: while at_mark(rest, b",") {
        let (one, after) = one_port(alloc, rest)?;
        ports.push(one)?;
        rest = after;
    }
    let ts = phrase(rest, b") ;")?;
    Ok((ports, ts))
}

/// What stands between a module's name and its items.
#[tactic(auto, unfolding(vl_tree::specs::Reading::both, vl_tree::specs::Reading::made, vl_tree::specs::Reading::head_at))]
fn head<'a>(alloc: Global, ts: Ahead<'a>) -> Result<(Ports, Ahead<'a>), ReadError>
    ensures { Gives (λ x. (x.0, placed x.1)) result (reading.head_at (placed ts.entry)) }
{
    let ts = phrase(ts, b"( input wire clk , input wire rst")?;
    let (ports, ts) = port_list(alloc, ts)?;
    Ok((ports, ts))
}

/// The items of a leaf, its end, and the word that begins the next module.
#[tactic(auto, using(crate::proofs::Lists::more_none))]
fn item_list<'a>(alloc: Global, ts: Ahead<'a>) -> Result<(LeafItems, Ahead<'a>), ReadError>
    ensures { Gives (λ x. ((read_items x.0, tt), placed x.1)) result (parts.items_at (placed ts.entry)) }
{
    let mut items = Seq::new(alloc);
    let mut rest = ts;
    'items: while goes_on(rest) {
        let (one, after) = item(alloc, rest)?;
        items.push(one)?;
        rest = after;
    }
    let ts = phrase(rest, b"endmodule module")?;
    Ok((items, ts))
}

/// A leaf from its name on, with the word that begins the next module.
#[tactic(auto, unfolding(vl_tree::specs::Reading::both, vl_tree::specs::Reading::made, vl_tree::specs::Reading::leaf_at))]
fn one_leaf<'a>(alloc: Global, ts: Ahead<'a>) -> Result<(Leaf, Ahead<'a>), ReadError>
    ensures { Gives (λ x. (read_leaf x.0, placed x.1)) result (reading.leaf_at (placed ts.entry)) }
{
    let (name, ts) = name(alloc, ts)?;
    let (ports, ts) = head(alloc, ts)?;
    let (items, ts) = item_list(alloc, ts)?;
    Ok((Leaf { name, ports, items }, ts))
}

/// A join with the comma before it.
#[tactic(auto, unfolding(vl_tree::specs::Reading::both, vl_tree::specs::Reading::made, vl_tree::specs::Reading::join_at))]
fn one_join<'a>(alloc: Global, ts: Ahead<'a>) -> Result<(Join, Ahead<'a>), ReadError>
    ensures { Gives (λ x. (x.0, placed x.1)) result (reading.join_at (placed ts.entry)) }
{
    let ts = phrase(ts, b", .")?;
    let (port, ts) = name(alloc, ts)?;
    let ts = phrase(ts, b"(")?;
    let (net, ts) = name(alloc, ts)?;
    let ts = phrase(ts, b")")?;
    Ok((Join { port, net }, ts))
}

/// The joins of an instance, and its end.
#[tactic(auto, using(crate::proofs::Lists::more_none))]
fn join_list<'a>(alloc: Global, ts: Ahead<'a>) -> Result<(Joins, Ahead<'a>), ReadError>
    ensures { Gives (λ x. ((x.0, tt), placed x.1)) result (parts.joins_at (placed ts.entry)) }
{
    let mut joins = Seq::new(alloc);
    let mut rest = ts;
    'joins: while at_mark(rest, b",") {
        let (one, after) = one_join(alloc, rest)?;
        joins.push(one)?;
        rest = after;
    }
    let ts = phrase(rest, b") ;")?;
    Ok((joins, ts))
}

/// The name of an instance, and what stands before its joins.
#[tactic(auto, unfolding(vl_tree::specs::Reading::both, vl_tree::specs::Reading::made))]
fn instance_name<'a>(alloc: Global, ts: Ahead<'a>) -> Result<(Name, Ahead<'a>), ReadError>
    ensures { Gives (λ x. (x.0, placed x.1)) result (parts.instance_name_at (placed ts.entry)) }
{
    let (name, ts) = name(alloc, ts)?;
    let ts = phrase(ts, b"( . clk ( clk ) , . rst ( rst )")?;
    Ok((name, ts))
}

/// An instance with its joins.
#[tactic(auto, unfolding(vl_tree::specs::Reading::both, vl_tree::specs::Reading::made, vl_tree::specs::Reading::instance_at))]
fn instance<'a>(alloc: Global, ts: Ahead<'a>) -> Result<(TopItem, Ahead<'a>), ReadError>
    ensures { Gives (λ x. (x.0, placed x.1)) result (reading.instance_at (placed ts.entry)) }
{
    let (leaf, ts) = name(alloc, ts)?;
    let (name, ts) = instance_name(alloc, ts)?;
    let (joins, ts) = join_list(alloc, ts)?;
    Ok((TopItem::Instance { leaf, name, joins }, ts))
}

/// A wire of the top, or an instance.
#[tactic(auto, unfolding(vl_tree::specs::Reading::either, vl_tree::specs::Reading::made, vl_tree::specs::Reading::top_item_at))]
fn top_item<'a>(alloc: Global, ts: Ahead<'a>) -> Result<(TopItem, Ahead<'a>), ReadError>
    ensures { Gives (λ x. (x.0, placed x.1)) result (reading.top_item_at (placed ts.entry)) }
{
    if at_mark(ts, b"wire") {
        let ((high, name), ts) = wire(alloc, ts)?;
        return Ok((TopItem::Wire { high, name }, ts));
    }
    instance(alloc, ts)
}

/// The items of the top, and its end.
#[tactic(auto, using(crate::proofs::Lists::more_none))]
fn top_list<'a>(alloc: Global, ts: Ahead<'a>) -> Result<(TopItems, Ahead<'a>), ReadError>
    ensures { Gives (λ x. ((x.0, tt), placed x.1)) result (parts.top_items_at (placed ts.entry)) }
{
    let mut items = Seq::new(alloc);
    let mut rest = ts;
    'items: while goes_on(rest) {
        let (one, after) = top_item(alloc, rest)?;
        items.push(one)?;
        rest = after;
    }
    let ts = phrase(rest, b"endmodule")?;
    Ok((items, ts))
}

/// The top from its word `noc` on.
#[tactic(auto, unfolding(vl_tree::specs::Reading::both, vl_tree::specs::Reading::made, vl_tree::specs::Reading::top_at))]
fn the_top<'a>(alloc: Global, ts: Ahead<'a>) -> Result<(Top, Ahead<'a>), ReadError>
    ensures { Gives (λ x. (x.0, placed x.1)) result (reading.top_at (placed ts.entry)) }
{
    let ts = phrase(ts, b"noc")?;
    let (ports, ts) = head(alloc, ts)?;
    let (items, ts) = top_list(alloc, ts)?;
    Ok((Top { ports, items }, ts))
}

/// All leaves, and then the top.
#[tactic(auto, using(crate::proofs::Lists::more_none))]
fn body<'a>(alloc: Global, ts: Ahead<'a>) -> Result<((Leaves, Top), Ahead<'a>), ReadError>
    ensures { Gives (λ x. ((read_leaves x.0.0, x.0.1), placed x.1)) result (parts.modules_behind (placed ts.entry)) }
{
    let mut leaves = Seq::new(alloc);
    let mut rest = ts;
    'leaves: while at_name(rest) {
        let (one, after) = one_leaf(alloc, rest)?;
        leaves.push(one)?;
        rest = after;
    }
    let (top, ts) = the_top(alloc, rest)?;
    Ok(((leaves, top), ts))
}

/// The design, where no token is left behind it.
#[tactic(auto, unfolding(vl_tree::specs::Reading::both, vl_tree::specs::Reading::made, vl_tree::specs::Reading::modules_at))]
fn modules<'a>(alloc: Global, ts: Ahead<'a>) -> Result<(Design, Ahead<'a>), ReadError>
    ensures { Gives (λ x. (read_design x.0, placed x.1)) result (reading.modules_at (placed ts.entry)) }
{
    let ts = phrase(ts, b"module")?;
    let ((leaves, top), ts) = body(alloc, ts)?;
    Ok((Design { leaves, top }, ts))
}

/// The design of all the tokens.
#[tactic(auto, using(crate::proofs::Ends::ended_none, crate::proofs::Ends::ended_some), unfolding(vl_tree::specs::Reading::design_at))]
pub fn design(alloc: Global, ts: Ahead<'_>) -> Result<Design, ReadError>
    ensures { Gives read_design result (reading.design_at (placed ts.entry)) }
{
    let (design, ts) = modules(alloc, ts)?;
    if ts.token.is_some() {
        return Err(ReadError::At(left_of(ts)));
    }
    Ok(design)
}
