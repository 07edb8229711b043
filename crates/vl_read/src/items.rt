//! Items of a leaf.

ghost use Rattle.std.specs.Prelude.{◌≡◌};
ghost use Rattle.vl_tree.specs.Read.{read, read_item};
ghost use Rattle.vl_tree.specs.Reading as reading;
ghost use Rattle.vl_read.specs.View.{placed};
ghost use Rattle.vl_read.specs.Gives.{Gives};

use crate::ahead::{Ahead, at_mark, name, phrase, plain, same_name, sized, zero};
use crate::error::ReadError;
use crate::expr::whole;
use std::alloc::Global;
use vl_tree::{LeafItem, Name};

/// The high end of a range that ends at 0.
#[tactic(auto, unfolding(vl_tree::specs::Reading::both, vl_tree::specs::Reading::made, vl_tree::specs::Reading::range_at))]
pub fn range<'a>(ts: Ahead<'a>) -> Result<(u32, Ahead<'a>), ReadError>
    ensures { Gives (λ x. (x.0, placed x.1)) result (reading.range_at (placed ts.entry)) }
{
    let ts = phrase(ts, b"[")?;
    let (high, ts) = plain(ts)?;
    let ts = phrase(ts, b":")?;
    let ts = zero(ts)?;
    let ts = phrase(ts, b"]")?;
    Ok((high, ts))
}

/// A wire, by its high end and its name.
#[tactic(auto, unfolding(vl_tree::specs::Reading::both, vl_tree::specs::Reading::made, vl_tree::specs::Reading::wire_at))]
pub fn wire<'a>(alloc: Global, ts: Ahead<'a>) -> Result<((u32, Name), Ahead<'a>), ReadError>
    ensures { Gives (λ x. (x.0, placed x.1)) result (reading.wire_at (placed ts.entry)) }
{
    let ts = phrase(ts, b"wire")?;
    let (high, ts) = range(ts)?;
    let (name, ts) = name(alloc, ts)?;
    let ts = phrase(ts, b";")?;
    Ok(((high, name), ts))
}

/// The declaration of a register or of a memory.
#[tactic(auto, unfolding(vl_tree::specs::Reading::both, vl_tree::specs::Reading::made, vl_tree::specs::Reading::either, vl_tree::specs::Reading::reg_at))]
fn reg<'a>(alloc: Global, ts: Ahead<'a>) -> Result<(LeafItem, Ahead<'a>), ReadError>
    ensures { Gives (λ x. (read_item x.0, placed x.1)) result (reading.reg_at (placed ts.entry)) }
{
    let ts = phrase(ts, b"reg")?;
    let (high, ts) = range(ts)?;
    let (name, ts) = name(alloc, ts)?;
    if !at_mark(ts, b"[") {
        let ts = phrase(ts, b";")?;
        return Ok((LeafItem::Reg { high, name }, ts));
    }
    let ts = phrase(ts, b"[")?;
    let ts = zero(ts)?;
    let ts = phrase(ts, b":")?;
    let (last, ts) = plain(ts)?;
    let ts = phrase(ts, b"] ;")?;
    Ok((LeafItem::Mem { high, name, last }, ts))
}

/// An assign.
#[tactic(auto, unfolding(vl_tree::specs::Reading::both, vl_tree::specs::Reading::made, vl_tree::specs::Reading::assign_at))]
fn assign<'a>(alloc: Global, ts: Ahead<'a>) -> Result<(LeafItem, Ahead<'a>), ReadError>
    ensures { Gives (λ x. (read_item x.0, placed x.1)) result (reading.assign_at (placed ts.entry)) }
{
    let ts = phrase(ts, b"assign")?;
    let (name, ts) = name(alloc, ts)?;
    let ts = phrase(ts, b"=")?;
    let (value, ts) = whole(alloc, ts)?;
    let ts = phrase(ts, b";")?;
    Ok((LeafItem::Assign { name, value }, ts))
}

/// The move of a register, from the word `rst` on.
#[tactic(auto, unfolding(vl_tree::specs::Reading::both, vl_tree::specs::Reading::made, vl_tree::specs::Reading::clocked_at))]
fn clocked<'a>(alloc: Global, ts: Ahead<'a>) -> Result<(LeafItem, Ahead<'a>), ReadError>
    ensures { Gives (λ x. (read_item x.0, placed x.1)) result (reading.clocked_at (placed ts.entry)) }
{
    let ts = phrase(ts, b"rst )")?;
    let (name, ts) = name(alloc, ts)?;
    let ts = phrase(ts, b"<=")?;
    let (reset, ts) = sized(ts)?;
    let ts = phrase(ts, b"; else")?;
    let ts = same_name(ts, &name)?;
    let ts = phrase(ts, b"<=")?;
    let (value, ts) = whole(alloc, ts)?;
    let ts = phrase(ts, b";")?;
    Ok((LeafItem::Clocked { name, reset, value }, ts))
}

/// A store into a memory, from its enable on.
#[tactic(auto, unfolding(vl_tree::specs::Reading::both, vl_tree::specs::Reading::made, vl_tree::specs::Reading::store_at))]
fn store<'a>(alloc: Global, ts: Ahead<'a>) -> Result<(LeafItem, Ahead<'a>), ReadError>
    ensures { Gives (λ x. (read_item x.0, placed x.1)) result (reading.store_at (placed ts.entry)) }
{
    let (enable, ts) = whole(alloc, ts)?;
    let ts = phrase(ts, b")")?;
    let (name, ts) = name(alloc, ts)?;
    let ts = phrase(ts, b"[")?;
    let (index, ts) = whole(alloc, ts)?;
    let ts = phrase(ts, b"] <=")?;
    let (value, ts) = whole(alloc, ts)?;
    let ts = phrase(ts, b";")?;
    Ok((
        LeafItem::Store {
            enable,
            name,
            index,
            value,
        },
        ts,
    ))
}

/// The move of a register, or a store into a memory.
#[tactic(auto, unfolding(vl_tree::specs::Reading::both, vl_tree::specs::Reading::made, vl_tree::specs::Reading::either, vl_tree::specs::Reading::always_at))]
fn always<'a>(alloc: Global, ts: Ahead<'a>) -> Result<(LeafItem, Ahead<'a>), ReadError>
    ensures { Gives (λ x. (read_item x.0, placed x.1)) result (reading.always_at (placed ts.entry)) }
{
    let ts = phrase(ts, b"always @ ( posedge clk ) if (")?;
    if at_mark(ts, b"rst") {
        return clocked(alloc, ts);
    }
    store(alloc, ts)
}

/// An item of a leaf.
#[tactic(auto, unfolding(vl_tree::specs::Reading::made, vl_tree::specs::Reading::either, vl_tree::specs::Reading::item_at))]
pub fn item<'a>(alloc: Global, ts: Ahead<'a>) -> Result<(LeafItem, Ahead<'a>), ReadError>
    ensures { Gives (λ x. (read_item x.0, placed x.1)) result (reading.item_at (placed ts.entry)) }
{
    if at_mark(ts, b"wire") {
        let ((high, name), ts) = wire(alloc, ts)?;
        return Ok((LeafItem::Wire { high, name }, ts));
    }
    if at_mark(ts, b"reg") {
        return reg(alloc, ts);
    }
    if at_mark(ts, b"assign") {
        return assign(alloc, ts);
    }
    always(alloc, ts)
}
