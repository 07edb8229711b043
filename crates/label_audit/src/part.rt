//! The labels in one instance.
ghost use Rattle.std.specs.Prelude.{◌≡◌, map, length, slice_set, IfOk, OnOk};
ghost use Rattle.vl_tree.specs.Read.{read, read_item, read_items, read_leaf};
ghost use Rattle.vl_model.specs.Lines.{leaf_lines, port_named};
ghost use Rattle.vl_model.specs.Rules.{is_output_port};
ghost use Rattle.vl_rules.specs.Scope.{Declares};
ghost use Rattle.vl_run.specs.Emit.{place_in};
ghost use Rattle.label_audit.specs.Rows.{row_in, bit_in, store_row, row_of, rows_by, bits_in};
ghost use Rattle.label_audit.specs.Instances.{no_rows, assigned_row, begun_row, carried_row, each_item, blank_row, each_port, shown_row, fed_row, each_join, first_rows, shown_rows, fed_rows, next_rows};

use crate::bit::Bit;
use crate::expr::{Scope, bits, copy, named, place, wide};
use crate::row::{Row, bit, constant, like, stored};
use crate::tables::at;
use std::alloc::{AllocError, Global};
use vl_rules::{Entry, Known, Module, Names, port};
use vl_tree::{Expr, Join, LeafItem, Port};

/// An instance: its leaf and its joins.
#[derive(Clone, Copy)]
pub(crate) struct Part<'a> {
    pub(crate) leaf: Known<'a>,
    pub(crate) joins: &'a [Join],
}

/// As many rows without a bit.
#[tactic(auto, using(crate::proofs::Instances::instances))]
pub(crate) fn no_rows(alloc: Global, count: usize) -> Result<Vec<Row>, AllocError>
    ensures { IfOk result (λ v. map row_in v.items ≡ no_rows count) }
{
    let mut rows = Vec::new(alloc);
    for i in 0..count {
        rows.push(Row::new(alloc))?;
    }
    Ok(rows)
}

/// The rows again.
#[tactic(auto, using(crate::proofs::Instances::instances))]
fn copied(alloc: Global, rows: &[Row]) -> Result<Vec<Row>, AllocError>
    ensures { IfOk result (λ v. v.items ≡ rows.now) }
{
    let mut all = Vec::new(alloc);
    for row in rows {
        all.push(row.copy(alloc)?)?;
    }
    Ok(all)
}

/// Makes this the row at a place.
#[tactic(auto, using(crate::proofs::Instances::instances))]
pub(crate) fn put(rows: &mut [Row], place: usize, row: Row)
    ensures { map row_in rows.new ≡ slice_set (map row_in rows.old) place (row_in row) }
{
    if place < rows.len() {
        rows[place] = row;
    }
}

/// Gives the target of an assign its expression's labels.
fn assign(
    alloc: Global,
    item: &LeafItem,
    declared: &Names<Entry>,
    rows: &mut Vec<Row>,
) -> Result<(), AllocError>
    ensures { OnOk result (map row_in rows.new.items
        ≡ assigned_row (place_in declared.now) (read_item item.now) (map row_in rows.old.items)) }
{
    if let LeafItem::Assign { name, value } = item {
        let scope = Scope {
            declared,
            rows: rows.as_slice(),
        };
        let row = bits(alloc, value, &scope)?;
        put(rows.as_mut_slice(), place(declared, name.as_slice()), row);
    }
    Ok(())
}

/// The labels that a register takes at reset; a memory depends on no domain.
fn reset(
    alloc: Global,
    item: &LeafItem,
    declared: &Names<Entry>,
    rows: &mut Vec<Row>,
) -> Result<(), AllocError>
    ensures { OnOk result (map row_in rows.new.items
        ≡ begun_row (place_in declared.now) (bits_in declared.now) (read_item item.now) (map row_in rows.old.items)) }
{
    match item {
        LeafItem::Clocked { name, reset, .. } => {
            let row = constant(alloc, reset.value, wide(declared, name.as_slice()))?;
            put(rows.as_mut_slice(), place(declared, name.as_slice()), row);
        }
        LeafItem::Store { name, .. } => {
            let row = like(alloc, Bit::From(0), wide(declared, name.as_slice()))?;
            put(rows.as_mut_slice(), place(declared, name.as_slice()), row);
        }
        _ => {}
    }
    Ok(())
}

/// The labels that the memory takes.
fn store(
    alloc: Global,
    memory: &[Bit],
    enable: &Expr,
    index: &Expr,
    value: &Expr,
    scope: &Scope,
) -> Result<Row, AllocError>
    ensures { IfOk result (λ r. row_in r
        ≡ store_row (bit_in (row_of (rows_by (place_in scope.now.declared.now) (map row_in scope.now.rows.now))
        (read enable.now)) 0)
        (row_of (rows_by (place_in scope.now.declared.now) (map row_in scope.now.rows.now)) (read index.now))
        (row_of (rows_by (place_in scope.now.declared.now) (map row_in scope.now.rows.now)) (read value.now))
        (row_in memory.now)) }
{
    let enable = bits(alloc, enable, scope)?;
    let index = bits(alloc, index, scope)?;
    let value = bits(alloc, value, scope)?;
    stored(
        alloc,
        bit(enable.as_slice(), 0),
        index.as_slice(),
        value.as_slice(),
        memory,
    )
}

/// The labels that the item hands over to the next phase.
fn carry(
    alloc: Global,
    item: &LeafItem,
    scope: &Scope,
    next: &mut Vec<Row>,
) -> Result<(), AllocError>
    ensures { OnOk result (map row_in next.new.items
        ≡ carried_row (place_in scope.now.declared.now) (map row_in scope.now.rows.now) (read_item item.now)
        (map row_in next.old.items)) }
{
    match item {
        LeafItem::Clocked { name, value, .. } => {
            let row = bits(alloc, value, scope)?;
            let to = place(scope.declared, name.as_slice());
            put(next.as_mut_slice(), to, row);
        }
        LeafItem::Store {
            enable,
            name,
            index,
            value,
        } => {
            let to = place(scope.declared, name.as_slice());
            let row = store(alloc, at(scope.rows, to), enable, index, value, scope)?;
            put(next.as_mut_slice(), to, row);
        }
        _ => {}
    }
    Ok(())
}

/// Gives an input port as many bits as it has, which no output port depends on.
fn blank(
    alloc: Global,
    port: &Port,
    declared: &Names<Entry>,
    rows: &mut Vec<Row>,
) -> Result<(), AllocError>
    ensures { OnOk result (map row_in rows.new.items
        ≡ blank_row (place_in declared.now) port.now (map row_in rows.old.items)) }
{
    if !port.output {
        let row = like(alloc, Bit::Known(false), port.high as usize + 1)?;
        put(
            rows.as_mut_slice(),
            place(declared, port.name.as_slice()),
            row,
        );
    }
    Ok(())
}

/// Gives all input ports their bits.
#[tactic(auto, using(crate::proofs::Instances::ports_in))]
fn blank_all(
    alloc: Global,
    ports: &[Port],
    declared: &Names<Entry>,
    rows: &mut Vec<Row>,
) -> Result<(), AllocError>
    ensures { OnOk result (map row_in rows.new.items
        ≡ each_port (blank_row (place_in declared.now)) ports.now (map row_in rows.old.items)) }
{
    let mut i = ports.len();
    while 0 < i {
        i -= 1;
        blank(alloc, &ports[i], declared, rows)?;
    }
    Ok(())
}

/// Labels the targets of the assigns, in order.
#[tactic(auto, using(crate::proofs::Instances::items_in))]
fn settle(
    alloc: Global,
    items: &[LeafItem],
    declared: &Names<Entry>,
    rows: &mut Vec<Row>,
) -> Result<(), AllocError>
    ensures { OnOk result (map row_in rows.new.items
        ≡ each_item (assigned_row (place_in declared.now)) (read_items items.now) (map row_in rows.old.items)) }
{
    for item in items {
        assign(alloc, item, declared, rows)?;
    }
    Ok(())
}

/// The labels of registers and memories at reset, in so many rows.
#[tactic(auto, using(crate::proofs::Instances::items_in))]
fn begin(
    alloc: Global,
    items: &[LeafItem],
    declared: &Names<Entry>,
    count: usize,
) -> Result<Vec<Row>, AllocError>
    ensures { IfOk result (λ v. map row_in v.items
        ≡ each_item (begun_row (place_in declared.now) (bits_in declared.now)) (read_items items.now)
        (no_rows count)) }
{
    let mut rows = no_rows(alloc, count)?;
    for item in items {
        reset(alloc, item, declared, &mut rows)?;
    }
    Ok(rows)
}

/// The labels that the items hand over to the next phase, in so many rows.
#[tactic(auto, using(crate::proofs::Instances::items_in))]
fn carry_all(
    alloc: Global,
    items: &[LeafItem],
    scope: &Scope,
    count: usize,
) -> Result<Vec<Row>, AllocError>
    ensures { IfOk result (λ v. map row_in v.items
        ≡ each_item (carried_row (place_in scope.now.declared.now) (map row_in scope.now.rows.now))
        (read_items items.now) (no_rows count)) }
{
    let mut next = no_rows(alloc, count)?;
    for item in items {
        carry(alloc, item, scope, &mut next)?;
    }
    Ok(next)
}

/// Whether the leaf has an output port of the name.
fn is_output(leaf: &Known, name: &[u8]) -> bool
    requires { Declares leaf.now.declared.now (leaf_lines (read_leaf leaf.now.leaf.now)) }
    ensures { result ≡ is_output_port (port_named leaf.now.leaf.now.ports name.now) }
{
    match port(leaf, name) {
        Some(shape) => shape.output,
        None => false,
    }
}

/// Gives the net of a join the labels of the port, if it is an output port.
fn show_one(
    alloc: Global,
    join: &Join,
    leaf: &Known,
    rows: &[Row],
    top: &Names<Entry>,
    tops: &mut Vec<Row>,
) -> Result<(), AllocError>
    requires { Declares leaf.now.declared.now (leaf_lines (read_leaf leaf.now.leaf.now)) }
    ensures { OnOk result (map row_in tops.new.items
        ≡ shown_row (read_leaf leaf.now.leaf.now) (place_in leaf.now.declared.now) (place_in top.now)
        (map row_in rows.now) join.now (map row_in tops.old.items)) }
{
    if is_output(leaf, join.port.as_slice()) {
        let scope = Scope {
            declared: leaf.declared,
            rows,
        };
        let row = copy(alloc, named(&scope, join.port.as_slice()))?;
        put(tops.as_mut_slice(), place(top, join.net.as_slice()), row);
    }
    Ok(())
}

/// Gives the port of a join the labels of the net, if it is no output port.
fn feed_one(
    alloc: Global,
    join: &Join,
    leaf: &Known,
    top: &Scope,
    rows: &mut Vec<Row>,
) -> Result<(), AllocError>
    requires { Declares leaf.now.declared.now (leaf_lines (read_leaf leaf.now.leaf.now)) }
    ensures { OnOk result (map row_in rows.new.items
        ≡ fed_row (read_leaf leaf.now.leaf.now) (place_in leaf.now.declared.now) (place_in top.now.declared.now)
        (map row_in top.now.rows.now) join.now (map row_in rows.old.items)) }
{
    if !is_output(leaf, join.port.as_slice()) {
        let row = copy(alloc, named(top, join.net.as_slice()))?;
        let to = place(leaf.declared, join.port.as_slice());
        put(rows.as_mut_slice(), to, row);
    }
    Ok(())
}

/// Gives the top's nets the labels of the output ports that are joined to them.
#[tactic(auto, using(crate::proofs::Instances::joins_in))]
fn show_all(
    alloc: Global,
    joins: &[Join],
    leaf: &Known,
    rows: &[Row],
    top: &Names<Entry>,
    tops: &mut Vec<Row>,
) -> Result<(), AllocError>
    requires { Declares leaf.now.declared.now (leaf_lines (read_leaf leaf.now.leaf.now)) }
    ensures { OnOk result (map row_in tops.new.items
        ≡ each_join (shown_row (read_leaf leaf.now.leaf.now) (place_in leaf.now.declared.now) (place_in top.now)
        (map row_in rows.now)) joins.now (map row_in tops.old.items)) }
{
    let mut i = joins.len();
    while 0 < i {
        i -= 1;
        show_one(alloc, &joins[i], leaf, rows, top, tops)?;
    }
    Ok(())
}

/// Gives the input ports the labels of the nets that are joined to them.
#[tactic(auto, using(crate::proofs::Instances::joins_in))]
fn feed_all(
    alloc: Global,
    joins: &[Join],
    leaf: &Known,
    top: &Scope,
    rows: &mut Vec<Row>,
) -> Result<(), AllocError>
    requires { Declares leaf.now.declared.now (leaf_lines (read_leaf leaf.now.leaf.now)) }
    ensures { OnOk result (map row_in rows.new.items
        ≡ each_join (fed_row (read_leaf leaf.now.leaf.now) (place_in leaf.now.declared.now)
        (place_in top.now.declared.now) (map row_in top.now.rows.now)) joins.now (map row_in rows.old.items)) }
{
    let mut i = joins.len();
    while 0 < i {
        i -= 1;
        feed_one(alloc, &joins[i], leaf, top, rows)?;
    }
    Ok(())
}

impl<'a> Part<'a> {
    fn lines(&self) -> usize
        ensures { result ≡ length (leaf_lines (read_leaf self.now.leaf.leaf.now)) }
    {
        Module::Leaf(self.leaf.leaf).len()
    }

    /// The labels of registers and memories at reset.
    pub(crate) fn first(&self, alloc: Global) -> Result<Vec<Row>, AllocError>
        ensures { IfOk result (λ v. map row_in v.items
            ≡ first_rows (place_in self.now.leaf.declared.now) (bits_in self.now.leaf.declared.now)
            (read_leaf self.now.leaf.leaf.now)) }
    {
        let items = self.leaf.leaf.items.as_slice();
        begin(alloc, items, self.leaf.declared, self.lines())
    }

    /// Gives the top's nets the labels of the output ports that are joined to them.
    pub(crate) fn show(
        &self,
        alloc: Global,
        kept: &[Row],
        top: &Names<Entry>,
        tops: &mut Vec<Row>,
    ) -> Result<(), AllocError>
        requires { Declares self.now.leaf.declared.now (leaf_lines (read_leaf self.now.leaf.leaf.now)) }
        ensures { OnOk result (map row_in tops.new.items
            ≡ shown_rows (place_in self.now.leaf.declared.now) (place_in top.now)
            (read_leaf self.now.leaf.leaf.now) self.now.joins.now
            (map row_in kept.now) (map row_in tops.old.items)) }
    {
        let items = self.leaf.leaf.items.as_slice();
        let ports = self.leaf.leaf.ports.as_slice();
        let mut rows = copied(alloc, kept)?;
        blank_all(alloc, ports, self.leaf.declared, &mut rows)?;
        settle(alloc, items, self.leaf.declared, &mut rows)?;
        show_all(alloc, self.joins, &self.leaf, rows.as_slice(), top, tops)
    }

    /// The labels of all nets.
    fn settled(&self, alloc: Global, kept: &[Row], top: &Scope) -> Result<Vec<Row>, AllocError>
        requires { Declares self.now.leaf.declared.now (leaf_lines (read_leaf self.now.leaf.leaf.now)) }
        ensures { IfOk result (λ v. map row_in v.items
            ≡ fed_rows (place_in self.now.leaf.declared.now) (place_in top.now.declared.now)
            (read_leaf self.now.leaf.leaf.now) self.now.joins.now
            (map row_in top.now.rows.now) (map row_in kept.now)) }
    {
        let items = self.leaf.leaf.items.as_slice();
        let mut rows = copied(alloc, kept)?;
        feed_all(alloc, self.joins, &self.leaf, top, &mut rows)?;
        settle(alloc, items, self.leaf.declared, &mut rows)?;
        Ok(rows)
    }

    /// The labels of registers and memories that are handed over to the next phase.
    pub(crate) fn next(
        &self,
        alloc: Global,
        kept: &[Row],
        top: &Scope,
    ) -> Result<Vec<Row>, AllocError>
        requires { Declares self.now.leaf.declared.now (leaf_lines (read_leaf self.now.leaf.leaf.now)) }
        ensures { IfOk result (λ v. map row_in v.items
            ≡ next_rows (place_in self.now.leaf.declared.now) (place_in top.now.declared.now)
            (read_leaf self.now.leaf.leaf.now) self.now.joins.now
            (map row_in top.now.rows.now) (map row_in kept.now)) }
    {
        let rows = self.settled(alloc, kept, top)?;
        let scope = Scope {
            declared: self.leaf.declared,
            rows: rows.as_slice(),
        };
        let items = self.leaf.leaf.items.as_slice();
        carry_all(alloc, items, &scope, self.lines())
    }
}
