//! Items, ports, modules and whole designs.

ghost use Rattle.std.specs.Prelude.{◌≡◌, ◌++◌, OnOk, IfOk};
ghost use Rattle.vl_tree.specs.Values as values;
ghost use Rattle.vl_tree.specs.declared.tree.TopItem.TheVariants.{Instance};
ghost use Rattle.vl_tree.specs.Read.{read, read_item, read_items, read_leaf, read_leaves, read_design};
ghost use Rattle.vl_tree.specs.Spells.{Spells, IsPlain};
ghost use Rattle.vl_tree.specs.Layout.{each_text, item_text, way_text, port_text, head_text, leaf_text, join_text, top_item_text, top_text, design_text};

use crate::expressions::expr;
use crate::pieces::{constant, put, ranged, small};
use std::alloc::{AllocError, Global};
use vl_tree::{Const, Design, Expr, Join, Leaf, LeafItem, Port, Top, TopItem};

/// An item of a leaf, on its own line.
fn item(out: &mut Vec<u8>, it: &LeafItem) -> Result<(), AllocError>
    ensures { OnOk result (out.new.items ≡ out.old.items ++ item_text (read_item it.now)) }
{
    match it {
        LeafItem::Wire { high, name } => {
            put(out, b"  wire ")?;
            ranged(out, *high, name.as_slice())?;
            put(out, b";\n")
        }
        LeafItem::Reg { high, name } => {
            put(out, b"  reg ")?;
            ranged(out, *high, name.as_slice())?;
            put(out, b";\n")
        }
        LeafItem::Mem { high, name, last } => {
            put(out, b"  reg ")?;
            ranged(out, *high, name.as_slice())?;
            put(out, b" [0:")?;
            small(out, *last)?;
            put(out, b"];\n")
        }
        LeafItem::Assign { name, value } => {
            put(out, b"  assign ")?;
            put(out, name.as_slice())?;
            put(out, b" = ")?;
            expr(out, value)?;
            put(out, b";\n")
        }
        LeafItem::Clocked { name, reset, value } => clocked(out, name.as_slice(), reset, value),
        LeafItem::Store {
            enable,
            name,
            index,
            value,
        } => store(out, enable, name.as_slice(), index, value),
    }
}

/// The move of a register, with its reset constant.
fn clocked(out: &mut Vec<u8>, name: &[u8], reset: &Const, value: &Expr) -> Result<(), AllocError>
    ensures { OnOk result (out.new.items ≡ out.old.items
        ++ item_text (values.clocked name.now reset.now (read value.now))) }
{
    put(out, b"  always @(posedge clk) if (rst) ")?;
    put(out, name)?;
    put(out, b" <= ")?;
    constant(out, reset)?;
    put(out, b"; else ")?;
    put(out, name)?;
    put(out, b" <= ")?;
    expr(out, value)?;
    put(out, b";\n")
}

/// A store into a memory.
fn store(
    out: &mut Vec<u8>,
    enable: &Expr,
    name: &[u8],
    index: &Expr,
    value: &Expr,
) -> Result<(), AllocError>
    ensures { OnOk result (out.new.items ≡ out.old.items
        ++ item_text (values.store (read enable.now) name.now (read index.now) (read value.now))) }
{
    put(out, b"  always @(posedge clk) if (")?;
    expr(out, enable)?;
    put(out, b") ")?;
    put(out, name)?;
    put(out, b"[")?;
    expr(out, index)?;
    put(out, b"] <= ")?;
    expr(out, value)?;
    put(out, b";\n")
}

fn items(out: &mut Vec<u8>, its: &[LeafItem]) -> Result<(), AllocError>
    ensures { OnOk result (out.new.items ≡ out.old.items ++ each_text item_text (read_items its.now)) }
{
    for it in its {
        item(out, it)?;
    }
    Ok(())
}

/// The comma that ends the line before, and the direction that begins a port's line.
fn way(out: &mut Vec<u8>, output: bool) -> Result<(), AllocError>
    ensures { OnOk result (out.new.items ≡ out.old.items ++ way_text output) }
{
    if output {
        put(out, b",\n  output wire ")
    } else {
        put(out, b",\n  input wire ")
    }
}

/// A port, on its own line.
fn port(out: &mut Vec<u8>, p: &Port) -> Result<(), AllocError>
    ensures { OnOk result (out.new.items ≡ out.old.items ++ port_text p.now) }
{
    way(out, p.output)?;
    ranged(out, p.high, p.name.as_slice())
}

fn ports(out: &mut Vec<u8>, ps: &[Port]) -> Result<(), AllocError>
    ensures { OnOk result (out.new.items ≡ out.old.items ++ each_text port_text ps.now) }
{
    for p in ps {
        port(out, p)?;
    }
    Ok(())
}

/// What stands between a module's name and its items.
fn head(out: &mut Vec<u8>, ps: &[Port]) -> Result<(), AllocError>
    ensures { OnOk result (out.new.items ≡ out.old.items ++ head_text ps.now) }
{
    put(out, b" (\n  input wire clk,\n  input wire rst")?;
    ports(out, ps)?;
    put(out, b"\n);\n")
}

fn leaf(out: &mut Vec<u8>, l: &Leaf) -> Result<(), AllocError>
    ensures { OnOk result (out.new.items ≡ out.old.items ++ leaf_text (read_leaf l.now)) }
{
    put(out, b"module ")?;
    put(out, l.name.as_slice())?;
    head(out, l.ports.as_slice())?;
    items(out, l.items.as_slice())?;
    put(out, b"endmodule\n")
}

fn leaves(out: &mut Vec<u8>, ls: &[Leaf]) -> Result<(), AllocError>
    ensures { OnOk result (out.new.items ≡ out.old.items ++ each_text leaf_text (read_leaves ls.now)) }
{
    for l in ls {
        leaf(out, l)?;
    }
    Ok(())
}

/// A join, on its own line.
fn join(out: &mut Vec<u8>, j: &Join) -> Result<(), AllocError>
    ensures { OnOk result (out.new.items ≡ out.old.items ++ join_text j.now) }
{
    put(out, b",\n    .")?;
    put(out, j.port.as_slice())?;
    put(out, b"(")?;
    put(out, j.net.as_slice())?;
    put(out, b")")
}

fn joins(out: &mut Vec<u8>, js: &[Join]) -> Result<(), AllocError>
    ensures { OnOk result (out.new.items ≡ out.old.items ++ each_text join_text js.now) }
{
    for j in js {
        join(out, j)?;
    }
    Ok(())
}

/// A wire of the top on its own line, or an instance.
fn top_item(out: &mut Vec<u8>, it: &TopItem) -> Result<(), AllocError>
    ensures { OnOk result (out.new.items ≡ out.old.items ++ top_item_text it.now) }
{
    match it {
        TopItem::Wire { high, name } => {
            put(out, b"  wire ")?;
            ranged(out, *high, name.as_slice())?;
            put(out, b";\n")
        }
        TopItem::Instance {
            leaf,
            name,
            joins: js,
        } => instance(out, leaf.as_slice(), name.as_slice(), js.as_slice()),
    }
}

/// An instance with its joins.
fn instance(out: &mut Vec<u8>, leaf: &[u8], name: &[u8], js: &[Join]) -> Result<(), AllocError>
    ensures { OnOk result (out.new.items ≡ out.old.items ++ top_item_text (Instance leaf.now name.now js.now)) }
{
    put(out, b"  ")?;
    put(out, leaf)?;
    put(out, b" ")?;
    put(out, name)?;
    put(out, b" (\n    .clk(clk),\n    .rst(rst)")?;
    joins(out, js)?;
    put(out, b"\n  );\n")
}

fn top_items(out: &mut Vec<u8>, its: &[TopItem]) -> Result<(), AllocError>
    ensures { OnOk result (out.new.items ≡ out.old.items ++ each_text top_item_text its.now) }
{
    for it in its {
        top_item(out, it)?;
    }
    Ok(())
}

fn top(out: &mut Vec<u8>, t: &Top) -> Result<(), AllocError>
    ensures { OnOk result (out.new.items ≡ out.old.items ++ top_text t.now) }
{
    put(out, b"module noc")?;
    head(out, t.ports.as_slice())?;
    top_items(out, t.items.as_slice())?;
    put(out, b"endmodule\n")
}

/// About how many bytes are written: 64 for each line.
fn room(design: &Design) -> usize {
    let leaves = leaf_lines(design.leaves.as_slice());
    let top = top_lines(design.top.items.as_slice());
    let ports = design.top.ports.len();
    leaves
        .saturating_add(top)
        .saturating_add(ports)
        .saturating_add(8)
        .saturating_mul(64)
}

/// About how many lines the leaves take.
fn leaf_lines(leaves: &[Leaf]) -> usize {
    let mut lines: usize = 0;
    for l in leaves {
        lines = lines
            .saturating_add(l.ports.len())
            .saturating_add(l.items.len())
            .saturating_add(8);
    }
    lines
}

/// About how many lines the top's items take.
fn top_lines(items: &[TopItem]) -> usize {
    let mut lines: usize = 0;
    for it in items {
        let joins = match it {
            TopItem::Wire { .. } => 0,
            TopItem::Instance { joins, .. } => joins.len(),
        };
        lines = lines.saturating_add(joins).saturating_add(4);
    }
    lines
}

/// The text of a design: an item, a port and a join a line, two spaces in.
///
/// # Errors
///
/// When memory runs out.
pub fn write_design(alloc: Global, design: &Design) -> Result<Vec<u8>, AllocError>
    requires plain { IsPlain (read_design design.now) }
    ensures spells { IfOk result (λ text. Spells text.items (read_design design.now)) }
    ensures layout { IfOk result (λ text. text.items ≡ design_text (read_design design.now)) }
{
    let mut out = Vec::with_capacity(alloc, room(design))?;
    leaves(&mut out, design.leaves.as_slice())?;
    top(&mut out, &design.top)?;
    Ok(out)
}
