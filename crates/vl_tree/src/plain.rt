//! Whether some bytes spell a design.

ghost use Rattle.std.specs.Prelude.{◌≡◌, ◌-◌, ◌^◌, ◌<◌, ◌≤◌, ◌↔◌, nat_lt, ℕ, List, IsTrue};
ghost use Rattle.std.specs.List.{list_all};
ghost use Rattle.vl_tree.specs.Read.{read, reads, read_item, read_items, read_leaf, read_leaves, read_design};
ghost use Rattle.vl_tree.specs.Values.{cat};
ghost use Rattle.vl_tree.specs.Grammar.{limit};
ghost use Rattle.vl_tree.specs.Spells.{Spells, IsPlain};
ghost use Rattle.vl_tree.specs.Plain.{plain_number, plain_const, plain_expr, plain_exprs, plain_item, plain_port, plain_join, plain_leaf, plain_top_item, plain_design};

use crate::token::is_name;
use crate::tree::{Const, Design, Expr, Join, Leaf, LeafItem, Port, TopItem};
use sqlite_items::Boxed;

fn number(v: u32) -> bool
    ensures { result ≡ plain_number v }
{
    v < 1_000_000_000
}

fn constant(k: &Const) -> bool
    ensures { result ≡ plain_const k.now }
{
    let width = k.width;
    let value = k.value;
    if width == 0 || 64 < width {
        return false;
    }
    below(value, width)
}

/// Whether a value has at most so many bits.
fn below(value: u64, width: u32) -> bool
    requires { width ≤ 64 }
    ensures { result ≡ nat_lt value (2 ^ width) }
{
    if width == 64 {
        return true;
    }
    value < 1 << width
}

#[cycle(plain)]
fn expr(e: &Expr, depth: u32) -> bool
    ensures { result ≡ plain_expr depth (read e.now) }
{
    match e {
        Expr::Net(n) => 0 < depth && is_name(n.as_slice()),
        Expr::Number(k) => 0 < depth && constant(k),
        Expr::Bit(n, i) => 0 < depth && is_name(n.as_slice()) && number(*i),
        Expr::Part(n, h, l) => 0 < depth && is_name(n.as_slice()) && number(*h) && number(*l),
        Expr::Word(n, i) => 0 < depth && is_name(n.as_slice()) && boxed(i, depth - 1),
        Expr::Not(a) => 0 < depth && boxed(a, depth - 1),
        Expr::Two(_, a, b) => 0 < depth && boxed(a, depth - 1) && boxed(b, depth - 1),
        Expr::If(c, a, b) => {
            0 < depth && boxed(c, depth - 1) && boxed(a, depth - 1) && boxed(b, depth - 1)
        }
        Expr::Cat(es) => parts(es.as_slice(), depth),
    }
}

#[cycle(plain)]
fn boxed(e: &Boxed<Expr>, depth: u32) -> bool
    ensures { result ≡ plain_expr depth (read e.now) }
{
    expr(e.get(), depth)
}

#[cycle(plain)]
#[tactic(auto, using(crate::proofs::Fronts::cat_parts, crate::proofs::Fronts::cat_none))]
fn parts(es: &[Expr], depth: u32) -> bool
    ensures { result ≡ plain_expr depth (cat (reads es.now)) }
{
    if es.is_empty() {
        return false;
    }
    if depth == 0 {
        return false;
    }
    exprs(es, depth - 1)
}

#[cycle(plain)]
fn exprs(es: &[Expr], depth: u32) -> bool
    ensures { result ≡ plain_exprs depth (reads es.now) }
{
    for e in es {
        if !expr(e, depth) {
            return false;
        }
    }
    true
}

fn item(it: &LeafItem) -> bool
    ensures { result ≡ plain_item (read_item it.now) }
{
    match it {
        LeafItem::Wire { high, name: n } | LeafItem::Reg { high, name: n } => {
            number(*high) && is_name(n.as_slice())
        }
        LeafItem::Mem {
            high,
            name: n,
            last,
        } => number(*high) && is_name(n.as_slice()) && number(*last),
        LeafItem::Assign { name: n, value } => is_name(n.as_slice()) && whole(value),
        LeafItem::Clocked {
            name: n,
            reset,
            value,
        } => is_name(n.as_slice()) && constant(reset) && whole(value),
        LeafItem::Store {
            enable,
            name: n,
            index,
            value,
        } => whole(enable) && is_name(n.as_slice()) && whole(index) && whole(value),
    }
}

#[tactic(auto, unfolding(crate::specs::Grammar::limit))]
fn whole(e: &Expr) -> bool
    ensures { result ≡ plain_expr limit (read e.now) }
{
    expr(e, 200)
}

fn items(its: &[LeafItem]) -> bool
    ensures { result ≡ list_all plain_item (read_items its.now) }
{
    for it in its {
        if !item(it) {
            return false;
        }
    }
    true
}

fn port(p: &Port) -> bool
    ensures { result ≡ plain_port p.now }
{
    number(p.high) && is_name(p.name.as_slice())
}

fn ports(ps: &[Port]) -> bool
    ensures { result ≡ list_all plain_port ps.now }
{
    for p in ps {
        if !port(p) {
            return false;
        }
    }
    true
}

fn join(j: &Join) -> bool
    ensures { result ≡ plain_join j.now }
{
    is_name(j.port.as_slice()) && is_name(j.net.as_slice())
}

fn joins(js: &[Join]) -> bool
    ensures { result ≡ list_all plain_join js.now }
{
    for j in js {
        if !join(j) {
            return false;
        }
    }
    true
}

fn top_item(it: &TopItem) -> bool
    ensures { result ≡ plain_top_item it.now }
{
    match it {
        TopItem::Wire { high, name: n } => number(*high) && is_name(n.as_slice()),
        TopItem::Instance {
            leaf,
            name: n,
            joins: js,
        } => is_name(leaf.as_slice()) && is_name(n.as_slice()) && joins(js.as_slice()),
    }
}

fn top_items(its: &[TopItem]) -> bool
    ensures { result ≡ list_all plain_top_item its.now }
{
    for it in its {
        if !top_item(it) {
            return false;
        }
    }
    true
}

fn leaf(l: &Leaf) -> bool
    ensures { result ≡ plain_leaf (read_leaf l.now) }
{
    is_name(l.name.as_slice()) && ports(l.ports.as_slice()) && items(l.items.as_slice())
}

fn leaves(ls: &[Leaf]) -> bool
    ensures { result ≡ list_all plain_leaf (read_leaves ls.now) }
{
    for l in ls {
        if !leaf(l) {
            return false;
        }
    }
    true
}

fn design(d: &Design) -> bool
    ensures { result ≡ plain_design (read_design d.now) }
{
    leaves(d.leaves.as_slice())
        && ports(d.top.ports.as_slice())
        && top_items(d.top.items.as_slice())
}

impl Design {
    /// Whether some bytes spell the design: its names are names, its numbers and constants fit, no expression
    /// is deeper than 200, and no concatenation is empty.
    pub fn plain(&self) -> bool
        ensures spelled { IsTrue result ↔ ((bytes : List ℕ) × Spells bytes (read_design self.now)) }
        ensures plain { IsTrue result ↔ IsPlain (read_design self.now) }
    {
        design(self)
    }
}
