//! Copies of designs.

ghost use Rattle.std.specs.Prelude.{◌≡◌, IfOk};
ghost use Rattle.vl_tree.specs.Read.{read, reads, read_item, read_items, read_leaf, read_leaves, read_design};

use crate::tree::{
    Design, Expr, Join, Joins, Leaf, LeafItem, LeafItems, Leaves, Name, Port, Ports, Top, TopItem,
    TopItems,
};
use sqlite_items::{Boxed, Items};
use std::alloc::{AllocError, Global};
use surf_base::Seq;

fn name(alloc: Global, n: &Name) -> Result<Name, AllocError>
    ensures { IfOk result (λ m. m ≡ n.now) }
{
    n.copy(alloc)
}

#[cycle(copied)]
fn expr(alloc: Global, e: &Expr) -> Result<Expr, AllocError>
    ensures { IfOk result (λ c. read c ≡ read e.now) }
{
    match e {
        Expr::Net(n) => Ok(Expr::Net(name(alloc, n)?)),
        Expr::Number(k) => Ok(Expr::Number(*k)),
        Expr::Bit(n, i) => Ok(Expr::Bit(name(alloc, n)?, *i)),
        Expr::Part(n, h, l) => Ok(Expr::Part(name(alloc, n)?, *h, *l)),
        Expr::Word(n, i) => Ok(Expr::Word(name(alloc, n)?, boxed(alloc, i)?)),
        Expr::Not(a) => Ok(Expr::Not(boxed(alloc, a)?)),
        Expr::Two(op, a, b) => Ok(Expr::Two(*op, boxed(alloc, a)?, boxed(alloc, b)?)),
        Expr::If(c, a, b) => {
            let c = boxed(alloc, c)?;
            let a = boxed(alloc, a)?;
            Ok(Expr::If(c, a, boxed(alloc, b)?))
        }
        Expr::Cat(es) => Ok(Expr::Cat(exprs(alloc, es.as_slice())?)),
    }
}

#[cycle(copied)]
fn boxed(alloc: Global, e: &Boxed<Expr>) -> Result<Boxed<Expr>, AllocError>
    ensures { IfOk result (λ c. read c ≡ read e.now) }
{
    let c = expr(alloc, e.get())?;
    Boxed::new(alloc, c)
}

#[cycle(copied)]
fn exprs(alloc: Global, es: &[Expr]) -> Result<Items<Expr>, AllocError>
    ensures { IfOk result (λ cs. reads cs ≡ reads es.now) }
{
    let mut copies = Items::new(alloc);
    for e in es {
        copies.push(expr(alloc, e)?)?;
    }
    Ok(copies)
}

fn item(alloc: Global, it: &LeafItem) -> Result<LeafItem, AllocError>
    ensures { IfOk result (λ c. read_item c ≡ read_item it.now) }
{
    match it {
        LeafItem::Wire { high, name: n } => Ok(LeafItem::Wire {
            high: *high,
            name: name(alloc, n)?,
        }),
        LeafItem::Reg { high, name: n } => Ok(LeafItem::Reg {
            high: *high,
            name: name(alloc, n)?,
        }),
        LeafItem::Mem {
            high,
            name: n,
            last,
        } => Ok(LeafItem::Mem {
            high: *high,
            name: name(alloc, n)?,
            last: *last,
        }),
        LeafItem::Assign { name: n, value } => Ok(LeafItem::Assign {
            name: name(alloc, n)?,
            value: expr(alloc, value)?,
        }),
        LeafItem::Clocked {
            name: n,
            reset,
            value,
        } => Ok(LeafItem::Clocked {
            name: name(alloc, n)?,
            reset: *reset,
            value: expr(alloc, value)?,
        }),
        LeafItem::Store {
            enable,
            name: n,
            index,
            value,
        } => Ok(LeafItem::Store {
            enable: expr(alloc, enable)?,
            name: name(alloc, n)?,
            index: expr(alloc, index)?,
            value: expr(alloc, value)?,
        }),
    }
}

fn items(alloc: Global, its: &[LeafItem]) -> Result<LeafItems, AllocError>
    ensures { IfOk result (λ cs. read_items cs ≡ read_items its.now) }
{
    let mut copies = Seq::new(alloc);
    for it in its {
        copies.push(item(alloc, it)?)?;
    }
    Ok(copies)
}

fn port(alloc: Global, p: &Port) -> Result<Port, AllocError>
    ensures { IfOk result (λ c. c ≡ p.now) }
{
    Ok(Port {
        output: p.output,
        high: p.high,
        name: name(alloc, &p.name)?,
    })
}

fn ports(alloc: Global, ps: &[Port]) -> Result<Ports, AllocError>
    ensures { IfOk result (λ cs. cs ≡ ps.now) }
{
    let mut copies = Seq::new(alloc);
    for p in ps {
        copies.push(port(alloc, p)?)?;
    }
    Ok(copies)
}

fn join(alloc: Global, j: &Join) -> Result<Join, AllocError>
    ensures { IfOk result (λ c. c ≡ j.now) }
{
    Ok(Join {
        port: name(alloc, &j.port)?,
        net: name(alloc, &j.net)?,
    })
}

fn joins(alloc: Global, js: &[Join]) -> Result<Joins, AllocError>
    ensures { IfOk result (λ cs. cs ≡ js.now) }
{
    let mut copies = Seq::new(alloc);
    for j in js {
        copies.push(join(alloc, j)?)?;
    }
    Ok(copies)
}

fn top_item(alloc: Global, it: &TopItem) -> Result<TopItem, AllocError>
    ensures { IfOk result (λ c. c ≡ it.now) }
{
    match it {
        TopItem::Wire { high, name: n } => Ok(TopItem::Wire {
            high: *high,
            name: name(alloc, n)?,
        }),
        TopItem::Instance {
            leaf,
            name: n,
            joins: js,
        } => Ok(TopItem::Instance {
            leaf: name(alloc, leaf)?,
            name: name(alloc, n)?,
            joins: joins(alloc, js.as_slice())?,
        }),
    }
}

fn top_items(alloc: Global, its: &[TopItem]) -> Result<TopItems, AllocError>
    ensures { IfOk result (λ cs. cs ≡ its.now) }
{
    let mut copies = Seq::new(alloc);
    for it in its {
        copies.push(top_item(alloc, it)?)?;
    }
    Ok(copies)
}

fn leaf(alloc: Global, l: &Leaf) -> Result<Leaf, AllocError>
    ensures { IfOk result (λ c. read_leaf c ≡ read_leaf l.now) }
{
    Ok(Leaf {
        name: name(alloc, &l.name)?,
        ports: ports(alloc, l.ports.as_slice())?,
        items: items(alloc, l.items.as_slice())?,
    })
}

fn leaves(alloc: Global, ls: &[Leaf]) -> Result<Leaves, AllocError>
    ensures { IfOk result (λ cs. read_leaves cs ≡ read_leaves ls.now) }
{
    let mut copies = Seq::new(alloc);
    for l in ls {
        copies.push(leaf(alloc, l)?)?;
    }
    Ok(copies)
}

impl Design {
    /// An equal design.
    ///
    /// # Errors
    ///
    /// When memory runs out.
    pub fn copy(&self, alloc: Global) -> Result<Design, AllocError>
        ensures { IfOk result (λ c. read_design c ≡ read_design self.now) }
    {
        let leaves = leaves(alloc, self.leaves.as_slice())?;
        let ports = ports(alloc, self.top.ports.as_slice())?;
        let items = top_items(alloc, self.top.items.as_slice())?;
        Ok(Design {
            leaves,
            top: Top { ports, items },
        })
    }
}
