//! The values of a small Verilog, a synthesizable subset of IEEE 1364-2005: designs of leaves under one top.
//!
//! Here stand the plain data of a design, the definition of its text (`specs/Tokens`, `specs/Grammar`) and,
//! in `specs/Spells`, which bytes spell a design and what the first fault of the others is. The contract
//! promises that no bytes spell two designs, that a copy equals what it copies, and that `plain` says whether
//! some bytes spell a design. Reading and writing of bytes, the rules on names and widths, and the meaning
//! are left to the parts above.
#![tactic(auto)]

mod copy;
mod fault;
pub mod laws;
mod plain;
pub mod token;
mod tree;

pub use fault::TextFault;
pub use tree::{
    Const, Design, Expr, Join, Joins, Leaf, LeafItem, LeafItems, Leaves, Name, Op, Port, Ports,
    Top, TopItem, TopItems,
};

#[cfg(test)]
mod tests {
    use super::*;
    use sqlite_items::{Boxed, Items};
    use std::alloc::{AllocError, Global};
    use std::test::Fail;
    use surf_base::Seq;

    fn name(alloc: Global, text: &[u8]) -> Result<Name, AllocError> {
        Seq::from_slice(alloc, text)
    }

    /// A complement and a constant, in a row.
    fn parts(alloc: Global, net: &[u8], value: u64) -> Result<Expr, AllocError> {
        let mut es = Items::new(alloc);
        let a = Boxed::new(alloc, Expr::Net(name(alloc, net)?))?;
        es.push(Expr::Not(a))?;
        es.push(Expr::Number(Const { width: 3, value }))?;
        Ok(Expr::Cat(es))
    }

    fn leaves(alloc: Global, net: &[u8], value: u64) -> Result<Leaves, AllocError> {
        let mut ports = Seq::new(alloc);
        ports.push(Port {
            output: true,
            high: 1,
            name: name(alloc, b"q_0")?,
        })?;
        let mut items = Seq::new(alloc);
        items.push(LeafItem::Assign {
            name: name(alloc, b"q_0")?,
            value: parts(alloc, net, value)?,
        })?;
        let mut leaves = Seq::new(alloc);
        leaves.push(Leaf {
            name: name(alloc, b"r_0")?,
            ports,
            items,
        })?;
        Ok(leaves)
    }

    fn design(alloc: Global, net: &[u8], value: u64) -> Result<Design, AllocError> {
        let mut items = Seq::new(alloc);
        items.push(TopItem::Instance {
            leaf: name(alloc, b"r_0")?,
            name: name(alloc, b"u_0")?,
            joins: Seq::new(alloc),
        })?;
        Ok(Design {
            leaves: leaves(alloc, net, value)?,
            top: Top {
                ports: Seq::new(alloc),
                items,
            },
        })
    }

    #[test]
    fn copies_are_as_plain(rt: HostRuntime) -> Result<(), Fail> {
        laws::one_design();
        for (net, value, plain) in [
            (b"s_0".as_slice(), 7, true),
            (b"s_0".as_slice(), 8, false),
            (b"s0".as_slice(), 7, false),
            (b"s_".as_slice(), 7, false),
            (b"0_s".as_slice(), 7, false),
        ] {
            let design = design(rt.alloc(), net, value)?;
            assert_eq!(rt; design.plain(), plain);
            let copy = design.copy(rt.alloc())?;
            assert_eq!(rt; copy.plain(), plain);
            assert_eq!(rt; copy.leaves.len(), 1);
            assert_eq!(rt; copy.leaves.at(0).name.as_slice(), b"r_0".as_slice());
        }
        Ok(())
    }
}
