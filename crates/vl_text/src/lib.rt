//! Writes a design of the small Verilog as text.
//!
//! The text is for people: an item, a port and a join a line, two spaces in, parts and operators with spaces.
//! The contract promises that what is written for a plain design spells that design, so that a reader gives it
//! back, and which of its texts is written (`Layout` of `vl_tree`). Which designs are plain stands in `vl_tree`.
#![tactic(auto)]

mod expressions;
mod modules;
mod pieces;

pub use modules::write_design;

#[cfg(test)]
mod tests {
    use super::*;
    use sqlite_items::{Boxed, Items};
    use std::alloc::{AllocError, Global};
    use std::test::Fail;
    use surf_base::Seq;
    use vl_tree::{
        Const, Design, Expr, Join, Joins, Leaf, LeafItem, LeafItems, Leaves, Name, Op, Port, Ports,
        Top, TopItem, TopItems,
    };

    fn name(alloc: Global, text: &[u8]) -> Result<Name, AllocError> {
        Seq::from_slice(alloc, text)
    }

    fn net(alloc: Global, text: &[u8]) -> Result<Expr, AllocError> {
        Ok(Expr::Net(name(alloc, text)?))
    }

    fn boxed(alloc: Global, text: &[u8]) -> Result<Boxed<Expr>, AllocError> {
        Boxed::new(alloc, net(alloc, text)?)
    }

    /// Every operator, one inside the next.
    fn operators(alloc: Global) -> Result<Expr, AllocError> {
        let mut e = net(alloc, b"a_0")?;
        for op in [
            Op::Add,
            Op::Sub,
            Op::And,
            Op::Or,
            Op::Xor,
            Op::Equal,
            Op::Less,
        ] {
            e = Expr::Two(op, Boxed::new(alloc, e)?, boxed(alloc, b"b_1")?);
        }
        Ok(e)
    }

    /// A net, a constant, a part, a bit and a complement.
    fn parts(alloc: Global) -> Result<Expr, AllocError> {
        let mut es = Items::new(alloc);
        es.push(net(alloc, b"a_0")?)?;
        es.push(Expr::Number(Const {
            width: 64,
            value: 18_446_744_073_709_551_615,
        }))?;
        es.push(Expr::Part(name(alloc, b"a_0")?, 3, 2))?;
        es.push(Expr::Bit(name(alloc, b"a_0")?, 0))?;
        es.push(Expr::Not(boxed(alloc, b"b_1")?))?;
        Ok(Expr::Cat(es))
    }

    /// A choice between a word of a memory and a concatenation of one part.
    fn choice(alloc: Global) -> Result<Expr, AllocError> {
        let mut es = Items::new(alloc);
        es.push(net(alloc, b"b_1")?)?;
        let c = boxed(alloc, b"a_0")?;
        let a = Boxed::new(
            alloc,
            Expr::Word(name(alloc, b"m_0")?, boxed(alloc, b"b_1")?),
        )?;
        Ok(Expr::If(c, a, Boxed::new(alloc, Expr::Cat(es))?))
    }

    fn declarations(alloc: Global) -> Result<LeafItems, AllocError> {
        let mut items = Seq::new(alloc);
        items.push(LeafItem::Wire {
            high: 7,
            name: name(alloc, b"w_0")?,
        })?;
        items.push(LeafItem::Reg {
            high: 0,
            name: name(alloc, b"s_0")?,
        })?;
        items.push(LeafItem::Mem {
            high: 999_999_999,
            name: name(alloc, b"m_0")?,
            last: 15,
        })?;
        Ok(items)
    }

    fn items(alloc: Global) -> Result<LeafItems, AllocError> {
        let mut items = declarations(alloc)?;
        items.push(LeafItem::Assign {
            name: name(alloc, b"w_0")?,
            value: parts(alloc)?,
        })?;
        items.push(LeafItem::Clocked {
            name: name(alloc, b"s_0")?,
            reset: Const { width: 1, value: 0 },
            value: operators(alloc)?,
        })?;
        items.push(LeafItem::Store {
            enable: net(alloc, b"a_0")?,
            name: name(alloc, b"m_0")?,
            index: net(alloc, b"b_1")?,
            value: choice(alloc)?,
        })?;
        Ok(items)
    }

    fn ports(alloc: Global) -> Result<Ports, AllocError> {
        let mut ports = Seq::new(alloc);
        ports.push(Port {
            output: false,
            high: 3,
            name: name(alloc, b"a_0")?,
        })?;
        ports.push(Port {
            output: true,
            high: 0,
            name: name(alloc, b"b_1")?,
        })?;
        Ok(ports)
    }

    fn leaves(alloc: Global) -> Result<Leaves, AllocError> {
        let mut leaves = Seq::new(alloc);
        leaves.push(Leaf {
            name: name(alloc, b"r_0")?,
            ports: ports(alloc)?,
            items: items(alloc)?,
        })?;
        leaves.push(Leaf {
            name: name(alloc, b"r_1")?,
            ports: Seq::new(alloc),
            items: Seq::new(alloc),
        })?;
        Ok(leaves)
    }

    fn joins(alloc: Global) -> Result<Joins, AllocError> {
        let mut joins = Seq::new(alloc);
        joins.push(Join {
            port: name(alloc, b"a_0")?,
            net: name(alloc, b"c_2")?,
        })?;
        Ok(joins)
    }

    fn top_items(alloc: Global) -> Result<TopItems, AllocError> {
        let mut items = Seq::new(alloc);
        items.push(TopItem::Wire {
            high: 3,
            name: name(alloc, b"c_2")?,
        })?;
        items.push(TopItem::Instance {
            leaf: name(alloc, b"r_0")?,
            name: name(alloc, b"u_0")?,
            joins: joins(alloc)?,
        })?;
        Ok(items)
    }

    fn each_form(alloc: Global) -> Result<Design, AllocError> {
        let leaves = leaves(alloc)?;
        let mut ports = Seq::new(alloc);
        ports.push(Port {
            output: false,
            high: 31,
            name: name(alloc, b"d_3")?,
        })?;
        let items = top_items(alloc)?;
        Ok(Design {
            leaves,
            top: Top { ports, items },
        })
    }

    const EACH_FORM: &[u8] = b"module r_0 (
  input wire clk,
  input wire rst,
  input wire [3:0] a_0,
  output wire [0:0] b_1
);
  wire [7:0] w_0;
  reg [0:0] s_0;
  reg [999999999:0] m_0 [0:15];
  assign w_0 = {a_0, 64'd18446744073709551615, a_0[3:2], a_0[0], (~b_1)};
  always @(posedge clk) if (rst) s_0 <= 1'd0; else s_0 <= (((((((a_0 + b_1) - b_1) & b_1) | b_1) ^ b_1) == b_1) < b_1);
  always @(posedge clk) if (a_0) m_0[b_1] <= (a_0 ? m_0[b_1] : {b_1});
endmodule
module r_1 (
  input wire clk,
  input wire rst
);
endmodule
module noc (
  input wire clk,
  input wire rst,
  input wire [31:0] d_3
);
  wire [3:0] c_2;
  r_0 u_0 (
    .clk(clk),
    .rst(rst),
    .a_0(c_2)
  );
endmodule
";

    #[test]
    fn writes_each_form(rt: HostRuntime) -> Result<(), Fail> {
        let design = each_form(rt.alloc())?;
        assert!(rt; design.plain());
        let text = write_design(rt.alloc(), &design)?;
        assert_eq!(rt; text.as_slice(), EACH_FORM);
        let copied = write_design(rt.alloc(), &design.copy(rt.alloc())?)?;
        assert_eq!(rt; copied.as_slice(), EACH_FORM);
        Ok(())
    }
}
