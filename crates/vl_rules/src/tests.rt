//! Worked texts: the first rule that each breaks, and the line.

use super::*;
use std::alloc::{AllocError, Global};
use std::test::Fail;
use vl_read::read_design;
use vl_tree::TextFault;

const LEAF: &[u8] = b"module r_0 (input wire clk, input wire rst, ";

/// A top without ports, items or instances.
const TOP: &[u8] = b" endmodule module noc (input wire clk, input wire rst); endmodule";

/// A text whose one tile drops every word: its ports, what it says of them, and its top.
const PORTS: &[u8] = b"(input wire clk, input wire rst,
  input wire [0:0] ov_0_0, input wire [31:0] oa_0_0, input wire [31:0] op_0_0, input wire [0:0] ol_0_0,
  input wire [0:0] hr_0_0, output wire [0:0] rd_0_0, output wire [0:0] dr_0_0, output wire [0:0] ev_0_0,
  output wire [0:0] eh_0_0, output wire [0:0] et_0_0, output wire [31:0] ep_0_0);
";

const CONSTANTS: &[u8] =
    b"  assign ev_0_0 = 1'd0; assign eh_0_0 = 1'd0; assign et_0_0 = 1'd0; assign ep_0_0 = 32'd0;
  always @(posedge clk) if (rst) s_0 <= 1'd0; else s_0 <= ov_0_0;
endmodule
module noc ";

const JOINS: &[u8] =
    b"  router_0 tile_0 (.clk(clk), .rst(rst), .ov_0_0(ov_0_0), .oa_0_0(oa_0_0), .op_0_0(op_0_0),
    .ol_0_0(ol_0_0), .hr_0_0(hr_0_0), .rd_0_0(rd_0_0), .dr_0_0(dr_0_0), .ev_0_0(ev_0_0), .eh_0_0(eh_0_0),
    .et_0_0(et_0_0), .ep_0_0(ep_0_0));
endmodule
";

fn joined(alloc: Global, parts: &[&[u8]]) -> Result<Vec<u8>, AllocError> {
    let mut text = Vec::new(alloc);
    for part in parts {
        text.extend_from_slice(*part)?;
    }
    Ok(text)
}

/// The number of the fault and its line, or 0 and the number of leaves for a sound design. Other faults are 99.
fn judged(alloc: Global, text: &[u8]) -> (u8, u64) {
    let Ok(design) = read_design(alloc, text) else {
        return (99, 0);
    };
    if !design.plain() {
        return (99, 1);
    }
    match rules(alloc, design) {
        Ok(sound) => (0, sound.design().leaves.len() as u64),
        Err(TextFault::NameTwice(n)) => (4, n),
        Err(TextFault::NameUnknown(n)) => (5, n),
        Err(TextFault::Width(n)) => (6, n),
        Err(TextFault::Order(n)) => (7, n),
        Err(TextFault::Driver(n)) => (8, n),
        Err(TextFault::Mealy(n)) => (9, n),
        Err(TextFault::MemSize(n)) => (10, n),
        Err(TextFault::Instance(n)) => (11, n),
        Err(_) => (99, 2),
    }
}

#[test]
fn each_rule_is_broken_alone(rt: HostRuntime) -> Result<(), Fail> {
    let alloc = rt.alloc();
    let rows: [(&[u8], (u8, u64)); 9] = [
        (
            b"output wire [1:0] q_0); wire [0:0] q_0; assign q_0 = 2'd0;",
            (4, 2),
        ),
        (b"output wire [1:0] q_0); assign q_0 = a_0;", (5, 2)),
        (b"output wire [1:0] q_0); assign q_0 = 3'd0;", (6, 2)),
        (
            b"output wire [1:0] q_0); wire [1:0] w_0; assign q_0 = w_0; assign w_0 = 2'd0;",
            (7, 3),
        ),
        (b"output wire [1:0] q_0);", (8, 1)),
        (
            b"input wire [1:0] a_0, output wire [1:0] q_0); assign q_0 = a_0;",
            (9, 2),
        ),
        (
            b"output wire [1:0] q_0); reg [1:0] i_0; reg [1:0] m_0 [0:1]; assign q_0 = m_0[i_0];
            always @(posedge clk) if (rst) i_0 <= 2'd0; else i_0 <= i_0;
            always @(posedge clk) if (1'd1) m_0[i_0] <= 2'd0;",
            (10, 4),
        ),
        (
            b"output wire [1:0] q_0); assign q_0 = 2'd0; endmodule
            module noc (input wire clk, input wire rst); r_0 u_0 (.clk(clk), .rst(rst)); endmodule",
            (11, 4),
        ),
        (
            b"output wire [1:0] q_0); assign q_0 = {1'd0, 1'd1}; endmodule module noc (input wire clk, input wire rst);
            wire [1:0] w_0; r_0 u_0 (.clk(clk), .rst(rst), .q_0(w_0)); endmodule",
            (0, 1),
        ),
    ];
    for (i, (text, wanted)) in rows.iter().enumerate() {
        let whole = if i < 7 {
            joined(alloc, &[LEAF, *text, TOP])?
        } else {
            joined(alloc, &[LEAF, *text])?
        };
        assert_eq!(rt; judged(alloc, &whole), *wanted);
    }
    Ok(())
}

#[test]
fn a_text_that_drops_every_word(rt: HostRuntime) -> Result<(), Fail> {
    let alloc = rt.alloc();
    let rows: [(&[u8], (u8, u64)); 3] = [
        (
            b"  reg [0:0] s_0; assign rd_0_0 = 1'd1; assign dr_0_0 = s_0;\n",
            (0, 1),
        ),
        (
            b"  reg [0:0] s_0; assign rd_0_0 = 1'd1; assign rd_0_0 = 1'd1; assign dr_0_0 = s_0;\n",
            (8, 6),
        ),
        (
            b"  reg [0:0] s_0; assign rd_0_0 = 1'd1; assign dr_0_0 = ov_0_0;\n",
            (9, 7),
        ),
    ];
    for (text, wanted) in rows.iter() {
        let whole = joined(
            alloc,
            &[b"module router_0 ", PORTS, *text, CONSTANTS, PORTS, JOINS],
        )?;
        assert_eq!(rt; judged(alloc, &whole), *wanted);
    }
    Ok(())
}
