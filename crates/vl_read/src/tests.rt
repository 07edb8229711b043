//! Worked texts: their designs, or their first faults and places.

use super::*;
use std::alloc::{AllocError, Global};
use std::test::*;
use vl_tree::{Design, LeafItem, Ports, TextFault};

const TOP: &[u8] = b"module noc (input wire clk, input wire rst); ";

const LEAF: &[u8] =
    b"module r_0 (input wire clk, input wire rst, output wire [0:0] q_0); assign q_0 = ";

fn joined(alloc: Global, front: &[u8], back: &[u8]) -> Result<Vec<u8>, AllocError> {
    let mut text = Vec::from_slice(alloc, front)?;
    text.extend_from_slice(back)?;
    Ok(text)
}

/// A text of the grammar, in which two widths don't agree.
const WRONG_WIDTH: &[u8] =
    b"module r_0 (input wire clk, input wire rst, output wire [1:0] q_0);\n  \
      assign q_0 = 3'd0;\n\
      endmodule\n\
      module noc (input wire clk, input wire rst);\n\
      endmodule\n";

/// A text whose one tile drops every word.
const DROPS_EVERY_WORD: &[u8] = b"module router_0 (input wire clk, input wire rst,\n  \
      input wire [0:0] ov_0_0, input wire [31:0] oa_0_0,\n  \
      input wire [31:0] op_0_0, input wire [0:0] ol_0_0,\n  \
      input wire [0:0] hr_0_0, output wire [0:0] rd_0_0,\n  \
      output wire [0:0] dr_0_0, output wire [0:0] ev_0_0,\n  \
      output wire [0:0] eh_0_0, output wire [0:0] et_0_0,\n  \
      output wire [31:0] ep_0_0);\n  \
      reg [0:0] s_0;\n  \
      assign rd_0_0 = 1'd1;\n  \
      assign dr_0_0 = s_0;\n  \
      assign ev_0_0 = 1'd0;\n  \
      assign eh_0_0 = 1'd0;\n  \
      assign et_0_0 = 1'd0;\n  \
      assign ep_0_0 = 32'd0;\n  \
      always @(posedge clk) if (rst) s_0 <= 1'd0; else s_0 <= ov_0_0;\n\
      endmodule\n\
      module noc (input wire clk, input wire rst,\n  \
      input wire [0:0] ov_0_0, input wire [31:0] oa_0_0,\n  \
      input wire [31:0] op_0_0, input wire [0:0] ol_0_0,\n  \
      input wire [0:0] hr_0_0, output wire [0:0] rd_0_0,\n  \
      output wire [0:0] dr_0_0, output wire [0:0] ev_0_0,\n  \
      output wire [0:0] eh_0_0, output wire [0:0] et_0_0,\n  \
      output wire [31:0] ep_0_0);\n  \
      router_0 tile_0 (.clk(clk), .rst(rst), .ov_0_0(ov_0_0),\n    \
      .oa_0_0(oa_0_0), .op_0_0(op_0_0), .ol_0_0(ol_0_0),\n    \
      .hr_0_0(hr_0_0), .rd_0_0(rd_0_0), .dr_0_0(dr_0_0),\n    \
      .ev_0_0(ev_0_0), .eh_0_0(eh_0_0), .et_0_0(et_0_0),\n    \
      .ep_0_0(ep_0_0));\n\
      endmodule\n";

/// The number of the fault, and its place.
fn outcome(read: Result<Design, TextFault>) -> (u8, u64) {
    match read {
        Ok(_) => (0, 0),
        Err(TextFault::Byte(n)) => (1, n),
        Err(TextFault::Token(n)) => (2, n),
        Err(TextFault::Grammar(n)) => (3, n),
        Err(_) => (4, 0),
    }
}

#[test]
fn faults_of_short_texts(rt: HostRuntime) -> Result<(), Fail> {
    let alloc = rt.alloc();
    assert_eq!(rt; outcome(read_design(alloc, b"")), (3, 0));
    let rows: [(&[u8], (u8, u64)); 7] = [
        (b"/*", (2, 45)),
        (b"/*/", (2, 45)),
        (b"endmodule // \x00", (1, 58)),
        (b"endmodule x", (2, 55)),
        (b"endmodule endmodule", (3, 55)),
        (b"endmodule // to the end", (0, 0)),
        (b"endmodul", (2, 45)),
    ];
    for (back, expected) in rows.iter() {
        let text = joined(alloc, TOP, back)?;
        assert_eq!(rt; outcome(read_design(alloc, &text)), *expected);
    }
    Ok(())
}

#[test]
fn faults_of_constants(rt: HostRuntime) -> Result<(), Fail> {
    let alloc = rt.alloc();
    let rows: [(&[u8], (u8, u64)); 6] = [
        (b"65'd0;", (2, 81)),
        (b"4'd16;", (2, 81)),
        (b"04'd1;", (2, 81)),
        (b"1'b0?", (2, 81)),
        (b"1'd0?", (3, 85)),
        (b"a_1'd0", (2, 84)),
    ];
    for (back, expected) in rows.iter() {
        let text = joined(alloc, LEAF, back)?;
        assert_eq!(rt; outcome(read_design(alloc, &text)), *expected);
    }
    Ok(())
}

/// The text with so many complements open.
fn opened(alloc: Global, depth: usize) -> Result<Vec<u8>, AllocError> {
    let mut text = Vec::from_slice(alloc, LEAF)?;
    for _ in 0..depth {
        text.extend_from_slice(b"(~")?;
    }
    Ok(text)
}

/// The text with so many complements around a name.
fn nested(alloc: Global, depth: usize) -> Result<Vec<u8>, AllocError> {
    let mut text = opened(alloc, depth)?;
    text.extend_from_slice(b"q_0")?;
    for _ in 0..depth {
        text.push(b')')?;
    }
    text.extend_from_slice(b"; endmodule ")?;
    text.extend_from_slice(TOP)?;
    text.extend_from_slice(b"endmodule")?;
    Ok(text)
}

#[test]
fn at_most_199_constructs_stand_open(rt: HostRuntime) -> Result<(), Fail> {
    let alloc = rt.alloc();
    let deep = nested(alloc, 199)?;
    assert_eq!(rt; outcome(read_design(alloc, &deep)), (0, 0));
    let open = opened(alloc, 200)?;
    assert_eq!(rt; outcome(read_design(alloc, &open)), (3, 479));
    let deeper = nested(alloc, 200)?;
    assert_eq!(rt; outcome(read_design(alloc, &deeper)), (3, 479));
    let deepest = nested(alloc, 1_000_000)?;
    assert_eq!(rt; outcome(read_design(alloc, &deepest)), (3, 479));
    Ok(())
}

#[test]
fn reads_a_design(rt: HostRuntime) -> Result<(), Fail> {
    let alloc = rt.alloc();
    match read_design(alloc, WRONG_WIDTH) {
        Ok(design) => {
            assert_eq!(rt; design.leaves.len(), 1);
            let leaf = design.leaves.at(0);
            assert_eq!(rt; leaf.name.as_slice(), b"r_0".as_slice());
            assert_eq!(rt; leaf.ports.len(), 1);
            assert_eq!(rt; leaf.ports.at(0).high, 1);
            assert_eq!(rt; leaf.items.len(), 1);
            assert!(rt; matches!(leaf.items.at(0), LeafItem::Assign { .. }));
            assert_eq!(rt; design.top.items.len(), 0);
        }
        Err(_) => assert!(rt; false),
    }
    Ok(())
}

/// Each blank twice.
fn doubled(alloc: Global, text: &[u8]) -> Result<Vec<u8>, AllocError> {
    let mut wide = Vec::new(alloc);
    for b in text {
        wide.push(*b)?;
        if *b == 32 || *b == 10 {
            wide.push(*b)?;
        }
    }
    Ok(wide)
}

fn same_ports(a: &Ports, b: &Ports) -> bool {
    a.len() == b.len()
        && a.as_slice().iter().zip(b.as_slice()).all(|(p, q)| {
            p.output == q.output && p.high == q.high && p.name.as_slice() == q.name.as_slice()
        })
}

#[test]
fn blanks_change_nothing(rt: HostRuntime) -> Result<(), Fail> {
    let alloc = rt.alloc();
    let wide = doubled(alloc, DROPS_EVERY_WORD)?;
    let narrow = read_design(alloc, DROPS_EVERY_WORD);
    let wide = read_design(alloc, &wide);
    match (narrow, wide) {
        (Ok(a), Ok(b)) => {
            assert_eq!(rt; a.leaves.len(), 1);
            assert_eq!(rt; b.leaves.len(), 1);
            assert_eq!(rt; a.leaves.at(0).ports.len(), 11);
            assert!(rt; same_ports(&a.leaves.at(0).ports, &b.leaves.at(0).ports));
            assert!(rt; same_ports(&a.top.ports, &b.top.ports));
            assert_eq!(rt; a.leaves.at(0).items.len(), 8);
            assert_eq!(rt; b.leaves.at(0).items.len(), 8);
        }
        _ => assert!(rt; false),
    }
    Ok(())
}

#[test]
fn a_text_that_is_cut_off_is_refused(rt: HostRuntime) {
    let len = DROPS_EVERY_WORD.len();
    for n in 0..len - 1 {
        let (fault, _) = outcome(read_design(rt.alloc(), &DROPS_EVERY_WORD[..n]));
        assert!(rt; fault == 2 || fault == 3);
    }
    let (fault, _) = outcome(read_design(rt.alloc(), &DROPS_EVERY_WORD[..len - 1]));
    assert_eq!(rt; fault, 0);
}
