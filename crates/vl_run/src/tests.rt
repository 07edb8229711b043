//! A counter and a memory, run by hand.

use crate::Machine;
use std::alloc::{AllocError, Global};
use std::test::Fail;
use vl_read::read_design;
use vl_rules::{Sound, rules};

/// A counter of two bits that steps when it is fed a 1, and a memory of two words that is read and written at the lower
/// bit.
const COUNTS: &[u8] =
    b"module r_0 (input wire clk, input wire rst, input wire [0:0] a_0, output wire [1:0] q_0,
  output wire [3:0] w_0);
  reg [1:0] s_0;
  reg [1:0] m_0 [0:1];
  assign q_0 = s_0;
  assign w_0 = {m_0[s_0[0]], (s_0[1] ? (~s_0) : (s_0 - 2'd1))};
  always @(posedge clk) if (rst) s_0 <= 2'd2; else s_0 <= (s_0 + {1'd0, a_0});
  always @(posedge clk) if ((s_0 < 2'd3)) m_0[s_0[0]] <= (s_0 ^ 2'd1);
endmodule
module noc (input wire clk, input wire rst, input wire [0:0] a_0, output wire [1:0] q_0, output wire [3:0] w_0);
  r_0 u_0 (.clk(clk), .rst(rst), .a_0(a_0), .q_0(q_0), .w_0(w_0));
endmodule
";

fn sound(alloc: Global) -> Result<Sound, AllocError> {
    let Ok(design) = read_design(alloc, COUNTS) else {
        return Err(AllocError);
    };
    if !design.plain() {
        return Err(AllocError);
    }
    match rules(alloc, design) {
        Ok(sound) => Ok(sound),
        Err(_) => Err(AllocError),
    }
}

#[test]
fn counter_and_memory_run(rt: HostRuntime) -> Result<(), Fail> {
    let mut machine = Machine::new(rt.alloc(), sound(rt.alloc())?)?;
    // The count, the memory's word with what stands behind it, and what is fed.
    for (count, word, fed) in [
        (2, 0b0001, 1),
        (3, 0b0000, 1),
        (0, 0b1111, 0),
        (0, 0b0111, 1),
        (1, 0b0000, 1),
        (2, 0b0101, 0),
    ] {
        assert_eq!(rt; machine.outputs(1), count);
        assert_eq!(rt; machine.outputs(2), word);
        machine.edge(&[fed]);
    }
    Ok(())
}

#[test]
fn a_memory_shows_the_word_that_is_put(rt: HostRuntime) -> Result<(), Fail> {
    let mut machine = Machine::new(rt.alloc(), sound(rt.alloc())?)?;
    // The register is 2 at reset, so word 0 is shown, with the complement of 2 behind it.
    machine.put_mem(0, 0, 0, 3);
    assert_eq!(rt; machine.outputs(2), 0b1101);
    machine.put_mem(0, 0, 1, 2);
    assert_eq!(rt; machine.outputs(2), 0b1101);
    Ok(())
}
