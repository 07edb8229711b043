//! Texts of one leaf, whose labels are worked out by hand.
ghost use Rattle.std.specs.Prelude.{◌≡◌, None, IfOk};
ghost use Rattle.vl_tree.specs.Read.{read_design};
ghost use Rattle.vl_rules.specs.Answer.{design_of};
ghost use Rattle.gen_kit.specs.Ports.{ports_fault};

use super::{Verdict, audit};
use gen_kit::first_other_port;
use noc_model::Plan;
use std::alloc::{AllocError, Global};
use std::test::Fail;
use vl_read::read_design;
use vl_rules::{Sound, rules};
use worked_plans::{one_tile, split_domains};

/// The ports of an attachment, behind the underscore of which `@` stands for tile and domain.
const PORTS: &str =
    ", input wire [0:0] ov@, input wire [31:0] oa@, input wire [31:0] op@, input wire [0:0] ol@,\n\
input wire [0:0] hr@, output wire [0:0] rd@, output wire [0:0] dr@, output wire [0:0] ev@, output wire [0:0] eh@,\n\
output wire [0:0] et@, output wire [31:0] ep@";

/// Their joins.
const JOINS: &str =
    ", .ov@(ov@), .oa@(oa@), .op@(op@), .ol@(ol@), .hr@(hr@), .rd@(rd@), .dr@(dr@), .ev@(ev@),\n\
.eh@(eh@), .et@(et@), .ep@(ep@)";

/// What the outputs of an attachment show that takes each word and gives back none, but the drop pulse.
const SILENT: &str =
    "assign rd@ = 1'd1; assign ev@ = 1'd0; assign eh@ = 1'd0; assign et@ = 1'd0; assign ep@ = 32'd0;\n";

/// The attachments of the plan of one domain, and of that of two.
const ONE: [&str; 1] = ["_0_0"];

const TWO: [&str; 2] = ["_0_0", "_1_1"];

/// Adds the text for each attachment, with its numbers.
fn push_each(text: &mut String, form: &str, attachments: &[&str]) -> Result<(), Fail> {
    for numbers in attachments {
        for (i, part) in form.split("@").enumerate() {
            if 0 < i {
                text.push_str(numbers)?;
            }
            text.push_str(part)?;
        }
    }
    Ok(())
}

/// The design of a text with one leaf of these items.
fn one_leaf(alloc: Global, attachments: &[&str], items: &str) -> Result<Sound, Fail> {
    let mut text = String::from_str(alloc, "module router_0 (input wire clk, input wire rst")?;
    push_each(&mut text, PORTS, attachments)?;
    text.push_str(");\n")?;
    text.push_str(items)?;
    push_each(&mut text, SILENT, attachments)?;
    text.push_str("endmodule\nmodule noc (input wire clk, input wire rst")?;
    push_each(&mut text, PORTS, attachments)?;
    text.push_str(");\nrouter_0 tile_0 (.clk(clk), .rst(rst)")?;
    push_each(&mut text, JOINS, attachments)?;
    text.push_str(");\nendmodule\n")?;
    Ok(rules(alloc, read_design(alloc, text.as_bytes())?)?)
}

/// Every word is dropped in the cycle after.
const DROPS: &str = "reg [0:0] s_0; assign dr_0_0 = s_0;
always @(posedge clk) if (rst) s_0 <= 1'd0; else s_0 <= ov_0_0;\n";

/// The pulse of the first domain shows the offers of the second.
const LEAKS: &str = "reg [0:0] s_0; assign dr_0_0 = s_0; assign dr_1_1 = 1'd0;
always @(posedge clk) if (rst) s_0 <= 1'd0; else s_0 <= ov_1_1;\n";

/// The domains share a register by turns, and each pulse shows it in its own turn.
const TURNS: &str =
    "reg [0:0] s_0; reg [0:0] c_0; assign dr_0_0 = (c_0 & s_0); assign dr_1_1 = ((~c_0) & s_0);
always @(posedge clk) if (rst) s_0 <= 1'd0; else s_0 <= (c_0 ? ov_1_1 : ov_0_0);
always @(posedge clk) if (rst) c_0 <= 1'd0; else c_0 <= (~c_0);\n";

/// The first pulse shows the register in all cycles.
const OUT_OF_TURN: &str =
    "reg [0:0] s_0; reg [0:0] c_0; assign dr_0_0 = s_0; assign dr_1_1 = ((~c_0) & s_0);
always @(posedge clk) if (rst) s_0 <= 1'd0; else s_0 <= (c_0 ? ov_1_1 : ov_0_0);
always @(posedge clk) if (rst) c_0 <= 1'd0; else c_0 <= (~c_0);\n";

/// A memory that only the second domain writes, at an index of the first domain, and that the second reads.
const INDEX: &str = "reg [0:0] s_0; reg [0:0] m_0 [0:1]; assign dr_0_0 = 1'd0; assign dr_1_1 = s_0;
always @(posedge clk) if (rst) s_0 <= 1'd0; else s_0 <= m_0[ov_1_1];
always @(posedge clk) if (ov_1_1) m_0[ov_0_0] <= ol_1_1;\n";

/// What is told apart is one bit of a sum of both domains' bits, behind a chain of registers.
const CHAIN: &str =
    "reg [0:0] s_0; reg [1:0] s_1; reg [0:0] s_2; assign dr_0_0 = 1'd0; assign dr_1_1 = s_2;
always @(posedge clk) if (rst) s_0 <= 1'd0; else s_0 <= ov_0_0;
always @(posedge clk) if (rst) s_1 <= 2'd0; else s_1 <= ({1'd0, s_0} + {1'd0, ov_1_1});
always @(posedge clk) if (rst) s_2 <= 1'd0; else s_2 <= s_1[1];\n";

fn leak(port: u32, phase: u32, foreign: u32) -> Verdict {
    Verdict::Leak {
        port,
        phase,
        foreign,
    }
}

/// The ports are those of the plan's text.
#[tactic(auto, unfolding(gen_kit::specs::Ports::ports_fault))]
fn fit(plan: &Plan, sound: &Sound) -> Result<(), AllocError>
    ensures { IfOk result (λ u. ports_fault plan.now (read_design (design_of sound.now)) ≡ None) }
{
    match first_other_port(plan, sound.design().top.ports.as_slice()) {
        Some(_) => Err(AllocError),
        None => Ok(()),
    }
}

/// The verdict on a text of these items.
fn judged(alloc: Global, plan: &Plan, attachments: &[&str], items: &str) -> Result<Verdict, Fail> {
    let sound = one_leaf(alloc, attachments, items)?;
    fit(plan, &sound)?;
    Ok(audit(alloc, plan, &sound)?)
}

#[test]
fn texts_are_judged(rt: HostRuntime) -> Result<(), Fail> {
    let alloc = rt.alloc();
    let alone = judged(alloc, &one_tile(alloc)?, &ONE, DROPS)?;
    assert_eq!(&rt; alone, Verdict::Clean);
    let plan = split_domains(alloc)?;
    for (items, verdict) in [
        (LEAKS, leak(6, 0, 1)),
        (TURNS, Verdict::Clean),
        (OUT_OF_TURN, leak(6, 0, 1)),
        (INDEX, leak(17, 0, 0)),
        (CHAIN, leak(17, 0, 0)),
    ] {
        assert_eq!(&rt; judged(alloc, &plan, &TWO, items)?, verdict);
    }
    Ok(())
}
