//! Texts for one tile, whose events are worked out by the rules of the text alone.

use super::{ports_fit, replay};
use noc_model::{Kind, Plan};
use std::alloc::Global;
use std::test::Fail;
use tile_drive::{Events, TraceDrive};
use trace_read::read_trace;
use vl_read::read_design;
use vl_rules::{Sound, rules};
use vl_tree::TextFault;
use worked_plans::{one_tile, two_tiles};

const PORTS: &str =
    "(input wire clk, input wire rst, input wire [0:0] ov_0_0, input wire [31:0] oa_0_0,\n\
input wire [31:0] op_0_0, input wire [0:0] ol_0_0, input wire [0:0] hr_0_0, output wire [0:0] rd_0_0,\n\
output wire [0:0] dr_0_0, output wire [0:0] ev_0_0, output wire [0:0] eh_0_0, output wire [0:0] et_0_0,\n\
output wire [31:0] ep_0_0);\n";

/// It takes each word, and drops it in the cycle after.
const DROPS: &str =
    "reg [0:0] s_0; assign rd_0_0 = 1'd1; assign dr_0_0 = s_0; assign ev_0_0 = 1'd0;\n\
assign eh_0_0 = 1'd0; assign et_0_0 = 1'd0; assign ep_0_0 = 32'd0;\n\
always @(posedge clk) if (rst) s_0 <= 1'd0; else s_0 <= ov_0_0;\n";

/// It keeps one word, and gives it back as a head until it is heard.
const ECHOES: &str = "reg [0:0] v_0; reg [0:0] l_0; reg [31:0] p_0; assign rd_0_0 = (~v_0);\n\
assign dr_0_0 = 1'd0; assign ev_0_0 = v_0; assign eh_0_0 = v_0; assign et_0_0 = l_0; assign ep_0_0 = p_0;\n\
always @(posedge clk) if (rst) v_0 <= 1'd0; else v_0 <= (v_0 ? (~hr_0_0) : ov_0_0);\n\
always @(posedge clk) if (rst) l_0 <= 1'd0; else l_0 <= (v_0 ? l_0 : ol_0_0);\n\
always @(posedge clk) if (rst) p_0 <= 32'd0; else p_0 <= (v_0 ? p_0 : op_0_0);\n";

const JOINS: &str =
    "router_0 tile_0 (.clk(clk), .rst(rst), .ov_0_0(ov_0_0), .oa_0_0(oa_0_0), .op_0_0(op_0_0),\n\
.ol_0_0(ol_0_0), .hr_0_0(hr_0_0), .rd_0_0(rd_0_0), .dr_0_0(dr_0_0), .ev_0_0(ev_0_0), .eh_0_0(eh_0_0),\n\
.et_0_0(et_0_0), .ep_0_0(ep_0_0)); endmodule\n";

/// The design of a text with one leaf of these items.
fn one_leaf(alloc: Global, items: &str) -> Result<Sound, Fail> {
    let mut text = String::from_str(alloc, "module router_0 ")?;
    text.push_str(PORTS)?;
    text.push_str(items)?;
    text.push_str("endmodule module noc ")?;
    text.push_str(PORTS)?;
    text.push_str(JOINS)?;
    Ok(rules(alloc, read_design(alloc, text.as_bytes())?)?)
}

/// The events, each as a line.
fn printed(alloc: Global, events: &Events) -> Result<String, Fail> {
    let mut text = String::new(alloc);
    for i in 0..events.len() {
        let t = events.at(i).cycle;
        let line = match events.at(i).kind {
            Kind::Take { payload } => format!(in alloc; "{t} take {payload}\n")?,
            Kind::Wait { payload } => format!(in alloc; "{t} wait {payload}\n")?,
            Kind::Drop => format!(in alloc; "{t} drop\n")?,
            Kind::Got { flit } => {
                let payload = flit.payload;
                let head = if flit.head { " head" } else { "" };
                let tail = if flit.tail { " tail" } else { "" };
                format!(in alloc; "{t} got {payload}{head}{tail}\n")?
            }
        };
        text.push_str(line.as_str())?;
    }
    Ok(text)
}

/// The events of a text of these items that a trace drives.
fn replayed(alloc: Global, plan: &Plan, items: &str, trace: &[u8]) -> Result<String, Fail> {
    let sound = one_leaf(alloc, items)?;
    ports_fit(plan, &sound)?;
    let mut drive = TraceDrive::new(alloc, plan, &read_trace(alloc, plan, trace)?)?;
    let events = replay(alloc, plan, sound, &mut drive, 6)?;
    printed(alloc, &events)
}

#[test]
fn a_text_shows_its_events(rt: HostRuntime) -> Result<(), Fail> {
    let alloc = rt.alloc();
    let plan = one_tile(alloc)?;
    let rows: [(&str, &[u8], &str); 2] = [
        (DROPS, b"0 0 a send 10 42\n", "0 take 66\n1 drop\n"),
        (
            ECHOES,
            b"0 0 a hold 2\n0 0 a send 10 7 8\n",
            "0 take 7\n1 wait 8\n2 wait 8\n2 got 7 head\n3 take 8\n4 got 8 head tail\n",
        ),
    ];
    for (items, trace, events) in rows {
        let got = replayed(alloc, &plan, items, trace)?;
        assert_eq!(&rt; got.as_str(), events);
    }
    Ok(())
}

#[test]
fn other_ports_do_not_fit(rt: HostRuntime) -> Result<(), Fail> {
    let alloc = rt.alloc();
    let sound = one_leaf(alloc, DROPS)?;
    match ports_fit(&two_tiles(alloc)?, &sound) {
        Err(TextFault::Ports(position)) => assert_eq!(&rt; position, 11),
        _ => assert!(&rt; false),
    }
    Ok(())
}
