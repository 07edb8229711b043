//! The table of routes: a line for each way from a tile to a tile.

ghost use Rattle.std.specs.Prelude.{◌<◌};
ghost use Rattle.surf_base.specs.Block.{Writes, stream};
ghost use Rattle.noc_model.specs.Plan.{tiles};
ghost use Rattle.surf_cli.specs.Routes.{route_line, route_text, routes_from, routes_text};

use crate::table::put_field;
use dor_routes::{class_after, route};
use noc_model::Plan;
use surf_base::{Block, Failed, Sink};

/// Puts a line.
fn put_line<O: Sink>(
    block: &mut Block,
    out: &mut O,
    tile: u32,
    dest: u32,
    port: u32,
    class: u32,
) -> Result<(), Failed>
    ensures { Writes result (stream (O.written out.old) block.old (O.faults out.old))
        (stream (O.written out.new) block.new (O.faults out.new)) (route_line tile dest port class) }
{
    put_field(block, out, tile)?;
    put_field(block, out, dest)?;
    put_field(block, out, port)?;
    block.put_number_then(out, u64::from(class), b'\n')
}

/// Puts the line of the way from a tile to a tile.
fn put_route<O: Sink>(
    block: &mut Block,
    out: &mut O,
    plan: &Plan,
    tile: u32,
    dest: u32,
) -> Result<(), Failed>
    requires tile { tile < tiles plan.now }
    requires dest { dest < tiles plan.now }
    ensures { Writes result (stream (O.written out.old) block.old (O.faults out.old))
        (stream (O.written out.new) block.new (O.faults out.new)) (route_text plan.now tile dest) }
{
    plan.known();
    let port = route(plan, tile, dest);
    let class = class_after(plan, tile, 0, 0, port);
    put_line(block, out, tile, dest, port, class)
}

/// Puts the lines of the ways from a tile.
fn put_routes_from<O: Sink>(
    block: &mut Block,
    out: &mut O,
    plan: &Plan,
    tile: u32,
) -> Result<(), Failed>
    requires { tile < tiles plan.now }
    ensures { Writes result (stream (O.written out.old) block.old (O.faults out.old))
        (stream (O.written out.new) block.new (O.faults out.new)) (routes_from plan.now tile) }
{
    for dest in 0..plan.tiles() {
        put_route(block, out, plan, tile, dest)?;
    }
    Ok(())
}

/// Puts the table of routes.
pub(crate) fn put_routes<O: Sink>(block: &mut Block, out: &mut O, plan: &Plan) -> Result<(), Failed>
    ensures { Writes result (stream (O.written out.old) block.old (O.faults out.old))
        (stream (O.written out.new) block.new (O.faults out.new)) (routes_text plan.now) }
{
    for tile in 0..plan.tiles() {
        put_routes_from(block, out, plan, tile)?;
    }
    Ok(())
}
