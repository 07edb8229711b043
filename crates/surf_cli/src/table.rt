//! The owner table: a line for each link in each cycle.

ghost use Rattle.std.specs.Prelude.{◌<◌};
ghost use Rattle.surf_base.specs.Block.{Writes, stream};
ghost use Rattle.noc_model.specs.Plan.{tiles, ports};
ghost use Rattle.wave_sched.specs.Wheels.{Stands};
ghost use Rattle.surf_cli.specs.Turning.{AllStand};
ghost use Rattle.surf_cli.specs.Texts.{field};
ghost use Rattle.surf_cli.specs.Schedule.{link_line, port_text, tile_text, cycle_text, schedule_text};

use crate::turning::tick_all;
use noc_model::Plan;
use surf_base::{Block, Failed, Sink};
use wave_sched::Wheel;

/// Puts a number in decimal, and a blank.
pub(crate) fn put_field<O: Sink>(block: &mut Block, out: &mut O, value: u32) -> Result<(), Failed>
    ensures { Writes result (stream (O.written out.old) block.old (O.faults out.old))
        (stream (O.written out.new) block.new (O.faults out.new)) (field value) }
{
    block.put_number_then(out, u64::from(value), b' ')
}

/// Puts a line.
fn put_line<O: Sink>(
    block: &mut Block,
    out: &mut O,
    cycle: u32,
    tile: u32,
    port: u32,
    name: &[u8],
) -> Result<(), Failed>
    ensures { Writes result (stream (O.written out.old) block.old (O.faults out.old))
        (stream (O.written out.new) block.new (O.faults out.new)) (link_line cycle tile port name.now) }
{
    put_field(block, out, cycle)?;
    put_field(block, out, tile)?;
    put_field(block, out, port)?;
    block.put(out, name)?;
    block.put(out, b"\n")
}

/// Puts the line of a port, if it has a link.
fn put_port<O: Sink>(
    block: &mut Block,
    out: &mut O,
    plan: &Plan,
    wheel: &Wheel,
    cycle: u32,
    tile: u32,
    port: u32,
) -> Result<(), Failed>
    requires tile { tile < tiles plan.now }
    requires port { port < ports plan.now }
    requires wheel { Stands wheel.now plan.now tile cycle }
    ensures { Writes result (stream (O.written out.old) block.old (O.faults out.old))
        (stream (O.written out.new) block.new (O.faults out.new)) (port_text plan.now cycle tile port) }
{
    match plan.neighbour(tile, port) {
        Some(_) => {
            let domain = wheel.leaving(port);
            put_line(block, out, cycle, tile, port, plan.name(domain))
        }
        None => Ok(()),
    }
}

/// Puts the lines of a tile in a cycle.
fn put_tile<O: Sink>(
    block: &mut Block,
    out: &mut O,
    plan: &Plan,
    wheel: &Wheel,
    cycle: u32,
    tile: u32,
) -> Result<(), Failed>
    requires tile { tile < tiles plan.now }
    requires wheel { Stands wheel.now plan.now tile cycle }
    ensures { Writes result (stream (O.written out.old) block.old (O.faults out.old))
        (stream (O.written out.new) block.new (O.faults out.new)) (tile_text plan.now cycle tile) }
{
    plan.known();
    for port in 0..1 + 2 * plan.dims() {
        put_port(block, out, plan, wheel, cycle, tile, port)?;
    }
    Ok(())
}

/// Puts the lines of a cycle.
fn put_cycle<O: Sink>(
    block: &mut Block,
    out: &mut O,
    plan: &Plan,
    wheels: &[Wheel],
    cycle: u32,
) -> Result<(), Failed>
    requires { AllStand wheels.now plan.now cycle }
    ensures { Writes result (stream (O.written out.old) block.old (O.faults out.old))
        (stream (O.written out.new) block.new (O.faults out.new)) (cycle_text plan.now cycle) }
{
    for tile in 0..plan.tiles() {
        put_tile(block, out, plan, &wheels[tile as usize], cycle, tile)?;
    }
    Ok(())
}

/// Puts the owner table of the cycles from 0 on, in which the wheels stand.
pub(crate) fn put_schedule<O: Sink>(
    block: &mut Block,
    out: &mut O,
    plan: &Plan,
    wheels: &mut [Wheel],
    cycles: u32,
) -> Result<(), Failed>
    requires { AllStand wheels.old plan.now 0 }
    ensures { Writes result (stream (O.written out.old) block.old (O.faults out.old))
        (stream (O.written out.new) block.new (O.faults out.new)) (schedule_text plan.now cycles) }
{
    for cycle in 0..cycles {
        put_cycle(block, out, plan, wheels, cycle)?;
        tick_all(wheels);
    }
    Ok(())
}
