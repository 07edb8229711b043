//! The wires of the top: for each link one bundle for the flits of all domains, and one or two for their credits.

ghost use Rattle.std.specs.Prelude.{◌≡◌, ◌<◌, ◌≤◌, ◌-◌, ◌++◌, ◌∷◌, [], OnOk};
ghost use Rattle.vl_tree.specs.declared.tree.TopItem.TheVariants.{Wire};
ghost use Rattle.noc_model.specs.Plan.{tiles, ports};
ghost use Rattle.noc_model.specs.Place.{neighbour};
ghost use Rattle.gen_kit.specs.Ports.{name_with};
ghost use Rattle.gen_kit.specs.Shape.{credit_bits, link_wires, tile_wires};
ghost use Rattle.gen_top.specs.Joined.{more_wires};

use flit_word::link_bits;
use gen_kit::name_of;
use noc_model::Plan;
use std::alloc::{AllocError, Global};
use vl_tree::{TopItem, TopItems};

/// The credits of a link: one for each of its channels, of all domains.
pub fn credit_bits(plan: &Plan) -> u32
    ensures value { result ≡ credit_bits plan.now }
    ensures some { 1 ≤ result }
    ensures few { result ≤ 128 }
{
    plan.known();
    let mut bits = 0;
    for d in 0..plan.domains() {
        bits += plan.link_channels(d);
    }
    bits
}

/// Adds a bundle of so many wires.
fn wire(
    alloc: Global,
    head: &[u8],
    numbers: &[u32],
    bits: u32,
    items: &mut TopItems,
) -> Result<(), AllocError>
    requires { 1 ≤ bits }
    ensures { OnOk result (items.new ≡ items.old ++ Wire (bits - 1) (name_with head.now numbers.now) ∷ []) }
{
    items.push(TopItem::Wire {
        high: bits - 1,
        name: name_of(alloc, head, numbers)?,
    })
}

/// The wires for the credits behind the first 64.
fn more_wires(
    alloc: Global,
    plan: &Plan,
    tile: u32,
    port: u32,
    items: &mut TopItems,
) -> Result<(), AllocError>
    ensures { OnOk result (items.new ≡ items.old ++ more_wires plan.now tile port) }
{
    let credits = credit_bits(plan);
    if credits <= 64 {
        return Ok(());
    }
    wire(alloc, b"cw", &[tile, port, 1], credits - 64, items)
}

/// The wires for the link that leaves a tile by a port, where there is one.
fn link_wires(
    alloc: Global,
    plan: &Plan,
    tile: u32,
    port: u32,
    items: &mut TopItems,
) -> Result<(), AllocError>
    requires tile { tile < tiles plan.now }
    requires port { port < ports plan.now }
    ensures { OnOk result (items.new
        ≡ items.old ++ link_wires plan.now tile port (neighbour plan.now tile port)) }
{
    let Some(_) = plan.neighbour(tile, port) else {
        return Ok(());
    };
    wire(alloc, b"lw", &[tile, port], link_bits(plan), items)?;
    let first = credit_bits(plan).min(64);
    wire(alloc, b"cw", &[tile, port], first, items)?;
    more_wires(alloc, plan, tile, port, items)
}

/// Adds the wires for all links that leave a tile.
///
/// # Errors
///
/// Memory ran out.
pub fn tile_wires(
    alloc: Global,
    plan: &Plan,
    tile: u32,
    items: &mut TopItems,
) -> Result<(), AllocError>
    requires { tile < tiles plan.now }
    ensures { OnOk result (items.new ≡ items.old ++ tile_wires plan.now tile) }
{
    for port in 0..plan.ports() {
        link_wires(alloc, plan, tile, port, items)?;
    }
    Ok(())
}
