//! A table by the bits of a net, of the ways to all tiles.

ghost use Rattle.std.specs.Prelude.{◌≡◌, ◌<◌, ◌≤◌, ◌+◌, ◌*◌, ◌^◌, IfOk};
ghost use Rattle.vl_tree.specs.Read.{read};
ghost use Rattle.noc_model.specs.Plan.{tiles, ports};
ghost use Rattle.gen_kit.specs.Mux.{constant_of, are_same, merged};
ghost use Rattle.leaf_tie.specs.Glue.{route_bits};
ghost use Rattle.leaf_parts.specs.Ways.{way_bit, ways_from};

use dor_routes::route;
use gen_kit::{bit, cond, number};
use noc_model::Plan;
use std::alloc::{AllocError, Global};
use vl_tree::{Expr, Name};

// The number of a constant.
fn constant_of(e: &Expr) -> Option<u64>
    ensures { result ≡ constant_of (read e.now) }
{
    match e {
        Expr::Number(k) => Some(k.value),
        _ => None,
    }
}

// One of two expressions by bit `i` of a net; of two equal constants one.
fn merged(alloc: Global, name: &Name, i: u32, high: Expr, low: Expr) -> Result<Expr, AllocError>
    ensures { IfOk result (λ e. read e ≡ merged name.now i (read high) (read low)) }
{
    if are_same(constant_of(&high), constant_of(&low)) {
        Ok(low)
    } else {
        cond(alloc, bit(alloc, name, i)?, high, low)
    }
}

fn are_same(a: Option<u64>, b: Option<u64>) -> bool
    ensures { result ≡ are_same a b }
{
    match (a, b) {
        (Some(x), Some(y)) => x == y,
        _ => false,
    }
}

// The bit of the output by which tile `at` is reached; numbers behind the last tile stand for those from 0 on.
fn way(plan: &Plan, tile: u32, at: u32) -> u64
    requires tile { tile < tiles plan.now }
    ensures value { result ≡ way_bit plan.now tile at }
    ensures few { result < 2 ^ ports plan.now }
{
    plan.known();
    2u64.pow(route(plan, tile, at % plan.tiles()))
}

// The ways to the tiles whose numbers end in the `i` bits of `low`, by the next `count` bits of the net.
fn ways_from(
    alloc: Global,
    plan: &Plan,
    tile: u32,
    name: &Name,
    low: u32,
    i: u32,
    count: u32,
) -> Result<Expr, AllocError>
    requires tile { tile < tiles plan.now }
    requires low { low < 2 ^ i }
    requires bits { i + count ≤ 8 }
    ensures { IfOk result (λ e. read e ≡ ways_from plan.now tile name.now low i count) }
{
    if count == 0 {
        return Ok(number(plan.ports(), way(plan, tile, low)));
    }
    let half = 2u32.pow(i);
    let ones = ways_from(alloc, plan, tile, name, low + half, i + 1, count - 1)?;
    let zeros = ways_from(alloc, plan, tile, name, low, i + 1, count - 1)?;
    let both = merged(alloc, name, i, ones, zeros)?;
    Ok(both)
}

/// The output by which the tile is reached whose number a net of `bits` bits has: one bit for each output.
///
/// # Errors
///
/// Memory ran out.
pub fn route_bits(
    alloc: Global,
    plan: &Plan,
    tile: u32,
    name: &Name,
    bits: u32,
) -> Result<Expr, AllocError>
    requires tile { tile < tiles plan.now }
    requires bits { bits ≤ 8 }
    ensures { IfOk result (λ e. read e ≡ route_bits plan.now tile name.now bits) }
{
    ways_from(alloc, plan, tile, name, 0, 0, bits)
}
