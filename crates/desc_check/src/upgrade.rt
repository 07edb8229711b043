//! The draft of version 2 that says a plan.

ghost use Rattle.std.specs.Prelude.{◌≡◌, ◌<◌, ℕ, length, map, pos, IfOk, None};
ghost use Rattle.noc_model.specs.Plan.{Plan as PlanValue, tiles, name_of};
ghost use Rattle.noc_desc.specs.Document.{AreTexts};
ghost use Rattle.desc_check.specs.Network.{plan_of_draft};
ghost use Rattle.desc_check.specs.Accepted.{first_fault};
ghost use Rattle.desc_check.specs.Upgrade.{hosted_by, tile_of, hosting, domain_draft, range_draft, shape_of, upgrade_of};

use noc_desc::{
    Draft, DraftDomain, DraftDomains, DraftRange, DraftRanges, DraftTile, DraftTiles, Names, Nums,
};
use noc_model::Plan;
use std::alloc::{AllocError, Global};
use surf_base::Bytes;

/// The word for the shape.
fn shape_of(alloc: Global, plan: &Plan) -> Result<Bytes, AllocError>
    ensures { IfOk result (λ shape. shape ≡ shape_of plan.now) }
{
    if plan.torus() {
        Bytes::from_slice(alloc, b"torus")
    } else {
        Bytes::from_slice(alloc, b"mesh")
    }
}

/// The sides.
fn dims_of(alloc: Global, plan: &Plan) -> Result<Nums, AllocError>
    ensures { IfOk result (λ dims. dims ≡ map (λ k. pos k) plan.now.dims) }
{
    let mut dims = Nums::new(alloc);
    for i in 0..plan.dims() {
        dims.push(i64::from(plan.side(i)))?;
    }
    Ok(dims)
}

/// The domains.
fn domains_of(alloc: Global, plan: &Plan) -> Result<DraftDomains, AllocError>
    ensures { IfOk result (λ domains. domains ≡ map domain_draft plan.now.domains) }
{
    let mut domains = DraftDomains::new(alloc);
    for d in 0..plan.domains() {
        let name = Bytes::from_slice(alloc, plan.name(d))?;
        let channels = i64::from(plan.channels(d));
        domains.push(DraftDomain { name, channels })?;
    }
    Ok(domains)
}

/// The names of the domains that a tile hosts.
fn hosted_by(alloc: Global, plan: &Plan, tile: u32) -> Result<Names, AllocError>
    ensures { IfOk result (λ names. names ≡ map (name_of plan.now) (hosted_by plan.now tile)) }
{
    let mut names = Names::new(alloc);
    for d in 0..plan.domains() {
        if plan.hosts(tile, d) {
            names.push(Bytes::from_slice(alloc, plan.name(d))?)?;
        }
    }
    Ok(names)
}

/// The tiles that host a domain.
fn tiles_of(alloc: Global, plan: &Plan) -> Result<DraftTiles, AllocError>
    ensures { IfOk result (λ found. found ≡ map (tile_of plan.now) (hosting plan.now)) }
{
    let mut found = DraftTiles::new(alloc);
    for tile in 0..plan.tiles() {
        let domains = hosted_by(alloc, plan, tile)?;
        if domains.len() != 0 {
            let at = i64::from(tile);
            found.push(DraftTile { at, domains })?;
        }
    }
    Ok(found)
}

/// The ranges.
fn ranges_of(alloc: Global, plan: &Plan) -> Result<DraftRanges, AllocError>
    ensures { IfOk result (λ ranges. ranges ≡ map range_draft plan.now.ranges) }
{
    let mut ranges = DraftRanges::new(alloc);
    for i in 0..plan.range_count() {
        let range = plan.range(i);
        ranges.push(DraftRange {
            tile: i64::from(range.tile),
            first: i64::from(range.first),
            last: i64::from(range.last),
        })?;
    }
    Ok(ranges)
}

/// The names of the slots' owners.
fn slots_of(alloc: Global, plan: &Plan) -> Result<Names, AllocError>
    ensures { IfOk result (λ names. names ≡ map (name_of plan.now) plan.now.slots) }
{
    let mut names = Names::new(alloc);
    for i in 0..plan.slots() {
        names.push(Bytes::from_slice(alloc, plan.name(plan.slot(i)))?)?;
    }
    Ok(names)
}

/// The values of the draft.
fn values_of(alloc: Global, plan: &Plan) -> Result<Draft, AllocError>
    ensures { IfOk result (λ draft. draft ≡ upgrade_of plan.now) }
{
    Ok(Draft {
        version: 2,
        shape: shape_of(alloc, plan)?,
        dims: dims_of(alloc, plan)?,
        stages: i64::from(plan.stages()),
        buffer: i64::from(plan.buffer()),
        domains: domains_of(alloc, plan)?,
        tiles: tiles_of(alloc, plan)?,
        ranges: ranges_of(alloc, plan)?,
        slots: slots_of(alloc, plan)?,
    })
}

/// The draft of version 2 that says the plan: its tiles are those that host a domain, its slots the plan's, in order.
/// So to upgrade a description is harmless: the draft is accepted, and its plan is the same plan.
///
/// # Errors
///
/// `AllocError`, when memory runs out.
pub fn draft_of(alloc: Global, plan: &Plan) -> Result<Draft, AllocError>
    ensures value { IfOk result (λ draft. draft ≡ upgrade_of plan.now) }
    ensures texts { IfOk result AreTexts }
    ensures accepted { IfOk result (λ draft. first_fault draft ≡ None) }
    ensures same_plan { IfOk result (λ draft. plan_of_draft draft ≡ plan.now) }
{
    plan.known();
    values_of(alloc, plan)
}
