//! The crossbar of a router: the flits that were granted go to the outputs.
//!
//! [`DomainXbar`] moves, for all domains of a tile, the flit at the front of each granted input to the output's link,
//! with its channel there, or to the domain's ejection place (Dally and Towles, section 16.1). A link that gets no flit
//! gets none. With the grants of the definition a link has what the domain that owns its slot sends. Who is granted
//! is left to the switch, and taking the flits from their buffers to the router.
#![tactic(auto)]

ghost use Rattle.std.specs.Prelude.{◌≡◌, ◌≢◌, ◌<◌, ℕ, ℤ, length, slice_get, Some, IfOk};
ghost use Rattle.noc_model.specs.declared.Grant.{Grant as GrantValue};
ghost use Rattle.noc_model.specs.Plan.{tiles, ports};
ghost use Rattle.noc_model.specs.Tile.{Tile, TileIn};
ghost use Rattle.noc_model.specs.Step.{with_channel};
ghost use Rattle.vc_partition.specs.Lanes.{lane};
ghost use Rattle.domain_xbar.specs.Crossed.{HaveInputs, HavePorts, AreWithin, AreSingle, IsBefore, IsInput, HaveCrossed, IsShown, HaveSent, linked, ejected};

pub mod laws;
#[cfg(test)]
mod tests;

use flit_word::{Flit, LinkFlit};
use noc_model::Plan;
use std::alloc::{AllocError, Global};
use std::marker::Model;
use vc_partition::{Grant, Lanes, place};

/// The crossbar of a tile: how many ports it joins.
#[derive(Drop)]
pub struct DomainXbar {
    ports: u32,
}

impl Model for DomainXbar {
    ghost use Rattle.std.specs.Prelude.{ℕ};

    ghost Value = { ℕ };

    ghost view = { λ a. a.ports };
}

/// A flit with its channel on a link.
fn with_channel(channel: u32, flit: Option<Flit>) -> Option<LinkFlit>
    ensures { result ≡ with_channel channel flit }
{
    match flit {
        Some(flit) => Some(LinkFlit { channel, flit }),
        None => None,
    }
}

impl DomainXbar {
    /// The crossbar of a tile. It is the same for all tiles, and takes no memory.
    ///
    /// # Errors
    ///
    /// None.
    pub fn new(_alloc: Global, plan: &Plan, tile: u32) -> Result<DomainXbar, AllocError>
        requires { tile < tiles plan.now }
        ensures { IfOk result (λ crossbar. crossbar ≡ ports plan.now) }
    {
        Ok(DomainXbar {
            ports: plan.ports(),
        })
    }

    /// Moves the front flits of the granted inputs of all domains: `links` has an entry for each port, and `eject` one
    /// for each domain. Each entry that gets no flit becomes none. No link is granted twice, over all domains, and no
    /// domain's local output.
    pub fn step(
        &self,
        plan: &Plan,
        grants: &Lanes<Option<Grant>>,
        fronts: &Lanes<Option<Flit>>,
        links: &mut [Option<LinkFlit>],
        eject: &mut [Option<Flit>],
    )
        requires made { self.now ≡ ports plan.now }
        requires grants { HavePorts plan.now grants.now }
        requires fronts { HaveInputs plan.now fronts.now }
        requires within { AreWithin plan.now grants.now }
        requires single { AreSingle plan.now grants.now }
        requires links { length links.old ≡ ports plan.now }
        requires eject { length eject.old ≡ length plan.now.domains }
        ensures crossed { HaveCrossed (IsInput plan.now) plan.now grants.now fronts.now links.new eject.new }
        ensures sent { (n : ℕ) (t : ℤ) (s : ℕ → Tile) (i : ℕ → TileIn)
            → IsShown plan.now n t s i grants.now fronts.now → HaveSent plan.now n t s i links.new eject.new }
    {
        clear(links);
        clear(eject);
        for d in 0..plan.domains() {
            self.step_domain(plan, d, grants, fronts, links, eject);
        }
    }

    /// Moves the flits of one domain, after those of the domains below.
    fn step_domain(
        &self,
        plan: &Plan,
        d: u32,
        grants: &Lanes<Option<Grant>>,
        fronts: &Lanes<Option<Flit>>,
        links: &mut [Option<LinkFlit>],
        eject: &mut [Option<Flit>],
    )
        requires made { self.now ≡ ports plan.now }
        requires domain { d < length plan.now.domains }
        requires grants { HavePorts plan.now grants.now }
        requires fronts { HaveInputs plan.now fronts.now }
        requires within { AreWithin plan.now grants.now }
        requires single { AreSingle plan.now grants.now }
        requires links { length links.old ≡ ports plan.now }
        requires eject { length eject.old ≡ length plan.now.domains }
        requires before { HaveCrossed (IsBefore plan.now d 0) plan.now grants.now fronts.now links.old eject.old }
        ensures crossed { HaveCrossed (IsBefore plan.now d (ports plan.now)) plan.now grants.now fronts.now links.new
            eject.new }
        ensures links { length links.new ≡ ports plan.now }
        ensures eject { length eject.new ≡ length plan.now.domains }
    {
        for port in 0..self.ports {
            if let Some(grant) = *grants.at(d, port) {
                let flit = *fronts.at(d, place(plan, d, port, grant.channel));
                pass(d, grant, flit, links, eject);
            }
        }
    }
}

/// Moves a flit to the output that was granted.
fn pass(
    d: u32,
    grant: Grant,
    flit: Option<Flit>,
    links: &mut [Option<LinkFlit>],
    eject: &mut [Option<Flit>],
)
    requires out { grant.out < length links.old }
    requires domain { d < length eject.old }
    ensures links { links.new ≡ linked grant flit links.old }
    ensures eject { eject.new ≡ ejected d grant flit eject.old }
{
    if grant.out == 0 {
        eject[d as usize] = flit;
    } else {
        links[grant.out as usize] = with_channel(grant.to, flit);
    }
}

/// Makes each entry none.
fn clear<T: Copy + Drop>(entries: &mut [Option<T>])
    ensures none { (k : ℕ) → k < length entries.old → slice_get entries.new k ≡ Some None }
    ensures count { length entries.new ≡ length entries.old }
{
    for k in 0..entries.len() {
        entries[k] = None;
    }
}
