//! The network: its tiles, its links, and its cycle.

ghost use Rattle.std.specs.Prelude.{◌≡◌, ◌<◌, ◌+◌, ℕ, length, slice_get, Some, IsSome, IfOk, pos};
ghost use Rattle.noc_model.specs.Limits.{most_cycles};
ghost use Rattle.noc_model.specs.declared.Host.{Host};
ghost use Rattle.noc_model.specs.Plan.{tiles};
ghost use Rattle.noc_model.specs.Place.{neighbour};
ghost use Rattle.noc_model.specs.Shared.{own_places};
ghost use Rattle.noc_model.specs.Run.{State, start, step};
ghost use Rattle.noc_model.specs.Driver.{driven, next_state};
ghost use Rattle.credit_links.specs.Rows.{place_at};
ghost use Rattle.tile_drive.specs.Seen.{seen_at};
ghost use Rattle.router_core.specs.Shown.{Shows as ShowsTile};
ghost use Rattle.router_core.specs.Sizes.{IsMade};
ghost use Rattle.cycle_sim.specs.Attached.{seen_of};
ghost use Rattle.cycle_sim.specs.Links.{row_of};
ghost use Rattle.cycle_sim.specs.Net.{Shows};

use crate::begin::{outs_of, pulses_of, routers_of, rows_of};
use crate::near::Near;
use crate::pulses::keep_all;
use crate::seeing::see_all;
use crate::shift::shift_all;
use crate::tiles::step_tiles;
use crate::wake::{sleep_all, wake_hosts, wake_neighbours};
use credit_links::Pipe;
use noc_model::Plan;
use router_core::{Router, RouterOut};
use std::alloc::{AllocError, Global};
use std::marker::Model;
use tile_drive::{Drive, Seen};
use vc_partition::Lanes;

/// The simulated network.
#[derive(Drop)]
pub struct Net {
    plan: Plan,
    cycle: u32,
    routers: Vec<Router>,
    /// The registers of each link, by tile, then by the port that it leaves by.
    rows: Vec<Pipe>,
    /// Whether each tile is awake: one that isn't has nothing to do, and a cycle leaves it out unless something comes.
    awake: Vec<bool>,
    /// In a cycle, the credit pulses of the last one.
    pulses: Vec<Lanes<Option<u32>>>,
    /// In a cycle, what each tile sends.
    outs: Vec<RouterOut>,
    /// The neighbours of each tile.
    near: Near,
}

impl Model for Net {
    ghost use Rattle.cycle_sim.specs.Net.{Kept};

    ghost Value = { Kept };

    ghost use Rattle.cycle_sim.specs.Net.{kept, IsWhole, HasScratch};
    ghost use Rattle.cycle_sim.specs.Asleep.{AreAsleep};
    ghost use Rattle.cycle_sim.specs.Near.{IsNear};

    ghost view = { λ a. kept a.plan a.cycle a.routers.items a.rows.items };

    ghost invariant = { λ a. IsWhole (kept a.plan a.cycle a.routers.items a.rows.items)
        × HasScratch a.plan a.pulses.items a.outs.items
        × AreAsleep a.plan a.routers.items a.rows.items a.pulses.items a.awake.items
        × IsNear a.plan a.near };
}

impl Net {
    /// The network in cycle 0. All memory is taken here. On an error the plan is dropped.
    ///
    /// # Errors
    ///
    /// When memory runs out.
    pub fn new(alloc: Global, plan: Plan) -> Result<Net, AllocError>
        ensures plan { IfOk result (λ net. net.plan ≡ plan) }
        ensures cycle { IfOk result (λ net. net.cycle ≡ 0) }
        ensures starts { IfOk result (λ net. (d : ℕ) → d < length plan.domains → Shows net d (start plan)) }
    {
        plan.known();
        let routers = routers_of(alloc, &plan)?;
        let rows = rows_of(alloc, &plan)?;
        let awake = vec![in alloc; true; plan.tiles() as usize]?;
        let pulses = pulses_of(alloc, &plan)?;
        let outs = outs_of(alloc, &plan)?;
        let near = Near::new(alloc, &plan)?;
        Ok(Net {
            plan,
            cycle: 0,
            routers,
            rows,
            awake,
            pulses,
            outs,
            near,
        })
    }

    /// The cycle that comes next.
    pub fn cycle(&self) -> u32
        ensures { result ≡ self.now.cycle }
    {
        self.cycle
    }

    /// The plan.
    pub fn plan(&self) -> &Plan
        ensures { result.now ≡ self.now.plan }
    {
        &self.plan
    }

    /// Lets callers' proofs use that a network in cycle 0 is in the start. It does nothing.
    pub fn known(&self)
        ensures { self.now.cycle ≡ 0 → (d : ℕ) → d < length self.now.plan.domains
            → Shows self.now d (start self.now.plan) }
    {
        let _ = &self.plan;
    }

    /// The registers of the link that leaves tile `n` by a port, which has one: place `i` was filled in the cycle
    /// `cycle() - 1 - i`. All domains share them.
    pub fn link(&self, n: u32, port: u32) -> &Pipe
        requires tile { n < tiles self.now.plan }
        requires link { IsSome (neighbour self.now.plan n port) }
        ensures row { result.now ≡ row_of self.now.plan self.now.rows n port }
        ensures places { length result.now ≡ self.now.plan.stages }
        ensures shared { (d i : ℕ) (s : State) → Shows self.now d s → i < self.now.plan.stages
            → (s n).row port i ≡ own_places self.now.plan d n port (pos self.now.cycle) (place_at result.now) i }
    {
        self.plan.known();
        &self.rows[(n * self.plan.ports() + port) as usize]
    }

    /// The router of tile `n`, which shows each domain's state there.
    pub fn router(&self, n: u32) -> &Router
        requires { n < tiles self.now.plan }
        ensures made { IsMade result.now self.now.plan }
        ensures shows { (d : ℕ) (s : State) → Shows self.now d s → ShowsTile result.now self.now.plan d (s n) }
    {
        self.plan.known();
        &self.routers[n as usize]
    }

    /// One cycle: each domain's state goes on as if the domain were alone, the driver is notified of what was taken
    /// and got, and what was seen is kept. Takes no memory.
    pub fn step<D: Drive>(&mut self, drive: &mut D, seen: &mut Seen)
        requires cycle { self.old.cycle < most_cycles }
        requires count { D.count drive.old ≡ length self.old.plan.hosts }
        requires seen { length seen.old ≡ length self.old.plan.hosts }
        ensures plan { self.new.plan ≡ self.old.plan }
        ensures cycle { self.new.cycle ≡ self.old.cycle + 1 }
        ensures steps { (d : ℕ) (s : State) → d < length self.old.plan.domains → Shows self.old d s
            → Shows self.new d (step self.old.plan d (pos self.old.cycle) s
            (driven self.old.plan d (D.driver drive.old) (D.state drive.old) self.old.cycle)) }
        ensures count { D.count drive.new ≡ D.count drive.old }
        ensures driver { D.driver drive.new ≡ D.driver drive.old }
        ensures states { (j : ℕ) (h : Host) (s : State) → slice_get self.old.plan.hosts j ≡ Some h
            → Shows self.old h.domain s
            → D.state drive.new j ≡ next_state self.old.plan h.domain (D.driver drive.old) self.old.cycle s j
            (D.state drive.old j) (Some h) }
        ensures seen_len { length seen.new ≡ length seen.old }
        ensures seen { (j : ℕ) (h : Host) (s : State) → slice_get self.old.plan.hosts j ≡ Some h
            → Shows self.old h.domain s
            → seen_at seen.new j ≡ seen_of self.old.plan (D.driver drive.old) self.old.cycle j (s h.tile)
            (D.state drive.old j) }
    {
        self.plan.known();
        keep_all(&self.plan, &self.awake, &self.routers, &mut self.pulses);
        wake_neighbours(&self.plan, &self.rows, &self.pulses, &mut self.awake);
        wake_hosts(&self.plan, self.cycle, drive, &mut self.awake);
        see_all(
            &self.plan,
            self.cycle,
            &self.awake,
            &mut self.routers,
            drive,
            seen,
        );
        step_tiles(
            &self.plan,
            &self.near,
            self.cycle,
            &self.awake,
            &self.rows,
            &self.pulses,
            &mut self.routers,
            &mut self.outs,
        );
        shift_all(&self.plan, &self.awake, &self.outs, &mut self.rows);
        sleep_all(
            &self.plan,
            self.cycle,
            &self.routers,
            &self.rows,
            &self.pulses,
            &mut self.awake,
        );
        self.cycle += 1;
    }
}
