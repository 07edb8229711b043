//! The run of a network, and its events.

ghost use Rattle.std.specs.Prelude.{◌≡◌, ◌<◌, ◌≤◌, ℕ, length, slice_get, filter, ◌==◌, Some, IfOk};
ghost use Rattle.noc_model.specs.Limits.{most_cycles};
ghost use Rattle.noc_model.specs.declared.Event.{Event};
ghost use Rattle.noc_model.specs.declared.Host.{Host};
ghost use Rattle.noc_model.specs.Run.{start};
ghost use Rattle.noc_model.specs.Driver.{driven_events, driven_state, driver_states};
ghost use Rattle.cycle_sim.specs.Net.{Shows};

use crate::Net;
use std::alloc::{AllocError, Global};
use tile_drive::{Drive, Events, Seen, push_seen};

/// The events of the cycles from 0 to `cycles` - 1, of all domains in one list. Those of each domain are the events
/// of a run of this domain alone, and network and driver then stand as after that run. Where memory runs out they
/// stand as after the whole cycles below the network's.
///
/// # Errors
///
/// When memory runs out.
pub fn run<D: Drive>(
    alloc: Global,
    net: &mut Net,
    drive: &mut D,
    cycles: u32,
) -> Result<Events, AllocError>
    requires start { net.old.cycle ≡ 0 }
    requires few { cycles ≤ most_cycles }
    requires count { D.count drive.old ≡ length net.old.plan.hosts }
    ensures plan { net.new.plan ≡ net.old.plan }
    ensures cycle { IfOk result (λ events. net.new.cycle ≡ cycles) }
    ensures most { net.new.cycle ≤ cycles }
    ensures events { IfOk result (λ events. (d : ℕ) → d < length net.old.plan.domains
        → filter (λ (e : Event). e.domain == d) events
        ≡ driven_events net.old.plan d (D.driver drive.old) cycles 0 (start net.old.plan) (D.state drive.old)) }
    ensures states { (d : ℕ) → d < length net.old.plan.domains
        → Shows net.new d (driven_state net.old.plan d (D.driver drive.old) net.new.cycle 0 (start net.old.plan)
        (D.state drive.old)) }
    ensures count { D.count drive.new ≡ D.count drive.old }
    ensures driver { D.driver drive.new ≡ D.driver drive.old }
    ensures attached { (j : ℕ) (h : Host) → slice_get net.old.plan.hosts j ≡ Some h → D.state drive.new j
        ≡ driver_states net.old.plan h.domain (D.driver drive.old) net.new.cycle 0 (start net.old.plan)
        (D.state drive.old) j }
{
    net.known();
    net.plan().known();
    let mut events = Events::new(alloc);
    let mut seen = Seen::new(alloc, net.plan())?;
    for t in 0..cycles {
        net.step(drive, &mut seen);
        push_seen(&mut events, t, net.plan(), &seen)?;
    }
    Ok(events)
}
