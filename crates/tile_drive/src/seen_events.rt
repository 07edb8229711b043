//! What is seen in a cycle, as events.

ghost use Rattle.std.specs.Prelude.{◌≡◌, ◌<◌, ◌≤◌, ◌++◌, true, length, OnOk};
ghost use Rattle.noc_model.specs.declared.Event.{Event};
ghost use Rattle.noc_model.specs.declared.Kind.TheVariants.{Take, Drop};
ghost use Rattle.noc_model.specs.Events.{offer_events, drop_events, got_events};
ghost use Rattle.tile_drive.specs.Order.{MayFollow};
ghost use Rattle.tile_drive.specs.Seen.{seen_at};
ghost use Rattle.tile_drive.specs.SeenEvents.{event_at, IsLater, seen_events, events_seen};

use crate::{Events, Seen};
use flit_word::{Ejected, Offer};
use noc_model::{Event, Host, Kind, Plan};
use std::alloc::AllocError;

/// An event of the attachment in cycle `t`.
fn event_at(t: u32, host: Host, kind: Kind) -> Event
    ensures { result ≡ event_at t host kind }
{
    Event {
        cycle: t,
        tile: host.tile,
        domain: host.domain,
        kind,
    }
}

/// Adds the take or the wait of a word that is offered.
fn push_offer(
    events: &mut Events,
    t: u32,
    host: Host,
    ready: bool,
    offered: Option<Offer>,
) -> Result<(), AllocError>
    requires { MayFollow events.old (event_at t host (Take 0)) }
    ensures ok { OnOk result (events.new ≡ events.old ++ offer_events t host.tile host.domain ready offered) }
    ensures follows { OnOk result (MayFollow events.new (event_at t host Drop)) }
{
    if let Some(word) = offered {
        let payload = word.payload;
        let kind = if ready {
            Kind::Take { payload }
        } else {
            Kind::Wait { payload }
        };
        events.push(event_at(t, host, kind))?;
    }
    Ok(())
}

/// Adds the drop pulse.
fn push_drop(events: &mut Events, t: u32, host: Host, dropped: bool) -> Result<(), AllocError>
    requires { MayFollow events.old (event_at t host Drop) }
    ensures ok { OnOk result (events.new ≡ events.old ++ drop_events t host.tile host.domain dropped) }
    ensures follows { OnOk result (MayFollow events.new (event_at t host Drop)) }
{
    if dropped {
        events.push(event_at(t, host, Kind::Drop))?;
    }
    Ok(())
}

/// Adds a flit that is heard.
fn push_got(events: &mut Events, t: u32, host: Host, got: Option<Ejected>) -> Result<(), AllocError>
    requires { MayFollow events.old (event_at t host Drop) }
    ensures ok { OnOk result (events.new ≡ events.old ++ got_events t host.tile host.domain true got) }
    ensures follows { OnOk result ((f : Event) → IsLater t host f → MayFollow events.new f) }
{
    if let Some(flit) = got {
        events.push(event_at(t, host, Kind::Got { flit }))?;
    }
    Ok(())
}

/// Adds what is seen at attachment `j`.
fn push_attached(
    events: &mut Events,
    t: u32,
    host: Host,
    j: u32,
    seen: &Seen,
) -> Result<(), AllocError>
    requires there { j < length seen.now }
    requires follows { MayFollow events.old (event_at t host (Take 0)) }
    ensures ok { OnOk result (events.new ≡ events.old ++ seen_events t host (seen_at seen.now j)) }
    ensures follows { OnOk result ((f : Event) → IsLater t host f → MayFollow events.new f) }
{
    push_offer(events, t, host, seen.ready(j), seen.offered(j))?;
    push_drop(events, t, host, seen.dropped(j))?;
    push_got(events, t, host, seen.got(j))?;
    Ok(())
}

/// Adds what is seen at each attachment in cycle `t`: by attachment, and at each the take or the wait, then the drop,
/// then the flit.
///
/// # Errors
///
/// When memory runs out. The list may then hold some of them.
pub fn push_seen(events: &mut Events, t: u32, plan: &Plan, seen: &Seen) -> Result<(), AllocError>
    requires seen { length seen.now ≡ length plan.now.hosts }
    requires follows { (f : Event) → t ≤ f.cycle → MayFollow events.old f }
    ensures ok { OnOk result (events.new ≡ events.old ++ events_seen t seen.now 0 plan.now.hosts) }
    ensures follows { OnOk result ((f : Event) → t < f.cycle → MayFollow events.new f) }
{
    plan.known();
    for j in 0..plan.attach_count() {
        push_attached(events, t, plan.attach(j), j, seen)?;
    }
    Ok(())
}
