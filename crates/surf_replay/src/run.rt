//! The run of a text that a driver drives, and its events.

ghost use Rattle.std.specs.Prelude.{◌≡◌, ◌<◌, ◌≤◌, ◌==◌, ℕ, None, length, filter, IfOk, OnOk, OnErr};
ghost use Rattle.vl_tree.specs.Read.{read_design};
ghost use Rattle.vl_rules.specs.Answer.{design_of};
ghost use Rattle.noc_model.specs.declared.Event.{Event};
ghost use Rattle.noc_model.specs.Limits.{most_cycles};
ghost use Rattle.tile_drive.specs.SeenEvents.{events_seen};
ghost use Rattle.gen_kit.specs.Ports.{ports_fault};
ghost use Rattle.gen_kit.specs.Replayed.{Going, text_events, nets_in, going_next, at_start, replayed, states_after};
ghost use Rattle.vl_run.specs.Running.{running};
ghost use Rattle.surf_replay.specs.Going.{IsGoing};

use crate::attached::step_all;
use crate::feed::fill;
use noc_model::Plan;
use std::alloc::{AllocError, Global};
use tile_drive::{Drive, Events, Seen, push_seen};
use vl_rules::Sound;
use vl_run::Machine;

/// One cycle: the driver feeds the input ports, sees the output ports, and a clock edge follows.
fn one_cycle<D: Drive>(
    machine: &mut Machine,
    plan: &Plan,
    cycle: u32,
    drive: &mut D,
    inputs: &mut Vec<u64>,
    seen: &mut Seen,
) -> Result<(), AllocError>
    requires count { D.count drive.old ≡ length plan.now.hosts }
    requires seen { length seen.old ≡ length plan.now.hosts }
    ensures design { (running machine.new).design ≡ (running machine.old).design }
    ensures count { D.count drive.new ≡ D.count drive.old }
    ensures driver { D.driver drive.new ≡ D.driver drive.old }
    ensures seen_len { length seen.new ≡ length seen.old }
    ensures goes { OnOk result ((g : Going) → IsGoing (running machine.old) plan.now (D.state drive.old) g
        → IsGoing (running machine.new) plan.now (D.state drive.new)
        (going_next plan.now (running machine.old).design (D.driver drive.old) cycle g)) }
    ensures events { OnOk result ((g : Going) → IsGoing (running machine.old) plan.now (D.state drive.old) g → (k : ℕ) →
        filter (λ (e : Event). e.domain == k) (events_seen cycle seen.new 0 plan.now.hosts)
        ≡ text_events plan.now k cycle (nets_in plan.now (running machine.old).design (D.driver drive.old) cycle g)) }
    ensures refused { OnErr result (D.state drive.new ≡ D.state drive.old) }
{
    plan.known();
    machine.known();
    fill(inputs, plan, drive, cycle)?;
    step_all(machine, plan, cycle, drive, seen);
    machine.edge(inputs.as_slice());
    Ok(())
}

/// The events of the cycles from 0 to `cycles` - 1 of the design, from memories of 0, in one list. Those of each domain
/// are what the ports of the driven text show, and the driver then stands as after that run.
///
/// # Errors
///
/// Memory ran out; then the driver stands as after some whole cycles.
pub fn replay<D: Drive>(
    alloc: Global,
    plan: &Plan,
    sound: Sound,
    drive: &mut D,
    cycles: u32,
) -> Result<Events, AllocError>
    requires fit { ports_fault plan.now (read_design (design_of sound)) ≡ None }
    requires few { cycles ≤ most_cycles }
    requires count { D.count drive.old ≡ length plan.now.hosts }
    ensures count { D.count drive.new ≡ D.count drive.old }
    ensures driver { D.driver drive.new ≡ D.driver drive.old }
    ensures events { IfOk result (λ events. (k : ℕ) → k < length plan.now.domains
        → filter (λ (e : Event). e.domain == k) events
        ≡ replayed plan.now (read_design (design_of sound)) (D.driver drive.old) k cycles 0
        (at_start (read_design (design_of sound)) (D.state drive.old))) }
    ensures states { IfOk result (λ events.
        D.state drive.new ≡ states_after plan.now (read_design (design_of sound)) (D.driver drive.old) cycles 0
        (at_start (read_design (design_of sound)) (D.state drive.old))) }
    ensures whole { (n : ℕ) × (n ≤ cycles) ×
        (D.state drive.new ≡ states_after plan.now (read_design (design_of sound)) (D.driver drive.old) n 0
        (at_start (read_design (design_of sound)) (D.state drive.old))) }
{
    plan.known();
    let mut machine = Machine::new(alloc, sound)?;
    let mut events = Events::new(alloc);
    let mut seen = Seen::new(alloc, plan)?;
    let mut inputs = Vec::new(alloc);
    for t in 0..cycles {
        one_cycle(&mut machine, plan, t, drive, &mut inputs, &mut seen)?;
        push_seen(&mut events, t, plan, &seen)?;
    }
    Ok(events)
}
