//! The reports of a run.

ghost use Rattle.std.specs.Prelude.{◌≡◌, ◌<◌, ◌≤◌, None, length, IfOk};
ghost use Rattle.surf_base.specs.Block.{Writes, stream};
ghost use Rattle.noc_model.specs.Limits.{most_cycles};
ghost use Rattle.noc_model.specs.Report.{report};
ghost use Rattle.vl_tree.specs.Read.{read_design};
ghost use Rattle.vl_rules.specs.Answer.{design_of};
ghost use Rattle.gen_kit.specs.Ports.{ports_fault};
ghost use Rattle.surf_cli.specs.Simulate.{AreAlone, reports_of, events_of, reports_text, report_text};
ghost use Rattle.surf_cli.specs.Replay.{AreReplayed, replayed_text};

use cycle_sim::{Net, run};
use domain_report::put_report;
use noc_model::Plan;
use std::alloc::{AllocError, Global};
use surf_base::{Block, Failed, Sink};
use surf_replay::replay;
use tile_drive::{Events, TraceDrive};
use trace_read::Trace;
use vl_rules::Sound;

/// The reports of all domains that are not written yet.
#[derive(Drop)]
pub(crate) struct Reports {
    plan: Plan,
    events: Events,
}

/// The events of all domains in a run that the trace drives.
pub(crate) fn simulate(
    alloc: Global,
    plan: &Plan,
    trace: &Trace,
    cycles: u32,
) -> Result<Events, AllocError>
    requires few { cycles ≤ most_cycles }
    ensures { IfOk result (λ events. AreAlone plan.now events trace.now cycles) }
{
    let mut drive = TraceDrive::new(alloc, plan, trace)?;
    let mut net = Net::new(alloc, plan.copy(alloc)?)?;
    run(alloc, &mut net, &mut drive, cycles)
}

/// The events at the ports of a design that the trace drives.
fn replay_by(
    alloc: Global,
    plan: &Plan,
    sound: Sound,
    trace: &Trace,
    cycles: u32,
) -> Result<Events, AllocError>
    requires fit { ports_fault plan.now (read_design (design_of sound)) ≡ None }
    requires few { cycles ≤ most_cycles }
    ensures { IfOk result (λ events. AreReplayed plan.now (read_design (design_of sound)) events trace.now cycles) }
{
    let mut drive = TraceDrive::new(alloc, plan, trace)?;
    replay(alloc, plan, sound, &mut drive, cycles)
}

impl Reports {
    /// The reports of a run that the trace drives.
    pub(crate) fn simulated(
        alloc: Global,
        plan: Plan,
        trace: &Trace,
        cycles: u32,
    ) -> Result<Reports, AllocError>
        requires few { cycles ≤ most_cycles }
        ensures { IfOk result (λ reports. reports_of reports.plan (events_of reports.events)
            ≡ reports_text plan trace.now cycles) }
    {
        let events = simulate(alloc, &plan, trace, cycles)?;
        Ok(Reports { plan, events })
    }

    /// The reports of a run of the design that the trace drives.
    pub(crate) fn replayed(
        alloc: Global,
        plan: Plan,
        sound: Sound,
        trace: &Trace,
        cycles: u32,
    ) -> Result<Reports, AllocError>
        requires fit { ports_fault plan (read_design (design_of sound)) ≡ None }
        requires few { cycles ≤ most_cycles }
        ensures { IfOk result (λ reports. reports_of reports.plan (events_of reports.events)
            ≡ replayed_text plan (read_design (design_of sound)) trace.now cycles) }
    {
        let events = replay_by(alloc, &plan, sound, trace, cycles)?;
        Ok(Reports { plan, events })
    }

    /// Puts the reports.
    pub(crate) fn put<O: Sink>(&self, block: &mut Block, out: &mut O) -> Result<(), Failed>
        ensures { Writes result (stream (O.written out.old) block.old (O.faults out.old))
            (stream (O.written out.new) block.new (O.faults out.new))
            (reports_of self.now.plan (events_of self.now.events)) }
    {
        for d in 0..self.plan.domains() {
            put_report(block, out, &self.plan, &self.events, d)?;
        }
        Ok(())
    }
}

/// The report of one domain that is not written yet.
#[derive(Drop)]
pub(crate) struct OneReport {
    plan: Plan,
    events: Events,
    domain: u32,
    ghost there: { domain < length plan.domains },
}

impl OneReport {
    /// The report of a run that the trace drives.
    pub(crate) fn simulated(
        alloc: Global,
        plan: Plan,
        trace: &Trace,
        cycles: u32,
        domain: u32,
    ) -> Result<OneReport, AllocError>
        requires few { cycles ≤ most_cycles }
        requires there { domain < length plan.domains }
        ensures { IfOk result (λ one. report one.plan one.domain (events_of one.events one.domain)
            ≡ report_text plan trace.now cycles domain) }
    {
        let events = simulate(alloc, &plan, trace, cycles)?;
        Ok(OneReport {
            plan,
            events,
            domain,
        })
    }

    /// Puts the report.
    pub(crate) fn put<O: Sink>(&self, block: &mut Block, out: &mut O) -> Result<(), Failed>
        ensures { Writes result (stream (O.written out.old) block.old (O.faults out.old))
            (stream (O.written out.new) block.new (O.faults out.new))
            (report self.now.plan self.now.domain (events_of self.now.events self.now.domain)) }
    {
        put_report(block, out, &self.plan, &self.events, self.domain)
    }
}
