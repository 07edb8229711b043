//! What the files hold, judged: the description, its domain of a name, and the trace.

ghost use Rattle.std.specs.Prelude.{◌≡◌, ◌<◌, ℕ, List, length, IfOk, IfErr};
ghost use Rattle.noc_model.specs.Plan.{Plan as PlanValue};
ghost use Rattle.trace_read.specs.declared.entries.Entry.{Entry};
ghost use Rattle.surf_cli.specs.Meaning.{Outcome, with_plan, with_domain, with_trace};
ghost use Rattle.surf_cli.specs.Answers.{IsRefused, EndsFor};

use crate::refusals::Refusal;
use crate::statuses::End;
use noc_desc::{DescFault, read_draft};
use noc_model::Plan;
use std::alloc::Global;
use trace_read::{Trace, TraceFault, read_trace};

/// How a run ends that meets a fault of a description.
fn end_of(fault: DescFault) -> End
    ensures { EndsFor fault result }
{
    match fault {
        DescFault::Memory(_) => End::Memory,
        other => End::Refused(Refusal::Description(other)),
    }
}

/// The plan of a description.
pub(crate) fn judge(alloc: Global, bytes: &[u8]) -> Result<Plan, End>
    ensures ok { IfOk result (λ plan. (next : PlanValue → Outcome) → with_plan bytes.now next ≡ next plan) }
    ensures err { IfErr result (λ end. (next : PlanValue → Outcome) → IsRefused (with_plan bytes.now next) end) }
{
    let draft = match read_draft(alloc, bytes) {
        Ok(draft) => draft,
        Err(fault) => return Err(end_of(fault)),
    };
    match desc_check::check(alloc, draft) {
        Ok(plan) => Ok(plan),
        Err(fault) => Err(end_of(fault)),
    }
}

/// The number of the domain of this name.
pub(crate) fn judge_domain(plan: &Plan, name: &[u8]) -> Result<u32, End>
    ensures below { IfOk result (λ d. d < length plan.now.domains) }
    ensures ok { IfOk result (λ d. (next : ℕ → Outcome) → with_domain plan.now name.now next ≡ next d) }
    ensures err { IfErr result (λ end. (next : ℕ → Outcome) → IsRefused (with_domain plan.now name.now next) end) }
{
    plan.known();
    match plan.find(name) {
        Some(d) => Ok(d),
        None => Err(End::Refused(Refusal::NoDomain)),
    }
}

/// The entries of a trace.
pub(crate) fn judge_trace(alloc: Global, plan: &Plan, bytes: &[u8]) -> Result<Trace, End>
    ensures ok { IfOk result (λ es. (next : List Entry → Outcome) → with_trace plan.now bytes.now next ≡ next es) }
    ensures err { IfErr result (λ end. (next : List Entry → Outcome)
        → IsRefused (with_trace plan.now bytes.now next) end) }
{
    match read_trace(alloc, plan, bytes) {
        Ok(trace) => Ok(trace),
        Err(TraceFault::Memory(_)) => Err(End::Memory),
        Err(fault) => Err(End::Refused(Refusal::Trace(fault))),
    }
}
