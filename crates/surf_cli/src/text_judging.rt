//! A text, judged: its bytes, the rules of a sound design, and the plan's ports.

ghost use Rattle.std.specs.Prelude.{◌≡◌, None, IfOk, IfErr};
ghost use Rattle.vl_tree.specs.Values.{Design as DesignValue};
ghost use Rattle.vl_tree.specs.Read.{read_design};
ghost use Rattle.vl_rules.specs.Answer.{design_of};
ghost use Rattle.gen_kit.specs.Ports.{ports_fault};
ghost use Rattle.surf_cli.specs.Meaning.{Outcome, with_text};
ghost use Rattle.surf_cli.specs.Answers.{IsRefused, EndsForText};

use crate::refusals::Refusal;
use crate::statuses::End;
use noc_model::Plan;
use std::alloc::Global;
use surf_replay::ports_fit;
use vl_read::read_design;
use vl_rules::{Sound, rules};
use vl_tree::TextFault;

/// How a run ends that meets a fault of a text.
fn end_of(fault: TextFault) -> End
    ensures { EndsForText fault result }
{
    match fault {
        TextFault::Memory(_) => End::Memory,
        other => End::Refused(Refusal::Text(other)),
    }
}

/// The sound design of a text, which has the plan's ports.
pub(crate) fn judge_text(alloc: Global, plan: &Plan, bytes: &[u8]) -> Result<Sound, End>
    ensures fit { IfOk result (λ sound. ports_fault plan.now (read_design (design_of sound)) ≡ None) }
    ensures ok { IfOk result (λ sound. (next : DesignValue → Outcome)
        → with_text plan.now bytes.now next ≡ next (read_design (design_of sound))) }
    ensures err { IfErr result (λ end. (next : DesignValue → Outcome)
        → IsRefused (with_text plan.now bytes.now next) end) }
{
    let design = match read_design(alloc, bytes) {
        Ok(design) => design,
        Err(fault) => return Err(end_of(fault)),
    };
    let sound = match rules(alloc, design) {
        Ok(sound) => sound,
        Err(fault) => return Err(end_of(fault)),
    };
    match ports_fit(plan, &sound) {
        Ok(()) => Ok(sound),
        Err(fault) => Err(end_of(fault)),
    }
}
