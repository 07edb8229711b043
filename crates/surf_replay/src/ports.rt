//! Whether a design has the ports of a plan's text.

ghost use Rattle.std.specs.Prelude.{◌≡◌, None, Some, IfOk, IfErr};
ghost use Rattle.vl_tree.specs.Read.{read_design};
ghost use Rattle.vl_rules.specs.Answer.{design_of};
ghost use Rattle.gen_kit.specs.Ports.{ports_fault};

use gen_kit::first_other_port;
use noc_model::Plan;
use vl_rules::Sound;
use vl_tree::TextFault;

/// Whether the top's ports are those of the plan's text, in order.
///
/// # Errors
///
/// The fault with the first position at which they are not, or one of the two lists ends.
#[tactic(auto, unfolding(gen_kit::specs::Ports::ports_fault))]
pub fn ports_fit(plan: &Plan, sound: &Sound) -> Result<(), TextFault>
    ensures fit { IfOk result (λ u. ports_fault plan.now (read_design (design_of sound.now)) ≡ None) }
    ensures fault { IfErr result (λ f. ports_fault plan.now (read_design (design_of sound.now)) ≡ Some f) }
{
    match first_other_port(plan, sound.design().top.ports.as_slice()) {
        Some(position) => Err(TextFault::Ports(position)),
        None => Ok(()),
    }
}
