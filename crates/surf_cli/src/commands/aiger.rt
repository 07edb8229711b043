//! `aiger DESC`: the network of the description as an and-inverter graph, in AIGER's ASCII form.

ghost use Rattle.std.specs.Prelude.{◌≡◌, map, string_bytes, option_map, IfSome, IfOk, IfErr};
ghost use Rattle.vl_tree.specs.Read.{read_design};
ghost use Rattle.gen_kit.specs.Right.{IsRightDesign};
ghost use Rattle.surf_cli.specs.Jobs.{Aiger, HasFewCycles};
ghost use Rattle.surf_cli.specs.Commands.{aiger_words};
ghost use Rattle.surf_cli.specs.Meaning.{Makes, over};
ghost use Rattle.surf_cli.specs.FormText.{IsFormText};
ghost use Rattle.surf_cli.specs.Answers.{text_of, IsRefused};
ghost use Rattle.surf_cli.specs.Spoken.{command, job, gathered};

use super::{Command, Job};
use crate::answers::Text;
use crate::contents::Contents;
use crate::files::{FileKind, NamedFile, NamedFiles};
use crate::forms::FormText;
use crate::judging::judge;
use crate::refusals::Refusal;
use crate::statuses::End;
use noc_model::Plan;
use std::alloc::{AllocError, Global};

/// No form of a network with more places is written.
const MOST_PLACES: u32 = 4096;

/// The command, by the words after its own.
pub(super) fn words(args: &[String]) -> Option<Command<'_>>
    ensures value { option_map command result ≡ aiger_words (map string_bytes args.now) }
    ensures few { IfSome result (λ c. HasFewCycles (job c.job)) }
{
    match args {
        [description] => {
            let description = NamedFile::new(FileKind::Description, description.as_str());
            Some(Command {
                files: NamedFiles::One(description),
                job: Job::Aiger,
            })
        }
        _ => None,
    }
}

/// The form of the plan's design.
fn form(alloc: Global, plan: &Plan) -> Result<Text, AllocError>
    ensures { IfOk result (λ text. IsFormText plan.now (text_of text)) }
{
    let design = gen_top::design_of(alloc, plan)?;
    let aig = aig_design::form_of_design(alloc, &design)?;
    Ok(Text::Form(FormText::new(aig)))
}

/// What is written: the text of a form of the plan. A network with too many places is refused.
pub(super) fn make(alloc: Global, contents: Contents) -> Result<Text, End>
    ensures ok { IfOk result (λ text. Makes (over Aiger (gathered contents)) (text_of text)) }
    ensures err { IfErr result (λ end. IsRefused (over Aiger (gathered contents)) end) }
{
    let plan = judge(alloc, contents.description.as_slice())?;
    if plan.places() > MOST_PLACES {
        return Err(End::Refused(Refusal::Size));
    }
    let text = form(alloc, &plan)?;
    Ok(text)
}
