//! `audit DESC TEXT`: whether a Verilog text isolates the domains of a description, whoever wrote it.

ghost use Rattle.std.specs.Prelude.{◌≡◌, map, string_bytes, option_map, IfSome, IfOk, IfErr};
ghost use Rattle.surf_cli.specs.Jobs.{Audit, HasFewCycles};
ghost use Rattle.surf_cli.specs.Commands.{audit_words};
ghost use Rattle.surf_cli.specs.Meaning.{Makes, over};
ghost use Rattle.surf_cli.specs.Answers.{text_of, IsRefused};
ghost use Rattle.surf_cli.specs.AuditLines.{isolated_text};
ghost use Rattle.surf_cli.specs.Spoken.{command, job, gathered};

use super::{Command, Job};
use crate::answers::Text;
use crate::audit_lines::isolated_line;
use crate::contents::Contents;
use crate::files::{FileKind, NamedFile, NamedFiles};
use crate::judging::judge;
use crate::refusals::Refusal;
use crate::statuses::End;
use crate::text_judging::judge_text;
use label_audit::{Verdict, audit};
use noc_model::Plan;
use std::alloc::{AllocError, Global};

/// The command, by the words after its own.
pub(super) fn words(args: &[String]) -> Option<Command<'_>>
    ensures value { option_map command result ≡ audit_words (map string_bytes args.now) }
    ensures few { IfSome result (λ c. HasFewCycles (job c.job)) }
{
    match args {
        [description, text] => {
            let description = NamedFile::new(FileKind::Description, description.as_str());
            let text = NamedFile::new(FileKind::Text, text.as_str());
            Some(Command {
                files: NamedFiles::Two(description, text),
                job: Job::Audit,
            })
        }
        _ => None,
    }
}

/// The line of a text that isolates the plan's domains.
fn isolated(alloc: Global, plan: &Plan) -> Result<Vec<u8>, AllocError>
    ensures { IfOk result (λ v. v.items ≡ isolated_text plan.now) }
{
    let mut line = [0; 96];
    let len = isolated_line(plan, &mut line);
    Vec::from_slice(alloc, &line[..len])
}

/// What is written: the line of a text that isolates the domains. A leak is the end of the run.
pub(super) fn make(alloc: Global, contents: Contents) -> Result<Text, End>
    ensures ok { IfOk result (λ text. Makes (over Audit (gathered contents)) (text_of text)) }
    ensures err { IfErr result (λ end. IsRefused (over Audit (gathered contents)) end) }
{
    let plan = judge(alloc, contents.description.as_slice())?;
    let sound = judge_text(alloc, &plan, contents.text.as_slice())?;
    match audit(alloc, &plan, &sound)? {
        Verdict::Clean => {
            let line = isolated(alloc, &plan)?;
            Ok(Text::Bytes(line))
        }
        Verdict::Leak {
            port,
            phase,
            foreign,
        } => Err(End::Refused(Refusal::Leak {
            port,
            phase,
            foreign,
        })),
    }
}
