//! `upgrade DESC`: a description of version 2 with the same plan, in the layout of `toml`'s printer.

ghost use Rattle.std.specs.Prelude.{◌≡◌, map, string_bytes, option_map, IfSome, IfOk, IfErr};
ghost use Rattle.surf_cli.specs.Jobs.{Upgrade, HasFewCycles};
ghost use Rattle.surf_cli.specs.Commands.{upgrade_words};
ghost use Rattle.surf_cli.specs.Meaning.{Makes, over};
ghost use Rattle.surf_cli.specs.Answers.{text_of, IsRefused};
ghost use Rattle.surf_cli.specs.Spoken.{command, job, gathered};

use super::{Command, Job};
use crate::answers::Text;
use crate::contents::Contents;
use crate::files::{FileKind, NamedFile, NamedFiles};
use crate::judging::judge;
use crate::statuses::End;
use desc_check::draft_of;
use noc_desc::write_draft;
use std::alloc::Global;

/// The command, by the words after its own.
pub(super) fn words(args: &[String]) -> Option<Command<'_>>
    ensures value { option_map command result ≡ upgrade_words (map string_bytes args.now) }
    ensures few { IfSome result (λ c. HasFewCycles (job c.job)) }
{
    match args {
        [description] => {
            let description = NamedFile::new(FileKind::Description, description.as_str());
            Some(Command {
                files: NamedFiles::One(description),
                job: Job::Upgrade,
            })
        }
        _ => None,
    }
}

/// What is written: a document that says the plan.
pub(super) fn make(alloc: Global, contents: Contents) -> Result<Text, End>
    ensures ok { IfOk result (λ text. Makes (over Upgrade (gathered contents)) (text_of text)) }
    ensures err { IfErr result (λ end. IsRefused (over Upgrade (gathered contents)) end) }
{
    let plan = judge(alloc, contents.description.as_slice())?;
    let draft = draft_of(alloc, &plan)?;
    let bytes = write_draft(alloc, &draft)?;
    Ok(Text::Bytes(bytes))
}
