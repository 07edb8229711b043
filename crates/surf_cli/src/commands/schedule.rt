//! `schedule DESC CYCLES`: the owner table of an accepted description.

ghost use Rattle.std.specs.Prelude.{◌≡◌, map, string_bytes, option_map, IfSome, IfOk, IfErr};
ghost use Rattle.surf_cli.specs.Jobs.{Schedule, HasFewCycles};
ghost use Rattle.surf_cli.specs.Commands.{schedule_words};
ghost use Rattle.surf_cli.specs.Meaning.{Makes, over};
ghost use Rattle.surf_cli.specs.Answers.{text_of, IsRefused};
ghost use Rattle.surf_cli.specs.Spoken.{command, job, gathered};

use super::{Command, Job};
use crate::answers::Text;
use crate::contents::Contents;
use crate::files::{FileKind, NamedFile, NamedFiles};
use crate::judging::judge;
use crate::statuses::End;
use crate::turning::OwnerTable;
use std::alloc::Global;
use surf_base::read_decimal;

/// The most cycles of an owner table.
const TABLE_CYCLES: u64 = 4_096;

/// The command, by the words after its own.
pub(super) fn words(args: &[String]) -> Option<Command<'_>>
    ensures value { option_map command result ≡ schedule_words (map string_bytes args.now) }
    ensures few { IfSome result (λ c. HasFewCycles (job c.job)) }
{
    match args {
        [description, cycles] => {
            let cycles = read_decimal(cycles.as_bytes(), TABLE_CYCLES)? as u32;
            let description = NamedFile::new(FileKind::Description, description.as_str());
            Some(Command {
                files: NamedFiles::One(description),
                job: Job::Schedule { cycles },
            })
        }
        _ => None,
    }
}

/// What is written: the owner table of the cycles from 0 on.
pub(super) fn make(alloc: Global, contents: Contents, cycles: u32) -> Result<Text, End>
    ensures ok { IfOk result (λ text. Makes (over (Schedule cycles) (gathered contents)) (text_of text)) }
    ensures err { IfErr result (λ end. IsRefused (over (Schedule cycles) (gathered contents)) end) }
{
    let plan = judge(alloc, contents.description.as_slice())?;
    let table = OwnerTable::new(alloc, plan, cycles)?;
    Ok(Text::Table(table))
}
