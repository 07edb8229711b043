//! `compile DESC`: a Verilog text that is the network of the description.

ghost use Rattle.std.specs.Prelude.{◌≡◌, map, string_bytes, option_map, IfSome, IfOk, IfErr};
ghost use Rattle.surf_cli.specs.Jobs.{Compile, HasFewCycles};
ghost use Rattle.surf_cli.specs.Commands.{compile_words};
ghost use Rattle.surf_cli.specs.Meaning.{Makes, over};
ghost use Rattle.surf_cli.specs.Answers.{text_of, IsRefused};
ghost use Rattle.surf_cli.specs.Spoken.{command, job, gathered};

use super::{Command, Job};
use crate::answers::Text;
use crate::contents::Contents;
use crate::files::{FileKind, NamedFile, NamedFiles};
use crate::judging::judge;
use crate::statuses::End;
use std::alloc::Global;

/// The command, by the words after its own.
pub(super) fn words(args: &[String]) -> Option<Command<'_>>
    ensures value { option_map command result ≡ compile_words (map string_bytes args.now) }
    ensures few { IfSome result (λ c. HasFewCycles (job c.job)) }
{
    match args {
        [description] => {
            let description = NamedFile::new(FileKind::Description, description.as_str());
            Some(Command {
                files: NamedFiles::One(description),
                job: Job::Compile,
            })
        }
        _ => None,
    }
}

/// What is written: a right text of the plan.
pub(super) fn make(alloc: Global, contents: Contents) -> Result<Text, End>
    ensures ok { IfOk result (λ text. Makes (over Compile (gathered contents)) (text_of text)) }
    ensures err { IfErr result (λ end. IsRefused (over Compile (gathered contents)) end) }
{
    let plan = judge(alloc, contents.description.as_slice())?;
    let bytes = gen_top::text_of(alloc, &plan)?;
    Ok(Text::Bytes(bytes))
}
