//! `stress NUMBER CYCLES`: the summary of a stress run.

ghost use Rattle.std.specs.Prelude.{◌≡◌, ◌≤◌, map, string_bytes, option_map, IfSome, IfOk, IfErr};
ghost use Rattle.noc_model.specs.Limits.{most_cycles};
ghost use Rattle.surf_cli.specs.Jobs.{Stress, HasFewCycles};
ghost use Rattle.surf_cli.specs.Commands.{stress_words};
ghost use Rattle.surf_cli.specs.Meaning.{Makes, over};
ghost use Rattle.surf_cli.specs.Answers.{text_of, IsRefused};
ghost use Rattle.surf_cli.specs.Spoken.{command, job, gathered};

use super::{Command, Job};
use crate::answers::Text;
use crate::contents::Contents;
use crate::files::NamedFiles;
use crate::statuses::End;
use crate::summary::Summary;
use noc_model::limits::MOST_CYCLES;
use std::alloc::Global;
use surf_base::read_decimal;

/// The greatest number that a trace is drawn from.
const MOST_NUMBER: u64 = 4_294_967_295;

/// The command, by the words after its own. It names no file.
pub(super) fn words(args: &[String]) -> Option<Command<'_>>
    ensures value { option_map command result ≡ stress_words (map string_bytes args.now) }
    ensures few { IfSome result (λ c. HasFewCycles (job c.job)) }
{
    match args {
        [number, cycles] => {
            let number = read_decimal(number.as_bytes(), MOST_NUMBER)? as u32;
            let cycles = read_decimal(cycles.as_bytes(), MOST_CYCLES as u64)? as u32;
            Some(Command {
                files: NamedFiles::Zero,
                job: Job::Stress { number, cycles },
            })
        }
        _ => None,
    }
}

/// What is written: the summary of the run.
pub(super) fn make(alloc: Global, contents: Contents, number: u32, cycles: u32) -> Result<Text, End>
    requires { cycles ≤ most_cycles }
    ensures ok { IfOk result (λ text. Makes (over (Stress number cycles) (gathered contents)) (text_of text)) }
    ensures err { IfErr result (λ end. IsRefused (over (Stress number cycles) (gathered contents)) end) }
{
    drop(contents);
    let summary = Summary::simulated(alloc, number, cycles)?;
    Ok(Text::Summary(summary))
}
