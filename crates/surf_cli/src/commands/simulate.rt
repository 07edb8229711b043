//! `simulate DESC TRACE CYCLES`: the reports of all domains of a simulated network.

ghost use Rattle.std.specs.Prelude.{◌≡◌, ◌≤◌, map, string_bytes, option_map, IfSome, IfOk, IfErr};
ghost use Rattle.surf_cli.specs.Jobs.{Simulate, HasFewCycles};
ghost use Rattle.surf_cli.specs.Commands.{simulate_words};
ghost use Rattle.surf_cli.specs.Meaning.{over};
ghost use Rattle.surf_cli.specs.Answers.{text_of, Makes, IsRefused};
ghost use Rattle.noc_model.specs.Limits.{most_cycles};
ghost use Rattle.surf_cli.specs.Spoken.{command, job, gathered};

use super::{Command, Job};
use crate::answers::Text;
use crate::contents::Contents;
use crate::files::{FileKind, NamedFile, NamedFiles};
use crate::judging::{judge, judge_trace};
use crate::reports::Reports;
use crate::statuses::End;
use noc_model::limits::MOST_CYCLES;
use std::alloc::Global;
use surf_base::read_decimal;

/// The command, by the words after its own.
pub(super) fn words(args: &[String]) -> Option<Command<'_>>
    ensures value { option_map command result ≡ simulate_words (map string_bytes args.now) }
    ensures few { IfSome result (λ c. HasFewCycles (job c.job)) }
{
    match args {
        [description, trace, cycles] => {
            let cycles = read_decimal(cycles.as_bytes(), MOST_CYCLES as u64)? as u32;
            let description = NamedFile::new(FileKind::Description, description.as_str());
            let trace = NamedFile::new(FileKind::Trace, trace.as_str());
            Some(Command {
                files: NamedFiles::Two(description, trace),
                job: Job::Simulate { cycles },
            })
        }
        _ => None,
    }
}

/// What is written: the reports of all domains. What the files hold is dropped before the run.
pub(super) fn make(alloc: Global, contents: Contents, cycles: u32) -> Result<Text, End>
    requires { cycles ≤ most_cycles }
    ensures ok { IfOk result (λ text. Makes (over (Simulate cycles) (gathered contents)) (text_of text)) }
    ensures err { IfErr result (λ end. IsRefused (over (Simulate cycles) (gathered contents)) end) }
{
    let plan = judge(alloc, contents.description.as_slice())?;
    let trace = judge_trace(alloc, &plan, contents.trace.as_slice())?;
    drop(contents);
    let reports = Reports::simulated(alloc, plan, &trace, cycles)?;
    Ok(Text::Reports(reports))
}
