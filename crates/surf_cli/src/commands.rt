//! The commands, by their words. Each has a file of its own: its words, its files, and the making of its answer.

ghost use Rattle.std.specs.Prelude.{◌≡◌, map, string_bytes, option_map, IfSome, IfOk, IfErr};
ghost use Rattle.surf_cli.specs.Commands.{command_of};
ghost use Rattle.surf_cli.specs.Jobs.{HasFewCycles};
ghost use Rattle.surf_cli.specs.Meaning.{Makes, over};
ghost use Rattle.surf_cli.specs.Answers.{text_of, IsRefused};
ghost use Rattle.surf_cli.specs.Spoken.{command, job, gathered};

mod aiger;
mod audit;
mod check;
mod compile;
mod replay;
mod report;
mod routes;
mod schedule;
mod simulate;
mod stress;
mod upgrade;

use crate::answers::{Answer, Text};
use crate::contents::Contents;
use crate::files::NamedFiles;
use crate::statuses::End;
use std::alloc::Global;

/// What is to be done with what the files of a command hold.
#[derive(Clone, Copy)]
pub(crate) enum Job<'a> {
    /// The owner table of so many cycles.
    Schedule {
        /// The number of cycles.
        cycles: u32,
    },
    /// Whether a description is accepted, and the sizes of what it describes.
    Check,
    /// The routes from each tile to each tile.
    Routes,
    /// The reports of so many cycles of a simulated network.
    Simulate {
        /// The number of cycles.
        cycles: u32,
    },
    /// The report of one domain.
    Report {
        /// The number of cycles.
        cycles: u32,
        /// The domain's name.
        domain: &'a str,
    },
    /// A description of version 2 with the same plan.
    Upgrade,
    /// The reports of so many cycles of a Verilog text.
    Replay {
        /// The number of cycles.
        cycles: u32,
    },
    /// Whether a Verilog text isolates the domains.
    Audit,
    /// The summary of so many cycles of a stress run.
    Stress {
        /// The number from which the trace is drawn.
        number: u32,
        /// The number of cycles.
        cycles: u32,
    },
    /// A Verilog text that is the network.
    Compile,
    /// The network as an and-inverter graph.
    Aiger,
}

/// What the words ask for.
#[derive(Clone, Copy)]
pub(crate) struct Command<'a> {
    /// The files that it names.
    pub(crate) files: NamedFiles<'a>,
    /// What is done with what they hold.
    pub(crate) job: Job<'a>,
}

/// The command that the words are; nothing where they are no row of the table of commands.
pub(crate) fn command_of(words: &[String]) -> Option<Command<'_>>
    ensures value { option_map command result ≡ command_of (map string_bytes words.now) }
    ensures few { IfSome result (λ c. HasFewCycles (job c.job)) }
{
    let (verb, args) = match words.split_first() {
        Some(parts) => parts,
        None => return None,
    };
    match verb.as_str() {
        "schedule" => schedule::words(args),
        "check" => check::words(args),
        "routes" => routes::words(args),
        "simulate" => simulate::words(args),
        "report" => report::words(args),
        "upgrade" => upgrade::words(args),
        "replay" => replay::words(args),
        "audit" => audit::words(args),
        "stress" => stress::words(args),
        "compile" => compile::words(args),
        "aiger" => aiger::words(args),
        _ => None,
    }
}

/// The text that answers a job.
fn text_for(alloc: Global, asked: Job<'_>, contents: Contents) -> Result<Text, End>
    requires few { HasFewCycles (job asked) }
    ensures ok { IfOk result (λ text. Makes (over (job asked.entry) (gathered contents)) (text_of text)) }
    ensures err { IfErr result (λ end. IsRefused (over (job asked.entry) (gathered contents)) end) }
{
    match asked {
        Job::Schedule { cycles } => schedule::make(alloc, contents, cycles),
        Job::Check => check::make(alloc, contents),
        Job::Routes => routes::make(alloc, contents),
        Job::Simulate { cycles } => simulate::make(alloc, contents, cycles),
        Job::Report { cycles, domain } => report::make(alloc, contents, cycles, domain),
        Job::Upgrade => upgrade::make(alloc, contents),
        Job::Replay { cycles } => replay::make(alloc, contents, cycles),
        Job::Audit => audit::make(alloc, contents),
        Job::Stress { number, cycles } => stress::make(alloc, contents, number, cycles),
        Job::Compile => compile::make(alloc, contents),
        Job::Aiger => aiger::make(alloc, contents),
    }
}

/// The answer to a job, with all the memory that writing it takes.
pub(crate) fn make(alloc: Global, asked: Job<'_>, contents: Contents) -> Result<Answer, End>
    requires few { HasFewCycles (job asked) }
    ensures ok { IfOk result (λ answer. Makes (over (job asked.entry) (gathered contents)) (text_of answer.text)) }
    ensures err { IfErr result (λ end. IsRefused (over (job asked.entry) (gathered contents)) end) }
{
    let text = text_for(alloc, asked, contents)?;
    let answer = Answer::new(alloc, text)?;
    Ok(answer)
}
