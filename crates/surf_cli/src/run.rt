//! A command's run: its files are read, its answer is made, and the answer is written.

ghost use Rattle.std.specs.Prelude.{◌≡◌, ◌≢◌, [], map, string_bytes, Some};
ghost use Rattle.surf_cli.specs.Jobs.{HasFewCycles};
ghost use Rattle.surf_cli.specs.Commands.{command_of, files_named};
ghost use Rattle.surf_cli.specs.Spoken.{command, job, listed};
ghost use Rattle.surf_cli.specs.Runs.{Runs, outside};

use crate::commands::{Command, command_of, make};
use crate::reading::read_files;
use crate::statuses::End;
use std::alloc::Global;
use surf_base::{Files, Sink};

/// A command, done.
fn run<F: Files, O: Sink>(alloc: Global, asked: Command<'_>, files: &mut F, out: &mut O) -> End
    requires few { HasFewCycles (job asked.job) }
    ensures unread { listed asked.entry.files ≡ [] → files.new ≡ files.old }
    ensures untouched { result ≢ End.Good → result ≢ End.Write → out.new ≡ out.old }
    ensures runs { Runs (Some (command asked.entry))
        (outside (F.held files.old) (F.taken files.old) (F.faults files.old) (O.written out.old) (O.faults out.old))
        result
        (outside (F.held files.new) (F.taken files.new) (F.faults files.new) (O.written out.new) (O.faults out.new)) }
{
    let contents = match read_files(alloc, files, asked.files) {
        Ok(contents) => contents,
        Err(fault) => return End::of(fault),
    };
    let answer = match make(alloc, asked.job, contents) {
        Ok(answer) => answer,
        Err(end) => return end,
    };
    match answer.write(out) {
        Ok(()) => End::Good,
        Err(_) => End::Write,
    }
}

/// What the words ask for, done.
pub(crate) fn answer<F: Files, O: Sink>(
    alloc: Global,
    words: &[String],
    files: &mut F,
    out: &mut O,
) -> End
    ensures unread { files_named (command_of (map string_bytes words.now)) ≡ [] → files.new ≡ files.old }
    ensures untouched { result ≢ End.Good → result ≢ End.Write → out.new ≡ out.old }
    ensures runs { Runs (command_of (map string_bytes words.now))
        (outside (F.held files.old) (F.taken files.old) (F.faults files.old) (O.written out.old) (O.faults out.old))
        result
        (outside (F.held files.new) (F.taken files.new) (F.faults files.new) (O.written out.new) (O.faults out.new)) }
{
    match command_of(words) {
        Some(asked) => run(alloc, asked, files, out),
        None => End::Usage,
    }
}
