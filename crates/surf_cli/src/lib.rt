//! The program `surf`: its commands, by their words, over files that it reads and sinks that it writes to.
//!
//! [`surf`] promises that a run's status and bytes are the meaning of its words and of what the named files hold, that
//! each other status has its cause in the outside, and that nothing is written but whole answers or, where writing
//! fails, a prefix of one. A command is a file of `commands`: its words, the files that it names, and the making of its
//! answer, which takes all memory; writing takes none. [`laws`] has that reports do not interfere, and that what is
//! read of a text is the design that it spells. Which files and sinks these are is left to the program above.
#![tactic(auto)]

ghost use Rattle.std.specs.Prelude.{◌≡◌, ◌≢◌, ◌⊎◌, [], map, string_bytes};
ghost use Rattle.surf_base.specs.Outside.{Rose};
ghost use Rattle.surf_cli.specs.Commands.{command_of, files_named};
ghost use Rattle.surf_cli.specs.Runs.{Ends, Completes, outside};

mod accepted;
mod answers;
mod audit_lines;
mod commands;
mod contents;
mod files;
mod forms;
mod judging;
pub mod laws;
mod reading;
mod refusals;
mod reports;
mod routes;
mod run;
mod statuses;
mod summary;
mod table;
mod text_judging;
mod text_line;
mod turning;

pub use statuses::Status;
use std::alloc::Global;
use surf_base::{Files, Sink};

/// Runs the command that `words` are: the words after the program's name.
///
/// The bytes of the answer go to `out`, and the line of a refusal to `err`. All memory is taken before the first byte
/// is written.
pub fn surf<F: Files, O: Sink, E: Sink>(
    alloc: Global,
    words: &Vec<String>,
    files: &mut F,
    out: &mut O,
    err: &mut E,
) -> Status
    // Words that are no command open nothing and write nothing.
    ensures idle { result ≡ Status.Usage → (files.new ≡ files.old) × (out.new ≡ out.old) }

    // A command without files opens nothing, so reading cannot fail.
    ensures unread { files_named (command_of (map string_bytes words.now.items)) ≡ []
        → (files.new ≡ files.old) × (result ≢ Status.Read) × (result ≢ Status.TooLong) }

    // Only an answer is written, or a prefix of one.
    ensures untouched { result ≢ Status.Good → result ≢ Status.Write → out.new ≡ out.old }

    // The status with its cause, what is on `out`, and the line that is on `err`, cut to a prefix only where `err`
    // failed.
    ensures ends { Ends (command_of (map string_bytes words.now.items))
        (outside (F.held files.old) (F.taken files.old) (F.faults files.old) (O.written out.old) (O.faults out.old))
        result
        (outside (F.held files.new) (F.taken files.new) (F.faults files.new) (O.written out.new) (O.faults out.new))
        (E.written err.old) (E.written err.new) (E.faults err.old) (E.faults err.new) }

    // Where no count of faults rose, memory ran out, or the status, the bytes and the line are the command's meaning
    // over contents of its files that agree with all that is observed of them.
    ensures complete { (Rose (F.faults files.old) (F.faults files.new) → ⊥)
        → (Rose (O.faults out.old) (O.faults out.new) → ⊥)
        → (result ≡ Status.Memory) ⊎ Completes (command_of (map string_bytes words.now.items)) (F.held files.old) result
        (O.written out.old) (O.written out.new) (E.written err.old) (E.written err.new)
        (E.faults err.old) (E.faults err.new) }
{
    let end = run::answer(alloc, words.as_slice(), files, out);
    end.print(err);
    end.status()
}

#[cfg(test)]
mod tests;
