//! How a run ends.

ghost use Rattle.std.specs.Prelude.{◌≡◌};
ghost use Rattle.surf_cli.specs.Lines.{number_of, status_of, line_of, Says};

use crate::refusals::Refusal;
use std::alloc::AllocError;
use surf_base::{Sink, TakeFault, write_all};

/// How a run of the program ends.
#[derive(Clone, Copy, Debug, PartialEq, Eq)]
pub enum Status {
    /// All bytes were written.
    Good,
    /// The text has a leak: an output port of a domain may depend on another domain's inputs.
    Leak,
    /// The words are no command.
    Usage,
    /// The description has a fault.
    Description,
    /// The trace has a fault.
    Trace,
    /// The Verilog text has a fault, or other ports than the plan's.
    Text,
    /// A file could not be read.
    Read,
    /// The output could not be written.
    Write,
    /// Memory ran out.
    Memory,
    /// A file is longer than its limit.
    TooLong,
    /// The description has no domain of the name.
    Domain,
    /// The description has too many places for a form.
    Size,
}

impl Status {
    /// The number that the process ends with.
    pub fn number(&self) -> u8
        ensures { result ≡ number_of self.now }
    {
        match self {
            Status::Good => 0,
            Status::Leak => 1,
            Status::Usage => 2,
            Status::Description => 3,
            Status::Trace => 4,
            Status::Text => 5,
            Status::Read => 6,
            Status::Write => 7,
            Status::Memory => 8,
            Status::TooLong => 9,
            Status::Domain => 10,
            Status::Size => 11,
        }
    }
}

/// How a run ends, with all that its line says.
#[derive(Drop)]
pub(crate) enum End {
    /// All bytes were written.
    Good,
    /// The words are no command.
    Usage,
    /// What the files hold is refused.
    Refused(Refusal),
    /// A file could not be read.
    Read,
    /// The output could not be written.
    Write,
    /// Memory ran out.
    Memory,
    /// A file is longer than its limit.
    TooLong,
}

impl From<AllocError> for End {
    ghost use Rattle.surf_cli.specs.declared.statuses.End.{End};

    ghost from_gives = { λ _ end. end ≡ End.Memory };

    fn from(_fault: AllocError) -> End {
        End::Memory
    }
}

impl From<Refusal> for End {
    ghost use Rattle.surf_cli.specs.declared.statuses.End.{End};

    ghost from_gives = { λ refusal end. end ≡ End.Refused refusal };

    fn from(refusal: Refusal) -> End {
        End::Refused(refusal)
    }
}

impl End {
    ghost use Rattle.surf_cli.specs.Reading.{end_of};

    /// How a run ends whose files are not read.
    pub(crate) fn of(fault: TakeFault) -> End
        ensures { result ≡ end_of fault }
    {
        match fault {
            TakeFault::Failed => End::Read,
            TakeFault::TooLong => End::TooLong,
            TakeFault::Memory(_) => End::Memory,
        }
    }

    /// The status of the run.
    pub(crate) fn status(&self) -> Status
        ensures { result ≡ status_of self.now }
    {
        match self {
            End::Good => Status::Good,
            End::Usage => Status::Usage,
            End::Refused(refusal) => refusal.status(),
            End::Read => Status::Read,
            End::Write => Status::Write,
            End::Memory => Status::Memory,
            End::TooLong => Status::TooLong,
        }
    }

    /// Writes the line for the error stream; nothing where all is good.
    pub(crate) fn print<E: Sink>(&self, err: &mut E)
        ensures { Says (line_of self.now)
            (E.written err.old) (E.written err.new) (E.faults err.old) (E.faults err.new) }
    {
        match self {
            End::Good => say(err, b""),
            End::Usage => say(err, b"surf: usage\n"),
            End::Refused(refusal) => refusal.print(err),
            End::Read => say(err, b"surf: read failed\n"),
            End::Write => say(err, b"surf: write failed\n"),
            End::Memory => say(err, b"surf: no memory\n"),
            End::TooLong => say(err, b"surf: file too long\n"),
        }
    }
}

/// Writes a line to the error stream. Where that fails, a prefix of it is there, and the status stays.
pub(crate) fn say<E: Sink>(err: &mut E, line: &[u8])
    ensures { Says line.now (E.written err.old) (E.written err.new) (E.faults err.old) (E.faults err.new) }
{
    match write_all(err, line) {
        Ok(()) => {}
        Err(_) => {}
    }
}
