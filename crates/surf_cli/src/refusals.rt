//! Why the contents of the files are refused.

ghost use Rattle.std.specs.Prelude.{◌≡◌};
ghost use Rattle.surf_cli.specs.Lines.{status_of_refusal, line_of_refusal, Says};

use crate::audit_lines::leak_line;
use crate::statuses::{Status, say};
use crate::text_line::text_fault_line;
use noc_desc::DescFault;
use surf_base::Sink;
use trace_read::TraceFault;
use vl_tree::TextFault;

/// Why the contents of the files are refused.
#[derive(Drop)]
pub(crate) enum Refusal {
    /// The description's first fault.
    Description(DescFault),
    /// The description has no domain of the name.
    NoDomain,
    /// The text's first fault.
    Text(TextFault),
    /// The trace's first fault.
    Trace(TraceFault),
    /// The text's first leak: the position of the port, the phase, and the other domain.
    Leak { port: u32, phase: u32, foreign: u32 },
    /// The description's network has too many places for a form.
    Size,
}

impl Refusal {
    /// The status of the run.
    pub(crate) fn status(&self) -> Status
        ensures { result ≡ status_of_refusal self.now }
    {
        match self {
            Refusal::Description(_) => Status::Description,
            Refusal::NoDomain => Status::Domain,
            Refusal::Text(_) => Status::Text,
            Refusal::Trace(_) => Status::Trace,
            Refusal::Leak { .. } => Status::Leak,
            Refusal::Size => Status::Size,
        }
    }

    /// Writes the line for the error stream.
    pub(crate) fn print<E: Sink>(&self, err: &mut E)
        ensures { Says (line_of_refusal self.now)
            (E.written err.old) (E.written err.new) (E.faults err.old) (E.faults err.new) }
    {
        match self {
            Refusal::Description(fault) => print_fault(fault, err),
            Refusal::NoDomain => say(err, b"surf: no such domain\n"),
            Refusal::Text(fault) => print_text_fault(fault, err),
            Refusal::Trace(fault) => print_trace_fault(fault, err),
            Refusal::Leak {
                port,
                phase,
                foreign,
            } => print_leak(*port, *phase, *foreign, err),
            Refusal::Size => say(err, b"surf: too many places\n"),
        }
    }
}

/// Writes the line of a description's fault to the error stream.
fn print_fault<E: Sink>(fault: &DescFault, err: &mut E)
    ensures { Says (line_of_refusal (Refusal.Description fault.now))
        (E.written err.old) (E.written err.new) (E.faults err.old) (E.faults err.new) }
{
    let mut line = [0; 96];
    let len = desc_check::fault_line(fault, &mut line);
    say(err, &line[..len]);
}

/// Writes the line of a text's fault to the error stream.
fn print_text_fault<E: Sink>(fault: &TextFault, err: &mut E)
    ensures { Says (line_of_refusal (Refusal.Text fault.now))
        (E.written err.old) (E.written err.new) (E.faults err.old) (E.faults err.new) }
{
    let mut line = [0; 96];
    let len = text_fault_line(fault, &mut line);
    say(err, &line[..len]);
}

/// Writes the line of a trace's fault to the error stream.
fn print_trace_fault<E: Sink>(fault: &TraceFault, err: &mut E)
    ensures { Says (line_of_refusal (Refusal.Trace fault.now))
        (E.written err.old) (E.written err.new) (E.faults err.old) (E.faults err.new) }
{
    let mut line = [0; 96];
    let len = trace_read::fault_line(fault, &mut line);
    say(err, &line[..len]);
}

/// Writes the line of a leak to the error stream.
fn print_leak<E: Sink>(port: u32, phase: u32, foreign: u32, err: &mut E)
    ensures { Says (line_of_refusal (Refusal.Leak port phase foreign))
        (E.written err.old) (E.written err.new) (E.faults err.old) (E.faults err.new) }
{
    let mut line = [0; 96];
    let len = leak_line(port, phase, foreign, &mut line);
    say(err, &line[..len]);
}
