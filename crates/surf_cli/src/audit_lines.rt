//! The lines of an audit.

ghost use Rattle.std.specs.Prelude.{◌≡◌, ◌≤◌, length, take};
ghost use Rattle.surf_cli.specs.AuditLines.{isolated_text, leak_text};

use noc_model::Plan;
use surf_base::{put_at, put_labelled_at};

/// Writes the line of a text that isolates the plan's domains to the front of `buf`, and answers its length in bytes.
pub(crate) fn isolated_line(plan: &Plan, buf: &mut [u8]) -> usize
    requires { 96 ≤ length buf.old }
    ensures written { take result buf.new ≡ isolated_text plan.now }
    ensures fits { result ≤ 96 }
{
    let domains = u64::from(plan.domains());
    let phases = u64::from(plan.slots());
    let next = put_labelled_at(buf, 0, b"isolated domains ".as_slice(), domains);
    let end = put_labelled_at(buf, next, b" phases ".as_slice(), phases);
    put_at(buf, end, b"\n".as_slice())
}

/// Writes the line of a leak to the front of `buf`, and answers its length in bytes.
fn put_leak(buf: &mut [u8], port: u32, phase: u32, foreign: u32) -> usize
    requires { 96 ≤ length buf.old }
    ensures written { take result buf.new ≡ leak_text port phase foreign }
    ensures few { result ≤ 96 }
{
    let second = put_labelled_at(buf, 0, b"surf: leak port ".as_slice(), u64::from(port));
    let third = put_labelled_at(buf, second, b" phase ".as_slice(), u64::from(phase));
    let end = put_labelled_at(buf, third, b" domain ".as_slice(), u64::from(foreign));
    put_at(buf, end, b"\n".as_slice())
}

/// Writes the line of a leak, with its LF, to the front of `buf`, and answers its length in bytes: `surf: leak port P
/// phase F domain E`.
pub(crate) fn leak_line(port: u32, phase: u32, foreign: u32, buf: &mut [u8; 96]) -> usize
    ensures written { take result buf.new ≡ leak_text port phase foreign }
    ensures fits { result ≤ 96 }
{
    put_leak(buf, port, phase, foreign)
}
