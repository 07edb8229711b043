//! The line that is printed for a fault.

ghost use Rattle.std.specs.Prelude.{◌≡◌, ◌≤◌, length, take, IfSome};
ghost use Rattle.trace_read.specs.Line.{place_of, printed, line_of};

use crate::fault::TraceFault;
use surf_base::{put_at, put_labelled_at};

/// The number of a fault and its line; that memory ran out has neither.
fn place_of(fault: &TraceFault) -> Option<(u64, u64)>
    ensures { result ≡ place_of fault.now }
{
    match fault {
        TraceFault::Syntax { line } => Some((1, *line)),
        TraceFault::Number { line } => Some((2, *line)),
        TraceFault::TileRange { line } => Some((3, *line)),
        TraceFault::DomainUnknown { line } => Some((4, *line)),
        TraceFault::NotHosted { line } => Some((5, *line)),
        TraceFault::WordCount { line } => Some((6, *line)),
        TraceFault::Memory(_) => None,
    }
}

/// Writes the line of a fault with this number and line.
fn put_told(buf: &mut [u8], place: Option<(u64, u64)>) -> usize
    requires { 96 ≤ length buf.old }
    ensures written { take result buf.new ≡ printed place }
    ensures few { result ≤ 96 }
{
    match place {
        None => put_at(buf, 0, b"surf: no memory\n".as_slice()),
        Some((number, line)) => {
            let next = put_labelled_at(buf, 0, b"surf: trace fault ".as_slice(), number);
            let at = put_labelled_at(buf, next, b" line ".as_slice(), line);
            put_at(buf, at, b"\n".as_slice())
        }
    }
}

/// Writes the line of a fault, with its LF, to the front of `buf`, and answers its length in bytes: `surf:
/// trace fault N line L`. Where memory ran out it is `surf: no memory`.
pub fn fault_line(fault: &TraceFault, buf: &mut [u8; 96]) -> usize
    ensures written { take result buf.new ≡ line_of fault.now }
    ensures fits { result ≤ 96 }
{
    put_told(buf, place_of(fault))
}
