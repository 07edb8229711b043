//! The line that is printed for a fault of a text.

ghost use Rattle.std.specs.Prelude.{◌≡◌, ◌≤◌, length, take};
ghost use Rattle.surf_cli.specs.TextLine.{place_of, printed, line_of};

use surf_base::{put_at, put_labelled_at};
use vl_tree::TextFault;

/// The number of a fault, and its offset, item or position; that memory ran out has neither.
fn place_of(fault: &TextFault) -> Option<(u64, u64)>
    ensures { result ≡ place_of fault.now }
{
    match fault {
        TextFault::Byte(i) => Some((1, *i)),
        TextFault::Token(i) => Some((2, *i)),
        TextFault::Grammar(i) => Some((3, *i)),
        TextFault::NameTwice(i) => Some((4, *i)),
        TextFault::NameUnknown(i) => Some((5, *i)),
        TextFault::Width(i) => Some((6, *i)),
        TextFault::Order(i) => Some((7, *i)),
        TextFault::Driver(i) => Some((8, *i)),
        TextFault::Mealy(i) => Some((9, *i)),
        TextFault::MemSize(i) => Some((10, *i)),
        TextFault::Instance(i) => Some((11, *i)),
        TextFault::Ports(i) => Some((12, *i)),
        TextFault::Memory(_) => None,
    }
}

/// Writes the line of a fault with this number and place.
fn put_printed(buf: &mut [u8], place: Option<(u64, u64)>) -> usize
    requires { 96 ≤ length buf.old }
    ensures written { take result buf.new ≡ printed place }
    ensures few { result ≤ 96 }
{
    match place {
        None => put_at(buf, 0, b"surf: no memory\n".as_slice()),
        Some((number, at)) => {
            let next = put_labelled_at(buf, 0, b"surf: text fault ".as_slice(), number);
            let end = put_labelled_at(buf, next, b" at ".as_slice(), at);
            put_at(buf, end, b"\n".as_slice())
        }
    }
}

/// Writes the line of a fault, with its LF, to the front of `buf`, and answers its length in bytes: `surf: text
/// fault N at I`. Where memory ran out it is `surf: no memory`.
pub(crate) fn text_fault_line(fault: &TextFault, buf: &mut [u8; 96]) -> usize
    ensures written { take result buf.new ≡ line_of fault.now }
    ensures fits { result ≤ 96 }
{
    put_printed(buf, place_of(fault))
}
