//! The line that is printed for a fault.

ghost use Rattle.std.specs.Prelude.{◌≡◌, ◌≤◌, ◌+◌, ◌*◌, ◌++◌, ◌∷◌, [], length, take, IfSome};
ghost use Rattle.std.specs.Fmt.{decimal as decimal_digits};
ghost use Rattle.desc_check.specs.Line.{fault_number, indices_of, head_of, spaced, line_of};

use noc_desc::DescFault;
use surf_base::{put_at, put_labelled_at, put_number_at};

/// The number of a fault; that memory ran out has none.
fn fault_number(fault: &DescFault) -> Option<u64>
    ensures number { result ≡ fault_number fault.now }
    ensures few { IfSome result (λ n. n ≤ 25) }
{
    match fault {
        DescFault::NotToml => Some(1),
        DescFault::KeyUnknown(_, _, _) => Some(2),
        DescFault::KeyMissing(_, _, _) => Some(3),
        DescFault::KeyKind(_, _, _) => Some(4),
        DescFault::Version => Some(5),
        DescFault::Shape => Some(6),
        DescFault::Dims => Some(7),
        DescFault::Stages => Some(8),
        DescFault::Buffer => Some(9),
        DescFault::DomainCount => Some(10),
        DescFault::DomainName(_) => Some(11),
        DescFault::DomainTwice(_, _) => Some(12),
        DescFault::Channels(_) => Some(13),
        DescFault::TileRange(_) => Some(14),
        DescFault::TileTwice(_, _) => Some(15),
        DescFault::HostUnknown(_, _) => Some(16),
        DescFault::HostTwice(_, _) => Some(17),
        DescFault::RangeTile(_) => Some(18),
        DescFault::RangeOrder(_) => Some(19),
        DescFault::RangeOverlap(_, _) => Some(20),
        DescFault::PlacesMany(_) => Some(21),
        DescFault::AttachMany(_) => Some(22),
        DescFault::SlotCount => Some(23),
        DescFault::SlotUnknown(_) => Some(24),
        DescFault::SlotMissing(_) => Some(25),
        DescFault::Memory(_) => None,
    }
}

/// Writes a blank and a number.
fn put_index(buf: &mut [u8], at: usize, value: u64) -> usize
    requires { at + 21 ≤ length buf.old }
    ensures written { take result buf.new ≡ take at buf.old ++ 32 ∷ decimal_digits value }
    ensures few { result ≤ at + 21 }
{
    put_labelled_at(buf, at, b" ".as_slice(), value)
}

/// Writes two numbers, each after a blank.
fn put_pair(buf: &mut [u8], at: usize, i: u64, j: u64) -> usize
    requires { at + 42 ≤ length buf.old }
    ensures written { take result buf.new ≡ take at buf.old ++ spaced (i ∷ j ∷ []) }
    ensures few { result ≤ at + 42 }
{
    let next = put_index(buf, at, i);
    put_index(buf, next, j)
}

/// Writes three numbers, each after a blank.
fn put_three(buf: &mut [u8], at: usize, i: u64, j: u64, k: u64) -> usize
    requires { at + 63 ≤ length buf.old }
    ensures written { take result buf.new ≡ take at buf.old ++ spaced (i ∷ j ∷ k ∷ []) }
    ensures few { result ≤ at + 63 }
{
    let next = put_pair(buf, at, i, j);
    put_index(buf, next, k)
}

/// Writes a fault's indices, each after a blank.
fn put_indices(buf: &mut [u8], at: usize, fault: &DescFault) -> usize
    requires { at + 63 ≤ length buf.old }
    ensures written { take result buf.new ≡ take at buf.old ++ spaced (indices_of fault.now) }
    ensures few { result ≤ at + 63 }
{
    match fault {
        DescFault::KeyUnknown(i, j, k) => put_three(buf, at, *i, *j, *k),
        DescFault::KeyMissing(i, j, k) => put_three(buf, at, *i, *j, *k),
        DescFault::KeyKind(i, j, k) => put_three(buf, at, *i, *j, *k),
        DescFault::DomainName(i) => put_index(buf, at, *i),
        DescFault::DomainTwice(i, j) => put_pair(buf, at, *i, *j),
        DescFault::Channels(i) => put_index(buf, at, *i),
        DescFault::TileRange(i) => put_index(buf, at, *i),
        DescFault::TileTwice(i, j) => put_pair(buf, at, *i, *j),
        DescFault::HostUnknown(i, k) => put_pair(buf, at, *i, *k),
        DescFault::HostTwice(i, k) => put_pair(buf, at, *i, *k),
        DescFault::RangeTile(i) => put_index(buf, at, *i),
        DescFault::RangeOrder(i) => put_index(buf, at, *i),
        DescFault::RangeOverlap(i, j) => put_pair(buf, at, *i, *j),
        DescFault::PlacesMany(count) => put_index(buf, at, *count),
        DescFault::AttachMany(count) => put_index(buf, at, *count),
        DescFault::SlotUnknown(i) => put_index(buf, at, *i),
        DescFault::SlotMissing(i) => put_index(buf, at, *i),
        _ => at,
    }
}

/// Writes what the line begins with.
fn put_head(buf: &mut [u8], number: Option<u64>) -> usize
    requires room { 44 ≤ length buf.old }
    requires number { IfSome number (λ n. n ≤ 25) }
    ensures written { take result buf.new ≡ head_of number }
    ensures few { result ≤ 26 }
{
    match number {
        None => put_at(buf, 0, b"surf: no memory".as_slice()),
        Some(number) => {
            let at = put_at(buf, 0, b"surf: description fault ".as_slice());
            put_number_at(buf, at, number)
        }
    }
}

/// Writes the line to the front of a buffer that has room for it.
pub(crate) fn put_line(buf: &mut [u8], fault: &DescFault) -> usize
    requires { 96 ≤ length buf.old }
    ensures written { take result buf.new ≡ line_of fault.now }
    ensures few { result ≤ 90 }
{
    let head = put_head(buf, fault_number(fault));
    let at = put_indices(buf, head, fault);
    put_at(buf, at, b"\n".as_slice())
}
