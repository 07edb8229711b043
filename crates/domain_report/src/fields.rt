//! Parts of lines.

ghost use Rattle.std.specs.Prelude.{◌≡◌, ◌≤◌, ◌+◌, ◌++◌, ◌∷◌, [], codes, length, take};
ghost use Rattle.surf_base.specs.Block.{Writes, stream};
ghost use Rattle.surf_base.specs.Numbers.{hex_word};
ghost use Rattle.noc_model.specs.Report.{bit_byte, kind_bytes};

use noc_model::{Ejected, Kind};
use surf_base::{Block, Failed, Sink, hex8, put_at};

/// Writes a label and a word in hexadecimal at offset `at`, and answers the offset after them.
fn put_word_at(buf: &mut [u8], at: usize, label: &[u8], word: u32) -> usize
    requires { at + length label.now + 8 ≤ length buf.old }
    ensures written { take result buf.new ≡ take at buf.old ++ label.now ++ hex_word word }
    ensures count { result ≡ at + length label.now + 8 }
    ensures len { length buf.new ≡ length buf.old }
{
    let mut digits = [0; 8];
    hex8(word, &mut digits);
    let next = put_at(buf, at, label);
    put_at(buf, next, &digits)
}

/// 0 or 1, as a digit.
fn bit(value: bool) -> u8
    ensures { result ≡ bit_byte value }
{
    if value { b'1' } else { b'0' }
}

/// Writes a blank and what is said of a flit that was got at offset `at`, and answers the offset after it.
fn put_got_at(buf: &mut [u8], at: usize, flit: Ejected) -> usize
    requires { at + 16 ≤ length buf.old }
    ensures written { take result buf.new ≡ take at buf.old ++ 32 ∷ kind_bytes (Kind.Got flit) }
    ensures few { result ≤ at + 16 }
    ensures len { length buf.new ≡ length buf.old }
{
    let head = bit(flit.head);
    let tail = bit(flit.tail);
    let label = [b' ', b'g', b'o', b't', b' ', head, tail, b' '];
    put_word_at(buf, at, &label, flit.payload)
}

/// Writes a blank, the word of the kind and what it carries at offset `at`, and answers the offset after them.
pub(crate) fn put_kind_at(buf: &mut [u8], at: usize, kind: Kind) -> usize
    requires { at + 16 ≤ length buf.old }
    ensures written { take result buf.new ≡ take at buf.old ++ 32 ∷ kind_bytes kind }
    ensures few { result ≤ at + 16 }
    ensures len { length buf.new ≡ length buf.old }
{
    match kind {
        Kind::Take { payload } => put_word_at(buf, at, b" take ", payload),
        Kind::Wait { payload } => put_word_at(buf, at, b" wait ", payload),
        Kind::Drop => put_at(buf, at, b" drop"),
        Kind::Got { flit } => put_got_at(buf, at, flit),
    }
}

/// Puts the line of the domain's name.
pub(crate) fn put_title<O: Sink>(block: &mut Block, out: &mut O, name: &[u8]) -> Result<(), Failed>
    ensures { Writes result (stream (O.written out.old) block.old (O.faults out.old))
        (stream (O.written out.new) block.new (O.faults out.new)) (codes "domain " ++ name.now ++ 10 ∷ []) }
{
    block.put(out, b"domain ")?;
    block.put(out, name)?;
    block.put(out, b"\n")
}
