//! Numbers, constants, operators and ranges.

ghost use Rattle.std.specs.Prelude.{◌≡◌, ◌++◌, OnOk, decimal};
ghost use Rattle.vl_tree.specs.Layout.{op_text, const_text, ranged_text};

use itoa::Buffer;
use std::alloc::AllocError;
use vl_tree::{Const, Op};

/// Adds bytes at the end.
pub fn put(out: &mut Vec<u8>, bytes: &[u8]) -> Result<(), AllocError>
    ensures { OnOk result (out.new.items ≡ out.old.items ++ bytes.now) }
{
    out.extend_from_slice(bytes)
}

/// Adds a number in decimal.
fn number(out: &mut Vec<u8>, v: u64) -> Result<(), AllocError>
    ensures { OnOk result (out.new.items ≡ out.old.items ++ decimal v) }
{
    let mut buffer = Buffer::new();
    put(out, buffer.format(v).as_bytes())
}

/// A number of at most 32 bits in decimal.
pub fn small(out: &mut Vec<u8>, v: u32) -> Result<(), AllocError>
    ensures { OnOk result (out.new.items ≡ out.old.items ++ decimal v) }
{
    number(out, u64::from(v))
}

/// A constant: its width, and its value in decimal.
pub fn constant(out: &mut Vec<u8>, k: &Const) -> Result<(), AllocError>
    ensures { OnOk result (out.new.items ≡ out.old.items ++ const_text k.now) }
{
    small(out, k.width)?;
    put(out, b"'d")?;
    number(out, k.value)
}

/// An operator between spaces.
pub fn op(out: &mut Vec<u8>, o: Op) -> Result<(), AllocError>
    ensures { OnOk result (out.new.items ≡ out.old.items ++ op_text o) }
{
    match o {
        Op::Add => put(out, b" + "),
        Op::Sub => put(out, b" - "),
        Op::And => put(out, b" & "),
        Op::Or => put(out, b" | "),
        Op::Xor => put(out, b" ^ "),
        Op::Equal => put(out, b" == "),
        Op::Less => put(out, b" < "),
    }
}

/// A range down to 0, and the name that it is for.
pub fn ranged(out: &mut Vec<u8>, high: u32, name: &[u8]) -> Result<(), AllocError>
    ensures { OnOk result (out.new.items ≡ out.old.items ++ ranged_text high name.now) }
{
    put(out, b"[")?;
    small(out, high)?;
    put(out, b":0] ")?;
    put(out, name)
}
