//! Builders of expressions.

ghost use Rattle.std.specs.Prelude.{◌≡◌, ◌+◌, ◌-◌, ◌/◌, ◌%◌, ◌<◌, ◌≤◌, ◌^◌, IfOk};
ghost use Rattle.vl_tree.specs.Read.{read, reads};
ghost use Rattle.vl_tree.specs.Values as values;
ghost use Rattle.vl_model.specs.Meaning.{width_of, widths_of, value_of, values_of, op_width, op_value, chosen};
ghost use Rattle.gen_kit.specs.Builders.{depth_of, depths_of, greater, HasValue, HasWidth};

use sqlite_items::{Boxed, Items};
use std::alloc::{AllocError, Global};
use vl_tree::{Const, Expr, Name, Op};

/// A net: a port, a wire or a register.
///
/// # Errors
///
/// Memory ran out.
pub fn net(alloc: Global, name: &Name) -> Result<Expr, AllocError>
    ensures form { IfOk result (λ e. read e ≡ values.net name.now) }
    ensures value { IfOk result (λ e. HasValue (read e) (λ w v. v.net name.now)) }
    ensures width { IfOk result (λ e. HasWidth (read e) (λ w. w.net name.now)) }
    ensures depth { IfOk result (λ e. depth_of (read e) ≡ 1) }
{
    Ok(Expr::Net(name.copy(alloc)?))
}

/// Bit `i` of a net, bit 0 being the least.
///
/// # Errors
///
/// Memory ran out.
pub fn bit(alloc: Global, name: &Name, i: u32) -> Result<Expr, AllocError>
    ensures form { IfOk result (λ e. read e ≡ values.bit name.now i) }
    ensures value { IfOk result (λ e. HasValue (read e) (λ w v. v.net name.now / 2 ^ i % 2)) }
    ensures width { IfOk result (λ e. HasWidth (read e) (λ w. 1)) }
    ensures depth { IfOk result (λ e. depth_of (read e) ≡ 1) }
{
    Ok(Expr::Bit(name.copy(alloc)?, i))
}

/// The number `value` in `width` bits.
pub fn number(width: u32, value: u64) -> Expr
    requires some { 1 ≤ width }
    requires width { width ≤ 64 }
    requires value { value < 2 ^ width }
    ensures form { read result ≡ values.number (record { width = width; value = value }) }
    ensures value { HasValue (read result) (λ w v. value) }
    ensures width { HasWidth (read result) (λ w. width) }
    ensures depth { depth_of (read result) ≡ 1 }
{
    Expr::Number(Const { width, value })
}

/// The complement, bit by bit.
///
/// # Errors
///
/// Memory ran out.
pub fn not(alloc: Global, a: Expr) -> Result<Expr, AllocError>
    ensures form { IfOk result (λ e. read e ≡ values.not (read a)) }
    ensures value { IfOk result
        (λ e. HasValue (read e) (λ w v. 2 ^ width_of w (read a) - 1 - value_of w v (read a))) }
    ensures width { IfOk result (λ e. HasWidth (read e) (λ w. width_of w (read a))) }
    ensures depth { IfOk result (λ e. depth_of (read e) ≡ depth_of (read a) + 1) }
{
    Ok(Expr::Not(Boxed::new(alloc, a)?))
}

/// An operator between two expressions.
///
/// # Errors
///
/// Memory ran out.
pub fn two(alloc: Global, op: Op, a: Expr, b: Expr) -> Result<Expr, AllocError>
    ensures form { IfOk result (λ e. read e ≡ values.two op (read a) (read b)) }
    ensures value { IfOk result (λ e. HasValue (read e)
        (λ w v. op_value op (width_of w (read a)) (value_of w v (read a)) (value_of w v (read b)))) }
    ensures width { IfOk result (λ e. HasWidth (read e) (λ w. op_width op (width_of w (read a)))) }
    ensures depth { IfOk result (λ e. depth_of (read e) ≡ greater (depth_of (read a)) (depth_of (read b)) + 1) }
{
    Ok(Expr::Two(op, Boxed::new(alloc, a)?, Boxed::new(alloc, b)?))
}

/// `a` where `c` is 1, and `b` where it is 0.
///
/// # Errors
///
/// Memory ran out.
pub fn cond(alloc: Global, c: Expr, a: Expr, b: Expr) -> Result<Expr, AllocError>
    ensures form { IfOk result (λ e. read e ≡ values.choose (read c) (read a) (read b)) }
    ensures value { IfOk result (λ e. HasValue (read e)
        (λ w v. chosen (value_of w v (read c)) (value_of w v (read a)) (value_of w v (read b)))) }
    ensures width { IfOk result (λ e. HasWidth (read e) (λ w. width_of w (read a))) }
    ensures depth { IfOk result
        (λ e. depth_of (read e) ≡ greater (depth_of (read c)) (greater (depth_of (read a)) (depth_of (read b))) + 1) }
{
    let c = Boxed::new(alloc, c)?;
    let a = Boxed::new(alloc, a)?;
    Ok(Expr::If(c, a, Boxed::new(alloc, b)?))
}

/// The bits of a net from number `high` down to number `low`.
///
/// # Errors
///
/// Memory ran out.
pub fn part(alloc: Global, name: &Name, high: u32, low: u32) -> Result<Expr, AllocError>
    requires { low ≤ high }
    ensures form { IfOk result (λ e. read e ≡ values.part name.now high low) }
    ensures value { IfOk result
        (λ e. HasValue (read e) (λ w v. v.net name.now / 2 ^ low % 2 ^ (high - low + 1))) }
    ensures width { IfOk result (λ e. HasWidth (read e) (λ w. high - low + 1)) }
    ensures depth { IfOk result (λ e. depth_of (read e) ≡ 1) }
{
    Ok(Expr::Part(name.copy(alloc)?, high, low))
}

/// The word of a memory at an index.
///
/// # Errors
///
/// Memory ran out.
pub fn word(alloc: Global, name: &Name, index: Expr) -> Result<Expr, AllocError>
    ensures form { IfOk result (λ e. read e ≡ values.word name.now (read index)) }
    ensures value { IfOk result (λ e. HasValue (read e) (λ w v. v.word name.now (value_of w v (read index)))) }
    ensures width { IfOk result (λ e. HasWidth (read e) (λ w. w.word name.now)) }
    ensures depth { IfOk result (λ e. depth_of (read e) ≡ depth_of (read index) + 1) }
{
    let name = name.copy(alloc)?;
    Ok(Expr::Word(name, Boxed::new(alloc, index)?))
}

/// These expressions in a row, the first in the most significant bits.
pub fn cat(parts: Items<Expr>) -> Expr
    ensures form { read result ≡ values.cat (reads parts) }
    ensures value { HasValue (read result) (λ w v. values_of w v (reads parts)) }
    ensures width { HasWidth (read result) (λ w. widths_of w (reads parts)) }
    ensures depth { depth_of (read result) ≡ depths_of (reads parts) + 1 }
{
    Expr::Cat(parts)
}
