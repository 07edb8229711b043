//! Expressions and items that several groups share.

ghost use Rattle.std.specs.Prelude.{◌≡◌, ◌<◌, ◌≤◌, ◌+◌, ◌-◌, ◌^◌, ◌∷◌, [], OnOk, IfOk};
ghost use Rattle.vl_tree.specs.Read.{read, read_leaf};
ghost use Rattle.vl_tree.specs.Values as values;
ghost use Rattle.vl_tree.specs.declared.tree.Op.TheVariants.{Add, And, Equal};
ghost use Rattle.vl_model.specs.Laws.{with_items};
ghost use Rattle.gen_kit.specs.Families.{in_bits};
ghost use Rattle.gen_kit.specs.Rotate.{is_empty, least_member};

use gen_kit::{LeafWork, cond, net, number, two};
use std::alloc::{AllocError, Global};
use vl_tree::{Const, Expr, LeafItem, Name, Op};

/// Whether an expression of `high + 1` bits is 0.
pub fn empty(alloc: Global, high: u32, e: Expr) -> Result<Expr, AllocError>
    requires { high < 64 }
    ensures { IfOk result (λ r. read r ≡ is_empty high (read e)) }
{
    two(alloc, Op::Equal, e, number(high + 1, 0))
}

/// The least member of the set that a net of `high + 1` bits is.
pub fn least(alloc: Global, high: u32, name: &Name) -> Result<Expr, AllocError>
    requires { high < 64 }
    ensures { IfOk result (λ e. read e ≡ least_member high name.now) }
{
    let left = two(alloc, Op::Sub, number(high + 1, 0), net(alloc, name)?)?;
    two(alloc, Op::And, net(alloc, name)?, left)
}

/// Whether a net of `width` bits is a number.
pub fn equals(alloc: Global, name: &Name, width: u32, value: u64) -> Result<Expr, AllocError>
    requires some { 1 ≤ width }
    requires width { width ≤ 64 }
    requires value { value < 2 ^ width }
    ensures { IfOk result (λ e. read e ≡ values.two Equal (values.net name.now) (in_bits width value)) }
{
    two(alloc, Op::Equal, net(alloc, name)?, number(width, value))
}

/// A net of `high + 1` bits, plus 1.
pub fn plus_one(alloc: Global, high: u32, name: &Name) -> Result<Expr, AllocError>
    requires { high < 64 }
    ensures { IfOk result (λ e. read e ≡ values.two Add (values.net name.now) (in_bits (high + 1) 1)) }
{
    two(alloc, Op::Add, net(alloc, name)?, number(high + 1, 1))
}

/// Two nets, joined by AND.
pub fn both(alloc: Global, a: &Name, b: &Name) -> Result<Expr, AllocError>
    ensures { IfOk result (λ e. read e ≡ values.two And (values.net a.now) (values.net b.now)) }
{
    two(alloc, Op::And, net(alloc, a)?, net(alloc, b)?)
}

/// The word where the bit is 1, and else 0, in `width` bits.
pub fn gated(alloc: Global, width: u32, bit: Expr, word: Expr) -> Result<Expr, AllocError>
    requires some { 1 ≤ width }
    requires width { width ≤ 64 }
    ensures { IfOk result (λ e. read e ≡ values.choose (read bit) (read word) (in_bits width 0)) }
{
    cond(alloc, bit, word, number(width, 0))
}

/// Declares a register of `high + 1` bits.
pub fn register(
    alloc: Global,
    work: &mut LeafWork,
    high: u32,
    name: &Name,
) -> Result<(), AllocError>
    ensures { OnOk result (read_leaf work.new.leaf
        ≡ with_items (read_leaf work.old.leaf) (values.reg high name.now ∷ [])) }
{
    work.push_item(LeafItem::Reg {
        high,
        name: name.copy(alloc)?,
    })
}

/// What a register of `width` bits takes at an edge, and what it begins with.
pub fn clock(
    alloc: Global,
    work: &mut LeafWork,
    name: &Name,
    reset: Const,
    value: Expr,
) -> Result<(), AllocError>
    ensures { OnOk result (read_leaf work.new.leaf
        ≡ with_items (read_leaf work.old.leaf) (values.clocked name.now reset (read value) ∷ [])) }
{
    work.push_item(LeafItem::Clocked {
        name: name.copy(alloc)?,
        reset,
        value,
    })
}

/// What a register of `high + 1` bits that begins at 0 takes at an edge.
pub fn clock_zero(
    alloc: Global,
    work: &mut LeafWork,
    high: u32,
    name: &Name,
    value: Expr,
) -> Result<(), AllocError>
    requires { high < 64 }
    ensures { OnOk result (read_leaf work.new.leaf ≡ with_items (read_leaf work.old.leaf)
        (values.clocked name.now (record { width = high + 1; value = 0 }) (read value) ∷ [])) }
{
    let reset = Const {
        width: high + 1,
        value: 0,
    };
    clock(alloc, work, name, reset, value)
}
