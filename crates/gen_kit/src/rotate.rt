//! The round-robin choice over a set that is a number: one bit for each request.

ghost use Rattle.std.specs.Prelude.{◌≡◌, ◌<◌, ◌+◌, ◌-◌, ◌^◌, ◌∷◌, [], ◌++◌, OnOk, IfOk};
ghost use Rattle.vl_tree.specs.Read.{read, read_leaf};
ghost use Rattle.vl_tree.specs.Values as values;
ghost use Rattle.vl_model.specs.Laws.{with_items};
ghost use Rattle.gen_kit.specs.Families.{defined};
ghost use Rattle.gen_kit.specs.Rotate.{is_empty, upper_requests, least_member, behind_member, rotate_group};
ghost use Rattle.gen_kit.specs.RotateOf.{names_of};

use crate::build::{cond, net, not, number, two};
use crate::work::LeafWork;
use std::alloc::{AllocError, Global};
use vl_tree::{Const, Expr, LeafItem, Name, Op};

/// The nets of a round-robin choice: what is asked for, the pointer, the set that is chosen from, and the winner, of
/// `high + 1` bits each.
///
/// The pointer is the set of the requests that are not below it. The winner is one bit, or 0 where nothing is asked
/// for. Dally and Towles, section 18.4.2, describe the arbiter.
#[derive(Drop)]
pub struct Rotate {
    pub request: Name,
    pub pointer: Name,
    pub some: Name,
    pub winner: Name,
    pub high: u32,
}

/// Whether an expression of `high + 1` bits is 0.
fn empty(alloc: Global, high: u32, e: Expr) -> Result<Expr, AllocError>
    requires { high < 64 }
    ensures { IfOk result (λ r. read r ≡ is_empty high (read e)) }
{
    two(alloc, Op::Equal, e, number(high + 1, 0))
}

/// `high + 1` bits that are 1.
fn ones(high: u32) -> u64
    requires high { high < 64 }
    ensures { result ≡ 2 ^ (high + 1) - 1 }
{
    u64::MAX >> (63 - high)
}

fn least(alloc: Global, high: u32, name: &Name) -> Result<Expr, AllocError>
    requires { high < 64 }
    ensures { IfOk result (λ e. read e ≡ least_member high name.now) }
{
    let left = two(alloc, Op::Sub, number(high + 1, 0), net(alloc, name)?)?;
    two(alloc, Op::And, net(alloc, name)?, left)
}

fn behind(alloc: Global, high: u32, name: &Name) -> Result<Expr, AllocError>
    requires { high < 64 }
    ensures { IfOk result (λ e. read e ≡ behind_member high name.now) }
{
    let below = two(alloc, Op::Sub, net(alloc, name)?, number(high + 1, 1))?;
    not(alloc, two(alloc, Op::Or, net(alloc, name)?, below)?)
}

impl Rotate {
    fn upper(&self, alloc: Global) -> Result<Expr, AllocError>
        ensures { IfOk result (λ e. read e ≡ upper_requests (names_of self.now)) }
    {
        let pointer = net(alloc, &self.pointer)?;
        two(alloc, Op::And, pointer, net(alloc, &self.request)?)
    }

    /// Declares the pointer.
    ///
    /// # Errors
    ///
    /// Memory ran out.
    pub fn heads(&self, alloc: Global, work: &mut LeafWork) -> Result<(), AllocError>
        ensures { OnOk result (read_leaf work.new.leaf
            ≡ with_items (read_leaf work.old.leaf) (rotate_group (names_of self.now) self.now.high).heads) }
    {
        work.push_item(LeafItem::Reg {
            high: self.high,
            name: self.pointer.copy(alloc)?,
        })
    }

    /// Adds the nets, of which the last shows the winner.
    ///
    /// # Errors
    ///
    /// Memory ran out.
    pub fn nets(&self, alloc: Global, work: &mut LeafWork) -> Result<(), AllocError>
        requires { self.now.high < 64 }
        ensures { OnOk result (read_leaf work.new.leaf
            ≡ with_items (read_leaf work.old.leaf) (rotate_group (names_of self.now) self.now.high).nets) }
    {
        let test = empty(alloc, self.high, self.upper(alloc)?)?;
        let all = net(alloc, &self.request)?;
        let value = cond(alloc, test, all, self.upper(alloc)?)?;
        work.define(alloc, self.high, &self.some, value)?;
        let value = least(alloc, self.high, &self.some)?;
        work.define(alloc, self.high, &self.winner, value)
    }

    /// Adds the pointer's move: behind the winner, if there is one.
    ///
    /// # Errors
    ///
    /// Memory ran out.
    pub fn moves(&self, alloc: Global, work: &mut LeafWork) -> Result<(), AllocError>
        requires { self.now.high < 64 }
        ensures { OnOk result (read_leaf work.new.leaf
            ≡ with_items (read_leaf work.old.leaf) (rotate_group (names_of self.now) self.now.high).moves) }
    {
        let test = empty(alloc, self.high, net(alloc, &self.winner)?)?;
        let stays = net(alloc, &self.pointer)?;
        let value = cond(alloc, test, stays, behind(alloc, self.high, &self.winner)?)?;
        work.push_item(LeafItem::Clocked {
            name: self.pointer.copy(alloc)?,
            reset: Const {
                width: self.high + 1,
                value: ones(self.high),
            },
            value,
        })
    }
}
