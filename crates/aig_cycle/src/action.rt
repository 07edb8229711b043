//! What an action computes.

ghost use Rattle.std.specs.Prelude.{◌≡◌, ℕ, ◌%◌, ◌^◌, ◌≤◌, Bool, false, length, slice_index, slice_index_or, [], IfOk};
ghost use Rattle.aig_model.specs.Form.{word};
ghost use Rattle.aig_model.specs.Netlist.{Grows, MeansWord, settle_gates};
ghost use Rattle.vl_model.specs.Meaning.{chosen};
ghost use Rattle.vl_run.specs.Step.{combined, action_value, word_at};
ghost use Rattle.aig_cycle.specs.Wires.{numbers, rows, IsWord, AreWords, AreRows, IsMask, IsScale, IsPlain};
ghost use Rattle.aig_cycle.specs.Short.{lengths, IsShort};

use aig_gates::{Netlist, Row, Way, Word, literals, number_word, part, single, width};
use std::alloc::{AllocError, Global};
use surf_base::Seq;
use vl_run::Action;
use vl_tree::Op;

/// By how many bits the scale moves.
fn shift(scale: u64) -> u32
    requires { IsScale scale }
    ensures { (w : ℕ) → w ≤ 64 → scale ≡ 2 ^ w % 2 ^ 64 → result ≡ w }
{
    if scale == 0 {
        64
    } else {
        scale.trailing_zeros()
    }
}

/// An operator between two words.
fn two(
    netlist: &mut Netlist,
    alloc: Global,
    op: Op,
    mask: u64,
    left: &[u64],
    right: &[u64],
) -> Result<Word, AllocError>
    requires mask { IsMask mask }
    requires left { IsWord netlist.now left.now }
    requires right { IsWord netlist.now right.now }
    ensures grows { Grows netlist.old netlist.new }
    ensures narrow { IfOk result (λ r. length r ≤ 64) }
    ensures value { IfOk result (λ r. MeansWord netlist.new r (λ v. let s = settle_gates netlist.old v in combined op mask (word s left.now) (word s right.now))) }
{
    let count = width(mask) as usize;
    match op {
        Op::Add => netlist.add(alloc, left, right, count),
        Op::Sub => netlist.subtract(alloc, left, right, count),
        Op::And => netlist.combine(alloc, Way::And, left, right),
        Op::Or => netlist.combine(alloc, Way::Or, left, right),
        Op::Xor => netlist.combine(alloc, Way::Xor, left, right),
        Op::Equal => {
            let equal = netlist.equal(alloc, left, right)?;
            single(alloc, equal)
        }
        Op::Less => {
            let less = netlist.less(alloc, left, right)?;
            single(alloc, less)
        }
    }
}

/// The first where the test is not 0, and else the second.
fn choice(
    netlist: &mut Netlist,
    alloc: Global,
    test: &[u64],
    first: &[u64],
    second: &[u64],
) -> Result<Word, AllocError>
    requires test { IsWord netlist.now test.now }
    requires first { IsWord netlist.now first.now }
    requires second { IsWord netlist.now second.now }
    ensures grows { Grows netlist.old netlist.new }
    ensures narrow { IfOk result (λ r. length r ≤ 64) }
    ensures value { IfOk result (λ r. MeansWord netlist.new r (λ v. let s = settle_gates netlist.old v in chosen (word s test.now) (word s first.now) (word s second.now))) }
{
    let some = netlist.any(test)?;
    let bits = netlist.combine(alloc, Way::Choose(some), first, second)?;
    Ok(bits)
}

/// The memory at a place, without words behind the last.
pub(crate) fn memory(memories: &[Row], place: usize) -> &[Word]
    ensures { result.now ≡ slice_index_or memories.now place [] }
{
    match memories.get(place) {
        Some(row) => row.as_slice(),
        None => &[],
    }
}

/// What an action computes, as a word.
pub(crate) fn value(
    netlist: &mut Netlist,
    alloc: Global,
    action: Action,
    nets: &[Word],
    memories: &[Row],
) -> Result<Word, AllocError>
    requires plain { IsPlain action }
    requires nets { AreWords netlist.now nets.now }
    requires memories { AreRows netlist.now memories.now }
    ensures grows { Grows netlist.old netlist.new }
    ensures word { IfOk result (λ r. IsWord netlist.new r) }
    ensures value { IfOk result (λ r. (v : ℕ → Bool) → v 0 ≡ false → let s = settle_gates netlist.old v in
        word (settle_gates netlist.new v) r ≡ action_value (word_at (rows s memories.now)) (slice_index (numbers s nets.now)) action) }
    ensures short { IfOk result (λ r. (k : ℕ) → IsShort (lengths nets.now) action k → (netlist.new ≡ netlist.old) × (length r ≤ k)) }
{
    netlist.known();
    match action {
        Action::Number(number) => number_word(alloc, number),
        Action::Copy(from) => Seq::from_slice(alloc, literals(nets, from)),
        Action::Bits { from, low, mask } => {
            part(
                alloc,
                literals(nets, from),
                low as usize,
                width(mask) as usize,
            )
        }
        Action::Not { from, mask } => {
            netlist.minus(alloc, literals(nets, from), width(mask) as usize)
        }
        Action::Two {
            op,
            mask,
            left,
            right,
        } => {
            two(
                netlist,
                alloc,
                op,
                mask,
                literals(nets, left),
                literals(nets, right),
            )
        }
        Action::Choose {
            test,
            first,
            second,
        } => {
            choice(
                netlist,
                alloc,
                literals(nets, test),
                literals(nets, first),
                literals(nets, second),
            )
        }
        Action::Load {
            memory: place,
            index,
        } => { netlist.select(alloc, memory(memories, place), literals(nets, index)) }
        Action::Join { front, scale, back } => {
            netlist.join(
                alloc,
                literals(nets, front),
                literals(nets, back),
                shift(scale) as usize,
            )
        }
    }
}
