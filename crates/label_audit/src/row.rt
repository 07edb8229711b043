//! Rows of bits, from bit 0 up, and the operators on them.
ghost use Rattle.std.specs.Prelude.{◌≡◌, ◌==◌, ◌≤◌, ◌^◌, ◌++◌, IfOk};
ghost use Rattle.std.specs.Int.{bit_at};
ghost use Rattle.label_audit.specs.Bits.{domains_in, label_in};
ghost use Rattle.label_audit.specs.Rows.{row_in, bit_in, first_bits, row_sources, constant_row, part_row, not_row, choice_row, word_row, store_row};

use crate::bit::{Bit, both, choice, domains, not, write};
use std::alloc::{AllocError, Global};
use surf_base::Seq;

/// The bits of a number, from bit 0 up.
pub(crate) type Row = Seq<Bit>;

/// Bit `i`, which is known to be 0 behind the last.
#[tactic(auto, using(crate::proofs::Rows::rows))]
pub(crate) fn bit(row: &[Bit], i: usize) -> Bit
    ensures { label_in result ≡ bit_in (row_in row.now) i }
{
    match row.get(i) {
        Some(bit) => *bit,
        None => Bit::Known(false),
    }
}

/// `count` bits of a number from bit `low` on.
#[tactic(auto, using(crate::proofs::Rows::rows))]
pub(crate) fn part(alloc: Global, row: &[Bit], low: u32, count: usize) -> Result<Row, AllocError>
    requires { count ≤ 2 ^ 32 }
    ensures { IfOk result (λ v. row_in v ≡ part_row (row_in row.now) low count) }
{
    let mut bits = Row::new(alloc);
    for i in 0..count {
        bits.push(bit(row, low as usize + i))?;
    }
    Ok(bits)
}

/// Whether bit `i` of a number is 1.
#[tactic(auto, using(crate::proofs::Rows::rows))]
pub(crate) fn is_one(value: u64, i: usize) -> bool
    ensures { result ≡ (bit_at value i == 1) }
{
    i < 64 && (value >> i) % 2 == 1
}

/// The first bits of a constant.
#[tactic(auto, using(crate::proofs::Rows::rows))]
pub(crate) fn constant(alloc: Global, value: u64, count: usize) -> Result<Row, AllocError>
    ensures { IfOk result (λ v. row_in v ≡ constant_row value count) }
{
    let mut bits = Row::new(alloc);
    for i in 0..count {
        bits.push(Bit::Known(is_one(value, i)))?;
    }
    Ok(bits)
}

/// This many bits, each like this one.
#[tactic(auto, using(crate::proofs::Rows::rows))]
pub(crate) fn like(alloc: Global, bit: Bit, count: usize) -> Result<Row, AllocError>
    ensures { IfOk result (λ v. row_in v ≡ first_bits (λ i. label_in bit) count) }
{
    let mut bits = Row::new(alloc);
    for i in 0..count {
        bits.push(bit)?;
    }
    Ok(bits)
}

/// The domains that the bits may depend on.
#[tactic(auto, using(crate::proofs::Rows::rows))]
pub(crate) fn all_domains(row: &[Bit]) -> u16
    ensures { domains_in result ≡ row_sources (row_in row.now) }
{
    let mut mask = 0;
    for i in 0..row.len() {
        mask |= domains(bit(row, i));
    }
    mask
}

/// The complement, bit by bit.
#[tactic(auto, using(crate::proofs::Rows::rows))]
pub(crate) fn complement(alloc: Global, row: &[Bit]) -> Result<Row, AllocError>
    ensures { IfOk result (λ v. row_in v ≡ not_row (row_in row.now)) }
{
    let mut bits = Row::new(alloc);
    for i in 0..row.len() {
        bits.push(not(bit(row, i)))?;
    }
    Ok(bits)
}

/// The first operand where the test is 1, and else the second.
#[tactic(auto, using(crate::proofs::Rows::rows))]
pub(crate) fn chosen(alloc: Global, test: Bit, x: &[Bit], y: &[Bit]) -> Result<Row, AllocError>
    ensures { IfOk result (λ v. row_in v ≡ choice_row (label_in test) (row_in x.now) (row_in y.now)) }
{
    let mut bits = Row::new(alloc);
    for i in 0..x.len() {
        bits.push(choice(test, bit(x, i), bit(y, i)))?;
    }
    Ok(bits)
}

/// The bits of a word of a memory that is read at the index.
#[tactic(auto, using(crate::proofs::Rows::rows))]
pub(crate) fn word(alloc: Global, memory: &[Bit], index: &[Bit]) -> Result<Row, AllocError>
    ensures { IfOk result (λ v. row_in v ≡ word_row (row_in memory.now) (row_in index.now)) }
{
    let mask = all_domains(index);
    let mut bits = Row::new(alloc);
    for i in 0..memory.len() {
        bits.push(both(bit(memory, i), Bit::From(mask)))?;
    }
    Ok(bits)
}

/// The bits of a memory after a store.
#[tactic(auto, using(crate::proofs::Rows::rows))]
pub(crate) fn stored(
    alloc: Global,
    enable: Bit,
    index: &[Bit],
    value: &[Bit],
    memory: &[Bit],
) -> Result<Row, AllocError>
    ensures { IfOk result (λ v. row_in v
        ≡ store_row (label_in enable) (row_in index.now) (row_in value.now) (row_in memory.now)) }
{
    let mask = all_domains(index);
    let mut bits = Row::new(alloc);
    for i in 0..memory.len() {
        let new = both(Bit::From(mask), bit(value, i));
        bits.push(write(enable, bit(memory, i), new))?;
    }
    Ok(bits)
}

/// The row with more bits behind its own.
#[tactic(auto, using(crate::proofs::Rows::rows))]
pub(crate) fn behind(row: Row, more: &[Bit]) -> Result<Row, AllocError>
    ensures { IfOk result (λ v. row_in v ≡ row_in row ++ row_in more.now) }
{
    let mut all = row;
    for i in 0..more.len() {
        all.push(more[i])?;
    }
    Ok(all)
}
