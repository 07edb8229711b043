//! Bits of registers, memories and ports as literals of a form.

ghost use Rattle.std.specs.Prelude.{◌≡◌, ℕ, ◌+◌, ◌*◌, ◌^◌, ◌<◌, ◌==◌, Bool, false, length, map, IfOk};
ghost use Rattle.std.specs.Int.{bit_at};
ghost use Rattle.aig_model.specs.Form.{flipped, literal, word};
ghost use Rattle.aig_model.specs.FormOf.{bits_from, flipped_bits, AreBits};
ghost use Rattle.aig_gates.specs.Zips.{AreBelow};

use aig_gates::{Word, bit, complement};
use std::alloc::{AllocError, Global};
use surf_base::Seq;

/// The bit of a number at a place.
fn digit(number: u64, place: usize) -> u64
    ensures { result ≡ bit_at number place }
{
    if place < 64 { (number >> place) & 1 } else { 0 }
}

/// The word that a register begins a cycle with, of `high + 1` latches, of which the first is variable `first`. A latch
/// begins at 0, so bits that are 1 in the reset constant are complemented.
///
/// # Errors
///
/// Memory ran out.
pub fn latch_word(alloc: Global, first: u64, high: u32, reset: u64) -> Result<Word, AllocError>
    requires front { 0 < first }
    requires room { 2 * (first + high + 1) < 2 ^ 64 }
    ensures known { IfOk result (λ r. AreBelow (first + high + 1) r) }
    ensures count { IfOk result (λ r. length r ≡ high + 1) }
    ensures value { IfOk result (λ r. (v : ℕ → Bool) (x : ℕ) → x < 2 ^ (high + 1)
        → AreBits (flipped_bits x reset 0 (high + 1)) (λ j. v (first + j)) 0 → word v r ≡ x) }
{
    let mut bits = Seq::new(alloc);
    for i in 0..high as usize + 1 {
        bits.push(2 * (first + i as u64) + digit(reset, i))?;
    }
    Ok(bits)
}

/// The literals that the latches of a register take, whose word this is.
///
/// # Errors
///
/// Memory ran out.
pub fn latch_literals(
    alloc: Global,
    bits: &[u64],
    high: u32,
    reset: u64,
) -> Result<Word, AllocError>
    ensures known { IfOk result (λ r. (k : ℕ) → 0 < k → AreBelow k bits.now → AreBelow k r) }
    ensures value { IfOk result (λ r. (v : ℕ → Bool) → v 0 ≡ false → map (literal v) r ≡ flipped_bits (word v bits.now) reset 0 (high + 1)) }
{
    let mut all = Seq::new(alloc);
    for i in 0..high as usize + 1 {
        let literal = turned(bit(bits, i), digit(reset, i));
        all.push(literal)?;
    }
    Ok(all)
}

/// The literal, or its complement where the digit is 1.
fn turned(number: u64, digit: u64) -> u64
    ensures known { (k : ℕ) → number < 2 * k → result < 2 * k }
    ensures value { (v : ℕ → Bool) → literal v result ≡ flipped (digit == 1) (literal v number) }
{
    if digit == 1 {
        complement(number)
    } else {
        number
    }
}

/// The literals of a port whose word this is, from bit 0 up.
///
/// # Errors
///
/// Memory ran out.
pub fn port_literals(alloc: Global, bits: &[u64], high: u32) -> Result<Word, AllocError>
    ensures known { IfOk result (λ r. (k : ℕ) → 0 < k → AreBelow k bits.now → AreBelow k r) }
    ensures value { IfOk result (λ r. (v : ℕ → Bool) → v 0 ≡ false → map (literal v) r ≡ bits_from (word v bits.now) 0 (high + 1)) }
{
    let all = latch_literals(alloc, bits, high, 0)?;
    Ok(all)
}
