//! Memories: rows of words.

ghost use Rattle.std.specs.Prelude.{◌≡◌, ℕ, ◌*◌, ◌≤◌, Bool, false, length, map, slice_index, slice_index_or, slice_set, [], IfOk, if◌then◌else◌};
ghost use Rattle.aig_model.specs.Form.{literal, word};
ghost use Rattle.aig_model.specs.Netlist.{Grows, IsOf, AreOf, MeansWord, settle_gates};
ghost use Rattle.aig_gates.specs.Memory.{AreWords, AreWithin, IsHalved, IsStored};

use crate::gates::{Netlist, Word};
use crate::words::{Way, number_word};
use std::alloc::{AllocError, Global};
use surf_base::Seq;

/// The words of a memory.
pub type Row = Seq<Word>;

/// The literals of a word of the row, none behind the last.
pub fn literals(row: &[Word], place: usize) -> &[u64]
    ensures { result.now ≡ slice_index_or row.now place [] }
{
    match row.get(place) {
        Some(bits) => bits.as_slice(),
        None => &[],
    }
}

/// An equal row.
fn copied(alloc: Global, row: &[Word]) -> Result<Row, AllocError>
    ensures { IfOk result (λ r. r ≡ row.now) }
{
    let mut all = Seq::new(alloc);
    for bits in row {
        all.push(bits.copy(alloc)?)?;
    }
    Ok(all)
}

impl Netlist {
    /// Of each two neighbours the one that the bit names: the second where it is 1.
    fn halved(&mut self, alloc: Global, row: &[Word], bit: u64) -> Result<Row, AllocError>
        requires row { AreWords self.now row.now }
        requires bit { IsOf self.now bit }
        ensures grows { Grows self.old self.new }
        ensures half { IfOk result (λ r. IsHalved self.old self.new row.now bit r (length r)) }
        ensures whole { IfOk result (λ r. length row.now ≤ 2 * length r) }
    {
        let mut half = Seq::new(alloc);
        for place in 0..row.len().div_ceil(2) {
            let even = literals(row, 2 * place);
            let odd = literals(row, 2 * place + 1);
            let chosen = self.combine(alloc, Way::Choose(bit), odd, even)?;
            half.push(chosen)?;
        }
        Ok(half)
    }

    /// The word that the index names, 0 behind the last.
    pub fn select(&mut self, alloc: Global, row: &[Word], index: &[u64]) -> Result<Word, AllocError>
        requires row { AreWords self.now row.now }
        requires index { AreOf self.now index.now }
        ensures grows { Grows self.old self.new }
        ensures within { IfOk result (λ r. (most : ℕ) → AreWithin most row.now → length r ≤ most) }
        ensures value { IfOk result (λ r. MeansWord self.new r
            (λ v. let s = settle_gates self.old v in slice_index (map (word s) row.now) (word s index.now))) }
    {
        let mut words = copied(alloc, row)?;
        for bit in index {
            words = self.halved(alloc, words.as_slice(), *bit)?;
        }
        let bits = Seq::from_slice(alloc, literals(words.as_slice(), 0))?;
        Ok(bits)
    }

    /// The row, with the value at the index where the enable is 1.
    pub fn stored(
        &mut self,
        alloc: Global,
        row: &[Word],
        enable: u64,
        index: &[u64],
        value: &[u64],
    ) -> Result<Row, AllocError>
        requires row { AreWords self.now row.now }
        requires enable { IsOf self.now enable }
        requires index { AreOf self.now index.now }
        requires value { AreOf self.now value.now }
        ensures grows { Grows self.old self.new }
        ensures known { IfOk result (λ r. AreWords self.new r) }
        ensures within { IfOk result (λ r. (most : ℕ) → AreWithin most row.now → length value.now ≤ most
            → AreWithin most r) }
        ensures words { IfOk result (λ r. (v : ℕ → Bool) → v 0 ≡ false → map (word (settle_gates self.new v)) r
            ≡ (let s = settle_gates self.old v in if literal s enable
            then slice_set (map (word s) row.now) (word s index.now) (word s value.now)
            else map (word s) row.now)) }
    {
        self.known();
        let mut all = Seq::new(alloc);
        for (place, bits) in row.iter().enumerate() {
            let number = number_word(alloc, place as u64)?;
            let here = self.equal(alloc, index, number.as_slice())?;
            let hit = self.and(enable, here)?;
            let chosen = self.combine(alloc, Way::Choose(hit), value, bits.as_slice())?;
            all.push(chosen)?;
        }
        Ok(all)
    }
}
