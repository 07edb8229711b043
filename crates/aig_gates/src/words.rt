//! Words of literals, from bit 0 up.

ghost use Rattle.std.specs.Prelude.{◌≡◌, ℕ, ◌+◌, ◌-◌, ◌*◌, ◌/◌, ◌%◌, ◌^◌, ◌<◌, ◌≤◌, ◌==◌, nat_lt, max, Bool, false, not, [], ◌∷◌, length, slice_index, IfOk};
ghost use Rattle.aig_model.specs.Form.{literal, one_if_true, word};
ghost use Rattle.aig_model.specs.Netlist.{Grows, IsOf, AreOf, Means, MeansWord, settle_gates};
ghost use Rattle.aig_gates.specs.Zips.{AreBelow, IsWayOf, paired, combined, IsZipped, IsLess};

use crate::gates::{Netlist, Word, complement};
use std::alloc::{AllocError, Global};
use surf_base::Seq;

/// What is made of two words, bit by bit.
#[derive(Clone, Copy)]
pub enum Way {
    And,
    Or,
    Xor,
    /// The first where this literal is 1, and else the second.
    Choose(u64),
}

/// How many bits the number needs.
pub fn width(number: u64) -> u32
    ensures fits { number < 2 ^ result }
    ensures least { (w : ℕ) → number < 2 ^ w → result ≤ w }
    ensures most { result ≤ 64 }
{
    64 - number.leading_zeros()
}

/// The literals of a number's bits, as many as it needs.
pub fn number_word(alloc: Global, number: u64) -> Result<Word, AllocError>
    ensures known { IfOk result (λ r. (k : ℕ) → 0 < k → AreBelow k r) }
    ensures count { IfOk result (λ r. (w : ℕ) → number < 2 ^ w → length r ≤ w) }
    ensures narrow { IfOk result (λ r. length r ≤ 64) }
    ensures value { IfOk result (λ r. (v : ℕ → Bool) → v 0 ≡ false → word v r ≡ number) }
{
    let mut bits = Seq::new(alloc);
    for i in 0..width(number) {
        bits.push((number >> i) & 1)?;
    }
    Ok(bits)
}

/// The word in so many bits: cut, or with zeros behind.
pub fn padded(alloc: Global, bits: &[u64], count: usize) -> Result<Word, AllocError>
    ensures known { IfOk result (λ r. (k : ℕ) → 0 < k → AreBelow k bits.now → AreBelow k r) }
    ensures count { IfOk result (λ r. length r ≡ count) }
    ensures value { IfOk result (λ r. (v : ℕ → Bool) → v 0 ≡ false → word v r ≡ word v bits.now % 2 ^ count) }
{
    let mut all = Seq::new(alloc);
    for i in 0..count {
        all.push(bit(bits, i))?;
    }
    Ok(all)
}

/// The bits from `low` on, so many of them. Behind the last stand zeros.
pub fn part(alloc: Global, bits: &[u64], low: usize, count: usize) -> Result<Word, AllocError>
    ensures known { IfOk result (λ r. (k : ℕ) → 0 < k → AreBelow k bits.now → AreBelow k r) }
    ensures count { IfOk result (λ r. length r ≡ count) }
    ensures value { IfOk result (λ r. (v : ℕ → Bool) → v 0 ≡ false → word v r ≡ word v bits.now / 2 ^ low % 2 ^ count) }
{
    let from = low.min(bits.len());
    let part = padded(alloc, &bits[from..], count)?;
    Ok(part)
}

/// One word in so many bits, and the other behind it.
fn joined(alloc: Global, back: &[u64], count: usize, front: &[u64]) -> Result<Word, AllocError>
    ensures known { IfOk result (λ r. (k : ℕ) → 0 < k → AreBelow k back.now → AreBelow k front.now → AreBelow k r) }
    ensures count { IfOk result (λ r. length r ≡ count + length front.now) }
    ensures value { IfOk result (λ r. (v : ℕ → Bool) → v 0 ≡ false
        → word v r ≡ word v back.now % 2 ^ count + 2 ^ count * word v front.now) }
{
    let mut all = padded(alloc, back, count)?;
    for literal in front {
        all.push(*literal)?;
    }
    Ok(all)
}

/// A word of one bit.
pub fn single(alloc: Global, literal: u64) -> Result<Word, AllocError>
    ensures { IfOk result (λ r. r ≡ literal ∷ []) }
{
    let mut bits = Seq::new(alloc);
    bits.push(literal)?;
    Ok(bits)
}

/// The literal at a place. Behind the last stand zeros.
pub fn bit(bits: &[u64], place: usize) -> u64
    ensures { result ≡ slice_index bits.now place }
{
    match bits.get(place) {
        Some(literal) => *literal,
        None => 0,
    }
}

/// The complement of each literal.
pub fn complements(alloc: Global, bits: &[u64]) -> Result<Word, AllocError>
    ensures known { IfOk result (λ r. (k : ℕ) → AreBelow k bits.now → AreBelow k r) }
    ensures count { IfOk result (λ r. length r ≡ length bits.now) }
    ensures value { IfOk result (λ r. (v : ℕ → Bool) → word v r ≡ 2 ^ length bits.now - 1 - word v bits.now) }
{
    let mut all = Seq::new(alloc);
    for literal in bits {
        all.push(complement(*literal))?;
    }
    Ok(all)
}

/// The length of the longer word.
fn longer(first: &[u64], second: &[u64]) -> usize
    ensures { result ≡ max (length first.now) (length second.now) }
{
    first.len().max(second.len())
}

impl Netlist {
    /// What is made of two literals.
    fn pair(&mut self, way: Way, first: u64, second: u64) -> Result<u64, AllocError>
        requires way { IsWayOf self.now way }
        requires first { IsOf self.now first }
        requires second { IsOf self.now second }
        ensures grows { Grows self.old self.new }
        ensures known { IfOk result (λ x. IsOf self.new x) }
        ensures value { IfOk result (λ x. (f g : (ℕ → Bool) → Bool) → Means self.old first f → Means self.old second g
            → Means self.new x (λ v. paired way (settle_gates self.old v) (f v) (g v))) }
    {
        match way {
            Way::And => self.and(first, second),
            Way::Or => self.or(first, second),
            Way::Xor => self.differ(first, second),
            Way::Choose(test) => self.choose(test, first, second),
        }
    }

    /// What is made of two words of one length, bit by bit.
    fn zip(
        &mut self,
        alloc: Global,
        way: Way,
        first: &[u64],
        second: &[u64],
    ) -> Result<Word, AllocError>
        requires same { length first.now ≡ length second.now }
        requires way { IsWayOf self.now way }
        requires first { AreOf self.now first.now }
        requires second { AreOf self.now second.now }
        ensures grows { Grows self.old self.new }
        ensures bits { IfOk result (λ r. IsZipped self.old self.new way first.now second.now r (length first.now)) }
    {
        let mut bits = Seq::new(alloc);
        for i in 0..first.len() {
            let bit = self.pair(way, first[i], second[i])?;
            bits.push(bit)?;
        }
        Ok(bits)
    }

    /// What is made of two words, bit by bit. The shorter one has zeros behind.
    pub fn combine(
        &mut self,
        alloc: Global,
        way: Way,
        first: &[u64],
        second: &[u64],
    ) -> Result<Word, AllocError>
        requires way { IsWayOf self.now way }
        requires first { AreOf self.now first.now }
        requires second { AreOf self.now second.now }
        ensures grows { Grows self.old self.new }
        ensures count { IfOk result (λ r. length r ≡ max (length first.now) (length second.now)) }
        ensures value { IfOk result (λ r. MeansWord self.new r
            (λ v. let s = settle_gates self.old v in combined way s (word s first.now) (word s second.now))) }
    {
        self.known();
        let count = longer(first, second);
        let wide = padded(alloc, first, count)?;
        let other = padded(alloc, second, count)?;
        let bits = self.zip(alloc, way, wide.as_slice(), other.as_slice())?;
        Ok(bits)
    }

    /// The sum of two words of one width and a carry, in this width.
    fn total(
        &mut self,
        alloc: Global,
        first: &[u64],
        second: &[u64],
        carry: u64,
    ) -> Result<Word, AllocError>
        requires same { length first.now ≡ length second.now }
        requires first { AreOf self.now first.now }
        requires second { AreOf self.now second.now }
        requires carry { IsOf self.now carry }
        ensures grows { Grows self.old self.new }
        ensures count { IfOk result (λ r. length r ≡ length first.now) }
        ensures value { IfOk result (λ r. MeansWord self.new r
            (λ v. let s = settle_gates self.old v in
            (word s first.now + word s second.now + one_if_true (literal s carry)) % 2 ^ length first.now)) }
    {
        let Some(last) = first.len().checked_sub(1) else {
            return Ok(Seq::new(alloc));
        };
        let low = self.sum(alloc, &first[..last], &second[..last], carry)?;
        let bit = self.odd(first[last], second[last], low.carry)?;
        let mut bits = low.bits;
        bits.push(bit)?;
        Ok(bits)
    }

    /// The sum in so many bits.
    pub fn add(
        &mut self,
        alloc: Global,
        first: &[u64],
        second: &[u64],
        count: usize,
    ) -> Result<Word, AllocError>
        requires first { AreOf self.now first.now }
        requires second { AreOf self.now second.now }
        ensures grows { Grows self.old self.new }
        ensures count { IfOk result (λ r. length r ≡ count) }
        ensures value { IfOk result (λ r. MeansWord self.new r
            (λ v. let s = settle_gates self.old v in (word s first.now + word s second.now) % 2 ^ count)) }
    {
        self.known();
        let wide = padded(alloc, first, count)?;
        let other = padded(alloc, second, count)?;
        let bits = self.total(alloc, wide.as_slice(), other.as_slice(), 0)?;
        Ok(bits)
    }

    /// The difference in so many bits.
    pub fn subtract(
        &mut self,
        alloc: Global,
        first: &[u64],
        second: &[u64],
        count: usize,
    ) -> Result<Word, AllocError>
        requires first { AreOf self.now first.now }
        requires second { AreOf self.now second.now }
        ensures grows { Grows self.old self.new }
        ensures count { IfOk result (λ r. length r ≡ count) }
        ensures value { IfOk result (λ r. MeansWord self.new r
            (λ v. let s = settle_gates self.old v in
            (word s first.now + (2 ^ count - word s second.now % 2 ^ count)) % 2 ^ count)) }
    {
        self.known();
        let wide = padded(alloc, first, count)?;
        let cut = padded(alloc, second, count)?;
        let other = complements(alloc, cut.as_slice())?;
        let bits = self.total(alloc, wide.as_slice(), other.as_slice(), 1)?;
        Ok(bits)
    }

    /// Whether the first of two words of one length has the lower number.
    fn lower(&mut self, first: &[u64], second: &[u64]) -> Result<u64, AllocError>
        requires same { length first.now ≡ length second.now }
        requires first { AreOf self.now first.now }
        requires second { AreOf self.now second.now }
        ensures grows { Grows self.old self.new }
        ensures less { IfOk result (λ x. IsLess self.old self.new first.now second.now x (length first.now)) }
    {
        self.known();
        let mut less = 0;
        for i in 0..first.len() {
            less = self.below(first[i], second[i], less)?;
        }
        Ok(less)
    }

    /// Whether the first word's number is less.
    pub fn less(&mut self, alloc: Global, first: &[u64], second: &[u64]) -> Result<u64, AllocError>
        requires first { AreOf self.now first.now }
        requires second { AreOf self.now second.now }
        ensures grows { Grows self.old self.new }
        ensures value { IfOk result (λ x. Means self.new x
            (λ v. let s = settle_gates self.old v in nat_lt (word s first.now) (word s second.now))) }
    {
        self.known();
        let count = longer(first, second);
        let wide = padded(alloc, first, count)?;
        let other = padded(alloc, second, count)?;
        let less = self.lower(wide.as_slice(), other.as_slice())?;
        Ok(less)
    }

    /// Whether one of the bits is 1.
    pub fn any(&mut self, bits: &[u64]) -> Result<u64, AllocError>
        requires { AreOf self.now bits.now }
        ensures grows { Grows self.old self.new }
        ensures value { IfOk result (λ x. Means self.new x (λ v. not (word (settle_gates self.old v) bits.now == 0))) }
    {
        self.known();
        let mut some = 0;
        for bit in bits {
            some = self.or(some, *bit)?;
        }
        Ok(some)
    }

    /// Whether both have one number.
    pub fn equal(&mut self, alloc: Global, first: &[u64], second: &[u64]) -> Result<u64, AllocError>
        requires first { AreOf self.now first.now }
        requires second { AreOf self.now second.now }
        ensures grows { Grows self.old self.new }
        ensures value { IfOk result (λ x. Means self.new x
            (λ v. let s = settle_gates self.old v in word s first.now == word s second.now)) }
    {
        let apart = self.combine(alloc, Way::Xor, first, second)?;
        let differ = self.any(apart.as_slice())?;
        Ok(complement(differ))
    }

    /// What is left of the greatest number of so many bits, or 0 where the word's number is greater.
    pub fn minus(&mut self, alloc: Global, bits: &[u64], count: usize) -> Result<Word, AllocError>
        requires { AreOf self.now bits.now }
        ensures grows { Grows self.old self.new }
        ensures count { IfOk result (λ r. length r ≡ count) }
        ensures value { IfOk result (λ r. MeansWord self.new r
            (λ v. 2 ^ count - 1 - word (settle_gates self.old v) bits.now)) }
        ensures free { length bits.now ≤ count → self.new ≡ self.old }
    {
        self.known();
        let low = padded(alloc, bits, count)?;
        let other = complements(alloc, low.as_slice())?;
        if bits.len() <= count {
            return Ok(other);
        }
        let over = self.any(&bits[count..])?;
        let zeros = padded(alloc, &[], count)?;
        let rest = self.combine(alloc, Way::Choose(over), zeros.as_slice(), other.as_slice())?;
        Ok(rest)
    }

    /// The front in front of so many bits, and the back in these, in 64 bits.
    pub fn join(
        &mut self,
        alloc: Global,
        front: &[u64],
        back: &[u64],
        count: usize,
    ) -> Result<Word, AllocError>
        requires front { AreOf self.now front.now }
        requires back { AreOf self.now back.now }
        ensures grows { Grows self.old self.new }
        ensures small { IfOk result (λ r. length r ≤ 64) }
        ensures count { IfOk result (λ r. length back.now ≤ count → length r ≤ count + length front.now) }
        ensures value { IfOk result (λ r. MeansWord self.new r
            (λ v. let s = settle_gates self.old v in (word s front.now * 2 ^ count + word s back.now) % 2 ^ 64)) }
        ensures free { length back.now ≤ count → self.new ≡ self.old }
    {
        self.known();
        if back.len() <= count {
            let all = joined(alloc, back, count, front)?;
            let size = all.len().min(64);
            let bits = padded(alloc, all.as_slice(), size)?;
            return Ok(bits);
        }
        let high = joined(alloc, &[], count, front)?;
        let bits = self.add(alloc, high.as_slice(), back, 64)?;
        Ok(bits)
    }
}
