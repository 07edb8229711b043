//! Gates as they are built. A gate that is there already is not made again.

ghost use Rattle.std.specs.Prelude.{◌≡◌, ℕ, ◌*◌, ◌^◌, ◌<◌, Bool, false, not, ◌&&◌, ◌||◌, [], length, IfOk, IfSome, if◌then◌else◌};
ghost use Rattle.aig_model.specs.Form.{literal};
ghost use Rattle.aig_model.specs.Netlist.{Grows, IsReady, IsOf, AreOf, Means, differ, majority};
ghost use Rattle.aig_gates.specs.Ripple.{IsRipple};

use aig_model::Gate;
use indexmap::IndexSet;
use std::alloc::{AllocError, Global};
use std::marker::Model;
use surf_base::Seq;

/// Literals, from bit 0 up.
pub type Word = Seq<u64>;

/// Gates in order, of which the first is variable `start`.
#[derive(Drop)]
pub struct Netlist {
    start: u64,
    gates: IndexSet<Gate>,
}

impl Model for Netlist {
    ghost use Rattle.aig_model.specs.Netlist.{Net};

    ghost Value = { Net };

    ghost use Rattle.aig_model.specs.Netlist.{IsReady};

    ghost view = { λ a. record { start = a.start; gates = a.gates.keys } };

    ghost invariant = { λ a. IsReady (record { start = a.start; gates = a.gates.keys }) };
}

/// As many gates count as out of memory, so that no literal overflows.
const MOST: usize = 1 << 61;

/// The conjunction of two literals, where it needs no gate.
fn folded(first: u64, second: u64) -> Option<u64>
    ensures value { IfSome result (λ x. (v : ℕ → Bool) → v 0 ≡ false
        → literal v x ≡ (literal v first && literal v second)) }
    ensures known { IfSome result (λ x. (n : ℕ) → first < n → second < n → x < n) }
{
    if first == 0 || second == 0 {
        return Some(0);
    }
    if first == 1 || first == second {
        return Some(second);
    }
    if second == 1 {
        return Some(first);
    }
    if first / 2 == second / 2 {
        return Some(0);
    }
    None
}

/// The complement of a literal.
pub fn complement(given: u64) -> u64
    ensures value { (v : ℕ → Bool) → literal v result ≡ not (literal v given) }
    ensures known { (n : ℕ) → given < 2 * n → result < 2 * n }
{
    if given % 2 == 0 { given + 1 } else { given - 1 }
}

/// A bit of a sum, and the carry out of its place.
#[derive(Clone, Copy)]
pub struct Place {
    pub bit: u64,
    pub carry: u64,
}

/// The bits of a sum, and the carry out of the last.
#[derive(Drop)]
pub struct Sum {
    pub bits: Word,
    pub carry: u64,
}

impl Netlist {
    /// No gates yet, of which the first will be variable `start`.
    pub fn new(alloc: Global, start: u64) -> Netlist
        requires front { 0 < start }
        requires low { start < 2 ^ 61 }
        ensures { result ≡ record { start = start; gates = [] } }
    {
        Netlist {
            start,
            gates: IndexSet::new(alloc),
        }
    }

    /// The gates in order.
    pub fn gates(&self) -> &[Gate]
        ensures { result.now ≡ self.now.gates }
    {
        self.gates.as_slice()
    }

    /// Lets callers' proofs use that gates read what stands before them. It does nothing.
    pub fn known(&self)
        ensures { IsReady self.now }
    {
        let _ = &self.start;
    }

    /// A literal that is 1 where both are.
    pub fn and(&mut self, first: u64, second: u64) -> Result<u64, AllocError>
        requires first { IsOf self.now first }
        requires second { IsOf self.now second }
        ensures grows { Grows self.old self.new }
        ensures known { IfOk result (λ x. IsOf self.new x) }
        ensures value { IfOk result (λ x. (f g : (ℕ → Bool) → Bool) → Means self.old first f → Means self.old second g
            → Means self.new x (λ v. f v && g v)) }
    {
        let _ = &self.start;
        if let Some(literal) = folded(first, second) {
            return Ok(literal);
        }
        if self.gates.len() >= MOST {
            return Err(AllocError);
        }
        let gate = if first < second {
            Gate { first, second }
        } else {
            Gate {
                first: second,
                second: first,
            }
        };
        let (place, _) = self.gates.insert_full(gate)?;
        Ok(2 * (self.start + place as u64))
    }

    /// A literal that is 1 where just one of them is.
    pub fn differ(&mut self, first: u64, second: u64) -> Result<u64, AllocError>
        requires first { IsOf self.now first }
        requires second { IsOf self.now second }
        ensures grows { Grows self.old self.new }
        ensures known { IfOk result (λ x. IsOf self.new x) }
        ensures value { IfOk result (λ x. (f g : (ℕ → Bool) → Bool) → Means self.old first f → Means self.old second g
            → Means self.new x (λ v. differ (f v) (g v))) }
    {
        let both = self.and(first, second)?;
        let none = self.and(complement(first), complement(second))?;
        let apart = self.and(complement(both), complement(none))?;
        Ok(apart)
    }

    /// A literal that is 1 where one of them is, or both are.
    pub fn or(&mut self, first: u64, second: u64) -> Result<u64, AllocError>
        requires first { IsOf self.now first }
        requires second { IsOf self.now second }
        ensures grows { Grows self.old self.new }
        ensures known { IfOk result (λ x. IsOf self.new x) }
        ensures value { IfOk result (λ x. (f g : (ℕ → Bool) → Bool) → Means self.old first f → Means self.old second g
            → Means self.new x (λ v. f v || g v)) }
    {
        let neither = self.and(complement(first), complement(second))?;
        Ok(complement(neither))
    }

    /// The first where the test is 1, and else the second.
    pub fn choose(&mut self, test: u64, first: u64, second: u64) -> Result<u64, AllocError>
        requires test { IsOf self.now test }
        requires first { IsOf self.now first }
        requires second { IsOf self.now second }
        ensures grows { Grows self.old self.new }
        ensures known { IfOk result (λ x. IsOf self.new x) }
        ensures value { IfOk result (λ x. (h f g : (ℕ → Bool) → Bool) → Means self.old test h → Means self.old first f
            → Means self.old second g → Means self.new x (λ v. if h v then f v else g v)) }
    {
        if first == second {
            return Ok(first);
        }
        let yes = self.and(test, first)?;
        let no = self.and(complement(test), second)?;
        let chosen = self.or(yes, no)?;
        Ok(chosen)
    }

    /// Whether the first is less so far: by its bit and the second's, where they differ, and else as before.
    pub fn below(&mut self, first: u64, second: u64, before: u64) -> Result<u64, AllocError>
        requires first { IsOf self.now first }
        requires second { IsOf self.now second }
        requires before { IsOf self.now before }
        ensures grows { Grows self.old self.new }
        ensures known { IfOk result (λ x. IsOf self.new x) }
        ensures value { IfOk result (λ x. (f g h : (ℕ → Bool) → Bool) → Means self.old first f → Means self.old second g
            → Means self.old before h → Means self.new x (λ v. (not (f v) && g v) || (h v && not (f v && not (g v))))) }
    {
        let less = self.and(complement(first), second)?;
        let more = self.and(first, complement(second))?;
        let still = self.and(before, complement(more))?;
        let lower = self.or(less, still)?;
        Ok(lower)
    }

    /// A bit of three bits' sum, without the carry.
    pub fn odd(&mut self, first: u64, second: u64, carry: u64) -> Result<u64, AllocError>
        requires first { IsOf self.now first }
        requires second { IsOf self.now second }
        requires carry { IsOf self.now carry }
        ensures grows { Grows self.old self.new }
        ensures known { IfOk result (λ x. IsOf self.new x) }
        ensures value { IfOk result (λ x. (f g h : (ℕ → Bool) → Bool) → Means self.old first f → Means self.old second g
            → Means self.old carry h → Means self.new x (λ v. differ (differ (f v) (g v)) (h v))) }
    {
        let odd = self.differ(first, second)?;
        let bit = self.differ(odd, carry)?;
        Ok(bit)
    }

    /// The bit and the carry of three bits' sum.
    pub fn place(&mut self, first: u64, second: u64, carry: u64) -> Result<Place, AllocError>
        requires first { IsOf self.now first }
        requires second { IsOf self.now second }
        requires carry { IsOf self.now carry }
        ensures grows { Grows self.old self.new }
        ensures bit { IfOk result (λ r. IsOf self.new r.bit) }
        ensures over { IfOk result (λ r. IsOf self.new r.carry) }
        ensures value { IfOk result (λ r. (f g h : (ℕ → Bool) → Bool) → Means self.old first f → Means self.old second g
            → Means self.old carry h
            → Means self.new r.bit (λ v. differ (differ (f v) (g v)) (h v))
            × Means self.new r.carry (λ v. majority (f v) (g v) (h v))) }
    {
        let odd = self.differ(first, second)?;
        let bit = self.differ(odd, carry)?;
        let both = self.and(first, second)?;
        let through = self.and(odd, carry)?;
        let neither = self.and(complement(both), complement(through))?;
        Ok(Place {
            bit,
            carry: complement(neither),
        })
    }

    /// The bits of a sum with a carry in, and the carry out.
    pub fn sum(
        &mut self,
        alloc: Global,
        first: &[u64],
        second: &[u64],
        carry: u64,
    ) -> Result<Sum, AllocError>
        requires same { length first.now ≡ length second.now }
        requires first { AreOf self.now first.now }
        requires second { AreOf self.now second.now }
        requires carry { IsOf self.now carry }
        ensures grows { Grows self.old self.new }
        ensures value { IfOk result (λ r. IsRipple self.new first.now second.now carry r.bits r.carry
            (length first.now)) }
    {
        let mut bits = Seq::new(alloc);
        let mut over = carry;
        for i in 0..first.len() {
            let next = self.place(first[i], second[i], over)?;
            bits.push(next.bit)?;
            over = next.carry;
        }
        Ok(Sum { bits, carry: over })
    }
}
