//! Flits and link registers as bits.

ghost use Rattle.std.specs.Prelude.{◌≡◌, ◌<◌, ◌≤◌, ◌^◌, ◌+◌, ℕ, IfSome};
ghost use Rattle.noc_model.specs.declared.Flit.{Flit as FlitValue};
ghost use Rattle.noc_model.specs.Plan.{tiles};
ghost use Rattle.noc_model.specs.Step.{one_if};
ghost use Rattle.flit_word.specs.Words.{flit_bits, link_bits, max_link_channels, above, flit_word, link_word};

use crate::widths::{channel_bits, dest_bits, flit_bits};
use noc_model::{Flit, LinkFlit, Plan};

/// 1 if it holds, else 0.
fn bit(holds: bool) -> u64
    ensures value { result ≡ one_if holds }
    ensures few { result ≤ 1 }
{
    if holds { 1 } else { 0 }
}

/// The word that has one part above the bits of another.
fn above(high: u64, low_bits: u32, low: u64) -> u64
    requires high { high < 2 ^ 10 }
    requires bits { low_bits ≤ 42 }
    requires low { low < 2 ^ low_bits }
    ensures value { result ≡ above high low_bits low }
    ensures few { (k : ℕ) → high < 2 ^ k → result < 2 ^ (k + low_bits) }
{
    high * 2u64.pow(low_bits) + low
}

/// The word of a flit, below two to `flit_bits`: from the most significant bit head, tail, destination and payload.
pub fn to_word(plan: &Plan, flit: Flit) -> u64
    requires { flit.dest < tiles plan.now }
    ensures value { result ≡ flit_word plan.now flit }
    ensures few { result < 2 ^ flit_bits plan.now }
{
    let marks = above(bit(flit.head), 1, bit(flit.tail));
    let top = above(marks, dest_bits(plan), u64::from(flit.dest));
    above(top, 32, u64::from(flit.payload))
}

/// The flit that has this word, where there is one: no two flits have the same word.
pub fn of_word(plan: &Plan, word: u64) -> Flit
    ensures { (f : FlitValue) → f.dest < tiles plan.now → f.payload < 2 ^ 32 → flit_word plan.now f ≡ word
        → result ≡ f }
{
    let top = word / 2u64.pow(32);
    let size = 2u64.pow(dest_bits(plan));
    let marks = top / size;
    Flit {
        head: marks / 2 == 1,
        tail: marks % 2 == 1,
        dest: (top % size) as u32,
        payload: (word % 2u64.pow(32)) as u32,
    }
}

/// The word of a link register, below two to `link_bits`: 0 where it is empty, else from the most significant bit a 1,
/// the channel and the flit's word.
pub fn to_link(plan: &Plan, item: Option<LinkFlit>) -> u64
    requires dest { IfSome item (λ x. x.flit.dest < tiles plan.now) }
    requires channel { IfSome item (λ x. x.channel < max_link_channels plan.now) }
    ensures value { result ≡ link_word plan.now item }
    ensures few { result < 2 ^ link_bits plan.now }
{
    match item {
        Some(x) => {
            let channel = above(1, channel_bits(plan), u64::from(x.channel));
            above(channel, flit_bits(plan), to_word(plan, x.flit))
        }
        None => 0,
    }
}
