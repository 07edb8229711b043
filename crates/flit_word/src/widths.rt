//! The widths of words.

ghost use Rattle.std.specs.Prelude.{◌≡◌, ◌<◌, ◌≤◌, ◌^◌, ℕ, max};
ghost use Rattle.noc_model.specs.Limits.{most_tiles};
ghost use Rattle.noc_model.specs.Plan.{tiles};
ghost use Rattle.flit_word.specs.Words.{bits, dest_bits, channel_bits, flit_bits, link_bits, max_link_channels};

use noc_model::Plan;

/// The least number of bits, at least 1, in which `n` numbers can be told apart.
fn bits(n: u32) -> u32
    requires { n ≤ most_tiles }
    ensures value { result ≡ bits n }
    ensures few { result ≤ 8 }
    ensures enough { n ≤ 2 ^ result }
    ensures least { (b : ℕ) → 1 ≤ b → n ≤ 2 ^ b → result ≤ b }
{
    for b in 1..8 {
        if n <= 2u32.pow(b) {
            return b;
        }
    }
    8
}

/// The bits of a tile's number, 1 to 8.
pub fn dest_bits(plan: &Plan) -> u32
    ensures value { result ≡ dest_bits plan.now }
    ensures few { result ≤ 8 }
    ensures enough { tiles plan.now ≤ 2 ^ result }
{
    plan.known();
    bits(plan.tiles())
}

/// The greater of the two.
fn greater(a: u32, b: u32) -> u32
    ensures { result ≡ max a b }
{
    if a < b { b } else { a }
}

/// The greatest number of channels of one domain on a link, at most 8.
fn max_link_channels(plan: &Plan) -> u32
    ensures value { result ≡ max_link_channels plan.now }
    ensures few { result ≤ 8 }
{
    plan.known();
    let mut most = 0;
    for d in 0..plan.domains() {
        most = greater(most, plan.link_channels(d));
    }
    most
}

/// The bits of a channel's number on a link, 1 to 3.
pub fn channel_bits(plan: &Plan) -> u32
    ensures value { result ≡ channel_bits plan.now }
    ensures few { result ≤ 3 }
    ensures enough { max_link_channels plan.now ≤ 2 ^ result }
{
    bits(max_link_channels(plan))
}

/// The bits of a flit's word, 35 to 42.
pub fn flit_bits(plan: &Plan) -> u32
    ensures value { result ≡ flit_bits plan.now }
    ensures few { result ≤ 42 }
{
    34 + dest_bits(plan)
}

/// The bits of a link's word, 37 to 46.
pub fn link_bits(plan: &Plan) -> u32
    ensures value { result ≡ link_bits plan.now }
    ensures few { result ≤ 46 }
{
    1 + channel_bits(plan) + flit_bits(plan)
}
