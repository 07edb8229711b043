//! How many places, classes and channels the vectors of a domain have.

ghost use Rattle.std.specs.Prelude.{◌≡◌, ◌<◌, ◌≤◌, ◌+◌, ◌-◌, ◌*◌, ◌^◌, length};
ghost use Rattle.noc_model.specs.Plan.{ports, link_channels};
ghost use Rattle.flit_word.specs.Words.{dest_bits};
ghost use Rattle.leaf_tie.specs.Alloc.{out_count};
ghost use Rattle.gen_buffer.specs.Sizes.{count_high};
ghost use Rattle.leaf_tie.specs.Glue.{high, out_high, current_high};
ghost use Rattle.leaf_tie.specs.Names.{buffer_tag};
ghost use Rattle.leaf_tie.specs.Tie.{alloc_size};

use flit_word::dest_bits;
use noc_model::Plan;

/// The number of the most significant bit of a vector with a bit for each place of a domain.
pub fn high(plan: &Plan, domain: u32) -> u32
    requires { domain < length plan.now.domains }
    ensures value { result ≡ high plan.now domain }
    ensures places { result + 1 ≡ ports plan.now * link_channels plan.now domain }
    ensures few { result < 56 }
{
    plan.ports() * plan.link_channels(domain) - 1
}

/// One less than the classes of an output's channels.
pub fn last_class(plan: &Plan, domain: u32, out: u32) -> u32
    ensures value { result ≡ (alloc_size plan.now domain out).last }
    ensures few { result < 2 }
{
    if out == 0 { 0 } else { plan.classes() - 1 }
}

/// One less than the channels of one class of an output.
pub fn last_of_class(plan: &Plan, domain: u32, out: u32) -> u32
    requires { domain < length plan.now.domains }
    ensures value { result ≡ (alloc_size plan.now domain out).size }
    ensures few { result < 4 }
{
    if out == 0 {
        0
    } else {
        plan.channels(domain) - 1
    }
}

/// The channels of an output.
pub fn out_count(plan: &Plan, domain: u32, out: u32) -> u32
    requires { domain < length plan.now.domains }
    ensures value { result ≡ out_count (alloc_size plan.now domain out) }
    ensures high { result - 1 ≡ out_high plan.now domain out }
    ensures some { 1 ≤ result }
    ensures few { result ≤ 8 }
{
    (last_class(plan, domain, out) + 1) * (last_of_class(plan, domain, out) + 1)
}

/// One less than the bits of a buffer's length, for a buffer of so many words.
pub fn count_high(depth: u32) -> u32
    requires { depth ≤ 16 }
    ensures same { result ≡ count_high depth }
    ensures few { result < 5 }
    ensures enough { depth < 2 ^ (result + 1) }
{
    if depth < 2 {
        0
    } else if depth < 4 {
        1
    } else if depth < 8 {
        2
    } else if depth < 16 {
        3
    } else {
        4
    }
}

/// One less than the bits of the number of a local channel.
pub fn current_high(channels: u32) -> u32
    requires { channels ≤ 4 }
    ensures same { result ≡ current_high channels }
    ensures few { result < 2 }
    ensures enough { channels ≤ 2 ^ (result + 1) }
{
    if channels <= 2 { 0 } else { 1 }
}

/// The tag of the names of a domain's buffer.
pub fn buffer_tag(plan: &Plan, domain: u32, port: u32, channel: u32) -> u32
    requires domain { domain < length plan.now.domains }
    requires port { port < ports plan.now }
    requires channel { channel < 8 }
    ensures { result ≡ buffer_tag domain port channel }
{
    plan.known();
    let column = if port == 0 { 7 } else { port };
    64 * domain + 8 * column + channel
}

/// One less than the bits of a tile's number.
pub fn dest_high(plan: &Plan) -> u32
    ensures value { result ≡ dest_bits plan.now - 1 }
    ensures whole { result + 1 ≡ dest_bits plan.now }
    ensures few { result < 8 }
{
    dest_bits(plan) - 1
}
