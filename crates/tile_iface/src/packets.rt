//! What becomes of a word: the rules of packets.

ghost use Rattle.std.specs.Prelude.{◌≡◌, ◌<◌, ℕ};
ghost use Rattle.noc_model.specs.Plan.{Plan, channels};
ghost use Rattle.noc_model.specs.Step.{is_ready_packet, goes_to, entry, next_packet, is_dropped, next_current};
ghost use Rattle.noc_model.specs.Events.{ejected_of};

use flit_word::{Ejected, Flit, Offer};
use noc_model::{Packet, Plan};

/// Whether a word is taken, where `count` flits are in the buffer that it goes to, of `buffer` slots: always while
/// the packet is dropped.
pub fn is_ready_packet(packet: Packet, count: usize, buffer: u32) -> bool
    ensures { result ≡ is_ready_packet packet count buffer }
{
    match packet {
        Packet::Dropping => true,
        Packet::Between | Packet::Passing { .. } => count < buffer as usize,
    }
}

/// The tile that the packet of a word goes to; None where it is dropped.
fn goes_to(plan: &Plan, domain: u32, packet: Packet, word: Offer) -> Option<u32>
    ensures { result ≡ goes_to plan.now domain packet word }
{
    match packet {
        Packet::Between => plan.lookup(domain, word.address),
        Packet::Passing { dest } => Some(dest),
        Packet::Dropping => None,
    }
}

/// The flit that a word of the domain enters as; None where there is no word, or it is dropped.
pub fn entry(plan: &Plan, domain: u32, packet: Packet, word: Option<Offer>) -> Option<Flit>
    ensures { result ≡ entry plan.now domain packet word }
{
    let word = word?;
    let dest = goes_to(plan, domain, packet, word)?;
    Some(Flit {
        head: matches!(packet, Packet::Between),
        tail: word.last,
        dest,
        payload: word.payload,
    })
}

/// The packet after a word of the domain.
pub fn next_packet(plan: &Plan, domain: u32, packet: Packet, word: Option<Offer>) -> Packet
    ensures { result ≡ next_packet plan.now domain packet word }
{
    match word {
        None => packet,
        Some(word) if word.last => Packet::Between,
        Some(word) => match goes_to(plan, domain, packet, word) {
            Some(dest) => Packet::Passing { dest },
            None => Packet::Dropping,
        },
    }
}

/// Whether a word of the domain is dropped.
pub fn is_dropped(plan: &Plan, domain: u32, packet: Packet, word: Option<Offer>) -> bool
    ensures { result ≡ is_dropped plan.now domain packet word }
{
    match word {
        None => false,
        Some(word) => goes_to(plan, domain, packet, word).is_none(),
    }
}

/// The channel of the local input that the next word goes to: a tail moves on to the next of the domain's `count`
/// channels.
pub fn next_current(count: u32, current: u32, entry: Option<Flit>) -> u32
    requires current { current < count }
    ensures next { (p : Plan) (d : ℕ) → channels p d ≡ count → result ≡ next_current p d current entry }
    ensures few { result < count }
{
    match entry {
        Some(flit) if flit.tail => (current + 1) % count,
        _ => current,
    }
}

/// What an attachment shows of a flit: all but its destination.
pub fn ejected_of(flit: Option<Flit>) -> Option<Ejected>
    ensures { result ≡ ejected_of flit }
{
    match flit {
        Some(flit) => Some(Ejected {
            head: flit.head,
            tail: flit.tail,
            payload: flit.payload,
        }),
        None => None,
    }
}
