//! The entries of a trace.

use surf_base::Seq;

/// The words of a packet, each 32 bits.
pub type Words = Seq<u32>;

/// What one line of a trace asks for.
#[derive(Drop)]
pub enum Entry {
    /// A packet of these words is offered at the attachment, word by word, none before the cycle.
    Send {
        cycle: u32,
        attach: u32,
        address: u32,
        words: Words,
    },
    /// The attachment is deaf in `count` cycles from `cycle` on.
    Hold {
        cycle: u32,
        attach: u32,
        count: u32,
    },
}

/// The entries of a trace, in order.
pub type Trace = Seq<Entry>;
