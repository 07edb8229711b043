//! The attachments of a tile.

ghost use Rattle.std.specs.Prelude.{◌≡◌, ◌<◌, length, replicate, true, IfOk};
ghost use Rattle.noc_model.specs.Plan.{channels};
ghost use Rattle.noc_model.specs.Step.{next_ejected, with_channel};
ghost use Rattle.tile_iface.specs.Iface.{taken};
ghost use Rattle.router_core.specs.Attach.{attachment_after, IsStill};
ghost use Rattle.router_core.specs.Attachments.{start_attachment, nothing_told};

use flit_word::{Flit, Offer};
use noc_model::{Packet, Plan};
use std::alloc::{AllocError, Global};
use tile_iface::{entry, is_dropped, next_current, next_packet};

/// What a tile keeps for the attachment of a domain: the packet that its words are of, the channel of the local input
/// that the next word goes to, the drop pulse, and the ejection place. Where the tile doesn't host the domain, it stays
/// as at the start.
#[derive(Clone, Copy)]
pub(crate) struct Attachment {
    pub(crate) packet: Packet,
    pub(crate) current: u32,
    pub(crate) dropped: bool,
    pub(crate) ejected: Option<Flit>,
}

/// What the outside does at an attachment in a cycle.
#[derive(Clone, Copy, Debug, PartialEq, Eq)]
pub struct Told {
    /// The word that it offers.
    pub offer: Option<Offer>,
    /// Whether it hears a flit.
    pub hears: bool,
}

/// The attachment of each domain at the start.
pub(crate) fn start_attachments(alloc: Global, plan: &Plan) -> Result<Vec<Attachment>, AllocError>
    ensures { IfOk result (λ v. v.items ≡ replicate (length plan.now.domains) start_attachment) }
{
    let start = Attachment {
        packet: Packet::Between,
        current: 0,
        dropped: false,
        ejected: None,
    };
    Ok(vec![in alloc; start; plan.domains() as usize]?)
}

/// Nothing that the outside does, for each domain.
pub(crate) fn nothing_told(alloc: Global, plan: &Plan) -> Result<Vec<Told>, AllocError>
    ensures { IfOk result (λ v. v.items ≡ replicate (length plan.now.domains) nothing_told) }
{
    let nothing = Told {
        offer: None,
        hears: false,
    };
    Ok(vec![in alloc; nothing; plan.domains() as usize]?)
}

/// The ejection place after a cycle: a flit that is ejected takes it, and one that is heard leaves it.
fn next_ejected(eject: Option<Flit>, hears: bool, old: Option<Flit>) -> Option<Flit>
    ensures { result ≡ next_ejected (with_channel 0 eject) hears old }
{
    match eject {
        Some(flit) => Some(flit),
        None if hears => None,
        None => old,
    }
}

/// The attachment of domain `d` after it took this word, if there is one, and this flit was ejected, if there is one.
pub(crate) fn attachment_after(
    plan: &Plan,
    d: u32,
    attachment: Attachment,
    word: Option<Offer>,
    eject: Option<Flit>,
    hears: bool,
) -> Attachment
    requires domain { d < length plan.now.domains }
    requires current { attachment.current < channels plan.now d }
    ensures value { result ≡ attachment_after plan.now d attachment word eject hears }
    ensures current { result.current < channels plan.now d }
{
    let flit = entry(plan, d, attachment.packet, word);
    Attachment {
        packet: next_packet(plan, d, attachment.packet, word),
        current: next_current(plan.channels(d), attachment.current, flit),
        dropped: is_dropped(plan, d, attachment.packet, word),
        ejected: next_ejected(eject, hears, attachment.ejected),
    }
}

/// The word that is taken: the one that is offered, if the attachment was ready for one.
pub(crate) fn taken(ready: bool, offer: Option<Offer>) -> Option<Offer>
    ensures { result ≡ taken ready offer }
{
    if ready { offer } else { None }
}

/// Whether an attachment is as before after a cycle in which it took this word, if there is one, and ejected this flit, if
/// there is one.
pub(crate) fn stays(
    attachment: Attachment,
    word: Option<Offer>,
    eject: Option<Flit>,
    hears: bool,
) -> bool
    ensures { result ≡ true → IsStill attachment word eject hears }
{
    word.is_none()
        && eject.is_none()
        && !attachment.dropped
        && (attachment.ejected.is_none() || !hears)
}
