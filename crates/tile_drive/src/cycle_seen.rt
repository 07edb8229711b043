//! What one cycle shows.

ghost use Rattle.std.specs.Prelude.{◌≡◌, ◌≢◌, ◌<◌, ℕ, length, slice_set, IfOk};
ghost use Rattle.tile_drive.specs.Seen.{seen_at, nothing_seen};

use flit_word::{Ejected, Offer};
use noc_model::Plan;
use std::alloc::{AllocError, Global};
use std::marker::Model;

/// What one cycle shows at an attachment.
#[derive(Clone, Copy, Debug, PartialEq, Eq)]
pub struct SeenAt {
    /// The word that is offered.
    pub offered: Option<Offer>,
    /// Whether the attachment takes a word that is offered.
    pub ready: bool,
    /// Whether a word that was taken in the cycle before was dropped.
    pub dropped: bool,
    /// The flit that is given out and heard.
    pub got: Option<Ejected>,
}

/// What one cycle shows at each attachment, by number.
#[derive(Drop)]
pub struct Seen {
    items: Vec<SeenAt>,
}

impl Model for Seen {
    ghost use Rattle.std.specs.Prelude.{List};
    ghost use Rattle.tile_drive.specs.declared.cycle_seen.SeenAt.{SeenAt};

    ghost Value = { List SeenAt };

    ghost view = { λ a. a.items.items };
}

impl Seen {
    /// Nothing at each of the plan's attachments.
    ///
    /// # Errors
    ///
    /// When memory runs out.
    pub fn new(alloc: Global, plan: &Plan) -> Result<Seen, AllocError>
        ensures count { IfOk result (λ seen. length seen ≡ length plan.now.hosts) }
        ensures nothing { IfOk result (λ seen. (j : ℕ) → seen_at seen j ≡ nothing_seen) }
    {
        let nothing = SeenAt {
            offered: None,
            ready: false,
            dropped: false,
            got: None,
        };
        let items = vec![in alloc; nothing; plan.attach_count() as usize]?;
        Ok(Seen { items })
    }

    /// How many attachments there are.
    pub fn len(&self) -> usize
        ensures { result ≡ length self.now }
    {
        self.items.len()
    }

    /// The word that is offered at attachment `j`.
    pub fn offered(&self, j: u32) -> Option<Offer>
        requires { j < length self.now }
        ensures { result ≡ (seen_at self.now j).offered }
    {
        self.items[j as usize].offered
    }

    /// Whether attachment `j` takes a word that is offered.
    pub fn ready(&self, j: u32) -> bool
        requires { j < length self.now }
        ensures { result ≡ (seen_at self.now j).ready }
    {
        self.items[j as usize].ready
    }

    /// Whether a word that attachment `j` took in the cycle before was dropped.
    pub fn dropped(&self, j: u32) -> bool
        requires { j < length self.now }
        ensures { result ≡ (seen_at self.now j).dropped }
    {
        self.items[j as usize].dropped
    }

    /// The flit that is given out at attachment `j` and heard.
    pub fn got(&self, j: u32) -> Option<Ejected>
        requires { j < length self.now }
        ensures { result ≡ (seen_at self.now j).got }
    {
        self.items[j as usize].got
    }

    /// Makes these four what is seen at attachment `j`.
    pub fn set(
        &mut self,
        j: u32,
        offered: Option<Offer>,
        ready: bool,
        dropped: bool,
        got: Option<Ejected>,
    )
        requires { j < length self.old }
        ensures count { length self.new ≡ length self.old }
        ensures set { seen_at self.new j
            ≡ record { offered = offered; ready = ready; dropped = dropped; got = got } }
        ensures others { (k : ℕ) → k ≢ j → seen_at self.new k ≡ seen_at self.old k }
    {
        self.items[j as usize] = SeenAt {
            offered,
            ready,
            dropped,
            got,
        };
    }
}
