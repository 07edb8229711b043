//! A driver of the attachments.

ghost use Rattle.std.specs.Prelude.{◌≡◌, ◌≢◌, ◌<◌, ℕ, true, IsSome};

use flit_word::{Ejected, Offer};
use noc_model::Driving;

/// What is outside of a network: at each attachment it offers words, and hears what is given out.
///
/// Calls of `taken` and `got` for an attachment change what it answers there. No other call does.
pub trait Drive: Driving {
    /// The word that is offered at the attachment in the cycle, if there is one.
    fn offer(&self, attach: u32, cycle: u32) -> Option<Offer>
        requires { attach < Self.count self.now }
        ensures { result ≡ (Self.driver self.now).offer attach (Self.state self.now attach) cycle };

    /// Whether the attachment hears in the cycle.
    fn hears(&self, attach: u32, cycle: u32) -> bool
        requires { attach < Self.count self.now }
        ensures { result ≡ (Self.driver self.now).hears attach (Self.state self.now attach) cycle };

    /// Notifies of a word that was taken: the one that is offered at the attachment in the cycle.
    fn taken(&mut self, attach: u32, cycle: u32)
        requires in_range { attach < Self.count self.old }
        requires offered { IsSome ((Self.driver self.old).offer attach (Self.state self.old attach) cycle) }
        ensures count { Self.count self.new ≡ Self.count self.old }
        ensures driver { Self.driver self.new ≡ Self.driver self.old }
        ensures state { Self.state self.new attach
            ≡ (Self.driver self.old).taken attach (Self.state self.old attach) cycle }
        ensures others { (j : ℕ) → j ≢ attach → Self.state self.new j ≡ Self.state self.old j };

    /// Notifies of a flit that was given out at the attachment in the cycle, and heard.
    fn got(&mut self, attach: u32, cycle: u32, flit: Ejected)
        requires in_range { attach < Self.count self.old }
        requires heard { (Self.driver self.old).hears attach (Self.state self.old attach) cycle ≡ true }
        ensures count { Self.count self.new ≡ Self.count self.old }
        ensures driver { Self.driver self.new ≡ Self.driver self.old }
        ensures state { Self.state self.new attach
            ≡ (Self.driver self.old).got attach (Self.state self.old attach) cycle flit }
        ensures others { (j : ℕ) → j ≢ attach → Self.state self.new j ≡ Self.state self.old j };
}
