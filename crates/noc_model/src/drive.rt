//! What drives the attachments.

ghost use Rattle.std.specs.Prelude.{ℕ, List};
ghost use Rattle.noc_model.specs.Driver.{Driver, KeepsHearing};

/// What a driver of the attachments means.
///
/// `count` is the number of its attachments and `driver` says what it does at each; no call changes these two.
/// `state` is the state of each attachment, and changes by calls that name it alone. An attachment that hears in a
/// cycle still does when the word that it offers was taken (`keeps_hearing`).
pub trait Driving {
    ghost count: { Self → ℕ };

    ghost driver: { Self → Driver };

    ghost state: { Self → ℕ → List ℕ };

    ghost keeps_hearing: { (s : Self) → KeepsHearing (driver s) };
}
