//! Notifying a driver of what an attachment took and got.

ghost use Rattle.std.specs.Prelude.{◌≡◌, ◌≢◌, ◌<◌, ℕ, true, IsSome};
ghost use Rattle.noc_model.specs.Driver.{after_taken, after_got};

use crate::Drive;
use flit_word::Ejected;

/// Notifies the driver that a word was taken, if one was.
pub fn notify_taken<D: Drive>(drive: &mut D, j: u32, cycle: u32, taken: bool)
    requires there { j < D.count drive.old }
    requires offered { taken ≡ true → IsSome ((D.driver drive.old).offer j (D.state drive.old j) cycle) }
    ensures count { D.count drive.new ≡ D.count drive.old }
    ensures driver { D.driver drive.new ≡ D.driver drive.old }
    ensures state { D.state drive.new j ≡ after_taken (D.driver drive.old) j (D.state drive.old j) cycle taken }
    ensures others { (k : ℕ) → k ≢ j → D.state drive.new k ≡ D.state drive.old k }
{
    if taken {
        drive.taken(j, cycle);
    }
}

/// Notifies the driver of what was got, if anything was.
pub fn notify_got<D: Drive>(drive: &mut D, j: u32, cycle: u32, hears: bool, flit: Option<Ejected>)
    requires there { j < D.count drive.old }
    requires heard { hears ≡ true → (D.driver drive.old).hears j (D.state drive.old j) cycle ≡ true }
    ensures count { D.count drive.new ≡ D.count drive.old }
    ensures driver { D.driver drive.new ≡ D.driver drive.old }
    ensures state { D.state drive.new j ≡ after_got (D.driver drive.old) j (D.state drive.old j) cycle hears flit }
    ensures others { (k : ℕ) → k ≢ j → D.state drive.new k ≡ D.state drive.old k }
{
    if let Some(flit) = flit {
        if hears {
            drive.got(j, cycle, flit);
        }
    }
}
