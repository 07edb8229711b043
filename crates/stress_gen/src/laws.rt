//! What holds of the counts of every run, over the definitions alone. Each law is the contract of a function that does
//! nothing.

ghost use Rattle.std.specs.Prelude.{◌≡◌, ◌<◌, ◌+◌, ℕ, List, length};
ghost use Rattle.noc_model.specs.Plan.{Plan};
ghost use Rattle.noc_model.specs.Sound.{IsSound};
ghost use Rattle.noc_model.specs.Run.{Input, start, run};
ghost use Rattle.noc_model.specs.Events.{events_from};
ghost use Rattle.noc_model.specs.Driver.{Driver, driven_events, driven_state};
ghost use Rattle.noc_model.specs.Flits.{inside};
ghost use Rattle.domain_report.specs.Counts.{counts_of};
ghost use Rattle.stress_gen.specs.Summary.{held};
ghost use Rattle.stress_gen.specs.Held.{pulses};

/// What is held. After every run the words that were taken are those that were dropped, those that were got, the flits
/// in the network, and the words whose drop pulse is still to be counted. So what the summary calls held are the last
/// two, in the runs that a driver makes too.
pub fn held_words()
    ensures words { (p : Plan) (d : ℕ) (inputs : List Input) → IsSound p → d < length p.domains
        → (counts_of (events_from p d 0 (start p) inputs)).takes
        ≡ (counts_of (events_from p d 0 (start p) inputs)).drops + (counts_of (events_from p d 0 (start p) inputs)).gots
        + length (inside p d (run p d inputs)) + pulses p d (run p d inputs) }
    ensures held { (p : Plan) (d : ℕ) (inputs : List Input) → IsSound p → d < length p.domains
        → held (counts_of (events_from p d 0 (start p) inputs))
        ≡ length (inside p d (run p d inputs)) + pulses p d (run p d inputs) }
    ensures driven { (p : Plan) (d k : ℕ) (v : Driver) (states : ℕ → List ℕ) → IsSound p → d < length p.domains
        → held (counts_of (driven_events p d v k 0 (start p) states))
        ≡ length (inside p d (driven_state p d v k 0 (start p) states))
        + pulses p d (driven_state p d v k 0 (start p) states) }
{}
