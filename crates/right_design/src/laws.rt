//! Laws over the definitions.

ghost use Rattle.right_design.specs.Laws.{DomainsApart, DrivenIsRun, ReplayIsSimulation, ReplayStands};

/// Domains don't interfere: a domain's outputs depend on its own inputs alone.
pub fn domains_apart()
    ensures { DomainsApart }
{}

/// A driven text makes one of its design's runs.
pub fn driven_is_run()
    ensures { DrivenIsRun }
{}

/// The replay of a right design is the simulation.
pub fn replay_is_simulation()
    ensures events { ReplayIsSimulation }
    ensures states { ReplayStands }
{}
