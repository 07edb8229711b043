//! Laws over the definitions.

ghost use Rattle.label_model.specs.Laws.{CleanIsolates, LeastIsolates, LabelsExist, NetsRise, CarriesBelow, KeptIsLawful, FirstIsBelow, NextIsBelow, StableIsLeast, NoLeakIsClean, LeakIsFirst};

/// A sound design whose outputs are clean isolates every domain.
pub fn clean_isolates()
    ensures lawful { CleanIsolates }
    ensures least { LeastIsolates }
{}

/// In a sound design there are labels of all nets for any labels of registers and memories.
pub fn labels_exist()
    ensures { LabelsExist }
{}

/// In a phase the labels of all nets rise with those of registers and memories.
pub fn nets_rise()
    ensures { NetsRise }
{}

/// What is below a lawful labelling in one phase hands over what is below it in the next.
pub fn carries_below()
    ensures { CarriesBelow }
{}

/// Registers and memories by phase that are above reset and above what each phase hands over are lawful; and reset and
/// what is handed over stay below every lawful labelling.
pub fn kept_is_lawful()
    ensures lawful { KeptIsLawful }
    ensures first { FirstIsBelow }
    ensures next { NextIsBelow }
{}

/// Rounds that raise nothing more give the least lawful labelling.
pub fn stable_is_least()
    ensures { StableIsLeast }
{}

/// A verdict without a leak says that the design is clean.
pub fn no_leak_is_clean()
    ensures { NoLeakIsClean }
{}

/// A verdict with a leak names the least port, then the least phase, then the least domain.
pub fn leak_is_first()
    ensures { LeakIsFirst }
{}
