//! Laws over the definitions.

ghost use Rattle.leaf_sound.specs.Laws.{SizesMeet, NamesKept, NamesJoined, LeafSound, ModuleRun};

/// The sizes of a leaf are enough for its plan.
pub fn sizes_meet()
    ensures { SizesMeet }
{}

/// A leaf declares each name once and drives it once.
pub fn names_kept()
    ensures { NamesKept }
{}

/// The names of a leaf are joined as its groups ask for, and its attachments' ports have their widths.
pub fn names_joined()
    ensures { NamesJoined }
{}

/// The leaf of each tile of a sound plan is sound: it breaks no rule of the small Verilog.
pub fn leaf_sound()
    ensures { LeafSound }
{}

/// In each run of a sound design, the leaf of a tile holds the tile parts of all domains in every cycle, and shows them.
pub fn module_run()
    ensures { ModuleRun }
{}
