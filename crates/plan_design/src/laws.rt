//! Laws over the definitions.

ghost use Rattle.plan_design.specs.Laws.{SizesFit, LeafHolds, PlanIsRight};

/// The sizes of a plan's leaves are enough, and each credit of a link has its own number.
pub fn sizes_fit()
    ensures { SizesFit }
{}

/// The leaf of a tile holds the tile.
pub fn leaf_holds()
    ensures { LeafHolds }
{}

/// The design of a plan is right.
pub fn plan_is_right()
    ensures { PlanIsRight }
{}
