//! Laws over the definitions.

ghost use Rattle.top_tie.specs.Laws.{RightTogether};

/// A sound design of a plan's shape whose leaves hold their tiles is a right design.
pub fn right_together()
    ensures { RightTogether }
{}
