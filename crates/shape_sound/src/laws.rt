//! Laws over the definitions.

ghost use Rattle.shape_sound.specs.Laws.{ShapeIsSound};

/// A design of a plan's shape with sound leaves is sound.
pub fn shape_is_sound()
    ensures { ShapeIsSound }
{}
