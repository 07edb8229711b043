//! Laws over the definitions.

ghost use Rattle.std.specs.Prelude.{◌≡◌, ℕ, List};
ghost use Rattle.vl_tree.specs.Values.{Design};
ghost use Rattle.vl_tree.specs.Spells.{Spells};

/// No bytes spell two designs.
pub fn one_design()
    ensures { (bytes : List ℕ) (c d : Design) → Spells bytes c → Spells bytes d → c ≡ d }
{}
