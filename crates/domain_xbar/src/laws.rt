//! What the definition's grants come to at the outputs. The law is the contract of a function that does nothing.

ghost use Rattle.std.specs.Prelude.{◌≡◌, ◌≢◌, ℕ, ℤ, Some};
ghost use Rattle.noc_model.specs.declared.Grant.{Grant as GrantValue};
ghost use Rattle.noc_model.specs.Plan.{Plan};
ghost use Rattle.noc_model.specs.Tile.{Tile, TileIn};
ghost use Rattle.noc_model.specs.Step.{grant};

/// No two inputs of a tile are granted one link in a cycle, of whatever domains they are, and no two of one domain are
/// granted its local output.
pub fn one_grant_each()
    ensures domain { (p : Plan) (d e n port q o : ℕ) (t : ℤ) (s r : Tile) (i j : TileIn) (g h : GrantValue)
        → grant p d n t s i port ≡ Some g → grant p e n t r j q ≡ Some h → g.out ≡ o → h.out ≡ o → o ≢ 0 → d ≡ e }
    ensures port { (p : Plan) (d n port q o : ℕ) (t : ℤ) (s : Tile) (i : TileIn) (g h : GrantValue)
        → grant p d n t s i port ≡ Some g → grant p d n t s i q ≡ Some h → g.out ≡ o → h.out ≡ o → port ≡ q }
{}
