//! What the allocator's steps come to, over the definitions. Each law is the contract of a function that does nothing.

ghost use Rattle.std.specs.Prelude.{◌≡◌, ◌<◌, ◌≤◌, ℕ, Bool, false, Option, None, option_map};
ghost use Rattle.noc_model.specs.Plan.{Plan, channels, classes};
ghost use Rattle.noc_model.specs.Pick.{pick};
ghost use Rattle.noc_model.specs.Tile.{Tile};
ghost use Rattle.noc_model.specs.Step.{free_channel, winner, taken_channel};
ghost use Rattle.vc_alloc.specs.declared.Winner.{Winner as WinnerValue};
ghost use Rattle.vc_alloc.specs.Allocator.{Allocator, wanted, free_in};
ghost use Rattle.vc_alloc.specs.Chosen.{winner_with, with_input, free_at, HaveFree, HoldsAs};

/// Inputs may be made known in any order: where the best so far is the round-robin choice of a set of inputs, it is the
/// choice of the set with one input more after that input was made known. Where none was, it is the choice of the
/// empty set.
pub fn in_any_order()
    ensures first { (n pointer : ℕ) (free : ℕ → Option ℕ) → winner_with free (pick n (λ k. false) pointer) ≡ None }
    ensures more { (n pointer m : ℕ) (set : ℕ → Bool) (free : ℕ → Option ℕ) → m < n → HaveFree n set free
        → wanted pointer (winner_with free (pick n set pointer)) m (free m)
        ≡ winner_with free (pick n (with_input set free m) pointer) }
{}

/// The choice of all candidates of an output is the input that wins it in the definition of a tile's step, with the
/// channel that it takes there.
pub fn best_wins()
    ensures place { (p : Plan) (d n o : ℕ) (s : Tile)
        → option_map (λ (w : WinnerValue). w.place) (winner_with (free_at p d n s o) (winner p d n s o))
        ≡ winner p d n s o }
    ensures channel { (p : Plan) (d n o : ℕ) (s : Tile)
        → option_map (λ (w : WinnerValue). w.to) (winner_with (free_at p d n s o) (winner p d n s o))
        ≡ taken_channel p d n s o }
    ensures free { (p : Plan) (d o class : ℕ) (x : Allocator) (s : Tile) → class < classes p → 1 ≤ channels p d
        → HoldsAs x p d s o → free_in x d o class ≡ free_channel p d s o class }
{}
