//! What the steps of the switch come to, over the definitions. Each law is the contract of a function that does
//! nothing.

ghost use Rattle.std.specs.Prelude.{◌≡◌, ◌<◌, ℕ, ℤ, Bool, false, Option, Some, None, option_and_then};
ghost use Rattle.noc_model.specs.declared.Grant.{Grant as GrantValue};
ghost use Rattle.noc_model.specs.Plan.{Plan, ports};
ghost use Rattle.noc_model.specs.Pick.{pick};
ghost use Rattle.noc_model.specs.Tile.{Tile, TileIn};
ghost use Rattle.noc_model.specs.Step.{chosen, grant};
ghost use Rattle.vc_partition.specs.Picks.{with_member};
ghost use Rattle.slot_switch.specs.declared.Granted.{Granted as GrantedValue};
ghost use Rattle.slot_switch.specs.Switch.{Switch, better_ask, chosen_in, granted_in};
ghost use Rattle.slot_switch.specs.Asked.{IsGrantOf, HaveGrants, AsksAs};

/// Channels may be made known in any order: where what an input port asks for so far is the round-robin choice of a
/// set of its channels, it is the choice of the set with one channel more after that channel was made known. Where none
/// was, it is the choice of the empty set.
pub fn in_any_order()
    ensures first { (n pointer : ℕ) (grants : ℕ → Option GrantValue)
        → option_and_then grants (pick n (λ k. false) pointer) ≡ None }
    ensures more { (n pointer m : ℕ) (set : ℕ → Bool) (grants : ℕ → Option GrantValue) (g : GrantValue) → m < n
        → HaveGrants n set grants → grants m ≡ Some g → IsGrantOf m (grants m)
        → Some (better_ask pointer (option_and_then grants (pick n set pointer)) g)
        ≡ option_and_then grants (pick n (with_member set m) pointer) }
{}

/// A switch that asks what the definition's input ports ask chooses as the definition's outputs do, and grants exactly
/// what the definition grants.
pub fn grants_as_defined()
    ensures chosen { (x : Switch) (p : Plan) (d n o : ℕ) (t : ℤ) (s : Tile) (i : TileIn) → AsksAs x p d n t s i
        → o < ports p → chosen_in x d o ≡ chosen p d n t s i o }
    ensures granted { (x : Switch) (p : Plan) (d n o : ℕ) (t : ℤ) (s : Tile) (i : TileIn) (r : GrantedValue)
        → AsksAs x p d n t s i → o < ports p → granted_in x d o ≡ Some r → grant p d n t s i r.port ≡ Some r.grant }
    ensures all { (x : Switch) (p : Plan) (d n port : ℕ) (t : ℤ) (s : Tile) (i : TileIn) (g : GrantValue)
        → AsksAs x p d n t s i → port < ports p → g.out < ports p → grant p d n t s i port ≡ Some g
        → granted_in x d g.out ≡ Some (record { port = port; grant = g }) }
{}
