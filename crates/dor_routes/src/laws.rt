//! What follows from the rise of the rank, over the definitions alone. The law is the contract of a function that
//! does nothing.

ghost use Rattle.std.specs.Prelude.{◌≡◌, ◌<◌, ℕ, List, Some};
ghost use Rattle.noc_model.specs.Plan.{Plan};
ghost use Rattle.noc_model.specs.Sound.{IsSound};
ghost use Rattle.noc_model.specs.Place.{neighbour};
ghost use Rattle.noc_model.specs.Walk.{Stop, stop_at, out_of, out_rank};
ghost use Rattle.dor_routes.specs.Chains.{Channel, channel_rank, Chain};

use noc_model::laws::rank_rises;

/// Along every route from a local port each channel has a higher rank than all before it, and so has each channel
/// than those that wait for it, over however many others. So no channel waits for itself: dimension-order routing
/// with datelines can't deadlock (Dally and Towles, chapter 14).
pub fn no_circle()
    ensures along { (p : Plan) (dest n i k m : ℕ) (a b : Stop) → IsSound p → i < k → stop_at p dest n i ≡ Some a
        → stop_at p dest n k ≡ Some b → neighbour p b.tile (out_of p dest b) ≡ Some m
        → out_rank p dest a < out_rank p dest b }
    ensures chain { (p : Plan) (a b : Channel) (between : List Channel) → IsSound p → Chain p a between b
        → channel_rank p a < channel_rank p b }
    ensures circle { (p : Plan) (a : Channel) (between : List Channel) → IsSound p → Chain p a between a → ⊥ }
{
    rank_rises();
}
