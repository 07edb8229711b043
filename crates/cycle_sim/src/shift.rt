//! The links, one cycle on.

ghost use Rattle.std.specs.Prelude.{◌≡◌, ◌≢◌, ◌<◌, ◌*◌, ◌-◌, ◌∷◌, ℕ, true, false, length, take, Some, None, slice_get, slice_index_or};
ghost use Rattle.noc_model.specs.Plan.{tiles, ports};
ghost use Rattle.router_core.specs.declared.router.RouterOut.{RouterOut as Out};
ghost use Rattle.cycle_sim.specs.Asleep.{is_awake};
ghost use Rattle.cycle_sim.specs.Links.{row_of};

use credit_links::Pipe;
use noc_model::Plan;
use router_core::RouterOut;

/// What a tile sends goes onto its links, and each flit on them moves on by one register.
fn shift_from(plan: &Plan, tile: u32, out: &RouterOut, rows: &mut Vec<Pipe>)
    requires tile { tile < tiles plan.now }
    requires links { length out.now.links.items ≡ ports plan.now }
    requires rows { length rows.old.items ≡ tiles plan.now * ports plan.now }
    ensures rows { length rows.new.items ≡ tiles plan.now * ports plan.now }
    ensures shifted { (o : ℕ) → o < ports plan.now
        → row_of plan.now rows.new.items tile o ≡ slice_index_or out.now.links.items o None
        ∷ take (length (row_of plan.now rows.old.items tile o) - 1) (row_of plan.now rows.old.items tile o) }
    ensures others { (n o : ℕ) → n ≢ tile → o < ports plan.now
        → row_of plan.now rows.new.items n o ≡ row_of plan.now rows.old.items n o }
{
    plan.known();
    for port in 0..plan.ports() {
        let sent = out.links[port as usize];
        rows[(tile * plan.ports() + port) as usize].shift(sent);
    }
}

/// What a tile sends goes onto its links, if it is awake.
fn shift_if(plan: &Plan, tile: u32, awake: bool, out: &RouterOut, rows: &mut Vec<Pipe>)
    requires tile { tile < tiles plan.now }
    requires links { length out.now.links.items ≡ ports plan.now }
    requires rows { length rows.old.items ≡ tiles plan.now * ports plan.now }
    ensures rows { length rows.new.items ≡ tiles plan.now * ports plan.now }
    ensures shifted { awake ≡ true → (o : ℕ) → o < ports plan.now
        → row_of plan.now rows.new.items tile o ≡ slice_index_or out.now.links.items o None
        ∷ take (length (row_of plan.now rows.old.items tile o) - 1) (row_of plan.now rows.old.items tile o) }
    ensures asleep { awake ≡ false → rows.new.items ≡ rows.old.items }
    ensures others { (n o : ℕ) → n ≢ tile → o < ports plan.now
        → row_of plan.now rows.new.items n o ≡ row_of plan.now rows.old.items n o }
{
    if awake {
        shift_from(plan, tile, out, rows);
    }
}

/// What each tile that is awake sends goes onto its links, and each flit on them moves on by one register.
pub(crate) fn shift_all(plan: &Plan, awake: &[bool], outs: &[RouterOut], rows: &mut Vec<Pipe>)
    requires awake { length awake.now ≡ tiles plan.now }
    requires outs { length outs.now ≡ tiles plan.now }
    requires links { (n : ℕ) (out : Out) → slice_get outs.now n ≡ Some out → length out.links.items ≡ ports plan.now }
    requires rows { length rows.old.items ≡ tiles plan.now * ports plan.now }
    ensures rows { length rows.new.items ≡ tiles plan.now * ports plan.now }
    ensures shifted { (n o : ℕ) (out : Out) → slice_get outs.now n ≡ Some out → is_awake awake.now n ≡ true
        → o < ports plan.now → row_of plan.now rows.new.items n o ≡ slice_index_or out.links.items o None
        ∷ take (length (row_of plan.now rows.old.items n o) - 1) (row_of plan.now rows.old.items n o) }
    ensures asleep { (n o : ℕ) → is_awake awake.now n ≡ false → o < ports plan.now
        → row_of plan.now rows.new.items n o ≡ row_of plan.now rows.old.items n o }
{
    for tile in 0..plan.tiles() {
        shift_if(plan, tile, awake[tile as usize], &outs[tile as usize], rows);
    }
}
