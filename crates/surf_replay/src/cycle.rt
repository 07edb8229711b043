//! What the output ports show in a cycle.

ghost use Rattle.std.specs.Prelude.{◌≡◌, ◌<◌, ◌≤◌, ◌^◌, ℕ, Some, length, slice_get, codes};
ghost use Rattle.vl_model.specs.Whole.{Nets};
ghost use Rattle.noc_model.specs.declared.Host.{Host};
ghost use Rattle.gen_kit.specs.PortSpec.{kind_head, high_of};
ghost use Rattle.gen_kit.specs.Replayed.{at, is_on, ejected_at};
ghost use Rattle.vl_run.specs.Running.{running};
ghost use Rattle.surf_replay.specs.Cycle.{IsIn};

use flit_word::Ejected;
use noc_model::Plan;
use vl_run::Machine;

/// How many ports an attachment has.
const KINDS: u32 = 11;

/// The number of an output port of an attachment, by its kind.
fn number(machine: &Machine, plan: &Plan, j: u32, kind: u32) -> u64
    requires there { j < length plan.now.hosts }
    requires output { 5 ≤ kind }
    requires kind { kind < 11 }
    ensures value { (nets : Nets) (h : Host) → IsIn (running machine.now) plan.now nets
        → slice_get plan.now.hosts j ≡ Some h
        → result ≡ at nets (kind_head kind) h }
    ensures small { (nets : Nets) (h : Host) → IsIn (running machine.now) plan.now nets
        → slice_get plan.now.hosts j ≡ Some h
        → result < 2 ^ 32 }
{
    plan.known();
    machine.outputs(KINDS * j + kind)
}

/// Whether the attachment takes a word that is offered.
pub(crate) fn is_ready(machine: &Machine, plan: &Plan, j: u32) -> bool
    requires { j < length plan.now.hosts }
    ensures { (nets : Nets) (h : Host) → IsIn (running machine.now) plan.now nets
        → slice_get plan.now.hosts j ≡ Some h
        → result ≡ is_on nets (codes "rd") h }
{
    number(machine, plan, j, 5) == 1
}

/// Whether a word that was taken in the cycle before was dropped.
pub(crate) fn has_dropped(machine: &Machine, plan: &Plan, j: u32) -> bool
    requires { j < length plan.now.hosts }
    ensures { (nets : Nets) (h : Host) → IsIn (running machine.now) plan.now nets
        → slice_get plan.now.hosts j ≡ Some h
        → result ≡ is_on nets (codes "dr") h }
{
    number(machine, plan, j, 6) == 1
}

/// The low 32 bits.
fn low(x: u64) -> u32
    ensures { x < 2 ^ 32 → result ≡ x }
{
    (x % (1 << 32)) as u32
}

/// The flit that is given out.
pub(crate) fn ejected(machine: &Machine, plan: &Plan, j: u32) -> Option<Ejected>
    requires { j < length plan.now.hosts }
    ensures { (nets : Nets) (h : Host) → IsIn (running machine.now) plan.now nets
        → slice_get plan.now.hosts j ≡ Some h
        → result ≡ ejected_at nets h }
{
    if number(machine, plan, j, 7) != 1 {
        return None;
    }
    Some(Ejected {
        head: number(machine, plan, j, 8) == 1,
        tail: number(machine, plan, j, 9) == 1,
        payload: low(number(machine, plan, j, 10)),
    })
}
