//! The literals of outputs and of latches.

ghost use Rattle.std.specs.Prelude.{◌≡◌, ℕ, ◌<◌, ◌++◌, Bool, false, true, map, slice_index, IfOk, OnOk};
ghost use Rattle.std.specs.List.{AllByRecursion};
ghost use Rattle.vl_tree.specs.Values.{Name};
ghost use Rattle.aig_model.specs.Form.{literal};
ghost use Rattle.aig_model.specs.Netlist.{Net, AreOf};
ghost use Rattle.aig_model.specs.FormOf.{all_bits};
ghost use Rattle.vl_run.specs.Top.{places_of};
ghost use Rattle.aig_gates.specs.Zips.{AreBelow};
ghost use Rattle.aig_cycle.specs.Wires.{numbers};
ghost use Rattle.aig_cycle.specs.Steps.{part_as, AreWired};
ghost use Rattle.aig_design.specs.Start.{instance_bits};

use crate::start::place_at;
use aig_cycle::{Wired, next_literals, port_literals};
use aig_gates::{Word, literals};
use std::alloc::{AllocError, Global};
use surf_base::Seq;
use vl_run::Cells;
use vl_tree::Port;

fn append(all: &mut Word, more: &[u64]) -> Result<(), AllocError>
    ensures { OnOk result (all.new ≡ all.old ++ more.now) }
{
    for literal in more {
        all.push(*literal)?;
    }
    Ok(())
}

/// The literals of the output ports, in order.
///
/// # Errors
///
/// Memory ran out.
pub fn output_literals(
    alloc: Global,
    ports: &[Port],
    places: &[usize],
    tops: &[Word],
) -> Result<Word, AllocError>
    ensures known { IfOk result (λ r. (k : ℕ) → 0 < k → AllByRecursion (AreBelow k) tops.now → AreBelow k r) }
    ensures value { IfOk result (λ r. (t : Name → ℕ) → places.now ≡ places_of t ports.now → (v : ℕ → Bool) → v 0 ≡ false
        → map (literal v) r ≡ all_bits true (λ n. slice_index (numbers v tops.now) (t n)) ports.now) }
{
    let mut all = Seq::new(alloc);
    for (i, port) in ports.iter().enumerate() {
        if port.output {
            let bits = port_literals(alloc, literals(tops, place_at(places, i)), port.high)?;
            append(&mut all, bits.as_slice())?;
        }
    }
    Ok(all)
}

/// The literals that the latches of all instances take, in order.
///
/// # Errors
///
/// Memory ran out.
pub fn latch_literals(alloc: Global, parts: &[Wired], resets: &[Cells]) -> Result<Word, AllocError>
    ensures known { IfOk result (λ r. (n : Net) → 0 < n.start → AreWired n parts.now → AreOf n r) }
    ensures value { IfOk result (λ r. (v : ℕ → Bool) → v 0 ≡ false → map (literal v) r ≡ instance_bits resets.now (map (part_as v) parts.now)) }
{
    let mut all = Seq::new(alloc);
    for i in 0..parts.len().min(resets.len()) {
        let part = &parts[i];
        let bits = next_literals(
            alloc,
            &part.program,
            part.nets.as_slice(),
            part.memories.as_slice(),
            &resets[i],
        )?;
        append(&mut all, bits.as_slice())?;
    }
    Ok(all)
}
