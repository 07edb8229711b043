//! What the latches of an instance take.

ghost use Rattle.std.specs.Prelude.{◌≡◌, ℕ, ◌<◌, ◌++◌, Bool, false, map, flat_map, slice_index, OnOk, IfOk};
ghost use Rattle.aig_model.specs.Form.{literal};
ghost use Rattle.aig_model.specs.Netlist.{Net, AreOf};
ghost use Rattle.aig_model.specs.FormOf.{words_from};
ghost use Rattle.aig_cycle.specs.Wires.{numbers, rows, AreWords, AreRows};
ghost use Rattle.aig_cycle.specs.Steps.{part_as};
ghost use Rattle.aig_cycle.specs.Latches.{register_row, memory_row, part_bits};

use crate::action::memory;
use crate::latches::{latch_literals, port_literals};
use aig_gates::{Row, Word, literals};
use std::alloc::{AllocError, Global};
use surf_base::Seq;
use vl_run::{Cells, Memory, Program, Register};

fn append(all: &mut Word, more: &[u64]) -> Result<(), AllocError>
    ensures { OnOk result (all.new ≡ all.old ++ more.now) }
{
    for literal in more {
        all.push(*literal)?;
    }
    Ok(())
}

/// Adds what the latches of registers take, whose words stand in these nets.
fn add_registers(
    alloc: Global,
    registers: &[Register],
    nets: &[Word],
    resets: &Cells,
    all: &mut Word,
) -> Result<(), AllocError>
    ensures known { OnOk result ((n : Net) → 0 < n.start → AreWords n nets.now → AreOf n all.old → AreOf n all.new) }
    ensures value { OnOk result ((v : ℕ → Bool) → v 0 ≡ false
        → map (literal v) all.new ≡ map (literal v) all.old ++ flat_map (register_row resets.now (numbers v nets.now)) registers.now) }
{
    for register in registers {
        let reset = resets.read(register.place);
        let bits = latch_literals(alloc, literals(nets, register.place), register.high, reset)?;
        append(all, bits.as_slice())?;
    }
    Ok(())
}

/// Adds what the latches of a memory's words take.
fn add_words(
    alloc: Global,
    row: &[Word],
    high: u32,
    count: usize,
    all: &mut Word,
) -> Result<(), AllocError>
    ensures known { OnOk result ((n : Net) → 0 < n.start → AreWords n row.now → AreOf n all.old → AreOf n all.new) }
    ensures value { OnOk result ((v : ℕ → Bool) → v 0 ≡ false
        → map (literal v) all.new ≡ map (literal v) all.old ++ words_from (λ j. slice_index (numbers v row.now) j) high 0 count) }
{
    for place in 0..count {
        let bits = port_literals(alloc, literals(row, place), high)?;
        append(all, bits.as_slice())?;
    }
    Ok(())
}

/// Adds what the latches of memories take.
fn add_memories(
    alloc: Global,
    memories: &[Memory],
    words: &[Row],
    all: &mut Word,
) -> Result<(), AllocError>
    ensures known { OnOk result ((n : Net) → 0 < n.start → AreRows n words.now → AreOf n all.old → AreOf n all.new) }
    ensures value { OnOk result ((v : ℕ → Bool) → v 0 ≡ false
        → map (literal v) all.new ≡ map (literal v) all.old ++ flat_map (memory_row (rows v words.now)) memories.now) }
{
    for one in memories {
        add_words(
            alloc,
            memory(words, one.place),
            one.high,
            one.last as usize + 1,
            all,
        )?;
    }
    Ok(())
}

/// The literals that the latches of an instance take, whose words these are: registers', complemented where their reset
/// constants have a 1, and then memories', word by word.
///
/// # Errors
///
/// Memory ran out.
pub fn next_literals(
    alloc: Global,
    program: &Program,
    nets: &[Word],
    memories: &[Row],
    resets: &Cells,
) -> Result<Word, AllocError>
    ensures known { IfOk result (λ r. (n : Net) → 0 < n.start → AreWords n nets.now → AreRows n memories.now → AreOf n r) }
    ensures value { IfOk result (λ r. (v : ℕ → Bool) → v 0 ≡ false → map (literal v) r
        ≡ part_bits resets.now (part_as v (record { code = program.now; wires = record { nets = nets.now; memories = memories.now } }))) }
{
    let mut all = Seq::new(alloc);
    add_registers(alloc, program.registers.as_slice(), nets, resets, &mut all)?;
    add_memories(alloc, program.memories.as_slice(), memories, &mut all)?;
    Ok(all)
}
