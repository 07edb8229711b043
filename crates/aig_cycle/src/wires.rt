//! Instances of a design, on words.

ghost use Rattle.std.specs.Prelude.{◌≡◌, ℕ, Bool, false, List, [], ◌++◌, OnOk, map};
ghost use Rattle.aig_model.specs.Netlist.{Grows, settle_gates};
ghost use Rattle.vl_run.specs.State.{settled_by, edged, part_settled, part_edged};
ghost use Rattle.aig_cycle.specs.Wires.{numbers, AreWords, AreWires, kept_as};
ghost use Rattle.aig_cycle.specs.Steps.{linked_words, shown_words, part_as, IsPlainCode, IsWired, AreWired};
ghost use Rattle.aig_cycle.specs.Short.{lengths, Bounds, IsWithin, AreShort, IsShortSettle, AreShortSettles, AreWithin, IsShortEdge, AreShortEdges};

use crate::steps::{copy, run, store};
use aig_gates::{Netlist, Row, Word};
use std::alloc::{AllocError, Global};
use std::marker::Model;
use vl_run::Program;

/// An instance: its program, and the words of its nets, at the lines that declare them, and of its memories.
#[derive(Drop)]
pub struct Wired {
    pub program: Program,
    pub nets: Vec<Word>,
    pub memories: Vec<Row>,
}

impl Model for Wired {
    ghost use Rattle.aig_cycle.specs.Steps.{Wired};

    ghost Value = { Wired };

    ghost view = { λ x. record { code = x.program; wires = record { nets = x.nets.items; memories = x.memories.items } } };
}

/// Gives each assigned net its word, in order.
fn steady(
    netlist: &mut Netlist,
    alloc: Global,
    program: &Program,
    nets: &mut Vec<Word>,
    memories: &[Row],
) -> Result<(), AllocError>
    requires plain { IsPlainCode program.now }
    requires wires { AreWires netlist.now (record { nets = nets.old.items; memories = memories.now }) }
    ensures grows { Grows netlist.old netlist.new }
    ensures words { OnOk result (AreWires netlist.new (record { nets = nets.new.items; memories = memories.now })) }
    ensures value { OnOk result ((v : ℕ → Bool) → v 0 ≡ false → kept_as (settle_gates netlist.new v) (record { nets = nets.new.items; memories = memories.now })
        ≡ settled_by program.now (kept_as (settle_gates netlist.old v) (record { nets = nets.old.items; memories = memories.now }))) }
    ensures short { OnOk result ((x : Bounds) → AreShort x program.now.settle (lengths nets.old.items)
        → (netlist.new ≡ netlist.old) × IsWithin x (lengths nets.new.items)) }
{
    run(netlist, alloc, program.settle.as_slice(), nets, memories)?;
    Ok(())
}

/// One clock edge of an instance, where the top's nets have these words.
fn move_on(
    netlist: &mut Netlist,
    alloc: Global,
    program: &Program,
    tops: &[Word],
    nets: &mut Vec<Word>,
    memories: &mut Vec<Row>,
) -> Result<(), AllocError>
    requires plain { IsPlainCode program.now }
    requires wires { AreWires netlist.now (record { nets = nets.old.items; memories = memories.old.items }) }
    requires tops { AreWords netlist.now tops.now }
    ensures grows { Grows netlist.old netlist.new }
    ensures words { OnOk result (AreWires netlist.new (record { nets = nets.new.items; memories = memories.new.items })) }
    ensures value { OnOk result ((v : ℕ → Bool) → v 0 ≡ false → let s = settle_gates netlist.old v in
        kept_as (settle_gates netlist.new v) (record { nets = nets.new.items; memories = memories.new.items })
        ≡ edged program.now (numbers s tops.now) (kept_as s (record { nets = nets.old.items; memories = memories.old.items }))) }
    ensures short { OnOk result (IsShortEdge tops.now (record { code = program.now; wires = record { nets = nets.old.items; memories = memories.old.items } })
        → netlist.new ≡ netlist.old) }
{
    copy(alloc, program.feeds.as_slice(), tops, nets)?;
    run(
        netlist,
        alloc,
        program.settle.as_slice(),
        nets,
        memories.as_slice(),
    )?;
    run(
        netlist,
        alloc,
        program.next.as_slice(),
        nets,
        memories.as_slice(),
    )?;
    store(
        netlist,
        alloc,
        program.stores.as_slice(),
        nets.as_slice(),
        memories,
    )?;
    run(
        netlist,
        alloc,
        program.moves.as_slice(),
        nets,
        memories.as_slice(),
    )?;
    Ok(())
}

impl Wired {
    fn settle(&mut self, netlist: &mut Netlist, alloc: Global) -> Result<(), AllocError>
        requires { IsWired netlist.now self.old }
        ensures grows { Grows netlist.old netlist.new }
        ensures wired { OnOk result (IsWired netlist.new self.new) }
        ensures value { OnOk result ((v : ℕ → Bool) → v 0 ≡ false → part_as (settle_gates netlist.new v) self.new ≡ part_settled (part_as (settle_gates netlist.old v) self.old)) }
        ensures short { OnOk result ((x : Bounds) → IsShortSettle x self.old → (netlist.new ≡ netlist.old) × IsWithin x (lengths self.new.wires.nets)) }
    {
        steady(
            netlist,
            alloc,
            &self.program,
            &mut self.nets,
            self.memories.as_slice(),
        )?;
        Ok(())
    }

    fn edge(
        &mut self,
        netlist: &mut Netlist,
        alloc: Global,
        tops: &[Word],
    ) -> Result<(), AllocError>
        requires wired { IsWired netlist.now self.old }
        requires tops { AreWords netlist.now tops.now }
        ensures grows { Grows netlist.old netlist.new }
        ensures wired { OnOk result (IsWired netlist.new self.new) }
        ensures value { OnOk result ((v : ℕ → Bool) → v 0 ≡ false → let s = settle_gates netlist.old v in
            part_as (settle_gates netlist.new v) self.new ≡ part_edged (numbers s tops.now) (part_as s self.old)) }
        ensures short { OnOk result (IsShortEdge tops.now self.old → netlist.new ≡ netlist.old) }
    {
        move_on(
            netlist,
            alloc,
            &self.program,
            tops,
            &mut self.nets,
            &mut self.memories,
        )?;
        Ok(())
    }

    fn show(&self, alloc: Global, tops: &mut Vec<Word>) -> Result<(), AllocError>
        ensures { OnOk result (tops.new.items ≡ linked_words self.now.wires.nets self.now.code.outs tops.old.items) }
    {
        copy(
            alloc,
            self.program.outs.as_slice(),
            self.nets.as_slice(),
            tops,
        )
    }
}

/// Gives the nets of each instance their words, in order, whatever its input ports have.
pub fn settle_all(
    netlist: &mut Netlist,
    alloc: Global,
    parts: &mut [Wired],
) -> Result<(), AllocError>
    requires { AreWired netlist.now parts.old }
    ensures grows { Grows netlist.old netlist.new }
    ensures wired { OnOk result (AreWired netlist.new parts.new) }
    ensures value { OnOk result ((v : ℕ → Bool) → v 0 ≡ false → map (part_as (settle_gates netlist.new v)) parts.new ≡ map part_settled (map (part_as (settle_gates netlist.old v)) parts.old)) }
    ensures short { OnOk result ((xs : List Bounds) → AreShortSettles xs parts.old → (netlist.new ≡ netlist.old) × AreWithin xs parts.new) }
{
    for part in parts.iter_mut() {
        part.settle(netlist, alloc)?;
    }
    Ok(())
}

/// One clock edge of each instance, where the top's nets have these words.
pub fn edge_all(
    netlist: &mut Netlist,
    alloc: Global,
    parts: &mut [Wired],
    tops: &[Word],
) -> Result<(), AllocError>
    requires parts { AreWired netlist.now parts.old }
    requires tops { AreWords netlist.now tops.now }
    ensures grows { Grows netlist.old netlist.new }
    ensures wired { OnOk result (AreWired netlist.new parts.new) }
    ensures value { OnOk result ((v : ℕ → Bool) → v 0 ≡ false → let s = settle_gates netlist.old v in
        map (part_as (settle_gates netlist.new v)) parts.new ≡ map (part_edged (numbers s tops.now)) (map (part_as s) parts.old)) }
    ensures short { OnOk result (AreShortEdges tops.now parts.old → netlist.new ≡ netlist.old) }
{
    for part in parts.iter_mut() {
        part.edge(netlist, alloc, tops)?;
    }
    Ok(())
}

/// Gives the top's nets the words of the output ports that are joined to them.
pub fn show_all(alloc: Global, parts: &[Wired], tops: &mut Vec<Word>) -> Result<(), AllocError>
    ensures { OnOk result (tops.new.items ≡ shown_words parts.now tops.old.items) }
{
    let mut i = parts.len();
    while 0 < i {
        i -= 1;
        parts[i].show(alloc, tops)?;
    }
    Ok(())
}
