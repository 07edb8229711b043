//! A sound design that runs.

ghost use Rattle.std.specs.Prelude.{◌≡◌, ◌+◌, ◌<◌, ◌≤◌, ◌^◌, ℕ, true, Some, slice_get, slice_index, map, IfOk};
ghost use Rattle.vl_tree.specs.declared.tree.Port.{Port};
ghost use Rattle.vl_tree.specs.Values.{Name, Leaf, Design};
ghost use Rattle.vl_tree.specs.Read.{read_design};
ghost use Rattle.vl_model.specs.Meaning.{Values};
ghost use Rattle.vl_model.specs.Lines.{leaf_named};
ghost use Rattle.vl_model.specs.Rules.{IsSound};
ghost use Rattle.vl_model.specs.Settle.{settled, with_inputs, inside_reset, inside_stepped};
ghost use Rattle.vl_rules.specs.Answer.{design_of};
ghost use Rattle.vl_run.specs.Emit.{place_in};
ghost use Rattle.vl_run.specs.State.{shown_by};
ghost use Rattle.vl_run.specs.Shown.{AllRefreshed};
ghost use Rattle.vl_run.specs.Top.{inputs_of, with_ports, places_of};
ghost use Rattle.vl_run.specs.Fresh.{IsBegun};
ghost use Rattle.vl_run.specs.Stands.{Stands, AreInputs};
ghost use Rattle.vl_run.specs.Put.{Memory, instances, memories_of, with_word_in, with_first};
ghost use Rattle.vl_run.specs.Running.{running};

use crate::cells::Cells;
use crate::emit::{Scope, place};
use crate::parts::{
    Instance, Part, edge_all, fresh_parts, instances_of, put_word, refresh_all, show_all,
};
use crate::put::memory_line;
use std::alloc::{AllocError, Global};
use vl_rules::{Library, Module, Sound, declarations};
use vl_tree::{Design, Port};

/// A sound design that runs, one clock edge at a time.
#[derive(Drop)]
pub struct Machine {
    sound: Sound,
    parts: Vec<Instance>,
    /// The numbers of the top's nets, at the lines that declare them.
    tops: Cells,
    /// The lines of the top's ports.
    ports: Vec<usize>,
}

/// What a machine begins with: the instances at reset in the order of the items, the top's nets, which are all 0, and
/// where its ports stand.
#[derive(Drop)]
pub struct Instances {
    pub parts: Vec<Part>,
    pub tops: Cells,
    pub ports: Vec<usize>,
}

/// Where the ports stand.
fn port_places(alloc: Global, ports: &[Port], top: &Scope) -> Result<Vec<usize>, AllocError>
    ensures { IfOk result (λ v. v.items ≡ places_of (place_in top.now.declared.now) ports.now) }
{
    let mut places = Vec::new(alloc);
    for port in ports {
        places.push(place(top, port.name.as_slice()))?;
    }
    Ok(places)
}

/// The programs of a design's instances and their states at reset.
///
/// # Errors
///
/// Memory ran out.
pub fn begin(alloc: Global, design: &Design) -> Result<Instances, AllocError>
    requires { IsSound (read_design design.now) }
    ensures { IfOk result (λ b. IsBegun (read_design design.now) b.parts.items b.tops b.ports.items) }
{
    let library = Library::new(alloc, design.leaves.as_slice())?;
    let declared = declarations(alloc, &Module::Top(&design.top))?;
    let top = Scope {
        declared: &declared,
        lines: Module::Top(&design.top).len(),
    };
    let parts = fresh_parts(alloc, design.top.items.as_slice(), &library, &top)?;
    let tops = Cells::zeros(alloc, top.lines)?;
    let ports = port_places(alloc, design.top.ports.as_slice(), &top)?;
    Ok(Instances { parts, tops, ports })
}

/// The number at a place, or 0 behind the last.
fn number(numbers: &[u64], place: usize) -> u64
    ensures { result ≡ slice_index numbers.now place }
{
    match numbers.get(place) {
        Some(number) => *number,
        None => 0,
    }
}

/// Where a port stands, or 0 behind the last.
fn place_at(places: &[usize], port: usize) -> usize
    ensures { result ≡ slice_index places.now port }
{
    match places.get(port) {
        Some(place) => *place,
        None => 0,
    }
}

/// Gives the top's input ports these numbers, in order.
fn put_inputs(ports: &[Port], places: &[usize], inputs: &[u64], tops: &mut Cells)
    ensures { tops.new ≡ with_ports ports.now places.now inputs.now tops.old }
{
    let mut taken = 0;
    for (i, port) in ports.iter().enumerate() {
        if !port.output {
            tops.write(place_at(places, i), number(inputs, taken));
            taken += 1;
        }
    }
}

impl Machine {
    /// The design at reset, with memories of 0.
    ///
    /// # Errors
    ///
    /// Memory ran out; then the design is dropped.
    pub fn new(alloc: Global, sound: Sound) -> Result<Machine, AllocError>
        ensures design { IfOk result (λ m. (running m).design ≡ read_design (design_of sound)) }
        ensures reset { IfOk result (λ m. Stands (running m)
            (inside_reset (running m).design.leaves (running m).design.top.items (λ i n k. 0))) }
    {
        let begun = begin(alloc, sound.design())?;
        let mut machine = Machine {
            sound,
            parts: instances_of(alloc, begun.parts)?,
            tops: begun.tops,
            ports: begun.ports,
        };
        machine.refresh();
        Ok(machine)
    }

    /// Lets callers' proofs use that the design is sound. It does nothing.
    pub fn known(&self)
        ensures { IsSound (running self.now).design }
    {
        let _ = &self.sound;
    }

    /// Computes what the output ports of the instances and of the top have.
    fn refresh(&mut self)
        ensures design { (running self.new).design ≡ (running self.old).design }
        ensures ports { (running self.new).ports ≡ (running self.old).ports }
        ensures parts { AllRefreshed (running self.old).parts (running self.new).parts }
        ensures tops { (running self.new).tops ≡ shown_by (running self.new).parts (running self.old).tops }
    {
        refresh_all(self.parts.as_mut_slice());
        show_all(self.parts.as_slice(), &mut self.tops);
    }

    /// Makes `value` the word `index` of memory `mem` of instance `instance`. Instances are numbered among the top's,
    /// and memories among those of the instance's leaf, from 0. Nothing is known of the machine afterwards unless there
    /// are such ones, and the value is below two to the width of the memory's words.
    pub fn put_mem(&mut self, instance: u32, mem: u32, index: u32, value: u64)
        ensures design { (running self.new).design ≡ (running self.old).design }
        ensures puts { let d = (running self.old).design in (inside : Name → Values) (u : Name × Name)
            (l : Leaf) (m : Memory)
            → Stands (running self.old) inside → slice_get (instances d.top.items) instance ≡ Some u
            → leaf_named d.leaves u.0 ≡ Some l → slice_get (memories_of l.items) mem ≡ Some m → index ≤ m.last
            → value < 2 ^ (m.high + 1) → Stands (running self.new) (with_word_in inside u.1 m.name index value) }
        // At reset the word becomes one of the memories' first content.
        ensures first { let d = (running self.old).design in (first : Name → Name → ℕ → ℕ) (u : Name × Name)
            (l : Leaf) (m : Memory)
            → Stands (running self.old) (inside_reset d.leaves d.top.items first)
            → slice_get (instances d.top.items) instance ≡ Some u
            → leaf_named d.leaves u.0 ≡ Some l → slice_get (memories_of l.items) mem ≡ Some m → index ≤ m.last
            → value < 2 ^ (m.high + 1)
            → Stands (running self.new) (inside_reset d.leaves d.top.items (with_first first u.1 m.name index value)) }
    {
        let row = memory_line(self.sound.design(), instance, mem);
        put_word(
            self.parts.as_mut_slice(),
            instance as usize,
            row,
            index as usize,
            value,
        );
        self.refresh();
    }

    /// The number that an output port of the top has in this cycle. Ports are numbered in the order of the list, from
    /// 0.
    pub fn outputs(&self, port: u32) -> u64
        ensures value { let d = (running self.now).design in (inside : Name → Values) (inputs : Name → ℕ) (p : Port)
            → Stands (running self.now) inside
            → slice_get d.top.ports port ≡ Some p → p.output ≡ true
            → result ≡ (settled d (with_inputs d inputs inside)).top p.name }
        ensures small { let d = (running self.now).design in (inside : Name → Values) (p : Port)
            → Stands (running self.now) inside
            → slice_get d.top.ports port ≡ Some p → p.output ≡ true → result < 2 ^ (p.high + 1) }
    {
        self.tops
            .read(place_at(self.ports.as_slice(), port as usize))
    }

    /// One clock edge, where the top's input ports have these numbers, in the order of the list. Nothing is known of
    /// the machine afterwards unless each is below two to its port's width.
    pub fn edge(&mut self, inputs: &[u64])
        ensures design { (running self.new).design ≡ (running self.old).design }
        ensures steps { let d = (running self.old).design in (inside : Name → Values) → AreInputs d.top.ports inputs.now
            → Stands (running self.old) inside → Stands (running self.new)
            (inside_stepped d.leaves d.top.items
            (settled d (with_inputs d (inputs_of d.top.ports inputs.now) inside)).inside) }
    {
        let ports = self.sound.design().top.ports.as_slice();
        put_inputs(ports, self.ports.as_slice(), inputs, &mut self.tops);
        edge_all(self.parts.as_mut_slice(), &self.tops);
        self.refresh();
    }
}
