//! All instances, and the top's nets between them.

ghost use Rattle.std.specs.Prelude.{◌≡◌, List, [], ◌∷◌, ◌++◌, length, map, IfOk, OnOk};
ghost use Rattle.std.specs.List.{AllByRecursion};
ghost use Rattle.vl_tree.specs.declared.tree.TopItem.{TopItem};
ghost use Rattle.vl_tree.specs.Read.{read_leaf, read_leaves};
ghost use Rattle.vl_model.specs.Lines.{leaf_lines};
ghost use Rattle.vl_rules.specs.Scope.{Declares};
ghost use Rattle.vl_rules.specs.Library.{IsLibrary};
ghost use Rattle.vl_run.specs.Emit.{place_in};
ghost use Rattle.vl_run.specs.Program.{linked};
ghost use Rattle.vl_run.specs.State.{part_edged, shown_by};
ghost use Rattle.vl_run.specs.Shown.{part_after, IsRefreshed, AllRefreshed};
ghost use Rattle.vl_run.specs.Packed.{all_unpacked, AreBelow, FitIn, Packs};
ghost use Rattle.vl_run.specs.Start.{AreInside, HasPlaces};
ghost use Rattle.vl_run.specs.Put.{part_with, parts_with};
ghost use Rattle.vl_run.specs.Fresh.{IsFresh, AllFresh, HasLeaf};

use crate::cells::Cells;
use crate::emit::Scope;
use crate::packed::{Lists, Packed};
use crate::program::Program;
use crate::state::{State, copy};
use std::alloc::{AllocError, Global};
use std::marker::Model;
use vl_rules::{Known, Library};
use vl_tree::{Join, TopItem};

/// An instance: its code and its state.
#[derive(Drop)]
pub struct Part {
    pub program: Program,
    pub state: State,
}

impl Model for Part {
    ghost use Rattle.vl_run.specs.State.{Part};

    ghost Value = { Part };

    ghost view = { λ p. record { code = p.program; kept = p.state } };
}

impl Part {
    /// Takes the steps in order.
    fn take(&mut self, list: &[Packed])
        requires { AreBelow (length self.old.kept.nets) list.now }
        ensures { self.new ≡ part_after (all_unpacked list.now) self.old }
    {
        self.state.take(list);
    }

    /// What its program does, packed.
    fn lists(&self, alloc: Global) -> Result<Lists, AllocError>
        requires { AreInside (length self.now.kept.nets) self.now.code }
        ensures packs { IfOk result (λ l. Packs self.now.code l) }
        ensures fits { IfOk result (λ l. FitIn (length self.now.kept.nets) l) }
    {
        let lists = Lists::new(alloc, &self.program, self.state.nets.len())?;
        Ok(lists)
    }

    /// One clock edge, where the top's nets have these numbers.
    fn edge(&mut self, lists: &Lists, tops: &Cells)
        requires packs { Packs self.old.code lists.now }
        requires fits { FitIn (length self.old.kept.nets) lists.now }
        ensures { self.new ≡ part_edged tops.now self.old }
    {
        self.state.edge(&self.program, lists, tops);
    }

    /// Makes this the number at a word of the memory in a row.
    fn put(&mut self, row: usize, index: usize, value: u64)
        ensures { self.new ≡ part_with row index value self.old }
    {
        self.state.put(row, index, value);
    }

    /// Gives the top's nets the numbers of the instance's output ports.
    fn show(&self, tops: &mut Cells)
        ensures { tops.new ≡ linked self.now.kept.nets self.now.code.outs tops.old }
    {
        copy(self.program.outs.as_slice(), &self.state.nets, tops);
    }
}

/// An instance that runs, with what its program does, packed.
#[derive(Drop)]
pub(crate) struct Instance {
    part: Part,
    lists: Lists,
}

impl Model for Instance {
    ghost use Rattle.vl_run.specs.State.{Part};
    ghost use Rattle.vl_run.specs.Packed.{FitIn, Packs};
    ghost use Rattle.std.specs.Prelude.{length};

    ghost Value = { Part };

    ghost view = { λ i. i.part };

    ghost invariant = { λ i. Packs i.part.code i.lists × FitIn (length i.part.kept.nets) i.lists };
}

impl Instance {
    /// The instance of the part.
    fn new(alloc: Global, part: Part) -> Result<Instance, AllocError>
        requires { AreInside (length part.kept.nets) part.code }
        ensures { IfOk result (λ i. i ≡ part) }
    {
        let lists = part.lists(alloc)?;
        Ok(Instance { part, lists })
    }

    /// Computes what its output ports have.
    fn refresh(&mut self)
        ensures { IsRefreshed self.old self.new }
    {
        self.part.take(self.lists.shows.as_slice());
    }

    /// One clock edge, where the top's nets have these numbers.
    fn edge(&mut self, tops: &Cells)
        ensures { self.new ≡ part_edged tops.now self.old }
    {
        self.part.edge(&self.lists, tops);
    }

    /// Makes this the number at a word of the memory in a row.
    fn put(&mut self, row: usize, index: usize, value: u64)
        ensures { self.new ≡ part_with row index value self.old }
    {
        self.part.put(row, index, value);
    }

    /// Gives the top's nets the numbers of the output ports that are joined to them.
    fn show(&self, tops: &mut Cells)
        ensures { tops.new ≡ linked self.now.kept.nets self.now.code.outs tops.old }
    {
        self.part.show(tops);
    }
}

/// The instances of these parts.
pub(crate) fn instances_of(alloc: Global, parts: Vec<Part>) -> Result<Vec<Instance>, AllocError>
    requires { AllByRecursion HasPlaces parts.items }
    ensures { IfOk result (λ v. v.items ≡ parts.items) }
{
    let mut all = Vec::new(alloc);
    for part in parts {
        all.push(Instance::new(alloc, part)?)?;
    }
    Ok(all)
}

/// Makes this the number at a word of the memory in a row of the instance of this number, if there is one.
pub(crate) fn put_word(
    parts: &mut [Instance],
    instance: usize,
    row: usize,
    index: usize,
    value: u64,
)
    ensures { parts.new ≡ parts_with instance row index value parts.old }
{
    if instance < parts.len() {
        parts[instance].put(row, index, value);
    }
}

/// Computes what the output ports of each instance have, whatever its input ports have.
pub(crate) fn refresh_all(parts: &mut [Instance])
    ensures { AllRefreshed parts.old parts.new }
{
    for part in parts.iter_mut() {
        part.refresh();
    }
}

/// One clock edge of each instance, where the top's nets have these numbers.
pub(crate) fn edge_all(parts: &mut [Instance], tops: &Cells)
    ensures { parts.new ≡ map (part_edged tops.now) parts.old }
{
    for part in parts.iter_mut() {
        part.edge(tops);
    }
}

/// Gives the top's nets the numbers of the output ports that are joined to them.
pub(crate) fn show_all(parts: &[Instance], tops: &mut Cells)
    ensures { tops.new ≡ shown_by parts.now tops.old }
{
    let mut i = parts.len();
    while 0 < i {
        i -= 1;
        parts[i].show(tops);
    }
}

impl Part {
    /// An instance of the leaf with these joins, at reset.
    fn new(alloc: Global, leaf: &Known, joins: &[Join], top: &Scope) -> Result<Part, AllocError>
        requires { Declares leaf.now.declared.now (leaf_lines (read_leaf leaf.now.leaf.now)) }
        ensures { IfOk result (λ x. IsFresh (place_in top.now.declared.now) (read_leaf leaf.now.leaf.now) joins.now x) }
    {
        let program = Program::new(alloc, leaf, joins, top)?;
        let state = State::new(alloc, leaf, &program)?;
        Ok(Part { program, state })
    }
}

/// Adds the instance, if the item is one.
fn add_part(
    alloc: Global,
    item: &TopItem,
    library: &Library,
    top: &Scope,
    parts: &mut Vec<Part>,
) -> Result<(), AllocError>
    requires { IsLibrary library.now }
    ensures { OnOk result ((is : List TopItem) → HasLeaf (read_leaves library.now.leaves.now) item.now
        → AllFresh (place_in top.now.declared.now) (read_leaves library.now.leaves.now) is parts.old.items
        → AllFresh (place_in top.now.declared.now) (read_leaves library.now.leaves.now)
        (is ++ item.now ∷ []) parts.new.items) }
{
    match item {
        TopItem::Instance { leaf, joins, .. } => {
            match library.leaf(library.leaves.len(), leaf.as_slice()) {
                Some(known) => {
                    let part = Part::new(alloc, &known, joins.as_slice(), top)?;
                    parts.push(part)?;
                    Ok(())
                }
                None => Ok(()),
            }
        }
        TopItem::Wire { .. } => Ok(()),
    }
}

/// The instances, at reset.
pub(crate) fn fresh_parts(
    alloc: Global,
    items: &[TopItem],
    library: &Library,
    top: &Scope,
) -> Result<Vec<Part>, AllocError>
    requires library { IsLibrary library.now }
    requires leaves { AllByRecursion (HasLeaf (read_leaves library.now.leaves.now)) items.now }
    ensures { IfOk result (λ v. AllFresh (place_in top.now.declared.now)
        (read_leaves library.now.leaves.now) items.now v.items) }
{
    let mut parts = Vec::new(alloc);
    for item in items {
        add_part(alloc, item, library, top, &mut parts)?;
    }
    Ok(parts)
}
