//! The numbers of an instance, and an edge of it.

ghost use Rattle.std.specs.Prelude.{◌≡◌, ◌<◌, ◌≤◌, ◌∷◌, [], length, map, IfOk};
ghost use Rattle.std.specs.List.{AllByRecursion};
ghost use Rattle.vl_tree.specs.Read.{read_leaf};
ghost use Rattle.vl_rules.specs.Lines.{lines_of, line_of};
ghost use Rattle.vl_run.specs.Emit.{place_in};
ghost use Rattle.vl_run.specs.Start.{IsInside, words_of, empty_memory, IsStart};
ghost use Rattle.vl_run.specs.Program.{stored_in, linked};
ghost use Rattle.vl_run.specs.Put.{kept_with};
ghost use Rattle.vl_run.specs.Shown.{kept_after, operands};
ghost use Rattle.vl_run.specs.State.{fed_by, stored_by, edged};
ghost use Rattle.vl_run.specs.Packed.{all_unpacked, AreBelow, FitIn, Packs};

use crate::cells::Cells;
use crate::emit::next;
use crate::packed::{Lists, Packed, pack, run};
use crate::program::{Link, Program, Store, resets, scope_of};
use crate::step::{Action, Step};
use std::alloc::{AllocError, Global};
use std::marker::Model;
use vl_rules::{Known, Line, Module};
use vl_tree::LeafItem;

/// The numbers of an instance's nets, at the lines that declare them, and of its memories' words.
#[derive(Drop)]
pub struct State {
    pub nets: Cells,
    pub memories: Vec<Cells>,
}

impl Model for State {
    ghost use Rattle.vl_run.specs.State.{Kept};

    ghost Value = { Kept };

    ghost view = { λ s. record { nets = s.nets; memories = s.memories.items } };
}

/// Copies numbers from one row to another. Where links have one end, the first of them counts.
pub(crate) fn copy(links: &[Link], from: &Cells, to: &mut Cells)
    ensures { to.new ≡ linked from.now links.now to.old }
{
    let mut i = links.len();
    while 0 < i {
        i -= 1;
        let link = links[i];
        to.write(link.to, from.read(link.from));
    }
}

/// Writes the word of a store, where its enable is 1.
fn store_one(store: Store, nets: &Cells, memories: &mut [Cells])
    ensures { memories.new ≡ stored_in nets.now (store ∷ []) memories.old }
{
    if nets.read(store.enable) == 1 && store.memory < memories.len() {
        let index = nets.read(store.index) as usize;
        memories[store.memory].write(index, nets.read(store.value));
    }
}

/// Writes the words of the stores, in order.
fn store(stores: &[Store], nets: &Cells, memories: &mut [Cells])
    ensures { memories.new ≡ stored_in nets.now stores.now memories.old }
{
    for store in stores {
        store_one(*store, nets, memories);
    }
}

/// A length that has the place, and at least this one.
fn reach(place: usize, least: usize) -> Result<usize, AllocError>
    ensures least { IfOk result (λ n. least ≤ n) }
    ensures place { IfOk result (λ n. place < n) }
{
    if least <= place {
        next(place)
    } else {
        Ok(least)
    }
}

/// A length that has the places which the action reads, and at least this one.
fn reading_room(action: Action, least: usize) -> Result<usize, AllocError>
    ensures least { IfOk result (λ n. least ≤ n) }
    ensures places { IfOk result (λ n. AllByRecursion (λ p. p < n) (operands action)) }
{
    match action {
        Action::Number(_) => Ok(least),
        Action::Copy(from) => reach(from, least),
        Action::Bits { from, .. } => reach(from, least),
        Action::Not { from, .. } => reach(from, least),
        Action::Two { left, right, .. } => {
            let one = reach(left, least)?;
            reach(right, one)
        }
        Action::Choose {
            test,
            first,
            second,
        } => {
            let one = reach(test, least)?;
            let two = reach(first, one)?;
            reach(second, two)
        }
        Action::Load { index, .. } => reach(index, least),
        Action::Join { front, back, .. } => {
            let one = reach(front, least)?;
            reach(back, one)
        }
    }
}

/// A length below which all the steps write and read, and at least this one.
#[tactic(auto, using(crate::proofs::Room::rooms))]
fn room(steps: &[Step], least: usize) -> Result<usize, AllocError>
    ensures least { IfOk result (λ n. least ≤ n) }
    ensures steps { IfOk result (λ n. AllByRecursion (IsInside n) steps.now) }
{
    let mut most = least;
    for step in steps {
        let written = reach(step.to, most)?;
        most = reading_room(step.action, written)?;
    }
    Ok(most)
}

/// How many words the line declares.
fn words(line: &Line) -> usize
    ensures { result ≡ words_of (line_of line.now) }
{
    match line {
        Line::Item(LeafItem::Mem { last, .. }) => *last as usize + 1,
        _ => 0,
    }
}

/// A row of zeros for each line.
fn memories(alloc: Global, subject: &Module) -> Result<Vec<Cells>, AllocError>
    ensures { IfOk result (λ v. v.items ≡ map empty_memory (lines_of subject.now)) }
{
    let mut rows = Vec::new(alloc);
    for number in 0..subject.len() {
        rows.push(Cells::zeros(alloc, words(&subject.line(number)))?)?;
    }
    Ok(rows)
}

impl State {
    /// The state at reset, with memories of 0.
    pub(crate) fn new(alloc: Global, leaf: &Known, program: &Program) -> Result<State, AllocError>
        ensures { IfOk result (λ k. IsStart (place_in leaf.now.declared.now)
            (read_leaf leaf.now.leaf.now) program.now k) }
    {
        let scope = scope_of(leaf);
        let settle = room(program.settle.as_slice(), scope.lines)?;
        let both = room(program.next.as_slice(), settle)?;
        let all = room(program.moves.as_slice(), both)?;
        let resets = resets(alloc, leaf.leaf.items.as_slice(), &scope)?;
        let size = room(resets.as_slice(), all)?;
        let memories = memories(alloc, &Module::Leaf(leaf.leaf))?;
        let mut nets = Cells::zeros(alloc, size)?;
        let first = pack(alloc, resets.as_slice())?;
        run(first.as_slice(), &mut nets, memories.as_slice());
        Ok(State { nets, memories })
    }

    /// Input ports take the top's numbers.
    fn feed(&mut self, program: &Program, tops: &Cells)
        ensures { self.new ≡ fed_by program.now tops.now self.old }
    {
        copy(program.feeds.as_slice(), tops, &mut self.nets);
    }

    /// Takes these steps, in order.
    pub(crate) fn take(&mut self, list: &[Packed])
        requires { AreBelow (length self.old.nets) list.now }
        ensures { self.new ≡ kept_after (all_unpacked list.now) self.old }
    {
        run(list, &mut self.nets, self.memories.as_slice());
    }

    /// Memories take it.
    fn store(&mut self, program: &Program)
        ensures { self.new ≡ stored_by program.now self.old }
    {
        store(
            program.stores.as_slice(),
            &self.nets,
            self.memories.as_mut_slice(),
        );
    }

    /// One clock edge, where the top's nets have these numbers.
    pub(crate) fn edge(&mut self, program: &Program, lists: &Lists, tops: &Cells)
        requires packs { Packs program.now lists.now }
        requires fits { FitIn (length self.old.nets) lists.now }
        ensures { self.new ≡ edged program.now tops.now self.old }
    {
        self.feed(program, tops);
        self.take(lists.settle.as_slice());
        self.take(lists.next.as_slice());
        self.store(program);
        self.take(lists.moves.as_slice());
    }

    /// Makes this the number at a word of the memory in a row.
    pub(crate) fn put(&mut self, row: usize, index: usize, value: u64)
        ensures { self.new ≡ kept_with row index value self.old }
    {
        if row < self.memories.len() {
            self.memories[row].write(index, value);
        }
    }
}
