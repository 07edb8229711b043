//! Steps, links and stores on words.

ghost use Rattle.std.specs.Prelude.{◌≡◌, ℕ, Bool, false, [], ◌∷◌, OnOk, slice_set};
ghost use Rattle.aig_model.specs.Netlist.{Grows, settle_gates};
ghost use Rattle.vl_run.specs.Step.{ran, word_at};
ghost use Rattle.vl_run.specs.Program.{stored_in};
ghost use Rattle.aig_cycle.specs.Wires.{numbers, rows, AreWords, AreRows, ArePlain};
ghost use Rattle.aig_cycle.specs.Steps.{linked_words};
ghost use Rattle.aig_cycle.specs.Short.{lengths, RunShort};

use crate::action::{memory, value};
use aig_gates::{Netlist, Row, Word, literals, number_word};
use std::alloc::{AllocError, Global};
use surf_base::Seq;
use vl_run::{Link, Step, Store};

/// Makes this the word at a place. Behind the last nothing is written.
pub fn put(nets: &mut Vec<Word>, place: usize, bits: Word)
    ensures { nets.new.items ≡ slice_set nets.old.items place bits }
{
    if place < nets.len() {
        nets[place] = bits;
    }
}

/// Makes this the memory at a place. Behind the last nothing is written.
pub fn put_row(memories: &mut Vec<Row>, place: usize, row: Row)
    ensures { memories.new.items ≡ slice_set memories.old.items place row }
{
    if place < memories.len() {
        memories[place] = row;
    }
}

/// Copies words from one row to another. Where links have one end, the first of them counts.
pub(crate) fn copy(
    alloc: Global,
    links: &[Link],
    from: &[Word],
    to: &mut Vec<Word>,
) -> Result<(), AllocError>
    ensures { OnOk result (to.new.items ≡ linked_words from.now links.now to.old.items) }
{
    let mut i = links.len();
    while 0 < i {
        i -= 1;
        let link = links[i];
        let bits = Seq::from_slice(alloc, literals(from, link.from))?;
        put(to, link.to, bits);
    }
    Ok(())
}

/// Takes the steps in order.
pub(crate) fn run(
    netlist: &mut Netlist,
    alloc: Global,
    steps: &[Step],
    nets: &mut Vec<Word>,
    memories: &[Row],
) -> Result<(), AllocError>
    requires plain { ArePlain steps.now }
    requires nets { AreWords netlist.now nets.old.items }
    requires memories { AreRows netlist.now memories.now }
    ensures grows { Grows netlist.old netlist.new }
    ensures words { OnOk result (AreWords netlist.new nets.new.items) }
    ensures value { OnOk result ((v : ℕ → Bool) → v 0 ≡ false → let s = settle_gates netlist.old v in
        numbers (settle_gates netlist.new v) nets.new.items ≡ ran (word_at (rows s memories.now)) steps.now (numbers s nets.old.items)) }
    ensures short { OnOk result (RunShort netlist.old netlist.new steps.now (lengths nets.old.items) (lengths nets.new.items)) }
{
    for step in steps {
        let bits = value(netlist, alloc, step.action, nets.as_slice(), memories)?;
        put(nets, step.to, bits);
    }
    Ok(())
}

/// A memory takes what a store says.
fn store_one(
    netlist: &mut Netlist,
    alloc: Global,
    store: Store,
    nets: &[Word],
    memories: &mut Vec<Row>,
) -> Result<(), AllocError>
    requires nets { AreWords netlist.now nets.now }
    requires memories { AreRows netlist.now memories.old.items }
    ensures grows { Grows netlist.old netlist.new }
    ensures words { OnOk result (AreRows netlist.new memories.new.items) }
    ensures value { OnOk result ((v : ℕ → Bool) → v 0 ≡ false → let s = settle_gates netlist.old v in
        rows (settle_gates netlist.new v) memories.new.items ≡ stored_in (numbers s nets.now) (store ∷ []) (rows s memories.old.items)) }
{
    netlist.known();
    let one = number_word(alloc, 1)?;
    let enable = netlist.equal(alloc, literals(nets, store.enable), one.as_slice())?;
    let row = netlist.stored(
        alloc,
        memory(memories.as_slice(), store.memory),
        enable,
        literals(nets, store.index),
        literals(nets, store.value),
    )?;
    put_row(memories, store.memory, row);
    Ok(())
}

/// Memories take what the stores say, in order.
pub(crate) fn store(
    netlist: &mut Netlist,
    alloc: Global,
    stores: &[Store],
    nets: &[Word],
    memories: &mut Vec<Row>,
) -> Result<(), AllocError>
    requires nets { AreWords netlist.now nets.now }
    requires memories { AreRows netlist.now memories.old.items }
    ensures grows { Grows netlist.old netlist.new }
    ensures words { OnOk result (AreRows netlist.new memories.new.items) }
    ensures value { OnOk result ((v : ℕ → Bool) → v 0 ≡ false → let s = settle_gates netlist.old v in
        rows (settle_gates netlist.new v) memories.new.items ≡ stored_in (numbers s nets.now) stores.now (rows s memories.old.items)) }
    ensures none { OnOk result (stores.now ≡ [] → netlist.new ≡ netlist.old) }
{
    for store in stores {
        store_one(netlist, alloc, *store, nets, memories)?;
    }
    Ok(())
}
