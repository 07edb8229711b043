//! The form of a design.

ghost use Rattle.std.specs.Prelude.{◌≡◌, ℕ, ◌<◌, ◌^◌, true, length, IfOk};
ghost use Rattle.std.specs.List.{AllByRecursion, list_all};
ghost use Rattle.vl_tree.specs.Read.{read_design};
ghost use Rattle.vl_tree.specs.Values.{Leaf};
ghost use Rattle.vl_model.specs.Rules.{IsSound};
ghost use Rattle.vl_rules.specs.Answer.{design_of};
ghost use Rattle.aig_model.specs.FormOf.{IsFormOf};
ghost use Rattle.aig_model.specs.Netlist.{Grows};
ghost use Rattle.aig_cycle.specs.Wires.{AreWords};
ghost use Rattle.aig_cycle.specs.Steps.{AreWired};
ghost use Rattle.aig_out.specs.Forms.{form_of};
ghost use Rattle.aig_trim.specs.Trimmed.{HasNeededGates};
ghost use Rattle.aig_design.specs.Opened.{IsOpened, HasInputs, AreShown, AreNext};

use crate::outputs::{latch_literals, output_literals};
use crate::start::{Variables, begin_parts, empty_words, pass_inputs, put_inputs};
use aig_cycle::{Wired, edge_all, settle_all, show_all};
use aig_gates::{Netlist, Word};
use aig_out::Aig;
use aig_trim::trimmed;
use std::alloc::{AllocError, Global};
use surf_base::Seq;
use vl_rules::Sound;
use vl_run::{Cells, begin};
use vl_tree::{Design, Port};

/// So many gates or variables are answered as out of memory, so that no literal overflows.
const MOST: usize = 1 << 61;

/// The instances of a design at the beginning of a cycle.
#[derive(Drop)]
struct Opened {
    /// How many inputs there are.
    inputs: u64,
    /// The first variable behind the latches.
    next: u64,
    /// The instances, with words of latches.
    wired: Vec<Wired>,
    /// The numbers of their nets at reset.
    resets: Vec<Cells>,
    /// Where the top's ports stand.
    ports: Vec<usize>,
    /// The top's nets, without words.
    tops: Vec<Word>,
}

/// The instances of a sound design, with words of latches.
fn open(alloc: Global, design: &Design) -> Result<Opened, AllocError>
    requires { IsSound (read_design design.now) }
    ensures { IfOk result (λ o. IsOpened (read_design design.now) o.inputs o.next o.wired.items o.resets.items o.ports.items o.tops.items) }
{
    let begun = begin(alloc, design)?;
    let parts = begun.parts;
    let lines = begun.tops;
    let ports = begun.ports;
    let mut variables = Variables { next: 1 };
    pass_inputs(design.top.ports.as_slice(), &mut variables)?;
    let behind = variables.next;
    let start = begin_parts(alloc, parts, &mut variables)?;
    let tops = empty_words(alloc, lines.len())?;
    let next = variables.next;
    if next >= MOST as u64 {
        return Err(AllocError);
    }
    Ok(Opened {
        inputs: behind - 1,
        next,
        wired: start.wired,
        resets: start.resets,
        ports,
        tops,
    })
}

/// Settles the nets of each instance, shows output ports at the top's nets, and gives the literals of the top's output
/// ports.
fn show(
    netlist: &mut Netlist,
    alloc: Global,
    ports: &[Port],
    places: &[usize],
    wired: &mut [Wired],
    tops: &mut Vec<Word>,
) -> Result<Word, AllocError>
    requires wired { AreWired netlist.now wired.old }
    requires tops { AreWords netlist.now tops.old.items }
    ensures grows { Grows netlist.old netlist.new }
    ensures tops { IfOk result (λ r. AreWords netlist.new tops.new.items) }
    ensures shown { IfOk result (λ r. AreShown ports.now places.now netlist.old netlist.new wired.old wired.new tops.old.items tops.new.items r) }
{
    settle_all(netlist, alloc, wired)?;
    show_all(alloc, wired, tops)?;
    let outputs = output_literals(alloc, ports, places, tops.as_slice())?;
    netlist.known();
    Ok(outputs)
}

/// Gives the top's input ports words of inputs, takes each instance over an edge, and gives the literals that latches take.
fn take(
    netlist: &mut Netlist,
    alloc: Global,
    ports: &[Port],
    places: &[usize],
    resets: &[Cells],
    wired: &mut [Wired],
    tops: &mut Vec<Word>,
) -> Result<Word, AllocError>
    requires wired { AreWired netlist.now wired.old }
    requires tops { AreWords netlist.now tops.old.items }
    requires inputs { HasInputs netlist.now ports.now places.now }
    ensures grows { Grows netlist.old netlist.new }
    ensures taken { IfOk result (λ r. AreNext ports.now places.now resets.now netlist.old netlist.new wired.old wired.new tops.old.items tops.new.items r) }
{
    let mut variables = Variables { next: 1 };
    put_inputs(alloc, ports, places, &mut variables, tops)?;
    edge_all(netlist, alloc, wired, tops.as_slice())?;
    let latches = latch_literals(alloc, wired, resets)?;
    netlist.known();
    Ok(latches)
}

/// A form of a sound design, whose instances have words of latches. It has each gate that was made on the way.
fn finish(alloc: Global, design: &Design, opened: Opened) -> Result<Aig, AllocError>
    requires sound { IsSound (read_design design.now) }
    requires opened { IsOpened (read_design design.now) opened.inputs opened.next opened.wired.items opened.resets.items opened.ports.items opened.tops.items }
    ensures { IfOk result (λ a. IsFormOf (read_design design.now) (form_of a)) }
{
    let inputs = opened.inputs;
    let mut wired = opened.wired;
    let resets = opened.resets;
    let places = opened.ports;
    let mut tops = opened.tops;
    let ports = design.top.ports.as_slice();
    let mut netlist = Netlist::new(alloc, opened.next);
    let parts = wired.as_mut_slice();
    let outputs = show(
        &mut netlist,
        alloc,
        ports,
        places.as_slice(),
        parts,
        &mut tops,
    )?;
    let latches = take(
        &mut netlist,
        alloc,
        ports,
        places.as_slice(),
        resets.as_slice(),
        parts,
        &mut tops,
    )?;
    netlist.known();
    let gates = Seq::from_slice(alloc, netlist.gates())?;
    let _ = outputs.len();
    if gates.len() >= MOST {
        return Err(AllocError);
    }
    Ok(Aig {
        inputs,
        latches,
        outputs,
        gates,
    })
}

/// The form of a design that is known to be sound, without a gate that no output and no latch needs.
///
/// # Errors
///
/// Memory ran out. The answer is the same for 2^61 gates or variables.
pub fn form_of_design(alloc: Global, design: &Design) -> Result<Aig, AllocError>
    requires { IsSound (read_design design.now) }
    ensures form { IfOk result (λ a. IsFormOf (read_design design.now) (form_of a)) }
    ensures needed { IfOk result (λ a. HasNeededGates (form_of a)) }
{
    let opened = open(alloc, design)?;
    let whole = finish(alloc, design, opened)?;
    let aig = trimmed(alloc, &whole)?;
    Ok(aig)
}

/// The form of a sound design, without a gate that no output and no latch needs.
///
/// # Errors
///
/// Memory ran out. The answer is the same for 2^61 gates or variables.
pub fn aig_of(alloc: Global, sound: &Sound) -> Result<Aig, AllocError>
    ensures form { IfOk result (λ a. IsFormOf (read_design (design_of sound.now)) (form_of a)) }
    ensures needed { IfOk result (λ a. HasNeededGates (form_of a)) }
{
    form_of_design(alloc, sound.design())
}
