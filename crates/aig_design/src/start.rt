//! The words that a cycle begins with.

ghost use Rattle.std.specs.Prelude.{◌≡◌, ℕ, ◌+◌, ◌<◌, ◌^◌, Bool, false, [], length, replicate, slice_index, IfOk, OnOk};
ghost use Rattle.vl_tree.specs.Values.{Name};
ghost use Rattle.aig_model.specs.FormOf.{all_bits};
ghost use Rattle.vl_run.specs.declared.program.Memory.{Memory};
ghost use Rattle.vl_run.specs.Top.{places_of};
ghost use Rattle.std.specs.List.{AllByRecursion};
ghost use Rattle.aig_cycle.specs.Short.{Bounds, IsWithin, lengths};
ghost use Rattle.aig_design.specs.Start.{IsBounded, IsBoundedPort, input_ports, AreInputsPut, AreRegistersPut, IsMemoryMade, AreMemoriesPut, IsLaid, AreLaid};

use aig_cycle::{Wired, latch_word, put, put_row};
use aig_gates::{Row, Word};
use std::alloc::{AllocError, Global};
use surf_base::Seq;
use vl_run::{Cells, Memory, Part, Program, Register, State};
use vl_tree::Port;

/// So many variables are answered as out of memory, so that no literal overflows.
const MOST: u64 = 1 << 61;

/// Variables that are taken in order.
#[derive(Drop)]
pub struct Variables {
    /// The first that nothing has yet.
    pub next: u64,
}

impl Variables {
    /// The first of `high + 1` variables that nothing has yet.
    fn take(&mut self, high: u32) -> Result<u64, AllocError>
        ensures first { IfOk result (λ x. x ≡ self.old.next) }
        ensures next { IfOk result (λ x. self.new.next ≡ self.old.next + (high + 1)) }
        ensures room { IfOk result (λ x. self.new.next < 2 ^ 61) }
    {
        let first = self.next;
        let count = u64::from(high) + 1;
        if MOST - count <= first {
            return Err(AllocError);
        }
        self.next = first + count;
        Ok(first)
    }
}

/// So many words of no literal.
///
/// # Errors
///
/// Memory ran out.
pub fn empty_words(alloc: Global, count: usize) -> Result<Vec<Word>, AllocError>
    ensures { IfOk result (λ v. v.items ≡ replicate count []) }
{
    let mut words = Vec::new(alloc);
    for _ in 0..count {
        words.push(Seq::new(alloc))?;
    }
    Ok(words)
}

/// So many memories of no word.
fn empty_rows(alloc: Global, count: usize) -> Result<Vec<Row>, AllocError>
    ensures { IfOk result (λ v. v.items ≡ replicate count []) }
{
    let mut rows = Vec::new(alloc);
    for _ in 0..count {
        rows.push(Seq::new(alloc))?;
    }
    Ok(rows)
}

/// Gives registers words of latches.
fn put_registers(
    alloc: Global,
    registers: &[Register],
    resets: &Cells,
    variables: &mut Variables,
    nets: &mut Vec<Word>,
) -> Result<(), AllocError>
    requires { 0 < variables.old.next }
    ensures front { OnOk result (0 < variables.new.next) }
    ensures put { OnOk result (AreRegistersPut resets.now variables.old.next variables.new.next registers.now nets.old.items nets.new.items) }
    ensures short { OnOk result ((b : Bounds) → AllByRecursion (IsBounded b) registers.now → IsWithin b (lengths nets.old.items) → IsWithin b (lengths nets.new.items)) }
{
    for register in registers {
        let first = variables.take(register.high)?;
        let reset = resets.read(register.place);
        let bits = latch_word(alloc, first, register.high, reset)?;
        put(nets, register.place, bits);
    }
    Ok(())
}

/// Words of latches for a memory.
fn latch_row(
    alloc: Global,
    variables: &mut Variables,
    high: u32,
    last: u32,
) -> Result<Row, AllocError>
    requires { 0 < variables.old.next }
    ensures { IfOk result (λ r. (place : ℕ) → IsMemoryMade variables.old.next variables.new.next (record { place = place; high = high; last = last }) r) }
{
    let mut row = Seq::new(alloc);
    for _ in 0..last as usize + 1 {
        let first = variables.take(high)?;
        let bits = latch_word(alloc, first, high, 0)?;
        row.push(bits)?;
    }
    Ok(row)
}

/// Gives memories words of latches.
fn put_memories(
    alloc: Global,
    memories: &[Memory],
    variables: &mut Variables,
    rows: &mut Vec<Row>,
) -> Result<(), AllocError>
    requires { 0 < variables.old.next }
    ensures front { OnOk result (0 < variables.new.next) }
    ensures put { OnOk result (AreMemoriesPut variables.old.next variables.new.next memories.now rows.old.items rows.new.items) }
{
    for one in memories {
        let row = latch_row(alloc, variables, one.high, one.last)?;
        put_row(rows, one.place, row);
    }
    Ok(())
}

/// An instance at the beginning of a cycle, and the numbers of its nets at reset.
#[derive(Drop)]
struct Laid {
    wired: Wired,
    resets: Cells,
}

/// The words of an instance's nets, and those of its memories.
#[derive(Drop)]
struct Words {
    nets: Vec<Word>,
    memories: Vec<Row>,
}

/// Words of latches for an instance, where its numbers are those at reset.
fn begin_words(
    alloc: Global,
    program: &Program,
    state: &State,
    variables: &mut Variables,
) -> Result<Words, AllocError>
    requires { 0 < variables.old.next }
    ensures front { IfOk result (λ w. 0 < variables.new.next) }
    ensures laid { IfOk result (λ w. IsLaid variables.old.next variables.new.next (record { code = program.now; kept = state.now })
        (record { code = program.now; wires = record { nets = w.nets.items; memories = w.memories.items } })) }
{
    let mut nets = empty_words(alloc, state.nets.len())?;
    put_registers(
        alloc,
        program.registers.as_slice(),
        &state.nets,
        variables,
        &mut nets,
    )?;
    let mut memories = empty_rows(alloc, state.memories.as_slice().len())?;
    put_memories(alloc, program.memories.as_slice(), variables, &mut memories)?;
    Ok(Words { nets, memories })
}

/// The instance with words of latches, where its numbers are those at reset.
fn begin_part(alloc: Global, part: Part, variables: &mut Variables) -> Result<Laid, AllocError>
    requires { 0 < variables.old.next }
    ensures front { IfOk result (λ y. 0 < variables.new.next) }
    ensures laid { IfOk result (λ y. IsLaid variables.old.next variables.new.next part y.wired) }
    ensures resets { IfOk result (λ y. y.resets ≡ part.kept.nets) }
{
    let program = part.program;
    let state = part.state;
    let words = begin_words(alloc, &program, &state, variables)?;
    Ok(Laid {
        wired: Wired {
            program,
            nets: words.nets,
            memories: words.memories,
        },
        resets: state.nets,
    })
}

/// All instances at the beginning of a cycle, and the numbers of their nets at reset.
#[derive(Drop)]
pub struct Begun {
    pub wired: Vec<Wired>,
    pub resets: Vec<Cells>,
}

/// All instances with words of latches, in order, where their numbers are those at reset.
///
/// # Errors
///
/// Memory ran out.
pub fn begin_parts(
    alloc: Global,
    parts: Vec<Part>,
    variables: &mut Variables,
) -> Result<Begun, AllocError>
    requires { 0 < variables.old.next }
    ensures { IfOk result (λ b. AreLaid variables.old.next variables.new.next parts.items b.wired.items b.resets.items) }
{
    let mut wired = Vec::new(alloc);
    let mut resets = Vec::new(alloc);
    for part in parts {
        let laid = begin_part(alloc, part, variables)?;
        wired.push(laid.wired)?;
        resets.push(laid.resets)?;
    }
    Ok(Begun { wired, resets })
}

/// Takes the variables of the input ports.
///
/// # Errors
///
/// Memory ran out.
pub fn pass_inputs(ports: &[Port], variables: &mut Variables) -> Result<(), AllocError>
    ensures next { OnOk result ((f : Name → ℕ) → variables.new.next ≡ variables.old.next + length (all_bits false f ports.now)) }
{
    for port in ports {
        if !port.output {
            variables.take(port.high)?;
        }
    }
    Ok(())
}

/// Gives input ports words of inputs.
///
/// # Errors
///
/// Memory ran out.
pub fn put_inputs(
    alloc: Global,
    ports: &[Port],
    places: &[usize],
    variables: &mut Variables,
    tops: &mut Vec<Word>,
) -> Result<(), AllocError>
    requires { 0 < variables.old.next }
    ensures put { OnOk result ((t : Name → ℕ) → places.now ≡ places_of t ports.now
        → AreInputsPut t variables.old.next variables.new.next (input_ports ports.now) tops.old.items tops.new.items) }
    ensures short { OnOk result ((t : Name → ℕ) → places.now ≡ places_of t ports.now → (b : Bounds) → AllByRecursion (IsBoundedPort t b) ports.now
        → IsWithin b (lengths tops.old.items) → IsWithin b (lengths tops.new.items)) }
{
    for (i, port) in ports.iter().enumerate() {
        if !port.output {
            let first = variables.take(port.high)?;
            let bits = latch_word(alloc, first, port.high, 0)?;
            put(tops, place_at(places, i), bits);
        }
    }
    Ok(())
}

/// Where a port stands, by its number.
pub(crate) fn place_at(places: &[usize], port: usize) -> usize
    ensures { result ≡ slice_index places.now port }
{
    match places.get(port) {
        Some(place) => *place,
        None => 0,
    }
}
