//! The text of a form.

ghost use Rattle.std.specs.Prelude.{◌≡◌, ◌+◌, ◌*◌, ◌^◌, ◌<◌, ◌≤◌, ◌++◌, codes, length, OnOk, OnErr};
ghost use Rattle.surf_base.specs.Block.{Writes, stream};
ghost use Rattle.surf_base.specs.Outside.{Rose, appended, GotPrefix};
ghost use Rattle.aig_model.specs.Form.{IsForm};
ghost use Rattle.aig_model.specs.Text.{line, input_lines, latch_lines, output_lines, gate_lines, text_of};
ghost use Rattle.aig_out.specs.Forms.{form_of, head_line};

use crate::form::Aig;
use aig_model::Gate;
use surf_base::{Block, Failed, Sink};

/// Puts a line of numbers.
fn put_line<O: Sink>(block: &mut Block, out: &mut O, first: u64, more: &[u64]) -> Result<(), Failed>
    ensures { Writes result (stream (O.written out.old) block.old (O.faults out.old))
        (stream (O.written out.new) block.new (O.faults out.new)) (line first more.now) }
{
    if 0 < more.len() {
        return match block.put_number_then(out, first, b' ') {
            Ok(()) => put_line(block, out, more[0], &more[1..]),
            Err(fault) => Err(fault),
        };
    }
    block.put_number_then(out, first, b'\n')
}

/// Puts a line for each of so many inputs.
fn put_inputs<O: Sink>(block: &mut Block, out: &mut O, count: u64) -> Result<(), Failed>
    requires { 2 * count < 2 ^ 64 }
    ensures { Writes result (stream (O.written out.old) block.old (O.faults out.old))
        (stream (O.written out.new) block.new (O.faults out.new)) (input_lines 1 count) }
{
    for i in 0..count {
        put_line(block, out, 2 * (1 + i), &[])?;
    }
    Ok(())
}

/// Puts a line for each latch, of which the first is variable `first`.
fn put_latches<O: Sink>(
    block: &mut Block,
    out: &mut O,
    first: u64,
    latches: &[u64],
) -> Result<(), Failed>
    requires { 2 * (first + length latches.now) ≤ 2 ^ 64 }
    ensures { Writes result (stream (O.written out.old) block.old (O.faults out.old))
        (stream (O.written out.new) block.new (O.faults out.new)) (latch_lines first latches.now) }
{
    for (i, next) in latches.iter().enumerate() {
        put_line(block, out, 2 * (first + i as u64), &[*next])?;
    }
    Ok(())
}

/// Puts a line for each output.
fn put_outputs<O: Sink>(block: &mut Block, out: &mut O, outputs: &[u64]) -> Result<(), Failed>
    ensures { Writes result (stream (O.written out.old) block.old (O.faults out.old))
        (stream (O.written out.new) block.new (O.faults out.new)) (output_lines outputs.now) }
{
    for output in outputs {
        put_line(block, out, *output, &[])?;
    }
    Ok(())
}

/// Puts a line for each gate, of which the first is variable `first`.
fn put_gates<O: Sink>(
    block: &mut Block,
    out: &mut O,
    first: u64,
    gates: &[Gate],
) -> Result<(), Failed>
    requires { 2 * (first + length gates.now) ≤ 2 ^ 64 }
    ensures { Writes result (stream (O.written out.old) block.old (O.faults out.old))
        (stream (O.written out.new) block.new (O.faults out.new)) (gate_lines first gates.now) }
{
    for (i, gate) in gates.iter().enumerate() {
        put_line(
            block,
            out,
            2 * (first + i as u64),
            &[gate.first, gate.second],
        )?;
    }
    Ok(())
}

/// Puts the line of a form's counts.
fn put_head<O: Sink>(block: &mut Block, out: &mut O, aig: &Aig) -> Result<(), Failed>
    requires { IsForm (form_of aig.now) }
    ensures { Writes result (stream (O.written out.old) block.old (O.faults out.old))
        (stream (O.written out.new) block.new (O.faults out.new)) (codes "aag " ++ head_line (form_of aig.now)) }
{
    let latches = aig.latches.len() as u64;
    let outputs = aig.outputs.len() as u64;
    let gates = aig.gates.len() as u64;
    let last = aig.inputs + latches + gates;
    match block.put(out, b"aag ") {
        Ok(()) => put_line(block, out, last, &[aig.inputs, latches, outputs, gates]),
        Err(fault) => Err(fault),
    }
}

/// Puts the text of a form.
///
/// # Errors
///
/// The sink failed. A prefix of what was gathered and of the text was written.
pub fn put_aig<O: Sink>(block: &mut Block, out: &mut O, aig: &Aig) -> Result<(), Failed>
    requires { IsForm (form_of aig.now) }
    ensures { Writes result (stream (O.written out.old) block.old (O.faults out.old))
        (stream (O.written out.new) block.new (O.faults out.new)) (text_of (form_of aig.now)) }
{
    let first = aig.inputs + 1;
    let gate = first + aig.latches.len() as u64;
    put_head(block, out, aig)?;
    put_inputs(block, out, aig.inputs)?;
    put_latches(block, out, first, aig.latches.as_slice())?;
    put_outputs(block, out, aig.outputs.as_slice())?;
    put_gates(block, out, gate, aig.gates.as_slice())
}

/// Writes the text of a form. Takes no memory.
///
/// # Errors
///
/// The sink failed. A prefix of the text was written, and the sink's count of faults rose.
pub fn write_aig<O: Sink>(aig: &Aig, sink: &mut O) -> Result<(), Failed>
    requires { IsForm (form_of aig.now) }
    ensures faults { O.faults sink.old ≤ O.faults sink.new }
    ensures ok { OnOk result (O.written sink.new ≡ appended (O.written sink.old) (text_of (form_of aig.now))) }
    ensures rose { OnErr result (Rose (O.faults sink.old) (O.faults sink.new)) }
    ensures prefix { OnErr result (GotPrefix (O.written sink.old) (O.written sink.new) (text_of (form_of aig.now))) }
{
    let mut block = Block::unbuffered();
    match put_aig(&mut block, sink, aig) {
        Ok(()) => block.flush(sink),
        Err(fault) => Err(fault),
    }
}
