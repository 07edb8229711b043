//! Reads a trace.

ghost use Rattle.std.specs.Prelude.{◌≡◌, Some, IfOk, IfErr};
ghost use Rattle.trace_read.specs.Accepted.{first_fault, trace_of, MemoryOr};

use crate::entries::Trace;
use crate::fault::TraceFault;
use crate::line::add_line;
use crate::text::next_line;
use noc_model::Plan;
use std::alloc::Global;

/// The entries of a trace for the plan, in order.
///
/// # Errors
///
/// The first fault of the first faulty line, exactly where a line is faulty, and `Memory` when memory runs
/// out.
pub fn read_trace(alloc: Global, plan: &Plan, bytes: &[u8]) -> Result<Trace, TraceFault>
    ensures ok { IfOk result (λ trace. trace_of plan.now bytes.now ≡ Some trace) }
    ensures err { IfErr result (λ e. MemoryOr e (first_fault plan.now bytes.now ≡ Some e)) }
{
    let mut trace = Trace::new(alloc);
    let mut rest = bytes;
    let mut line = 0;
    while !rest.is_empty() {
        let (text, more) = next_line(rest);
        line += 1;
        add_line(alloc, plan, &mut trace, text, line)?;
        rest = more;
    }
    Ok(trace)
}
