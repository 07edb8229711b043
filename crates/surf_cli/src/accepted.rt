//! The line that says what an accepted description describes.

ghost use Rattle.std.specs.Prelude.{◌≡◌};
ghost use Rattle.surf_base.specs.Block.{Writes, stream};
ghost use Rattle.surf_cli.specs.Accepted.{accepted_text};

use noc_model::Plan;
use surf_base::{Block, Failed, Sink};

/// Puts the line.
pub(crate) fn put_accepted<O: Sink>(
    block: &mut Block,
    out: &mut O,
    plan: &Plan,
) -> Result<(), Failed>
    ensures { Writes result (stream (O.written out.old) block.old (O.faults out.old))
        (stream (O.written out.new) block.new (O.faults out.new)) (accepted_text plan.now) }
{
    block.put_labelled(out, b"accepted tiles ", u64::from(plan.tiles()))?;
    block.put_labelled(out, b" domains ", u64::from(plan.domains()))?;
    block.put_labelled(out, b" places ", u64::from(plan.places()))?;
    block.put_labelled(out, b" hop ", u64::from(plan.hop()))?;
    block.put(out, b"\n")
}
