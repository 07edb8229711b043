//! How many events there are of each kind.

ghost use Rattle.std.specs.Prelude.{◌≡◌, ◌+◌, ◌<◌, if◌then◌else◌};
ghost use Rattle.surf_base.specs.Block.{Writes, stream};
ghost use Rattle.noc_model.specs.Report.{is_take, is_wait, is_drop, is_got};
ghost use Rattle.domain_report.specs.Counts.{total, end_line};

use noc_model::Kind;
use surf_base::{Block, Failed, Sink};

/// How many events there are of each kind.
#[derive(Clone, Copy, Debug, PartialEq, Eq)]
pub struct Counts {
    pub takes: u64,
    pub waits: u64,
    pub drops: u64,
    pub gots: u64,
}

impl Counts {
    /// Counts one more.
    pub fn add(&mut self, kind: Kind)
        requires { total self.old < 18446744073709551615 }
        ensures takes { self.new.takes ≡ self.old.takes + (if is_take kind then 1 else 0) }
        ensures waits { self.new.waits ≡ self.old.waits + (if is_wait kind then 1 else 0) }
        ensures drops { self.new.drops ≡ self.old.drops + (if is_drop kind then 1 else 0) }
        ensures gots { self.new.gots ≡ self.old.gots + (if is_got kind then 1 else 0) }
        ensures total { total self.new ≡ total self.old + 1 }
    {
        match kind {
            Kind::Take { .. } => self.takes += 1,
            Kind::Wait { .. } => self.waits += 1,
            Kind::Drop => self.drops += 1,
            Kind::Got { .. } => self.gots += 1,
        }
    }
}

/// Puts the last line of a report.
pub(crate) fn put_counts<O: Sink>(
    block: &mut Block,
    out: &mut O,
    counts: &Counts,
) -> Result<(), Failed>
    ensures { Writes result (stream (O.written out.old) block.old (O.faults out.old))
        (stream (O.written out.new) block.new (O.faults out.new)) (end_line counts.now) }
{
    block.put_labelled(out, b"end ", counts.takes)?;
    block.put_labelled(out, b" ", counts.waits)?;
    block.put_labelled(out, b" ", counts.drops)?;
    block.put_labelled(out, b" ", counts.gots)?;
    block.put(out, b"\n")
}
