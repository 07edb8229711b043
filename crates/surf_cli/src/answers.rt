//! Answers that are ready to be written: no memory is taken from here on.

ghost use Rattle.std.specs.Prelude.{◌≡◌, [], IfOk};

use crate::accepted::put_accepted;
use crate::forms::FormText;
use crate::reports::{OneReport, Reports};
use crate::routes::put_routes;
use crate::summary::Summary;
use crate::turning::OwnerTable;
use noc_model::Plan;
use std::alloc::{AllocError, Global};
use surf_base::{Block, Failed, Sink};

/// A text that is not written yet, with all that writing it takes.
#[derive(Drop)]
pub(crate) enum Text {
    /// An owner table.
    Table(OwnerTable),
    /// The line of an accepted plan.
    Accepted(Plan),
    /// The table of a plan's routes.
    Routes(Plan),
    /// The reports of all domains.
    Reports(Reports),
    /// The report of one domain.
    Report(OneReport),
    /// The summary of a stress run.
    Summary(Summary),
    /// These bytes.
    Bytes(Vec<u8>),
    /// A form of a design.
    Form(FormText),
}

impl Text {
    ghost use Rattle.surf_base.specs.Block.{Writes, stream};
    ghost use Rattle.surf_cli.specs.Answers.{text_of};

    /// Puts the text.
    fn put<O: Sink>(self, block: &mut Block, out: &mut O) -> Result<(), Failed>
        ensures { Writes result (stream (O.written out.old) block.old (O.faults out.old))
            (stream (O.written out.new) block.new (O.faults out.new)) (text_of self) }
    {
        match self {
            Text::Table(table) => table.put(block, out),
            Text::Accepted(plan) => put_accepted(block, out, &plan),
            Text::Routes(plan) => put_routes(block, out, &plan),
            Text::Reports(reports) => reports.put(block, out),
            Text::Report(report) => report.put(block, out),
            Text::Summary(summary) => summary.put(block, out),
            Text::Bytes(bytes) => block.put(out, bytes.as_slice()),
            Text::Form(form) => form.put(block, out),
        }
    }
}

/// A text, and the block that it goes through on its way to a sink.
#[derive(Drop)]
pub(crate) struct Answer {
    text: Text,
    block: Block,
    ghost empty: { block ≡ [] },
}

impl Answer {
    ghost use Rattle.surf_cli.specs.Answers.{text_of, Delivers};

    /// The answer of this text.
    pub(crate) fn new(alloc: Global, text: Text) -> Result<Answer, AllocError>
        ensures { IfOk result (λ answer. answer.text ≡ text) }
    {
        let block = Block::new(alloc)?;
        Ok(Answer { text, block })
    }

    /// Writes the answer.
    pub(crate) fn write<O: Sink>(self, out: &mut O) -> Result<(), Failed>
        ensures { Delivers result
            (O.written out.old) (O.written out.new) (O.faults out.old) (O.faults out.new) (text_of self.text) }
    {
        let Answer { text, mut block } = self;
        text.put(&mut block, out)?;
        block.flush(out)
    }
}
