//! The entries of one domain.

ghost use Rattle.std.specs.Prelude.{◌≡◌, IfOk};
ghost use Rattle.trace_read.specs.Restrict.{entry_attach, is_of, of_domain};

use crate::entries::{Entry, Trace};
use noc_model::Plan;
use std::alloc::{AllocError, Global};

impl Entry {
    /// An equal entry.
    ///
    /// # Errors
    ///
    /// When memory runs out.
    pub fn copy(&self, alloc: Global) -> Result<Entry, AllocError>
        ensures { IfOk result (λ entry. entry ≡ self.now) }
    {
        Ok(match self {
            Entry::Send {
                cycle,
                attach,
                address,
                words,
            } => Entry::Send {
                cycle: *cycle,
                attach: *attach,
                address: *address,
                words: words.copy(alloc)?,
            },
            Entry::Hold {
                cycle,
                attach,
                count,
            } => Entry::Hold {
                cycle: *cycle,
                attach: *attach,
                count: *count,
            },
        })
    }

    /// The attachment that it speaks of.
    pub fn attach(&self) -> u32
        ensures { result ≡ entry_attach self.now }
    {
        match self {
            Entry::Send { attach, .. } => *attach,
            Entry::Hold { attach, .. } => *attach,
        }
    }
}

/// Whether the entry is of an attachment of domain `d`.
fn is_of(plan: &Plan, d: u32, entry: &Entry) -> bool
    ensures { result ≡ is_of plan.now d entry.now }
{
    let j = entry.attach();
    j < plan.attach_count() && plan.attach(j).domain == d
}

/// The restriction of a trace to a domain.
pub trait Restrict {
    /// The entries of the attachments of domain `d`, in order.
    ///
    /// # Errors
    ///
    /// Memory ran out.
    fn of_domain(&self, alloc: Global, plan: &Plan, d: u32) -> Result<Trace, AllocError>;
}

impl Restrict for Trace {
    fn of_domain(&self, alloc: Global, plan: &Plan, d: u32) -> Result<Trace, AllocError>
        ensures { IfOk result (λ trace. trace ≡ of_domain plan.now d self.now) }
    {
        let mut kept = Trace::new(alloc);
        for entry in self.as_slice() {
            if is_of(plan, d, entry) {
                kept.push(entry.copy(alloc)?)?;
            }
        }
        Ok(kept)
    }
}
