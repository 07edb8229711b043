//! The driver of a trace.

ghost use Rattle.std.specs.Prelude.{◌≡◌, ◌<◌, ◌∷◌, [], ℕ, Some, length, slice_get, slice_index, IfOk, vec_len};
ghost use Rattle.tile_drive.specs.TraceDriver.{trace_driver, untaken};
ghost use Rattle.tile_drive.specs.Scripts.{AreAllSettled};

use crate::driver::Drive;
use crate::scripts::{Script, scripts_of};
use crate::spans::is_covered;
use flit_word::{Ejected, Offer};
use noc_model::{Driving, Plan};
use std::alloc::{AllocError, Global};
use trace_read::Trace;

/// Drives by a trace: the words of each attachment's sends are offered in order, each from its send's cycle on until
/// it is taken, and an attachment is deaf in the cycles of its holds. It takes no memory once it is made, and a call
/// of `hears` takes time by the logarithm of the number of the attachment's holds.
#[derive(Drop)]
pub struct TraceDrive {
    scripts: Vec<Script>,
    taken: Vec<usize>,
    ghost same_count: { vec_len taken ≡ vec_len scripts },
    ghost settled: { AreAllSettled scripts.items },
}

impl TraceDrive {
    /// The driver of the trace at the plan's attachments, none of whose words was taken.
    ///
    /// # Errors
    ///
    /// When memory runs out.
    pub fn new(alloc: Global, plan: &Plan, trace: &Trace) -> Result<TraceDrive, AllocError>
        ensures count { IfOk result (λ drive. ⟦<TraceDrive as Driving>⟧.count drive ≡ length plan.now.hosts) }
        ensures driver { IfOk result (λ drive. ⟦<TraceDrive as Driving>⟧.driver drive
            ≡ trace_driver plan.now trace.now) }
        ensures state { IfOk result (λ drive. (j : ℕ) → ⟦<TraceDrive as Driving>⟧.state drive j ≡ untaken) }
    {
        let count = plan.attach_count();
        let scripts = scripts_of(alloc, count, trace.as_slice())?;
        let taken = vec![in alloc; 0; count as usize]?;
        Ok(TraceDrive { scripts, taken })
    }
}

impl Driving for TraceDrive {
    ghost use Rattle.tile_drive.specs.Scripts.{scripts_driver};

    ghost count = { λ s. length s.scripts.items };

    ghost driver = { λ s. scripts_driver s.scripts.items };

    ghost state = { λ s j. slice_index s.taken.items j ∷ [] };

    ghost keeps_hearing = { λ s j t state offered h. h };
}

impl Drive for TraceDrive {
    fn offer(&self, attach: u32, cycle: u32) -> Option<Offer> {
        let j = attach as usize;
        let script = &self.scripts[j];
        match script.due.get(self.taken[j]) {
            Some(due) if due.cycle <= cycle => Some(due.offer),
            _ => None,
        }
    }

    fn hears(&self, attach: u32, cycle: u32) -> bool {
        let script = &self.scripts[attach as usize];
        !is_covered(&script.spans, &script.ends, cycle)
    }

    fn taken(&mut self, attach: u32, cycle: u32) {
        self.taken[attach as usize] += 1;
    }

    fn got(&mut self, attach: u32, cycle: u32, flit: Ejected) {}
}
