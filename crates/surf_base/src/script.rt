//! Which calls of a fake fail.

ghost use Rattle.std.specs.Prelude.{◌≡◌, ◌≤◌, ◌↔◌, IsTrue, IfOk};
ghost use Rattle.surf_base.specs.Outside.{Rose};
ghost use Rattle.surf_base.specs.Script.{raised, FailsNext};

use std::alloc::{AllocError, Global};

/// Which calls of a fake fail: calls count from 1, and those whose number is in `fails` do.
#[derive(Drop)]
pub(crate) struct Script {
    pub(crate) fails: Vec<u64>,
    pub(crate) calls: u64,
    pub(crate) faults: u64,
}

impl Script {
    pub(crate) fn new(alloc: Global, fails: &[u64]) -> Result<Self, AllocError>
        ensures fails { IfOk result (λ s. s.fails.items ≡ fails.now) }
        ensures calls { IfOk result (λ s. s.calls ≡ 0) }
        ensures faults { IfOk result (λ s. s.faults ≡ 0) }
    {
        let fails = Vec::from_slice(alloc, fails)?;
        Ok(Script {
            fails,
            calls: 0,
            faults: 0,
        })
    }

    /// Counts a call, and says whether it fails.
    pub(crate) fn next_fails(&mut self) -> bool
        ensures counted { self.new ≡ record self.old { calls = raised self.old.calls } }
        ensures fails { IsTrue result ↔ FailsNext self.old }
    {
        self.calls = self.calls.saturating_add(1);
        self.fails.contains(&self.calls)
    }

    /// Counts a fault.
    pub(crate) fn fault(&mut self)
        ensures counted { self.new ≡ record self.old { faults = raised self.old.faults } }
        ensures rose { Rose self.old.faults self.new.faults }
        ensures never_falls { self.old.faults ≤ self.new.faults }
    {
        self.faults = self.faults.saturating_add(1);
    }
}
