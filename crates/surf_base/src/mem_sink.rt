//! A sink over memory, for tests.

ghost use Rattle.std.specs.Prelude.{◌≡◌, ◌-◌, ◌<◌, ◌≤◌, ◌⊎◌, ◌↔◌, [], length, take, Some, OnErr, IfOk, IsErr, vec_len, vec_capacity};
ghost use Rattle.surf_base.specs.Outside.{Rose, appended};
ghost use Rattle.surf_base.specs.Script.{FailsNext, CountsCall};

use crate::outside::{Failed, Sink};
use crate::script::Script;
use std::alloc::{AllocError, Global};

/// A sink over memory, for tests: it has room for so many bytes, and fails where a script says so.
#[derive(Drop)]
pub struct MemSink {
    got: Vec<u8>,
    room: usize,
    step: usize,
    script: Script,
    ghost some: { 1 ≤ step },
    ghost has_room: { vec_len got ≤ room },
    ghost has_memory: { room ≤ vec_capacity got },
}

impl MemSink {
    /// An empty sink, with all the memory that it will need. A write takes at most `step` bytes, and
    /// the writes with the numbers `fails` fail; they count from 1.
    ///
    /// # Errors
    ///
    /// When memory runs out.
    pub fn new(alloc: Global, room: usize, step: usize, fails: &[u64]) -> Result<Self, AllocError>
        requires { 1 ≤ step }
        ensures empty { IfOk result (λ sink. sink.got.items ≡ []) }
        ensures room { IfOk result (λ sink. sink.room ≡ room) }
        ensures step { IfOk result (λ sink. sink.step ≡ step) }
        ensures fails { IfOk result (λ sink. sink.script.fails.items ≡ fails.now) }
        ensures calls { IfOk result (λ sink. sink.script.calls ≡ 0) }
        ensures faults { IfOk result (λ sink. sink.script.faults ≡ 0) }
    {
        let script = Script::new(alloc, fails)?;
        let got = Vec::with_capacity(alloc, room)?;
        Ok(MemSink {
            got,
            room,
            step,
            script,
        })
    }

    /// The bytes that were written.
    pub fn bytes(&self) -> &[u8]
        ensures { result.now ≡ self.now.got.items }
    {
        self.got.as_slice()
    }
}

impl Sink for MemSink {
    ghost written = { λ sink. Some sink.got.items };

    ghost faults = { λ sink. sink.script.faults };

    fn write(&mut self, piece: &[u8]) -> Result<usize, Failed>
        requires { 0 < length piece.now }
        ensures faults { self.old.script.faults ≤ self.new.script.faults }
        ensures ok { IfOk result (λ n. (1 ≤ n) × (n ≤ length piece.now)
            × (Some self.new.got.items ≡ appended (Some self.old.got.items) (take n piece.now))) }
        ensures err { OnErr result (Rose self.old.script.faults self.new.script.faults
            × (Some self.new.got.items ≡ Some self.old.got.items)) }
        ensures step { IfOk result (λ n. n ≤ self.old.step) }
        ensures fails { IsErr result ↔ (FailsNext self.old.script
            ⊎ (length self.old.got.items ≡ self.old.room)) }
        ensures counts { CountsCall self.old.script self.new.script (FailsNext self.old.script
            ⊎ (length self.old.got.items ≡ self.old.room)) }
        ensures step_stays { self.new.step ≡ self.old.step }
        ensures room_stays { self.new.room ≡ self.old.room }
    {
        let fails = self.script.next_fails();
        let spare = self.room - self.got.len();
        if fails || spare == 0 {
            self.script.fault();
            return Err(Failed);
        }
        let count = piece.len().min(self.step).min(spare);
        if self.got.extend_from_slice(&piece[..count]).is_err() {
            unreachable!();
        }
        Ok(count)
    }
}
