//! Files over memory, for tests.

ghost use Rattle.std.specs.Prelude.{◌≡◌, ◌≢◌, ℕ, ◌+◌, ◌^◌, ◌<◌, ◌≤◌, ◌⊎◌, ◌↔◌, List, [], length, take, drop, true, false, Option, Some, None, MatchOption, OnOk, OnErr, IfOk, IsErr, is_ok};
ghost use Rattle.surf_base.specs.Outside.{Absent, Holds, Rose, HandsOn, EndsAt};
ghost use Rattle.surf_base.specs.HeldIn.{held_in, content_at};

use crate::outside::{Failed, Files};
use crate::script::Script;
use crate::seq::Bytes;
use std::alloc::{AllocError, Global};

/// A file, by its name and its content.
#[derive(Drop)]
struct MemFile {
    name: Bytes,
    content: Bytes,
}

/// Files over memory, for tests: calls fail where a script says so.
///
/// Calls of `open_name` and `read` are counted together, from 1. A name that was not put is absent.
#[derive(Drop)]
pub struct MemFiles {
    alloc: Global,
    files: Vec<MemFile>,
    script: Script,
    step: usize,
    opened: bool,
    file: usize,
    taken: usize,
    ghost some: { 1 ≤ step },
    ghost in_range: { opened ≡ true → file < length files.items },
}

impl MemFiles {
    ghost use Rattle.surf_base.specs.MemFiles.{held_of, left_of, SameButHeld};

    /// No files yet; a read gives at most `step` bytes, and the calls with the numbers `fails` fail.
    ///
    /// # Errors
    ///
    /// When memory runs out.
    pub fn new(alloc: Global, step: usize, fails: &[u64]) -> Result<Self, AllocError>
        requires { 1 ≤ step }
        ensures absent { IfOk result (λ files. (name : List ℕ) → held_of files name ≡ Absent) }
        ensures closed { IfOk result (λ files. files.opened ≡ false) }
        ensures step { IfOk result (λ files. files.step ≡ step) }
        ensures fails { IfOk result (λ files. files.script.fails.items ≡ fails.now) }
        ensures calls { IfOk result (λ files. files.script.calls ≡ 0) }
        ensures faults { IfOk result (λ files. files.script.faults ≡ 0) }
        ensures taken { IfOk result (λ files. files.taken ≡ 0) }
    {
        let script = Script::new(alloc, fails)?;
        Ok(MemFiles {
            alloc,
            files: Vec::new(alloc),
            script,
            step,
            opened: false,
            file: 0,
            taken: 0,
        })
    }

    /// Puts a file, in place of one of the same name. The opened file stays as it is.
    ///
    /// # Errors
    ///
    /// When memory runs out. Then no file is put.
    pub fn put(&mut self, name: &str, content: &[u8]) -> Result<(), AllocError>
        ensures held { OnOk result (held_of self.new name.now ≡ Holds content.now) }
        ensures others { (other : List ℕ) → other ≢ name.now →
            held_of self.new other ≡ held_of self.old other }
        ensures err { OnErr result (held_of self.new ≡ held_of self.old) }
        ensures rest { SameButHeld self.old self.new }
    {
        let name = Bytes::from_slice(self.alloc, name.as_bytes())?;
        let content = Bytes::from_slice(self.alloc, content)?;
        self.files.push(MemFile { name, content })?;
        Ok(())
    }
}

/// The number of the last file of this name.
fn find(files: &[MemFile], name: &[u8]) -> Option<usize>
    ensures { MatchOption result (held_in files.now name.now ≡ Absent) (λ i.
        (i < length files.now) × (held_in files.now name.now ≡ Holds (content_at files.now i))) }
{
    let mut found = None;
    for (i, file) in files.iter().enumerate() {
        if file.name.as_slice() == name {
            found = Some(i);
        }
    }
    found
}

/// Copies the next bytes of `content` to the front of `buf`, at most `most`, and answers how many.
fn copy_next(content: &[u8], taken: usize, most: usize, buf: &mut [u8]) -> usize
    requires some { 1 ≤ most }
    requires room { 0 < length buf.old }
    ensures fits { result ≤ length buf.old }
    ensures most { result ≤ most }
    ensures there { result ≤ length (drop taken content.now) }
    ensures copied { take result buf.new ≡ take result (drop taken content.now) }
    ensures end { (result ≡ 0) ↔ (drop taken content.now ≡ []) }
{
    if content.len() <= taken {
        return 0;
    }
    let rest = &content[taken..];
    let count = rest.len().min(most).min(buf.len());
    buf[..count].copy_from_slice(&rest[..count]);
    count
}

impl Files for MemFiles {
    ghost use Rattle.surf_base.specs.MemFiles.{held_of, left_of};
    ghost use Rattle.surf_base.specs.Script.{FailsNext, CountsCall};

    ghost held = { held_of };

    ghost opened = { λ files. files.opened };

    ghost left = { left_of };

    ghost taken = { λ files. files.taken };

    ghost faults = { λ files. files.script.faults };

    fn open_name(&mut self, name: &str) -> Result<(), Failed>
        ensures held { held_of self.new ≡ held_of self.old }
        ensures faults { self.old.script.faults ≤ self.new.script.faults }
        ensures taken { self.new.taken ≡ 0 }
        ensures opened { self.new.opened ≡ is_ok result }
        ensures observed { OnOk result ((bytes : List ℕ) →
            held_of self.old name.now ≡ Holds bytes → left_of self.new ≡ Some bytes) }
        ensures failed { OnErr result (Rose self.old.script.faults self.new.script.faults
            ⊎ (held_of self.old name.now ≡ Absent)) }
        ensures absent { held_of self.old name.now ≡ Absent → IsErr result }
        ensures fails { IsErr result ↔ (FailsNext self.old.script
            ⊎ (held_of self.old name.now ≡ Absent)) }
        ensures counts { CountsCall self.old.script self.new.script (FailsNext self.old.script) }
        ensures step_stays { self.new.step ≡ self.old.step }
    {
        self.opened = false;
        self.taken = 0;
        if self.script.next_fails() {
            self.script.fault();
            return Err(Failed);
        }
        match find(self.files.as_slice(), name.as_bytes()) {
            None => Err(Failed),
            Some(file) => {
                self.file = file;
                self.opened = true;
                Ok(())
            }
        }
    }

    fn read(&mut self, buf: &mut [u8]) -> Result<usize, Failed>
        requires opened { self.old.opened ≡ true }
        requires room { 0 < length buf.old }
        requires fits { self.old.taken + length buf.old < 2 ^ 64 }
        ensures held { held_of self.new ≡ held_of self.old }
        ensures faults { self.old.script.faults ≤ self.new.script.faults }
        ensures opened { self.new.opened ≡ true }
        ensures count { IfOk result (λ n. (n ≤ length buf.old)
            × (self.new.taken ≡ self.old.taken + n)) }
        ensures observed { IfOk result (λ n. HandsOn n buf.new (left_of self.old) (left_of self.new)) }
        ensures unobserved { left_of self.old ≡ None → left_of self.new ≡ None }
        ensures end { IfOk result (λ n. EndsAt n (left_of self.old)) }
        ensures err { OnErr result (Rose self.old.script.faults self.new.script.faults
            × (self.new.taken ≡ self.old.taken) × (left_of self.new ≡ left_of self.old)) }
        ensures step { IfOk result (λ n. n ≤ self.old.step) }
        ensures fails { IsErr result ↔ FailsNext self.old.script }
        ensures counts { CountsCall self.old.script self.new.script (FailsNext self.old.script) }
        ensures step_stays { self.new.step ≡ self.old.step }
    {
        if self.script.next_fails() {
            self.script.fault();
            return Err(Failed);
        }
        let file = &self.files[self.file];
        let count = copy_next(file.content.as_slice(), self.taken, self.step, buf);
        self.taken += count;
        Ok(count)
    }
}
