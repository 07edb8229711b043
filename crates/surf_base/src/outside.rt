//! What files and sinks are.

ghost use Rattle.std.specs.Prelude.{◌≡◌, ℕ, ◌+◌, ◌^◌, ◌<◌, ◌≤◌, ◌⊎◌, List, length, take, Bool, true, Option, Some, None, OnOk, OnErr, IfOk, IsErr, is_ok};
ghost use Rattle.surf_base.specs.Outside.{Held, Absent, Holds, Rose, HandsOn, EndsAt, appended};

/// A call on a file or a sink that failed; the object's count of faults says more.
#[derive(Debug, Drop, Clone, Copy, PartialEq, Eq)]
pub struct Failed;

/// Files that are opened by name, one at a time, and read from the front.
///
/// `taken` counts the bytes that were handed out since the last opening, `left` are the opened
/// file's bytes that are left, and `faults` counts failures and never falls.
pub trait Files {
    ghost held: { Self → List ℕ → Held };

    ghost opened: { Self → Bool };

    ghost left: { Self → Option (List ℕ) };

    ghost taken: { Self → ℕ };

    ghost faults: { Self → ℕ };

    /// Opens the file of this name in place of the one that was opened.
    fn open_name(&mut self, name: &str) -> Result<(), Failed>
        ensures held { held self.new ≡ held self.old }
        ensures faults { faults self.old ≤ faults self.new }
        ensures taken { taken self.new ≡ 0 }
        ensures opened { opened self.new ≡ is_ok result }
        ensures observed { OnOk result ((bytes : List ℕ) →
            held self.old name.now ≡ Holds bytes → left self.new ≡ Some bytes) }
        ensures failed { OnErr result (Rose (faults self.old) (faults self.new)
            ⊎ (held self.old name.now ≡ Absent)) }
        ensures absent { held self.old name.now ≡ Absent → IsErr result };

    /// Puts the next bytes of the opened file in front of `buf`, and answers how many: 0 only at the
    /// file's end, where its content is observed.
    fn read(&mut self, buf: &mut [u8]) -> Result<usize, Failed>
        requires opened { opened self.old ≡ true }
        requires room { 0 < length buf.old }
        requires fits { taken self.old + length buf.old < 2 ^ 64 }
        ensures held { held self.new ≡ held self.old }
        ensures faults { faults self.old ≤ faults self.new }
        ensures opened { opened self.new ≡ true }
        ensures count { IfOk result (λ n. (n ≤ length buf.old)
            × (taken self.new ≡ taken self.old + n)) }
        ensures observed { IfOk result (λ n. HandsOn n buf.new (left self.old) (left self.new)) }
        ensures unobserved { left self.old ≡ None → left self.new ≡ None }
        ensures end { IfOk result (λ n. EndsAt n (left self.old)) }
        ensures err { OnErr result (Rose (faults self.old) (faults self.new)
            × (taken self.new ≡ taken self.old) × (left self.new ≡ left self.old)) };
}

/// Something that bytes are appended to.
///
/// `written` are the bytes so far, where they are observed, and `faults` counts failures and never falls.
pub trait Sink {
    ghost written: { Self → Option (List ℕ) };

    ghost faults: { Self → ℕ };

    /// Appends a prefix of `piece`, at least one byte of it, and answers how many bytes.
    fn write(&mut self, piece: &[u8]) -> Result<usize, Failed>
        requires { 0 < length piece.now }
        ensures faults { faults self.old ≤ faults self.new }
        ensures ok { IfOk result (λ n. (1 ≤ n) × (n ≤ length piece.now)
            × (written self.new ≡ appended (written self.old) (take n piece.now))) }
        ensures err { OnErr result (Rose (faults self.old) (faults self.new)
            × (written self.new ≡ written self.old)) };
}
