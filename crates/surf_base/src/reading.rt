//! Reading a whole file.

ghost use Rattle.std.specs.Prelude.{◌≡◌, ℕ, ◌+◌, ◌^◌, ◌<◌, ◌≤◌, ◌⊎◌, List, [], length, true, Some, None, OnOk, OnErr, IfOk, IsErrOf, vec_len};
ghost use Rattle.surf_base.specs.Outside.{Absent, Holds, Rose, HandsOn, EndsAt};
ghost use Rattle.surf_base.specs.Taken.{OnFailed, OnTooLong, UnlessTooLong, content_of};

use crate::outside::{Failed, Files};
use std::alloc::{AllocError, Global};

/// Why a file was not read whole.
#[derive(Debug, Drop, Clone, Copy, PartialEq, Eq)]
pub enum TakeFault {
    /// The files failed, or have no file of this name.
    Failed,
    /// The file is longer than the limit.
    TooLong,
    /// Memory ran out.
    Memory(AllocError),
}

/// How many bytes are asked for at once, at most.
const PIECE: usize = 65536;

impl From<Failed> for TakeFault {
    ghost use Rattle.surf_base.specs.declared.reading.TakeFault.{TakeFault};

    ghost from_gives = { λ _ e. e ≡ TakeFault.Failed };

    fn from(_fault: Failed) -> TakeFault {
        TakeFault::Failed
    }
}

impl From<AllocError> for TakeFault {
    ghost use Rattle.surf_base.specs.declared.reading.TakeFault.{TakeFault};

    ghost from_gives = { λ m e. e ≡ TakeFault.Memory m };

    fn from(fault: AllocError) -> TakeFault {
        TakeFault::Memory(fault)
    }
}

/// Reads the next bytes of the opened file into `piece`, at most `most` of them.
fn read_some<F: Files>(files: &mut F, piece: &mut [u8], most: usize) -> Result<usize, Failed>
    requires opened { F.opened files.old ≡ true }
    requires room { 0 < length piece.old }
    requires some { 0 < most }
    requires fits { F.taken files.old + most < 2 ^ 64 }
    ensures held { F.held files.new ≡ F.held files.old }
    ensures faults { F.faults files.old ≤ F.faults files.new }
    ensures opened { F.opened files.new ≡ true }
    ensures count { IfOk result (λ n. (n ≤ length piece.old)
        × (n ≤ most) × (F.taken files.new ≡ F.taken files.old + n)) }
    ensures observed { IfOk result (λ n. HandsOn n piece.new (F.left files.old) (F.left files.new)) }
    ensures unobserved { F.left files.old ≡ None → F.left files.new ≡ None }
    ensures end { IfOk result (λ n. EndsAt n (F.left files.old)) }
    ensures err { OnErr result (Rose (F.faults files.old) (F.faults files.new)
        × (F.taken files.new ≡ F.taken files.old)) }
{
    if most < piece.len() {
        files.read(&mut piece[..most])
    } else {
        files.read(piece)
    }
}

/// Takes the next bytes of the opened file over to `bytes`, and answers how many: 0 at its end.
fn take_some<F: Files>(
    files: &mut F,
    piece: &mut [u8],
    bytes: &mut Vec<u8>,
    limit: u64,
) -> Result<usize, TakeFault>
    requires opened { F.opened files.old ≡ true }
    requires room { 0 < length piece.old }
    requires taken { F.taken files.old ≡ vec_len bytes.old }
    requires so_far { vec_len bytes.old ≤ limit }
    requires limited { limit < 18446744073709551615 }
    ensures held { F.held files.new ≡ F.held files.old }
    ensures faults { F.faults files.old ≤ F.faults files.new }
    ensures opened { F.opened files.new ≡ true }
    ensures count { IfOk result (λ n. (vec_len bytes.new ≡ vec_len bytes.old + n)
        × (F.taken files.new ≡ vec_len bytes.new)) }
    ensures content { OnOk result (content_of bytes.new.items (F.left files.new)
        ≡ content_of bytes.old.items (F.left files.old)) }
    ensures end { IfOk result (λ n. (rest : List ℕ) →
        F.left files.old ≡ Some rest → n ≡ 0 → rest ≡ []) }
    ensures failed { OnFailed result (Rose (F.faults files.old) (F.faults files.new)) }
    ensures too_long { OnTooLong result (F.taken files.new ≡ limit + 1) }
    ensures longer { OnTooLong result ((content : List ℕ) →
        content_of bytes.old.items (F.left files.old) ≡ Some content → limit < length content) }
    ensures within { UnlessTooLong result (F.taken files.new ≤ limit) }
{
    let had = bytes.len();
    let spare = limit - had as u64;
    let most = piece.len().min(spare as usize + 1);
    let count = read_some(files, piece, most)?;
    if count as u64 > spare {
        return Err(TakeFault::TooLong);
    }
    bytes.extend_from_slice(&piece[..count])?;
    Ok(count)
}

/// Takes what is left of the opened file over to `bytes`.
fn take_rest<F: Files>(
    files: &mut F,
    piece: &mut [u8],
    bytes: &mut Vec<u8>,
    limit: u64,
) -> Result<(), TakeFault>
    requires opened { F.opened files.old ≡ true }
    requires room { 0 < length piece.old }
    requires taken { F.taken files.old ≡ vec_len bytes.old }
    requires so_far { vec_len bytes.old ≤ limit }
    requires limited { limit < 18446744073709551615 }
    ensures held { F.held files.new ≡ F.held files.old }
    ensures faults { F.faults files.old ≤ F.faults files.new }
    ensures count { OnOk result (F.taken files.new ≡ vec_len bytes.new) }
    ensures content { OnOk result ((content : List ℕ) →
        content_of bytes.old.items (F.left files.old) ≡ Some content → bytes.new.items ≡ content) }
    ensures failed { OnFailed result (Rose (F.faults files.old) (F.faults files.new)) }
    ensures too_long { OnTooLong result (F.taken files.new ≡ limit + 1) }
    ensures longer { OnTooLong result ((content : List ℕ) →
        content_of bytes.old.items (F.left files.old) ≡ Some content → limit < length content) }
    ensures within { UnlessTooLong result (F.taken files.new ≤ limit) }
{
    'turns: loop {
        if take_some(files, piece, bytes, limit)? == 0 {
            return Ok(());
        }
    }
}

/// A piece of `size` bytes to read into.
fn new_piece(alloc: Global, size: usize) -> Result<Vec<u8>, AllocError>
    ensures { IfOk result (λ v. vec_len v ≡ size) }
{
    vec![in alloc; 0u8; size]
}

/// Reads the file of this name whole, where it is at most `limit` bytes long.
///
/// `TooLong` says that it is longer: then `limit + 1` bytes were handed out, and never more.
///
/// # Errors
///
/// `Failed` when the file can't be opened or read, `TooLong` when it has more than `limit` bytes, `Memory` when memory
/// runs out.
pub fn read_whole<F: Files>(
    alloc: Global,
    files: &mut F,
    name: &str,
    limit: u64,
) -> Result<Vec<u8>, TakeFault>
    requires { limit < 18446744073709551615 }
    ensures held { F.held files.new ≡ F.held files.old }
    ensures faults { F.faults files.old ≤ F.faults files.new }
    ensures count { IfOk result (λ v. vec_len v ≡ F.taken files.new) }
    ensures content { (bytes : List ℕ) →
        F.held files.old name.now ≡ Holds bytes → IfOk result (λ v. v.items ≡ bytes) }
    ensures failed { OnFailed result (Rose (F.faults files.old) (F.faults files.new)
        ⊎ (F.held files.old name.now ≡ Absent)) }
    ensures too_long { OnTooLong result (F.taken files.new ≡ limit + 1) }
    ensures longer { (bytes : List ℕ) →
        F.held files.old name.now ≡ Holds bytes → OnTooLong result (limit < length bytes) }
    ensures within { UnlessTooLong result (F.taken files.new ≤ limit) }
    ensures absent { F.held files.old name.now ≡ Absent → IsErrOf result TakeFault.Failed }
{
    files.open_name(name)?;
    let mut piece = new_piece(alloc, PIECE)?;
    let mut bytes = Vec::new(alloc);
    take_rest(files, piece.as_mut_slice(), &mut bytes, limit)?;
    Ok(bytes)
}
