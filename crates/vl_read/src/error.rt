//! Why reading stopped.

ghost use Rattle.std.specs.Prelude.{◌≡◌};
ghost use Rattle.vl_read.specs.declared.error.ReadError.TheVariants.{Memory};

use std::alloc::AllocError;

/// Why reading stopped.
#[derive(Debug, Drop)]
pub enum ReadError {
    /// Memory ran out.
    Memory(AllocError),
    /// No token fits; so many bytes are left from there on.
    At(usize),
}

impl From<AllocError> for ReadError {
    ghost from_gives = { λ e r. r ≡ Memory e };

    fn from(e: AllocError) -> ReadError {
        ReadError::Memory(e)
    }
}
