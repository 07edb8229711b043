//! Why a trace is refused.

ghost use Rattle.std.specs.Prelude.{◌≡◌};

use std::alloc::AllocError;
use thiserror::Error;

/// Why a trace gives no entries. A line counts from 1, and is the first one that is faulty; the fault is the first of
/// these that holds on it.
#[derive(Debug, Drop, Clone, Copy, PartialEq, Eq, Error)]
pub enum TraceFault {
    /// The line is no `send` and no `hold`: it has a control character or a byte beyond ASCII, too few fields, another
    /// word in the fourth field, or a `hold` that goes on behind its count.
    #[error("line {line}: expected `CYCLE TILE DOMAIN send ADDRESS WORD ..` or `CYCLE TILE DOMAIN hold COUNT`")]
    Syntax { line: u64 },
    /// A cycle, tile or count isn't a decimal number of 32 bits in at most 10 digits, or an address or word isn't a
    /// hexadecimal one in at most 8.
    #[error("line {line}: a number is not spelled as one")]
    Number { line: u64 },
    /// The tile is beyond the plan's last one.
    #[error("line {line}: there is no such tile")]
    TileRange { line: u64 },
    /// The name is none of the plan's domains.
    #[error("line {line}: there is no such domain")]
    DomainUnknown { line: u64 },
    /// The tile has no attachment of the domain.
    #[error("line {line}: the tile does not host the domain")]
    NotHosted { line: u64 },
    /// A `send` is a packet of at least one word and at most 256, and this one isn't.
    #[error("line {line}: a send has 1 to 256 words")]
    WordCount { line: u64 },
    /// Memory ran out.
    #[error("out of memory")]
    Memory(AllocError),
}

impl From<AllocError> for TraceFault {
    ghost use Rattle.trace_read.specs.declared.fault.TraceFault.{TraceFault};

    ghost from_gives = { λ m e. e ≡ TraceFault.Memory m };

    fn from(fault: AllocError) -> TraceFault {
        TraceFault::Memory(fault)
    }
}
