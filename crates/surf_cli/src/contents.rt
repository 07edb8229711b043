//! What the files of a command hold.

ghost use Rattle.std.specs.Prelude.{◌≡◌};
ghost use Rattle.surf_cli.specs.Contents.{nothing, with_content};
ghost use Rattle.surf_cli.specs.Spoken.{gathered};

use crate::files::FileKind;
use std::alloc::Global;

/// What the files of a command hold, by their kinds; of a kind that it doesn't name, nothing.
#[derive(Drop)]
pub(crate) struct Contents {
    /// The bytes of the description.
    pub(crate) description: Vec<u8>,
    /// The bytes of the Verilog text.
    pub(crate) text: Vec<u8>,
    /// The bytes of the trace.
    pub(crate) trace: Vec<u8>,
}

impl Contents {
    /// Nothing, which takes no memory.
    pub(crate) fn new(alloc: Global) -> Self
        ensures { gathered result ≡ nothing }
    {
        Contents {
            description: Vec::new(alloc),
            text: Vec::new(alloc),
            trace: Vec::new(alloc),
        }
    }

    /// These contents, where the file of this kind holds `bytes`.
    pub(crate) fn with(mut self, kind: FileKind, bytes: Vec<u8>) -> Self
        ensures { gathered result ≡ with_content kind bytes.items (gathered self) }
    {
        match kind {
            FileKind::Description => self.description = bytes,
            FileKind::Text => self.text = bytes,
            FileKind::Trace => self.trace = bytes,
        }
        self
    }
}
