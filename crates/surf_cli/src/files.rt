//! The files that a command names.

ghost use Rattle.std.specs.Prelude.{◌≡◌, ◌<◌};
ghost use Rattle.surf_cli.specs.Files.{limit_of, file_of};
ghost use Rattle.surf_cli.specs.Spoken.{named};

/// The most bytes that a description may have.
pub(crate) const DESCRIPTION_LIMIT: u64 = 1_048_576;

/// The most bytes that a Verilog text may have.
pub(crate) const TEXT_LIMIT: u64 = 134_217_728;

/// The most bytes that a trace may have.
pub(crate) const TRACE_LIMIT: u64 = 67_108_864;

/// What a named file is to hold.
#[derive(Clone, Copy)]
pub(crate) enum FileKind {
    /// A description of a network.
    Description,
    /// A Verilog text.
    Text,
    /// A trace of injections.
    Trace,
}

impl FileKind {
    /// The most bytes that such a file may have.
    pub(crate) fn limit(self) -> u64
        ensures value { result ≡ limit_of self }
        ensures countable { result < 18446744073709551615 }
    {
        match self {
            FileKind::Description => DESCRIPTION_LIMIT,
            FileKind::Text => TEXT_LIMIT,
            FileKind::Trace => TRACE_LIMIT,
        }
    }
}

/// A file that a command names.
#[derive(Clone, Copy)]
pub(crate) struct NamedFile<'a> {
    /// What it is to hold.
    pub(crate) kind: FileKind,
    /// Its name.
    pub(crate) name: &'a str,
}

impl<'a> NamedFile<'a> {
    /// The file of this name.
    pub(crate) fn new(kind: FileKind, name: &'a str) -> Self
        ensures { named result ≡ file_of kind name.now }
    {
        NamedFile { kind, name }
    }
}

/// The files that a command names, in the order of its words.
#[derive(Clone, Copy)]
pub(crate) enum NamedFiles<'a> {
    /// No file.
    Zero,
    /// One file.
    One(NamedFile<'a>),
    /// Two files.
    Two(NamedFile<'a>, NamedFile<'a>),
    /// Three files.
    Three(NamedFile<'a>, NamedFile<'a>, NamedFile<'a>),
}
