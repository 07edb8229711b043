//! What a name is declared as.

/// What a name of a module is declared as.
#[derive(Clone, Copy, Debug, PartialEq, Eq)]
pub enum Kind {
    /// An input port.
    Input,
    /// An output port.
    Output,
    /// A wire.
    Inner,
    Register,
    Memory,
    /// An instance of a leaf.
    Child,
}
