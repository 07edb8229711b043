//! What can be wrong with a text.

use std::alloc::AllocError;
use thiserror::Error;

/// The first fault of a text. The first three carry an offset, the number of bytes before the fault; the others carry
/// the number of an item, or for `Ports` a position in the top's port list, all from 0.
#[derive(Debug, Drop, Error)]
pub enum TextFault {
    /// A control character other than tab, LF and CR, or a byte beyond ASCII.
    #[error("byte {0} is not allowed in a text")]
    Byte(u64),
    /// What begins here is no blank, no token and no closed comment.
    #[error("no token begins at byte {0}")]
    Token(u64),
    /// No text of the grammar goes on with this token, or the text ends too early.
    #[error("the grammar has no token of this kind at byte {0}")]
    Grammar(u64),
    /// A name is declared for the second time in its scope.
    #[error("item {0} declares a name again")]
    NameTwice(u64),
    /// A name is used that no line above declares, or that stands for another kind of thing.
    #[error("item {0} uses an undeclared name")]
    NameUnknown(u64),
    /// More than 64 bits, a bit outside its net, or two widths that should be equal and differ.
    #[error("item {0} has a wrong width")]
    Width(u64),
    /// An assign reads a wire or an output port whose own assign doesn't stand above it.
    #[error("item {0} reads a net before its assign")]
    Order(u64),
    /// The wire, output port, register or memory has no driver, or more than one.
    #[error("the net, register or memory of item {0} has no single driver")]
    Driver(u64),
    /// Within a cycle the output port is a function of an input port.
    #[error("output port {0} depends on an input port within a cycle")]
    Mealy(u64),
    /// A memory has another number of words than 2, 4, 8 and so on up to 1024, or an index isn't as wide as they need.
    #[error("item {0} has a wrong memory size or index")]
    MemSize(u64),
    /// An instance leaves a port of its leaf unjoined, or joins it twice.
    #[error("the instance of item {0} does not join each port once")]
    Instance(u64),
    /// The top's port list differs from the plan's at this position.
    #[error("port {0} of the top is not the plan's")]
    Ports(u64),
    /// Memory ran out, which says nothing of the text.
    #[error("out of memory")]
    Memory(AllocError),
}
