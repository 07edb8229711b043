//! The outside of the program: files that are read, sinks that are written to, and the numbers and
//! bytes that go through them.
//!
//! The traits `Files` and `Sink` say what a file and a sink mean. `write_all` and `read_whole` go by
//! these alone: all bytes, or a failure that the object's count of faults shows. `MemFiles` and
//! `MemSink` are fakes over memory that fail where a script says so; `RealFiles` and `RealSink` stand
//! on std, and their content is not observed. What the bytes say is left to the crates above.
#![tactic(auto)]

mod block;
mod mem_files;
mod mem_sink;
mod numbers;
mod outside;
mod places;
mod reading;
mod real;
mod script;
mod seq;
mod writing;

pub use block::Block;
pub use mem_files::MemFiles;
pub use mem_sink::MemSink;
pub use numbers::{decimal, hex8, read_decimal, read_hex};
pub use outside::{Failed, Files, Sink};
pub use places::{put_at, put_labelled_at, put_number_at};
pub use reading::{TakeFault, read_whole};
pub use real::{RealFiles, RealSink};
pub use seq::{Bytes, Seq};
pub use writing::write_all;

#[cfg(test)]
mod tests;
