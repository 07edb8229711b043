//! Bytes that are gathered on their way to a sink.

ghost use Rattle.std.specs.Prelude.{◌≡◌, ◌+◌, ◌≤◌, ◌++◌, ◌∷◌, List, ℕ, [], length, OnOk, IfOk, vec_len, vec_capacity};
ghost use Rattle.std.specs.Option.{option_map_or, ForSome};
ghost use Rattle.std.specs.Fmt.{decimal as decimal_digits};
ghost use Rattle.surf_base.specs.Block.{Writes, stream};
ghost use Rattle.surf_base.specs.Numbers.{labelled};

use crate::numbers::decimal;
use crate::outside::{Failed, Sink};
use crate::writing::write_all;
use std::alloc::{AllocError, Global};
use std::marker::Model;

/// How many bytes a block gathers.
const ROOM: usize = 32768;

/// Bytes on their way to a sink. Short pieces are handed on together, 16 KiB or more at a time; a block without memory
/// hands on each piece by itself.
///
/// Contracts see it as the bytes that it has gathered.
#[derive(Drop)]
pub struct Block {
    items: Option<Vec<u8>>,
}

impl Model for Block {
    ghost Value = { List ℕ };

    ghost view = { λ a. option_map_or (λ v. v.items) a.items [] };

    ghost invariant = { λ a. ForSome a.items (λ v. (vec_len v ≤ 32768) × (32768 ≤ vec_capacity v)) };
}

/// Adds a piece for which there is room.
fn gather(bytes: &mut Vec<u8>, piece: &[u8])
    requires { vec_len bytes.old + length piece.now ≤ vec_capacity bytes.old }
    ensures items { bytes.new.items ≡ bytes.old.items ++ piece.now }
    ensures len { vec_len bytes.new ≡ vec_len bytes.old + length piece.now }
    ensures capacity { vec_capacity bytes.old ≤ vec_capacity bytes.new }
{
    bytes.extend_from_slice(piece).unwrap();
}

/// Hands on all that is gathered.
fn hand_on<O: Sink>(bytes: &mut Vec<u8>, sink: &mut O) -> Result<(), Failed>
    ensures writes { Writes result (stream (O.written sink.old) bytes.old.items (O.faults sink.old))
        (stream (O.written sink.new) bytes.new.items (O.faults sink.new)) [] }
    ensures empty { OnOk result (bytes.new.items ≡ []) }
    ensures len { vec_len bytes.new ≤ vec_len bytes.old }
    ensures capacity { vec_capacity bytes.old ≤ vec_capacity bytes.new }
{
    match write_all(sink, bytes.as_slice()) {
        Ok(()) => {
            bytes.clear();
            Ok(())
        }
        Err(fault) => Err(fault),
    }
}

/// Adds a piece where nothing is gathered, or writes it where it is too long.
fn put_first<O: Sink>(bytes: &mut Vec<u8>, sink: &mut O, piece: &[u8]) -> Result<(), Failed>
    requires empty { bytes.old.items ≡ [] }
    requires capacity { 32768 ≤ vec_capacity bytes.old }
    ensures writes { Writes result (stream (O.written sink.old) bytes.old.items (O.faults sink.old))
        (stream (O.written sink.new) bytes.new.items (O.faults sink.new)) piece.now }
    ensures len { vec_len bytes.new ≤ 32768 }
    ensures capacity { 32768 ≤ vec_capacity bytes.new }
{
    if piece.len() <= ROOM {
        gather(bytes, piece);
        return Ok(());
    }
    write_all(sink, piece)
}

/// Adds a piece, and hands on what is gathered before it where there is no room.
fn put_in<O: Sink>(bytes: &mut Vec<u8>, sink: &mut O, piece: &[u8]) -> Result<(), Failed>
    requires len { vec_len bytes.old ≤ 32768 }
    requires capacity { 32768 ≤ vec_capacity bytes.old }
    ensures writes { Writes result (stream (O.written sink.old) bytes.old.items (O.faults sink.old))
        (stream (O.written sink.new) bytes.new.items (O.faults sink.new)) piece.now }
    ensures len { vec_len bytes.new ≤ 32768 }
    ensures capacity { 32768 ≤ vec_capacity bytes.new }
{
    if piece.len() <= ROOM - bytes.len() {
        gather(bytes, piece);
        return Ok(());
    }
    match hand_on(bytes, sink) {
        Ok(()) => put_first(bytes, sink, piece),
        Err(fault) => Err(fault),
    }
}

impl Block {
    /// An empty block, which takes all its memory here.
    ///
    /// # Errors
    ///
    /// When memory runs out.
    pub fn new(alloc: Global) -> Result<Block, AllocError>
        ensures { IfOk result (λ block. block ≡ []) }
    {
        let items = Vec::with_capacity(alloc, ROOM)?;
        Ok(Block { items: Some(items) })
    }

    /// A block without memory, which gathers nothing.
    pub fn unbuffered() -> Block
        ensures { result ≡ [] }
    {
        Block { items: None }
    }

    /// Adds a piece, and hands on what is gathered where there is no room. On an error the sink has got a prefix of
    /// what was gathered and the piece.
    ///
    /// # Errors
    ///
    /// When the sink fails: its count of faults has then risen.
    pub fn put<O: Sink>(&mut self, sink: &mut O, piece: &[u8]) -> Result<(), Failed>
        ensures { Writes result (stream (O.written sink.old) self.old (O.faults sink.old))
            (stream (O.written sink.new) self.new (O.faults sink.new)) piece.now }
    {
        match &mut self.items {
            Some(bytes) => put_in(bytes, sink, piece),
            None => write_all(sink, piece),
        }
    }

    /// Puts a number in decimal.
    ///
    /// # Errors
    ///
    /// When the sink fails: its count of faults has then risen.
    pub fn put_number<O: Sink>(&mut self, sink: &mut O, value: u64) -> Result<(), Failed>
        ensures { Writes result (stream (O.written sink.old) self.old (O.faults sink.old))
            (stream (O.written sink.new) self.new (O.faults sink.new)) (decimal_digits value) }
    {
        let mut digits = [0; 20];
        let count = decimal(value, &mut digits);
        self.put(sink, &digits[..count])
    }

    /// Puts a number in decimal, and a byte.
    ///
    /// # Errors
    ///
    /// When the sink fails: its count of faults has then risen.
    pub fn put_number_then<O: Sink>(
        &mut self,
        sink: &mut O,
        value: u64,
        end: u8,
    ) -> Result<(), Failed>
        ensures { Writes result (stream (O.written sink.old) self.old (O.faults sink.old))
            (stream (O.written sink.new) self.new (O.faults sink.new)) (decimal_digits value ++ end ∷ []) }
    {
        match self.put_number(sink, value) {
            Ok(()) => self.put(sink, &[end]),
            Err(fault) => Err(fault),
        }
    }

    /// Puts a label, and a number in decimal.
    ///
    /// # Errors
    ///
    /// When the sink fails: its count of faults has then risen.
    pub fn put_labelled<O: Sink>(
        &mut self,
        sink: &mut O,
        label: &[u8],
        value: u64,
    ) -> Result<(), Failed>
        ensures { Writes result (stream (O.written sink.old) self.old (O.faults sink.old))
            (stream (O.written sink.new) self.new (O.faults sink.new)) (labelled label.now value) }
    {
        match self.put(sink, label) {
            Ok(()) => self.put_number(sink, value),
            Err(fault) => Err(fault),
        }
    }

    /// Hands on all that is gathered. On an error the sink has got a prefix of it.
    ///
    /// # Errors
    ///
    /// When the sink fails: its count of faults has then risen.
    pub fn flush<O: Sink>(&mut self, sink: &mut O) -> Result<(), Failed>
        ensures writes { Writes result (stream (O.written sink.old) self.old (O.faults sink.old))
            (stream (O.written sink.new) self.new (O.faults sink.new)) [] }
        ensures empty { OnOk result (self.new ≡ []) }
    {
        match &mut self.items {
            Some(bytes) => hand_on(bytes, sink),
            None => Ok(()),
        }
    }
}
