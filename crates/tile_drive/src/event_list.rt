//! What happens at the attachments.

ghost use Rattle.std.specs.Prelude.{◌≡◌, ◌<◌, [], ◌∷◌, ◌++◌, length, slice_get, Some, OnOk, OnErr};
ghost use Rattle.tile_drive.specs.Order.{MayFollow, AreInOrder};

use noc_model::Event;
use std::alloc::{AllocError, Global};
use std::marker::Model;

/// Events in order of cycle, attachment and kind: take or wait, then drop, then got.
#[derive(Drop)]
pub struct Events {
    items: Vec<Event>,
}

impl Model for Events {
    ghost use Rattle.std.specs.Prelude.{List};
    ghost use Rattle.noc_model.specs.declared.Event.{Event};

    ghost Value = { List Event };

    ghost use Rattle.tile_drive.specs.Order.{AreInOrder};

    ghost view = { λ a. a.items.items };

    ghost invariant = { λ a. AreInOrder a.items.items };
}

impl Events {
    /// No events. Takes no memory.
    pub fn new(alloc: Global) -> Self
        ensures { result ≡ [] }
    {
        Events {
            items: Vec::new(alloc),
        }
    }

    /// Lets callers' proofs use that the events are in order. It does nothing.
    pub fn known(&self)
        ensures { AreInOrder self.now }
    {
        let _ = &self.items;
    }

    /// Adds an event that doesn't come before the last one.
    ///
    /// # Errors
    ///
    /// When memory runs out. The list is then as it was.
    pub fn push(&mut self, item: Event) -> Result<(), AllocError>
        requires { MayFollow self.old item }
        ensures ok { OnOk result (self.new ≡ self.old ++ item ∷ []) }
        ensures err { OnErr result (self.new ≡ self.old) }
    {
        self.items.push(item)?;
        Ok(())
    }

    /// How many there are.
    pub fn len(&self) -> usize
        ensures { result ≡ length self.now }
    {
        self.items.len()
    }

    /// The event at a place, from 0.
    pub fn at(&self, i: usize) -> &Event
        requires { i < length self.now }
        ensures { slice_get self.now i ≡ Some result.now }
    {
        &self.items[i]
    }

    /// The events, in order.
    pub fn as_slice(&self) -> &[Event]
        ensures { result.now ≡ self.now }
    {
        self.items.as_slice()
    }
}
