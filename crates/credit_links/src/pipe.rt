//! The row of registers of a link.

ghost use Rattle.std.specs.Prelude.{◌≡◌, ◌≤◌, ◌-◌, ◌∷◌, ◌↔◌, ℕ, length, take, replicate, None, IfOk, IsTrue};
ghost use Rattle.noc_model.specs.Limits.{most_stages};
ghost use Rattle.credit_links.specs.Rows.{place_at, last_place};

use circular_buffer::HeapCircularBuffer;
use flit_word::LinkFlit;
use std::alloc::{AllocError, Global};
use std::marker::Model;

/// The registers of a link, 1 to 4, the one that a flit enters first.
#[derive(Drop)]
pub struct Pipe {
    places: HeapCircularBuffer<Option<LinkFlit>>,
}

impl Model for Pipe {
    ghost use Rattle.std.specs.Prelude.{◌≡◌, ◌≤◌, List, Option, length};
    ghost use Rattle.noc_model.specs.declared.LinkFlit.{LinkFlit as LinkFlitValue};

    ghost Value = { List (Option LinkFlitValue) };

    ghost view = { λ a. a.places.items };

    ghost invariant = { λ a. (1 ≤ length a.places.items) × (length a.places.items ≡ a.places.capacity) };
}

impl Pipe {
    /// A link with so many registers, all of them empty. All memory is taken here.
    ///
    /// # Errors
    ///
    /// When memory runs out.
    pub fn new(alloc: Global, stages: u32) -> Result<Pipe, AllocError>
        requires some { 1 ≤ stages }
        requires few { stages ≤ most_stages }
        ensures { IfOk result (λ pipe. pipe ≡ replicate stages None) }
    {
        let mut places = HeapCircularBuffer::with_capacity(alloc, stages as usize)?;
        for _ in 0..stages {
            places.push_front(None);
        }
        Ok(Pipe { places })
    }

    /// The flit in the last register, which leaves it at the next shift: none exactly where the register is empty.
    pub fn last(&self) -> Option<LinkFlit>
        ensures { result ≡ last_place self.now }
    {
        match self.places.back() {
            Some(place) => *place,
            None => None,
        }
    }

    /// The flit in register `i`, counted from the one that a flit enters first.
    fn at(&self, i: usize) -> Option<LinkFlit>
        ensures { result ≡ place_at self.now i }
    {
        match self.places.get(i) {
            Some(place) => *place,
            None => None,
        }
    }

    /// Whether no register has a flit. A shift that puts nothing in then changes nothing.
    pub fn is_empty(&self) -> bool
        ensures { IsTrue result ↔ ((i : ℕ) → place_at self.now i ≡ None) }
    {
        for i in 0..self.places.len() {
            if self.at(i).is_some() {
                return false;
            }
        }
        true
    }

    /// Moves each flit on by one register, and puts `next` into the first. It gives the flit that left the last one.
    pub fn shift(&mut self, next: Option<LinkFlit>) -> Option<LinkFlit>
        ensures value { result ≡ last_place self.old }
        ensures row { self.new ≡ next ∷ take (length self.old - 1) self.old }
    {
        match self.places.push_front(next) {
            Some(place) => place,
            None => None,
        }
    }
}
