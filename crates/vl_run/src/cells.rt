//! Rows of numbers.

ghost use Rattle.std.specs.Prelude.{◌≡◌, ◌<◌, IfOk, length, replicate, slice_index, slice_set};

use std::alloc::{AllocError, Global};
use std::marker::Model;

/// A row of numbers. Past its end all are 0, and nothing is written.
#[derive(Drop)]
pub struct Cells {
    numbers: Vec<u64>,
}

impl Model for Cells {
    ghost use Rattle.std.specs.Prelude.{List, ℕ};

    ghost Value = { List ℕ };

    ghost view = { λ c. c.numbers.items };
}

impl Cells {
    /// This many zeros.
    pub(crate) fn zeros(alloc: Global, count: usize) -> Result<Cells, AllocError>
        ensures { IfOk result (λ c. c ≡ replicate count 0) }
    {
        let numbers = vec![in alloc; 0; count]?;
        Ok(Cells { numbers })
    }

    /// How many numbers there are.
    pub fn len(&self) -> usize
        ensures { result ≡ length self.now }
    {
        self.numbers.len()
    }

    /// The number at a place.
    pub fn read(&self, place: usize) -> u64
        ensures { result ≡ slice_index self.now place }
    {
        match self.numbers.get(place) {
            Some(number) => *number,
            None => 0,
        }
    }

    /// The number at a place that there is.
    pub(crate) fn at(&self, place: u32) -> u64
        requires { place < length self.now }
        ensures { result ≡ slice_index self.now place }
    {
        self.numbers[place as usize]
    }

    /// Makes this the number at a place that there is.
    pub(crate) fn put(&mut self, place: u32, number: u64)
        requires { place < length self.old }
        ensures { self.new ≡ slice_set self.old place number }
    {
        self.numbers[place as usize] = number;
    }

    /// Makes this the number at a place.
    pub(crate) fn write(&mut self, place: usize, number: u64)
        ensures { self.new ≡ slice_set self.old place number }
    {
        if place < self.numbers.len() {
            self.numbers[place] = number;
        }
    }
}
