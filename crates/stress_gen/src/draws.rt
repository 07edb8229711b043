//! Numbers that are drawn.

ghost use Rattle.std.specs.Prelude.{◌≡◌, ◌<◌, ◌^◌, map, IfOk, OnOk};
ghost use Rattle.std.specs.List.{range_with_len};
ghost use Rattle.stress_gen.specs.Draws.{next, upper, after_draws, draw};

use std::alloc::{AllocError, Global};
use trace_read::Words;

/// What draws are made from: a linear congruential generator with the multiplier and the increment of Knuth's MMIX
/// (The Art of Computer Programming, volume 2, section 3.3.4).
#[derive(Drop)]
pub(crate) struct Draws {
    pub(crate) number: u64,
}

impl Draws {
    /// The draw that was made last: 31 bits.
    fn last(&self) -> u32
        ensures value { result ≡ upper self.now.number }
        ensures small { result < 2 ^ 31 }
    {
        (self.number >> 33) as u32
    }

    /// Makes a draw, 31 bits.
    pub(crate) fn draw(&mut self) -> u32
        ensures number { self.new.number ≡ next self.old.number }
        ensures value { result ≡ upper self.new.number }
        ensures small { result < 2 ^ 31 }
    {
        self.number = self
            .number
            .wrapping_mul(6364136223846793005)
            .wrapping_add(1442695040888963407);
        self.last()
    }

    /// So many words, with a draw for each.
    pub(crate) fn words(&mut self, alloc: Global, count: u32) -> Result<Words, AllocError>
        ensures words { IfOk result (λ words. words ≡ map (draw self.old.number) (range_with_len 0 count)) }
        ensures number { OnOk result (self.new.number ≡ after_draws self.old.number count) }
    {
        let mut words = Words::new(alloc);
        for _ in 0..count {
            words.push(self.draw())?;
        }
        Ok(words)
    }
}
