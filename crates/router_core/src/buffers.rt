//! The input buffers of a tile.

ghost use Rattle.std.specs.Prelude.{◌≡◌, ◌<◌, ◌++◌, ◌∷◌, [], length, drop, slice_get, IfOk};
ghost use Rattle.router_core.specs.Buffers.{lists_at, flits_at, with_flits, empty_buffers};

use flit_pool::Pool;
use flit_word::Flit;
use noc_model::Plan;
use std::alloc::{AllocError, Global};
use std::marker::Model;

/// The flits of each domain at the inputs of a tile, by place.
#[derive(Drop)]
pub(crate) struct Buffers {
    pools: Vec<Pool>,
}

impl Model for Buffers {
    ghost use Rattle.std.specs.Prelude.{List};
    ghost use Rattle.flit_pool.specs.Lists.{Lists};

    ghost Value = { List Lists };

    ghost view = { λ a. a.pools.items };
}

impl Buffers {
    /// The buffers of a tile, with nothing in them. All memory is taken here.
    pub(crate) fn new(alloc: Global, plan: &Plan) -> Result<Buffers, AllocError>
        ensures { IfOk result (λ buffers. buffers ≡ empty_buffers plan.now) }
    {
        plan.known();
        let mut pools = Vec::with_capacity(alloc, plan.domains() as usize)?;
        for d in 0..plan.domains() {
            let inputs = plan.ports() * plan.link_channels(d);
            let pool = Pool::new(alloc, inputs, plan.buffer())?;
            pools.push(pool)?;
        }
        Ok(Buffers { pools })
    }

    /// How many flits of domain `d` the input at a place has.
    pub(crate) fn len(&self, d: u32, place: u32) -> u32
        requires domain { d < length self.now }
        requires place { place < length (lists_at self.now d).lists }
        ensures { result ≡ length (flits_at self.now d place) }
    {
        self.pools[d as usize].len(place)
    }

    /// The first of them.
    pub(crate) fn front(&self, d: u32, place: u32) -> Option<Flit>
        requires domain { d < length self.now }
        requires place { place < length (lists_at self.now d).lists }
        ensures { result ≡ slice_get (flits_at self.now d place) 0 }
    {
        self.pools[d as usize].front(place)
    }

    /// Adds a flit behind them. There is room for it.
    pub(crate) fn push(&mut self, d: u32, place: u32, flit: Flit)
        requires domain { d < length self.old }
        requires place { place < length (lists_at self.old d).lists }
        requires room { length (flits_at self.old d place) < (lists_at self.old d).depth }
        ensures { self.new ≡ with_flits self.old d place (flits_at self.old d place ++ flit ∷ []) }
    {
        let _ = self.pools[d as usize].push(place, flit);
    }

    /// Takes the first of them out.
    pub(crate) fn pop(&mut self, d: u32, place: u32) -> Option<Flit>
        requires domain { d < length self.old }
        requires place { place < length (lists_at self.old d).lists }
        ensures value { result ≡ slice_get (flits_at self.old d place) 0 }
        ensures rest { self.new ≡ with_flits self.old d place (drop 1 (flits_at self.old d place)) }
    {
        self.pools[d as usize].pop(place)
    }
}
