//! Lists of flits over one vector of nodes.

ghost use Rattle.std.specs.Prelude.{◌≡◌, ◌<◌, ◌≤◌, ◌*◌, ◌^◌, ℕ, [], ◌∷◌, ◌++◌, length, slice_set, slice_get, replicate, drop, OnOk, IfOk, IfErr, IfSome, IfNone};
ghost use Rattle.noc_model.specs.Limits.{most_buffer};
ghost use Rattle.flit_pool.specs.Lists.{list_at, most_lists};

use crate::steps::{
    Node, Queue, empty_queues, joined, left, link, node_at, put_flit, put_next, vacant_nodes,
};
use flit_word::Flit;
use std::alloc::{AllocError, Global};
use std::marker::Model;

/// Lists of flits, each no longer than a depth, over one vector of nodes.
#[derive(Drop)]
pub struct Pool {
    nodes: Vec<Node>,
    queues: Vec<Queue>,
    free: u32,
    depth: u32,
}

impl Model for Pool {
    ghost use Rattle.flit_pool.specs.Lists.{Lists};

    ghost Value = { Lists };

    ghost use Rattle.flit_pool.specs.Chains.{IsPool, lists_of};

    ghost view = { λ a. record { lists = lists_of a.nodes.items a.queues.items; depth = a.depth } };

    ghost invariant = { λ a. IsPool a.nodes.items a.queues.items a.free a.depth };
}

impl Pool {
    /// So many empty lists, at most 65,536, each with room for `depth` flits, at most 16. All memory is taken here.
    ///
    /// # Errors
    ///
    /// When memory runs out.
    pub fn new(alloc: Global, queues: u32, depth: u32) -> Result<Pool, AllocError>
        requires few { queues ≤ most_lists }
        requires shallow { depth ≤ most_buffer }
        ensures lists { IfOk result (λ pool. pool.lists ≡ replicate queues []) }
        ensures depth { IfOk result (λ pool. pool.depth ≡ depth) }
    {
        let nodes = vacant_nodes(alloc, queues * depth)?;
        let queues = empty_queues(alloc, queues)?;
        Ok(Pool {
            nodes,
            queues,
            free: 0,
            depth,
        })
    }

    /// How many flits the list has.
    pub fn len(&self, q: u32) -> u32
        requires { q < length self.now.lists }
        ensures { result ≡ length (list_at self.now q) }
    {
        self.queues[q as usize].len
    }

    /// The first flit of the list.
    pub fn front(&self, q: u32) -> Option<Flit>
        requires { q < length self.now.lists }
        ensures { result ≡ slice_get (list_at self.now q) 0 }
    {
        let queue = self.queues[q as usize];
        if queue.len == 0 {
            return None;
        }
        Some(node_at(&self.nodes, queue.first).flit)
    }

    /// Takes the first flit out of the list.
    pub fn pop(&mut self, q: u32) -> Option<Flit>
        requires { q < length self.old.lists }
        ensures value { result ≡ slice_get (list_at self.old q) 0 }
        ensures rest { self.new
            ≡ record self.old { lists = slice_set self.old.lists q (drop 1 (list_at self.old q)) } }
    {
        let queue = self.queues[q as usize];
        if queue.len == 0 {
            return None;
        }
        let i = queue.first;
        let node = node_at(&self.nodes, i);
        put_next(&mut self.nodes, i, self.free);
        self.queues[q as usize] = left(queue, node.next);
        self.free = i;
        Some(node.flit)
    }

    /// Adds a flit at the end of the list.
    ///
    /// # Errors
    ///
    /// The flit is given back, with all as before, exactly where the list is full.
    pub fn push(&mut self, q: u32, flit: Flit) -> Result<(), Flit>
        requires { q < length self.old.lists }
        ensures ok { OnOk result (self.new
            ≡ record self.old { lists = slice_set self.old.lists q (list_at self.old q ++ flit ∷ []) }) }
        ensures room { OnOk result (length (list_at self.old q) < self.old.depth) }
        ensures err { IfErr result (λ f. f ≡ flit) }
        ensures full { IfErr result (λ f. length (list_at self.old q) ≡ self.old.depth) }
        ensures same { IfErr result (λ f. self.new ≡ self.old) }
    {
        let queue = self.queues[q as usize];
        if queue.len == self.depth {
            return Err(flit);
        }
        let i = self.free;
        let node = node_at(&self.nodes, i);
        put_flit(&mut self.nodes, i, flit);
        link(&mut self.nodes, queue, i);
        self.queues[q as usize] = joined(queue, i);
        self.free = node.next;
        Ok(())
    }
}
