//! A ring of numbers, linked both ways by index.

ghost use Rattle.std.specs.Prelude.{◌≡◌, ◌+◌, ◌<◌, ◌≤◌, ◌^◌, ℕ, true, false, [], ◌∷◌, ◌++◌, length, slice_set, slice_get, replicate, Some, IfOk};
ghost use Rattle.flit_pool.specs.Chains.{times};
ghost use Rattle.flit_pool.specs.Ring.{has, without, link_at, with_next, with_before};

use std::alloc::{AllocError, Global};
use std::marker::Model;

/// What comes after a number, and what comes before it.
#[derive(Clone, Copy)]
struct Link {
    next: u32,
    before: u32,
}

/// A list of numbers below a size, none of them twice, that are linked both ways by index.
#[derive(Drop)]
pub struct Ring {
    /// The link of each number, and behind them that of the place that closes the ring.
    links: Vec<Link>,
    size: u32,
    count: u32,
}

impl Model for Ring {
    ghost use Rattle.flit_pool.specs.Ring.{Numbers};

    ghost Value = { Numbers };

    ghost use Rattle.flit_pool.specs.Ring.{IsRing, members};

    ghost view = { λ a. record { items = members a.links.items a.size a.count; size = a.size } };

    ghost invariant = { λ a. IsRing a.links.items a.size a.count };
}

/// The link, copied.
fn link_at(links: &Vec<Link>, i: u32) -> Link
    requires { i < length links.now.items }
    ensures { result ≡ link_at links.now.items i }
{
    links[i as usize]
}

/// Links a number to the one that comes after it.
fn put_next(links: &mut Vec<Link>, i: u32, next: u32)
    requires { i < length links.old.items }
    ensures { links.new.items ≡ with_next links.old.items i next }
{
    let before = links[i as usize].before;
    links[i as usize] = Link { next, before };
}

/// Links a number to the one that comes before it.
fn put_before(links: &mut Vec<Link>, i: u32, before: u32)
    requires { i < length links.old.items }
    ensures { links.new.items ≡ with_before links.old.items i before }
{
    let next = links[i as usize].next;
    links[i as usize] = Link { next, before };
}

/// Puts a link.
fn put(links: &mut Vec<Link>, i: u32, link: Link)
    requires { i < length links.old.items }
    ensures { links.new.items ≡ slice_set links.old.items i link }
{
    links[i as usize] = link;
}

/// Links of a ring with nothing in it.
fn unlinked(alloc: Global, size: u32) -> Result<Vec<Link>, AllocError>
    requires { size + 1 < 2 ^ 32 }
    ensures { IfOk result (λ v. v.items ≡ replicate size (record { next = size + 1; before = size + 1 })
        ++ record { next = size; before = size } ∷ []) }
{
    let nowhere = Link {
        next: size + 1,
        before: size + 1,
    };
    let mut links = vec![in alloc; nowhere; size as usize]?;
    links.push(Link {
        next: size,
        before: size,
    })?;
    Ok(links)
}

impl Ring {
    /// A ring of numbers below `size`, with nothing in it. All memory is taken here.
    ///
    /// # Errors
    ///
    /// When memory runs out.
    pub fn new(alloc: Global, size: u32) -> Result<Ring, AllocError>
        requires { size + 1 < 2 ^ 32 }
        ensures { IfOk result (λ ring. ring ≡ record { items = []; size = size }) }
    {
        let links = unlinked(alloc, size)?;
        Ok(Ring {
            links,
            size,
            count: 0,
        })
    }

    /// Lets callers' proofs use that each number of the ring is below its size, and is in it once. It does nothing.
    pub fn known(&self)
        ensures below { (i : ℕ) → has self.now i ≡ true → i < self.now.size }
        ensures once { (i : ℕ) → times i self.now.items ≤ 1 }
    {
        let _ = &self.links;
    }

    /// Whether the number is in the ring.
    pub fn holds(&self, i: u32) -> bool
        requires { i < self.now.size }
        ensures { result ≡ has self.now i }
    {
        link_at(&self.links, i).next <= self.size
    }

    /// The first number: none exactly where the ring is empty.
    pub fn first(&self) -> Option<u32>
        ensures { result ≡ slice_get self.now.items 0 }
    {
        let next = link_at(&self.links, self.size).next;
        if next == self.size { None } else { Some(next) }
    }

    /// The number that comes after this one, which is in the ring: none exactly where it is the last.
    pub fn after(&self, i: u32) -> Option<u32>
        requires { has self.now i ≡ true }
        ensures { (k : ℕ) → slice_get self.now.items k ≡ Some i → result ≡ slice_get self.now.items (k + 1) }
    {
        let next = link_at(&self.links, i).next;
        if next == self.size { None } else { Some(next) }
    }

    /// Adds a number, which is not in the ring, at the end.
    pub fn join(&mut self, i: u32)
        requires below { i < self.old.size }
        requires absent { has self.old i ≡ false }
        ensures { self.new ≡ record self.old { items = self.old.items ++ i ∷ [] } }
    {
        let size = self.size;
        let last = link_at(&self.links, size).before;
        put_next(&mut self.links, last, i);
        put(
            &mut self.links,
            i,
            Link {
                next: size,
                before: last,
            },
        );
        put_before(&mut self.links, size, i);
        self.count += 1;
    }

    /// Takes a number, which is in the ring, out of it.
    pub fn leave(&mut self, i: u32)
        requires { has self.old i ≡ true }
        ensures { self.new ≡ record self.old { items = without self.old.items i } }
    {
        let link = link_at(&self.links, i);
        put_next(&mut self.links, link.before, link.next);
        put_before(&mut self.links, link.next, link.before);
        let nowhere = self.size + 1;
        put(
            &mut self.links,
            i,
            Link {
                next: nowhere,
                before: nowhere,
            },
        );
        self.count -= 1;
    }
}
