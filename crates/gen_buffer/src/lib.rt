//! A channel's buffer as text: a list of words in a memory.
//!
//! [`buffer`] adds a memory with a read pointer, a write pointer and a length to a leaf. The contract promises that
//! they are a list, empty at reset, of which a pop takes the front and to which a push adds a word, whatever the memory
//! first holds (Dally and Towles, section 17.1). Who pushes and pops, and that it is done only where there is room and
//! a front, is left to the router.
#![tactic(auto)]

ghost use Rattle.std.specs.Prelude.{◌≡◌, ◌≤◌, IfOk};
ghost use Rattle.vl_tree.specs.Read.{read_leaf};
ghost use Rattle.vl_model.specs.Laws.{with_items};
ghost use Rattle.gen_buffer.specs.Buffer.{buffer_items, IsBuffer};

mod items;
pub mod laws;
#[cfg(test)]
mod tests;

use gen_kit::LeafWork;
use std::alloc::{AllocError, Global};
use vl_tree::Name;

/// What a buffer is to be: the tag of its names, how many words it has room for, their width in bits, and the nets
/// that push, that have the pushed word, and that pop.
#[derive(Drop)]
pub struct BufferSpec {
    pub tag: u32,
    pub depth: u32,
    pub width: u32,
    pub push: Name,
    pub word: Name,
    pub pop: Name,
}

/// The nets of a buffer: its front, whether it is empty, and its length. Where it is empty, `front` may have any value.
#[derive(Drop)]
pub struct BufferNets {
    pub front: Name,
    pub empty: Name,
    pub length: Name,
}

/// Adds a buffer to a leaf.
///
/// # Errors
///
/// Memory ran out. What the leaf then has no clause says.
pub fn buffer(
    alloc: Global,
    work: &mut LeafWork,
    spec: &BufferSpec,
) -> Result<BufferNets, AllocError>
    requires some { 1 ≤ spec.now.depth }
    requires deep { spec.now.depth ≤ 16 }
    requires wide { 1 ≤ spec.now.width }
    requires word { spec.now.width ≤ 64 }
    ensures items { IfOk result
        (λ nets. read_leaf work.new.leaf ≡ with_items (read_leaf work.old.leaf) (buffer_items spec.now)) }
    ensures list { IfOk result (λ nets. IsBuffer (read_leaf work.new.leaf).items spec.now nets) }
{
    let nets = items::shown(alloc, spec)?;
    items::push_items(alloc, work, spec, &nets)?;
    Ok(nets)
}
