//! Which row has the words of a memory, by the numbers of its instance and of the memory.

ghost use Rattle.std.specs.Prelude.{◌≡◌, ◌≤◌, Some, None, IfSome, IfNone, slice_get, length};
ghost use Rattle.vl_tree.specs.Values.{Name, Leaf as LeafValue};
ghost use Rattle.vl_tree.specs.Read.{read_leaf, read_leaves, read_items};
ghost use Rattle.vl_model.specs.Lines.{leaf_named};
ghost use Rattle.vl_run.specs.Put.{instances, memory_place, memory_line};

use vl_tree::{Design, Leaf, LeafItem, TopItem};

/// The name of the leaf of the instance of this number.
fn leaf_name(items: &[TopItem], instance: u32) -> Option<&[u8]>
    ensures some { IfSome result (λ n. (u : Name × Name) → slice_get (instances items.now) instance ≡ Some u
        → u.0 ≡ n.now) }
    ensures none { IfNone result (slice_get (instances items.now) instance ≡ None) }
{
    let mut left = instance;
    for item in items {
        if let TopItem::Instance { leaf, .. } = item {
            if left == 0 {
                return Some(leaf.as_slice());
            }
            left -= 1;
        }
    }
    None
}

/// The leaf of this name.
fn leaf_named<'a>(leaves: &'a [Leaf], name: &[u8]) -> Option<&'a Leaf>
    ensures some { IfSome result (λ l. leaf_named (read_leaves leaves.now) name.now ≡ Some (read_leaf l.now)) }
    ensures none { IfNone result (leaf_named (read_leaves leaves.now) name.now ≡ None) }
{
    for leaf in leaves {
        if name == leaf.name.as_slice() {
            return Some(leaf);
        }
    }
    None
}

/// The place of the memory of this number among the items.
fn memory_place(items: &[LeafItem], mem: u32) -> usize
    ensures value { result ≡ memory_place (read_items items.now) mem }
    ensures within { result ≤ length items.now }
{
    let mut left = mem;
    for (i, item) in items.iter().enumerate() {
        if let LeafItem::Mem { .. } = item {
            if left == 0 {
                return i;
            }
            left -= 1;
        }
    }
    items.len()
}

/// The line of the leaf that declares the memory of this number, for the instance of this number; 0 where there is
/// none.
pub(crate) fn memory_line(design: &Design, instance: u32, mem: u32) -> usize
    ensures { (u : Name × Name) (l : LeafValue) → slice_get (instances design.now.top.items) instance ≡ Some u
        → leaf_named (read_leaves design.now.leaves) u.0 ≡ Some l → result ≡ memory_line l mem }
{
    let Some(name) = leaf_name(design.top.items.as_slice(), instance) else {
        return 0;
    };
    let Some(leaf) = leaf_named(design.leaves.as_slice(), name) else {
        return 0;
    };
    1 + leaf.ports.as_slice().len() + memory_place(leaf.items.as_slice(), mem)
}
