//! A leaf that is being written, and its names.

ghost use Rattle.std.specs.Prelude.{◌≡◌, ◌++◌, ◌∷◌, [], decimal, OnOk, OnErr, IfOk};
ghost use Rattle.vl_tree.specs.Read.{read, read_item, read_leaf};
ghost use Rattle.vl_model.specs.Laws.{with_items};
ghost use Rattle.gen_kit.specs.Families.{defined};
ghost use Rattle.gen_kit.specs.Ports.{name_with};
ghost use Rattle.gen_kit.specs.Work.{empty_leaf, with_port, with_item};

use std::alloc::{AllocError, Global};
use surf_base::{Seq, decimal};
use vl_tree::{Expr, Leaf, LeafItem, Name, Port};

fn push_bytes(name: &mut Name, bytes: &[u8]) -> Result<(), AllocError>
    ensures { OnOk result (name.new ≡ name.old ++ bytes.now) }
{
    for byte in bytes {
        name.push(*byte)?;
    }
    Ok(())
}

pub(crate) fn push_digits(name: &mut Name, number: u32) -> Result<(), AllocError>
    ensures { OnOk result (name.new ≡ name.old ++ decimal number) }
{
    let mut digits = [0; 20];
    let count = decimal(number as u64, &mut digits);
    push_bytes(name, &digits[..count])
}

fn push_number(name: &mut Name, number: u32) -> Result<(), AllocError>
    ensures { OnOk result (name.new ≡ name.old ++ (95 ∷ decimal number)) }
{
    name.push(b'_')?;
    push_digits(name, number)
}

/// The name that begins with `head` and goes on, for each of the numbers, with an underscore and its decimal digits.
///
/// # Errors
///
/// Memory ran out.
pub fn name_of(alloc: Global, head: &[u8], numbers: &[u32]) -> Result<Name, AllocError>
    ensures { IfOk result (λ n. n ≡ name_with head.now numbers.now) }
{
    let mut name = Seq::from_slice(alloc, head)?;
    for number in numbers {
        push_number(&mut name, *number)?;
    }
    Ok(name)
}

/// A leaf that is being written.
#[derive(Drop)]
pub struct LeafWork {
    /// The leaf so far.
    pub leaf: Leaf,
}

impl LeafWork {
    /// The leaf of the tile, with no port and no item yet.
    ///
    /// # Errors
    ///
    /// Memory ran out.
    pub fn new(alloc: Global, tile: u32) -> Result<LeafWork, AllocError>
        ensures { IfOk result (λ work. read_leaf work.leaf ≡ empty_leaf tile) }
    {
        Ok(LeafWork {
            leaf: Leaf {
                name: name_of(alloc, b"router", &[tile])?,
                ports: Seq::new(alloc),
                items: Seq::new(alloc),
            },
        })
    }

    /// Adds a port behind the others. The leaf stays as it was when memory runs out.
    ///
    /// # Errors
    ///
    /// Memory ran out.
    pub fn push_port(&mut self, port: Port) -> Result<(), AllocError>
        ensures ok { OnOk result (read_leaf self.new.leaf ≡ with_port (read_leaf self.old.leaf) port) }
        ensures err { OnErr result (read_leaf self.new.leaf ≡ read_leaf self.old.leaf) }
    {
        self.leaf.ports.push(port)
    }

    /// Adds an item behind the others. The leaf stays as it was when memory runs out.
    ///
    /// # Errors
    ///
    /// Memory ran out.
    pub fn push_item(&mut self, item: LeafItem) -> Result<(), AllocError>
        ensures ok { OnOk result (read_leaf self.new.leaf ≡ with_item (read_leaf self.old.leaf) (read_item item)) }
        ensures err { OnErr result (read_leaf self.new.leaf ≡ read_leaf self.old.leaf) }
    {
        self.leaf.items.push(item)
    }

    /// Adds a wire of `high + 1` bits and what it is assigned.
    ///
    /// # Errors
    ///
    /// Memory ran out.
    pub fn define(
        &mut self,
        alloc: Global,
        high: u32,
        name: &Name,
        value: Expr,
    ) -> Result<(), AllocError>
        ensures { OnOk result (read_leaf self.new.leaf
            ≡ with_items (read_leaf self.old.leaf) (defined high name.now (read value))) }
    {
        self.push_item(LeafItem::Wire {
            high,
            name: name.copy(alloc)?,
        })?;
        self.push_item(LeafItem::Assign {
            name: name.copy(alloc)?,
            value,
        })
    }

    /// The leaf.
    pub fn finish(self) -> Leaf
        ensures { read_leaf result ≡ read_leaf self.leaf }
    {
        self.leaf
    }
}
