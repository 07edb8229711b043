//! The leaves of a design, found by name, with what each of them declares.

ghost use Rattle.std.specs.Prelude.{◌≡◌, ◌<◌, length, slice_get, take, IfOk, IfSome, Some, option_map};
ghost use Rattle.vl_tree.specs.Values.{Name};
ghost use Rattle.vl_tree.specs.Read.{read_leaf, read_leaves};
ghost use Rattle.vl_model.specs.Lines.{leaf_lines, leaf_named, port_named};
ghost use Rattle.vl_rules.specs.Names.{found};
ghost use Rattle.vl_rules.specs.Scope.{Declares};
ghost use Rattle.vl_rules.specs.Library.{IsLibrary, AreDeclared, shape_of, kind_shape, first_leaf};

use crate::lines::Module;
use crate::names::Names;
use crate::scope::{Entry, declarations, seen_before};
use std::alloc::{AllocError, Global};
use vl_model::Kind;
use vl_tree::Leaf;

/// Leaves, the number of the first one of each name, and what each declares.
#[derive(Drop)]
pub struct Library<'a> {
    pub leaves: &'a [Leaf],
    pub numbers: Names<usize>,
    pub declared: Vec<Names<Entry>>,
}

/// A leaf, with what it declares.
#[derive(Clone, Copy)]
pub struct Known<'a> {
    pub leaf: &'a Leaf,
    pub declared: &'a Names<Entry>,
}

/// The direction and the number of the highest bit of a port.
#[derive(Clone, Copy)]
pub struct Shape {
    pub output: bool,
    pub high: u32,
}

/// The number of the first leaf of each name.
fn numbers(alloc: Global, leaves: &[Leaf]) -> Result<Names<usize>, AllocError>
    ensures { IfOk result (λ t. (n : Name) → found t n ≡ first_leaf (read_leaves leaves.now) n) }
{
    let mut table = Names::new(alloc);
    for (number, leaf) in leaves.iter().enumerate() {
        table.put_first(alloc, leaf.name.as_slice(), number)?;
    }
    Ok(table)
}

/// What each leaf declares.
fn declared(alloc: Global, leaves: &[Leaf]) -> Result<Vec<Names<Entry>>, AllocError>
    ensures { IfOk result (λ v. AreDeclared leaves.now v.items) }
{
    let mut tables = Vec::new(alloc);
    for leaf in leaves {
        tables.push(declarations(alloc, &Module::Leaf(leaf))?)?;
    }
    Ok(tables)
}

impl<'a> Library<'a> {
    /// The library of these leaves.
    pub fn new(alloc: Global, leaves: &'a [Leaf]) -> Result<Library<'a>, AllocError>
        ensures same { IfOk result (λ b. b.leaves.now ≡ leaves.now) }
        ensures known { IfOk result IsLibrary }
    {
        let numbers = numbers(alloc, leaves)?;
        let declared = declared(alloc, leaves)?;
        Ok(Library {
            leaves,
            numbers,
            declared,
        })
    }

    /// The leaf of this number.
    pub fn known(&self, number: usize) -> Known<'_>
        requires library { IsLibrary self.now }
        requires within { number < length self.now.leaves.now }
        ensures leaf { slice_get self.now.leaves.now number ≡ Some result.leaf.now }
        ensures declared { Declares result.declared.now (leaf_lines (read_leaf result.leaf.now)) }
    {
        Known {
            leaf: &self.leaves[number],
            declared: &self.declared[number],
        }
    }

    /// The leaf of this name among the first `count` ones.
    pub fn leaf(&self, count: usize, name: &[u8]) -> Option<Known<'_>>
        requires { IsLibrary self.now }
        ensures leaf { option_map (λ k. read_leaf k.leaf.now) result
            ≡ leaf_named (take count (read_leaves self.now.leaves.now)) name.now }
        ensures declared { IfSome result (λ k. Declares k.declared.now (leaf_lines (read_leaf k.leaf.now))) }
    {
        match self.numbers.get(name) {
            Some(number) => {
                if number < count {
                    Some(self.known(number))
                } else {
                    None
                }
            }
            None => None,
        }
    }
}

/// The shape of the port of this name, if the leaf has one.
pub fn port(known: &Known, name: &[u8]) -> Option<Shape>
    requires { Declares known.now.declared.now (leaf_lines (read_leaf known.now.leaf.now)) }
    ensures { result ≡ option_map shape_of (port_named known.now.leaf.now.ports name.now) }
{
    let lines = Module::Leaf(known.leaf).len();
    match seen_before(known.declared, lines, name) {
        Some(entry) => port_shape(entry.kind, entry.high),
        None => None,
    }
}

/// The shape of what is declared as a port.
fn port_shape(kind: Kind, high: u32) -> Option<Shape>
    ensures { result ≡ kind_shape kind high }
{
    match kind {
        Kind::Input => Some(Shape {
            output: false,
            high,
        }),
        Kind::Output => Some(Shape { output: true, high }),
        _ => None,
    }
}
