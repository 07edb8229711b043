//! The lines of a module: its heading, its ports and its items, which are numbered in this order.

ghost use Rattle.std.specs.Prelude.{◌≡◌, ◌<◌, Some, length, slice_get, option_map};
ghost use Rattle.vl_model.specs.Lines.{declared, way_of, leaf_lines, top_lines};
ghost use Rattle.vl_tree.specs.Read.{read_leaf};
ghost use Rattle.vl_rules.specs.Lines.{lines_of, line_of, shown};

use vl_model::Kind;
use vl_tree::{Leaf, LeafItem, Port, Top, TopItem};

/// A leaf or the top.
#[derive(Clone, Copy)]
pub enum Module<'a> {
    Leaf(&'a Leaf),
    Top(&'a Top),
}

/// A line of a module.
#[derive(Clone, Copy)]
pub enum Line<'a> {
    Heading(&'a [u8]),
    Port(&'a Port),
    Item(&'a LeafItem),
    Joint(&'a TopItem),
}

/// A name and what it is declared as. `last` is the number of a memory's last word.
#[derive(Clone, Copy)]
pub struct Declared<'a> {
    pub name: &'a [u8],
    pub kind: Kind,
    pub high: u32,
    pub last: u32,
}

/// How many lines a leaf has.
fn leaf_len(leaf: &Leaf) -> usize
    ensures { result ≡ length (leaf_lines (read_leaf leaf.now)) }
{
    1 + leaf.ports.as_slice().len() + leaf.items.as_slice().len()
}

/// How many lines the top has.
fn top_len(top: &Top) -> usize
    ensures { result ≡ length (top_lines top.now) }
{
    1 + top.ports.as_slice().len() + top.items.as_slice().len()
}

/// The line of this number of a leaf.
fn leaf_line<'a>(leaf: &'a Leaf, number: usize) -> Line<'a>
    requires { number < length (leaf_lines (read_leaf leaf.now)) }
    ensures { slice_get (leaf_lines (read_leaf leaf.now)) number ≡ Some (line_of result) }
{
    if number == 0 {
        return Line::Heading(leaf.name.as_slice());
    }
    let ports = leaf.ports.len();
    if number <= ports {
        return Line::Port(leaf.ports.at(number - 1));
    }
    Line::Item(leaf.items.at(number - 1 - ports))
}

/// The line of this number of the top.
fn top_line<'a>(top: &'a Top, number: usize) -> Line<'a>
    requires { number < length (top_lines top.now) }
    ensures { slice_get (top_lines top.now) number ≡ Some (line_of result) }
{
    if number == 0 {
        return Line::Heading(b"noc");
    }
    let ports = top.ports.len();
    if number <= ports {
        return Line::Port(top.ports.at(number - 1));
    }
    Line::Joint(top.items.at(number - 1 - ports))
}

impl<'a> Module<'a> {
    /// How many lines there are.
    pub fn len(&self) -> usize
        ensures { result ≡ length (lines_of self.now) }
    {
        match self {
            Module::Leaf(leaf) => leaf_len(leaf),
            Module::Top(top) => top_len(top),
        }
    }

    /// The line of this number.
    pub fn line(&self, number: usize) -> Line<'a>
        requires { number < length (lines_of self.now) }
        ensures { slice_get (lines_of self.now) number ≡ Some (line_of result) }
    {
        match self {
            Module::Leaf(leaf) => leaf_line(leaf, number),
            Module::Top(top) => top_line(top, number),
        }
    }
}

/// The way in which a port is declared.
fn way(output: bool) -> Kind
    ensures { result ≡ way_of output }
{
    if output { Kind::Output } else { Kind::Input }
}

/// A declaration of the name.
fn named<'a>(name: &'a [u8], kind: Kind, high: u32, last: u32) -> Option<Declared<'a>>
    ensures { option_map shown result ≡ Some (record { name = name.now; kind = kind; high = high; last = last }) }
{
    Some(Declared {
        name,
        kind,
        high,
        last,
    })
}

/// What the line declares in its module.
pub fn declared_by<'a>(line: &Line<'a>) -> Option<Declared<'a>>
    ensures { option_map shown result ≡ declared (line_of line.now) }
{
    match line {
        Line::Heading(_) => None,
        Line::Port(p) => named(p.name.as_slice(), way(p.output), p.high, 0),
        Line::Item(LeafItem::Wire { high, name }) => named(name.as_slice(), Kind::Inner, *high, 0),
        Line::Item(LeafItem::Reg { high, name }) => named(
            name.as_slice(),
            Kind::Register,
            *high,
            0,
        ),
        Line::Item(LeafItem::Mem { high, name, last }) => named(
            name.as_slice(),
            Kind::Memory,
            *high,
            *last,
        ),
        Line::Item(_) => None,
        Line::Joint(TopItem::Wire { high, name }) => named(name.as_slice(), Kind::Inner, *high, 0),
        Line::Joint(TopItem::Instance { name, .. }) => named(name.as_slice(), Kind::Child, 0, 0),
    }
}
