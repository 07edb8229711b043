//! Designs, leaves, items and expressions.

use sqlite_items::{Boxed, Items};
use surf_base::Seq;

/// A name, by its bytes.
pub type Name = Seq<u8>;

/// The ports of a module, in order.
pub type Ports = Seq<Port>;

/// The leaves of a design, in order.
pub type Leaves = Seq<Leaf>;

/// The items of a leaf, in order.
pub type LeafItems = Seq<LeafItem>;

/// The items of the top, in order.
pub type TopItems = Seq<TopItem>;

/// The joins of an instance, in order.
pub type Joins = Seq<Join>;

/// A constant: its width in bits and its value.
#[derive(Clone, Copy, Debug, PartialEq, Eq)]
pub struct Const {
    pub width: u32,
    pub value: u64,
}

/// An operator with two operands.
#[derive(Clone, Copy, Debug, PartialEq, Eq)]
pub enum Op {
    Add,
    Sub,
    And,
    Or,
    Xor,
    Equal,
    Less,
}

/// An expression.
#[derive(Drop)]
pub enum Expr {
    /// A port, wire or register.
    Net(Name),
    /// A constant.
    Number(Const),
    /// One bit of a net, 0 being the least.
    Bit(Name, u32),
    /// The bits of a net from the first number down to the second.
    Part(Name, u32, u32),
    /// The word of a memory at an index.
    Word(Name, Boxed<Expr>),
    /// The complement, bit by bit.
    Not(Boxed<Expr>),
    /// An operator between two operands.
    Two(Op, Boxed<Expr>, Boxed<Expr>),
    /// The second part where the first is 1, and else the third.
    If(Boxed<Expr>, Boxed<Expr>, Boxed<Expr>),
    /// A concatenation, the first part in the most significant bits.
    Cat(Items<Expr>),
}

/// A port of a module, of `high + 1` bits.
#[derive(Drop)]
pub struct Port {
    pub output: bool,
    pub high: u32,
    pub name: Name,
}

/// An item of a leaf. `high` is the number of the most significant bit, and `last` that of the last word.
#[derive(Drop)]
pub enum LeafItem {
    Wire {
        high: u32,
        name: Name,
    },
    Reg {
        high: u32,
        name: Name,
    },
    Mem {
        high: u32,
        name: Name,
        last: u32,
    },
    /// A net that has the value of an expression.
    Assign {
        name: Name,
        value: Expr,
    },
    /// A register that takes the value at each clock edge, and `reset` while `rst` is 1.
    Clocked {
        name: Name,
        reset: Const,
        value: Expr,
    },
    /// A memory that takes the value at the index at each clock edge at which `enable` is 1.
    Store {
        enable: Expr,
        name: Name,
        index: Expr,
        value: Expr,
    },
}

/// A module of nets, registers and memories.
#[derive(Drop)]
pub struct Leaf {
    pub name: Name,
    pub ports: Ports,
    pub items: LeafItems,
}

/// A port of a leaf and the net of the top that it is joined to.
#[derive(Drop)]
pub struct Join {
    pub port: Name,
    pub net: Name,
}

/// An item of the top.
#[derive(Drop)]
pub enum TopItem {
    Wire {
        high: u32,
        name: Name,
    },
    Instance {
        leaf: Name,
        name: Name,
        joins: Joins,
    },
}

/// The module `noc`, which joins instances of leaves.
#[derive(Drop)]
pub struct Top {
    pub ports: Ports,
    pub items: TopItems,
}

/// A whole design.
#[derive(Drop)]
pub struct Design {
    pub leaves: Leaves,
    pub top: Top,
}
