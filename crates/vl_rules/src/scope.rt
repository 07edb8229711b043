//! What is known of the names of a module, in tables by name.

ghost use Rattle.std.specs.Prelude.{◌≡◌, IfOk, OnOk, Some, None, option_map, if◌then◌else◌};
ghost use Rattle.std.specs.Option.{option_or};
ghost use Rattle.vl_tree.specs.Values.{Name};
ghost use Rattle.vl_model.specs.Lines.{declared, net_bits, word_bits, word_count, kind_passes};
ghost use Rattle.vl_model.specs.Rules.{assigns};
ghost use Rattle.vl_rules.specs.Names.{found};
ghost use Rattle.vl_rules.specs.Lines.{lines_of, line_of};
ghost use Rattle.vl_rules.specs.Scope.{declared_as, role_passes, entry_at, seen, Declares, assigned_before, Assigns};

use crate::lines::{Line, Module, declared_by};
use crate::names::Names;
use std::alloc::{AllocError, Global};
use vl_model::Kind;
use vl_tree::LeafItem;

/// What a name is declared as first, and the number of the line.
#[derive(Clone, Copy)]
pub struct Entry {
    pub line: usize,
    pub kind: Kind,
    pub high: u32,
    pub last: u32,
}

/// What the name is declared as before the line of this number.
pub fn seen_before(table: &Names<Entry>, number: usize, name: &[u8]) -> Option<Entry>
    ensures { option_map (declared_as name.now) result ≡ seen table.now number name.now }
{
    match table.get(name) {
        Some(entry) => {
            if entry.line < number {
                Some(entry)
            } else {
                None
            }
        }
        None => None,
    }
}

/// Adds what the line declares, unless an earlier line declares the name.
fn note(
    alloc: Global,
    table: &mut Names<Entry>,
    number: usize,
    line: &Line,
) -> Result<(), AllocError>
    ensures { OnOk result ((n : Name) → found table.new n
        ≡ option_or (found table.old n) (entry_at number (declared (line_of line.now)) n)) }
{
    if let Some(x) = declared_by(line) {
        let entry = Entry {
            line: number,
            kind: x.kind,
            high: x.high,
            last: x.last,
        };
        table.put_first(alloc, x.name, entry)?;
    }
    Ok(())
}

/// What each name of the module is declared as.
pub fn declarations(alloc: Global, subject: &Module) -> Result<Names<Entry>, AllocError>
    ensures { IfOk result (λ t. Declares t (lines_of subject.now)) }
{
    let mut table = Names::new(alloc);
    for number in 0..subject.len() {
        let line = subject.line(number);
        note(alloc, &mut table, number, &line)?;
    }
    Ok(table)
}

/// Adds the line, if it is the first that assigns a name.
fn note_assign(
    alloc: Global,
    table: &mut Names<usize>,
    number: usize,
    line: &Line,
) -> Result<(), AllocError>
    ensures { OnOk result ((n : Name) → found table.new n
        ≡ option_or (found table.old n) (if assigns n (line_of line.now) then Some number else None)) }
{
    if let Line::Item(LeafItem::Assign { name, .. }) = line {
        table.put_first(alloc, name.as_slice(), number)?;
    }
    Ok(())
}

/// The line that assigns each name first.
pub fn assignments(alloc: Global, subject: &Module) -> Result<Names<usize>, AllocError>
    ensures { IfOk result (λ t. Assigns t (lines_of subject.now)) }
{
    let mut table = Names::new(alloc);
    for number in 0..subject.len() {
        let line = subject.line(number);
        note_assign(alloc, &mut table, number, &line)?;
    }
    Ok(table)
}

/// What a name has to be declared as.
#[derive(Clone, Copy)]
pub enum Role {
    /// A port, a wire or a register.
    Net,
    /// A wire or an output port.
    Driven,
    Register,
    Memory,
}

/// Whether a name of this kind can have the role.
fn plays(kind: Kind, role: Role) -> bool
    ensures { result ≡ role_passes role kind }
{
    match role {
        Role::Net => match kind {
            Kind::Memory | Kind::Child => false,
            _ => true,
        },
        Role::Driven => match kind {
            Kind::Output | Kind::Inner => true,
            _ => false,
        },
        Role::Register => match kind {
            Kind::Register => true,
            _ => false,
        },
        Role::Memory => match kind {
            Kind::Memory => true,
            _ => false,
        },
    }
}

/// Whether the name is declared before the line of this number, in the role.
pub fn is_role(table: &Names<Entry>, number: usize, name: &[u8], role: Role) -> bool
    ensures { result ≡ kind_passes (role_passes role) (seen table.now number name.now) }
{
    match seen_before(table, number, name) {
        Some(entry) => plays(entry.kind, role),
        None => false,
    }
}

/// How wide the net is, by what is declared before the line of this number: 0 where there is none.
pub fn net_width(table: &Names<Entry>, number: usize, name: &[u8]) -> u64
    ensures { result ≡ net_bits (seen table.now number name.now) }
{
    match seen_before(table, number, name) {
        Some(entry) => {
            if plays(entry.kind, Role::Net) {
                entry.high as u64 + 1
            } else {
                0
            }
        }
        None => 0,
    }
}

/// How wide the memory's words are: 0 where there is none.
pub fn word_width(table: &Names<Entry>, number: usize, name: &[u8]) -> u64
    ensures { result ≡ word_bits (seen table.now number name.now) }
{
    match seen_before(table, number, name) {
        Some(entry) => {
            if plays(entry.kind, Role::Memory) {
                entry.high as u64 + 1
            } else {
                0
            }
        }
        None => 0,
    }
}

/// How many words the memory has: 0 where nothing is declared.
pub fn words(table: &Names<Entry>, number: usize, name: &[u8]) -> u64
    ensures { result ≡ word_count (seen table.now number name.now) }
{
    match seen_before(table, number, name) {
        Some(entry) => entry.last as u64 + 1,
        None => 0,
    }
}

/// Whether a line before that of this number assigns the name.
pub fn was_assigned(table: &Names<usize>, number: usize, name: &[u8]) -> bool
    ensures { result ≡ assigned_before table.now number name.now }
{
    match table.get(name) {
        Some(line) => line < number,
        None => false,
    }
}
