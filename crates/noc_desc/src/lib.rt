//! Reads a description of a network: a TOML document with fixed keys.
//!
//! [`read_draft`] promises the values of the document's table, as they stand there, exactly where
//! each of its tables has the listed keys and no others, each with a value of the listed form.
//! Else it answers the first fault: by its number, then by kind of table, element and key; or
//! memory runs out. Whether a number or a name makes sense in a network is left to the crate that
//! checks drafts; its faults are variants of [`DescFault`] too, so that a description has one list
//! of them.
#![tactic(auto)]

ghost use Rattle.std.specs.Prelude.{◌≡◌, Some, None, IfOk, IfErr};
ghost use Rattle.toml.specs.View.{table_view};
ghost use Rattle.noc_desc.specs.Draft.{table_of, draft_of, first_fault, IsMemory};

mod faults;
mod keys;
mod lists;
#[cfg(test)]
mod tests;
mod values;
mod write;

pub use lists::{DraftDomains, DraftRanges, DraftTiles, Names, Nums};
use std::alloc::{AllocError, Global};
use surf_base::Bytes;
use thiserror::Error;
use toml::Table;
pub use write::write_draft;

/// What is wrong with a description, in the order of the faults' numbers, from 1. Indices count
/// from 0.
#[derive(Debug, Drop, Error)]
pub enum DescFault {
    /// The bytes are no TOML document in UTF-8.
    #[error("not a TOML document")]
    NotToml,
    /// A table has a key that is not listed: the kind of table, the element, and the key's number
    /// among that table's own keys in byte order.
    #[error("key {2} of table {1} of kind {0} is not listed")]
    KeyUnknown(u64, u64, u64),
    /// A required key is absent: the kind of table, the element, and the key's number.
    #[error("table {1} of kind {0} lacks key {2}")]
    KeyMissing(u64, u64, u64),
    /// A value is not of the listed form: the kind of table, the element, and the key's number.
    #[error("key {2} of table {1} of kind {0} has another form")]
    KeyKind(u64, u64, u64),
    /// The version is neither 1 nor 2.
    #[error("unknown version")]
    Version,
    /// The shape is neither `mesh` nor `torus`.
    #[error("unknown shape")]
    Shape,
    /// The number of sides, or a side, is out of range.
    #[error("sides out of range")]
    Dims,
    /// The number of registers of a link is out of range.
    #[error("stages out of range")]
    Stages,
    /// The size of a buffer is out of range.
    #[error("buffer out of range")]
    Buffer,
    /// The number of domains is out of range.
    #[error("number of domains out of range")]
    DomainCount,
    /// A domain's name is too long, empty, or has a byte that no name has.
    #[error("domain {0} has no good name")]
    DomainName(u64),
    /// Two domains have one name.
    #[error("domains {0} and {1} have one name")]
    DomainTwice(u64, u64),
    /// A domain's number of channels is out of range.
    #[error("channels of domain {0} out of range")]
    Channels(u64),
    /// A tile element names no tile.
    #[error("tile element {0} names no tile")]
    TileRange(u64),
    /// Two tile elements name one tile.
    #[error("tile elements {0} and {1} name one tile")]
    TileTwice(u64, u64),
    /// A name of a tile element is no domain's: the element and the name.
    #[error("name {1} of tile element {0} is no domain's")]
    HostUnknown(u64, u64),
    /// A name of a tile element stands there before: the element and the name.
    #[error("name {1} of tile element {0} stands twice")]
    HostTwice(u64, u64),
    /// A range names no tile, or there are too many ranges.
    #[error("range {0} names no tile, or is one too many")]
    RangeTile(u64),
    /// A range's addresses are out of order, or out of range.
    #[error("addresses of range {0} out of order or range")]
    RangeOrder(u64),
    /// Two ranges have an address in common.
    #[error("ranges {0} and {1} overlap")]
    RangeOverlap(u64, u64),
    /// There are too many buffer slots: their number.
    #[error("{0} places are too many")]
    PlacesMany(u64),
    /// There are too many attachments: their number.
    #[error("{0} attachments are too many")]
    AttachMany(u64),
    /// The number of slots is out of range.
    #[error("number of slots out of range")]
    SlotCount,
    /// A slot's name is no domain's.
    #[error("slot {0} is no domain's")]
    SlotUnknown(u64),
    /// A domain has no slot.
    #[error("domain {0} has no slot")]
    SlotMissing(u64),
    /// Memory ran out, which says nothing of the description.
    #[error("out of memory")]
    Memory(AllocError),
}

/// A domain as the description writes it.
#[derive(Drop)]
pub struct DraftDomain {
    /// Its name, in UTF-8.
    pub name: Bytes,
    /// How many virtual channels it has on each link.
    pub channels: i64,
}

/// A tile with attachments, as the description writes it.
#[derive(Drop)]
pub struct DraftTile {
    /// The tile's number.
    pub at: i64,
    /// The names of the domains that it hosts.
    pub domains: Names,
}

/// The addresses of a tile, as the description writes them.
#[derive(Drop)]
pub struct DraftRange {
    /// The tile's number.
    pub tile: i64,
    /// The first address.
    pub first: i64,
    /// The last address.
    pub last: i64,
}

/// The values of a description's table, as they stand there.
#[derive(Drop)]
pub struct Draft {
    /// The version of the format.
    pub version: i64,
    /// The word for the shape, in UTF-8.
    pub shape: Bytes,
    /// How many tiles each side has.
    pub dims: Nums,
    /// How many registers a link has.
    pub stages: i64,
    /// How many flits a virtual channel's buffer holds.
    pub buffer: i64,
    /// The domains, in order.
    pub domains: DraftDomains,
    /// The tiles with attachments, in order; none where the key is absent.
    pub tiles: DraftTiles,
    /// The address ranges, in order; none where the key is absent.
    pub ranges: DraftRanges,
    /// The name of each slot's owner, in order; none unless the version is 2.
    pub slots: Names,
}

/// The draft of a description.
///
/// # Errors
///
/// `NotToml`, `KeyUnknown`, `KeyMissing` or `KeyKind`, whichever is the description's first fault,
/// where it has one; `Memory` when memory runs out.
pub fn read_draft(alloc: Global, bytes: &[u8]) -> Result<Draft, DescFault>
    ensures ok { IfOk result (λ draft. draft_of bytes.now ≡ Some draft) }
    ensures no_fault { IfOk result (λ _. first_fault bytes.now ≡ None) }
    ensures fault { IfErr result (λ fault. ¬ IsMemory fault → first_fault bytes.now ≡ Some fault) }
{
    let table = table_of(alloc, bytes)?;
    if let Some(fault) = faults::table_fault(&table) {
        return Err(fault);
    }
    let draft = values::draft_at(alloc, &table).map_err(DescFault::Memory)?;
    Ok(draft)
}

/// The table of a TOML document.
fn table_of(alloc: Global, bytes: &[u8]) -> Result<Table, DescFault>
    ensures ok { IfOk result (λ table. table_of bytes.now ≡ Some (table_view table)) }
    ensures fault { IfErr result (λ fault. ¬ IsMemory fault → first_fault bytes.now ≡ Some fault) }
{
    match toml::table_from_slice(alloc, bytes) {
        Ok(table) => Ok(table),
        Err(error) => {
            if error.is_memory() {
                Err(DescFault::Memory(AllocError))
            } else {
                Err(DescFault::NotToml)
            }
        }
    }
}
