//! The values of a table, each read as what a description has there.

ghost use Rattle.std.specs.Prelude.{◌≡◌, IfOk};
ghost use Rattle.toml.specs.View.{items_view, table_view};
ghost use Rattle.noc_desc.specs.Values.{number_at, text_at, elements_at, numbers, texts, domain, domains, tile, tiles, range, ranges, draft_at};

use crate::keys::{Key, value_at};
use crate::{
    Draft, DraftDomain, DraftDomains, DraftRange, DraftRanges, DraftTile, DraftTiles, Names, Nums,
};
use std::alloc::{AllocError, Global};
use surf_base::Bytes;
use toml::{Table, Value};

/// The integer at a key, or 0.
pub(crate) fn number_at(table: &Table, key: Key) -> i64
    ensures { result ≡ number_at key (table_view table.now) }
{
    match value_at(table, key) {
        Some(value) => match value.as_integer() {
            Some(number) => number,
            None => 0,
        },
        None => 0,
    }
}

/// The string at a key, or no bytes.
fn text_at(alloc: Global, table: &Table, key: Key) -> Result<Bytes, AllocError>
    ensures { IfOk result (λ text. text ≡ text_at key (table_view table.now)) }
{
    match value_at(table, key) {
        Some(value) => match value.as_str() {
            Some(text) => Bytes::from_slice(alloc, text.as_bytes()),
            None => Ok(Bytes::new(alloc)),
        },
        None => Ok(Bytes::new(alloc)),
    }
}

/// The elements of the array at a key, or none.
pub(crate) fn elements_at(table: &Table, key: Key) -> &[Value]
    ensures { items_view result.now ≡ elements_at key (table_view table.now) }
{
    match value_at(table, key) {
        Some(value) => match value.as_array() {
            Some(array) => array.as_slice(),
            None => &[],
        },
        None => &[],
    }
}

/// The integers among some elements.
fn numbers(alloc: Global, items: &[Value]) -> Result<Nums, AllocError>
    ensures { IfOk result (λ found. found ≡ numbers (items_view items.now)) }
{
    let mut found = Nums::new(alloc);
    for item in items {
        if let Some(number) = item.as_integer() {
            found.push(number)?;
        }
    }
    Ok(found)
}

/// The strings among some elements.
fn texts(alloc: Global, items: &[Value]) -> Result<Names, AllocError>
    ensures { IfOk result (λ found. found ≡ texts (items_view items.now)) }
{
    let mut found = Names::new(alloc);
    for item in items {
        if let Some(text) = item.as_str() {
            found.push(Bytes::from_slice(alloc, text.as_bytes())?)?;
        }
    }
    Ok(found)
}

/// The domain that a table writes.
fn domain(alloc: Global, table: &Table) -> Result<DraftDomain, AllocError>
    ensures { IfOk result (λ found. found ≡ domain (table_view table.now)) }
{
    let name = text_at(alloc, table, Key::Name)?;
    Ok(DraftDomain {
        name,
        channels: number_at(table, Key::Channels),
    })
}

/// The tile that a table writes.
fn tile(alloc: Global, table: &Table) -> Result<DraftTile, AllocError>
    ensures { IfOk result (λ found. found ≡ tile (table_view table.now)) }
{
    let domains = texts(alloc, elements_at(table, Key::Hosts))?;
    Ok(DraftTile {
        at: number_at(table, Key::At),
        domains,
    })
}

/// The range that a table writes.
fn range(table: &Table) -> DraftRange
    ensures { result ≡ range (table_view table.now) }
{
    DraftRange {
        tile: number_at(table, Key::InTile),
        first: number_at(table, Key::First),
        last: number_at(table, Key::Last),
    }
}

/// The domains among some elements.
fn domains(alloc: Global, items: &[Value]) -> Result<DraftDomains, AllocError>
    ensures { IfOk result (λ found. found ≡ domains (items_view items.now)) }
{
    let mut found = DraftDomains::new(alloc);
    for item in items {
        if let Some(table) = item.as_table() {
            found.push(domain(alloc, table)?)?;
        }
    }
    Ok(found)
}

/// The tiles among some elements.
fn tiles(alloc: Global, items: &[Value]) -> Result<DraftTiles, AllocError>
    ensures { IfOk result (λ found. found ≡ tiles (items_view items.now)) }
{
    let mut found = DraftTiles::new(alloc);
    for item in items {
        if let Some(table) = item.as_table() {
            found.push(tile(alloc, table)?)?;
        }
    }
    Ok(found)
}

/// The ranges among some elements.
fn ranges(alloc: Global, items: &[Value]) -> Result<DraftRanges, AllocError>
    ensures { IfOk result (λ found. found ≡ ranges (items_view items.now)) }
{
    let mut found = DraftRanges::new(alloc);
    for item in items {
        if let Some(table) = item.as_table() {
            found.push(range(table))?;
        }
    }
    Ok(found)
}

/// The values of a description's table.
pub(crate) fn draft_at(alloc: Global, table: &Table) -> Result<Draft, AllocError>
    ensures { IfOk result (λ draft. draft ≡ draft_at (table_view table.now)) }
{
    let shape = text_at(alloc, table, Key::Shape)?;
    let dims = numbers(alloc, elements_at(table, Key::Dims))?;
    let domains = domains(alloc, elements_at(table, Key::Domains))?;
    let tiles = tiles(alloc, elements_at(table, Key::Tiles))?;
    let ranges = ranges(alloc, elements_at(table, Key::Ranges))?;
    let slots = texts(alloc, elements_at(table, Key::Slots))?;
    Ok(Draft {
        version: number_at(table, Key::Version),
        shape,
        dims,
        stages: number_at(table, Key::Stages),
        buffer: number_at(table, Key::Buffer),
        domains,
        tiles,
        ranges,
        slots,
    })
}
