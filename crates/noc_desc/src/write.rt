//! A draft of version 2, written as a document.

ghost use Rattle.std.specs.Prelude.{◌≡◌, pos, true, All, Some, None, OnOk, IfOk};
ghost use Rattle.std.specs.Str.{is_utf8};
ghost use Rattle.toml.specs.Data.{integer, string};
ghost use Rattle.toml.specs.View.{view, table_view};
ghost use Rattle.noc_desc.specs.Draft.{table_of, draft_of, first_fault};
ghost use Rattle.noc_desc.specs.Document.{put, array_by, domain_data, tile_data, range_data, sizes_of, lists_of, document, AreTexts};

use crate::keys::{Key, name};
use crate::{Draft, DraftDomain, DraftRange, DraftTile};
use std::alloc::{AllocError, Global};
use surf_base::Bytes;
use toml::{Table, Value};

/// Puts a value at a key.
fn put(alloc: Global, table: &mut Table, key: Key, value: Value) -> Result<(), AllocError>
    ensures { OnOk result (table_view table.new ≡ put key (view value) (table_view table.old)) }
{
    let key = String::from_str(alloc, name(key))?;
    match table.insert(key, value) {
        Ok(_) => Ok(()),
        Err(_) => Err(AllocError),
    }
}

/// A string of these bytes.
fn text(alloc: Global, bytes: &[u8]) -> Result<Value, AllocError>
    requires { is_utf8 bytes.now ≡ true }
    ensures { IfOk result (λ v. view v ≡ string bytes.now) }
{
    match str::from_utf8(bytes) {
        Ok(text) => Value::string(alloc, text),
        Err(_) => unreachable!(),
    }
}

/// A number.
fn number(value: &i64) -> Value
    ensures { view result ≡ integer value.now }
{
    Value::from(*value)
}

/// An array of numbers.
fn numbers(alloc: Global, list: &[i64]) -> Result<Value, AllocError>
    ensures { IfOk result (λ v. view v ≡ array_by integer list.now) }
{
    let mut items = Vec::new(alloc);
    for element in list {
        items.push(number(element))?;
    }
    Ok(Value::Array(items))
}

/// An array of texts.
fn texts(alloc: Global, list: &[Bytes]) -> Result<Value, AllocError>
    requires { All (λ n. is_utf8 n ≡ true) list.now }
    ensures { IfOk result (λ v. view v ≡ array_by string list.now) }
{
    let mut items = Vec::new(alloc);
    for element in list {
        items.push(text(alloc, element.as_slice())?)?;
    }
    Ok(Value::Array(items))
}

/// The table of a domain.
fn domain(alloc: Global, domain: &DraftDomain) -> Result<Value, AllocError>
    requires { is_utf8 domain.now.name ≡ true }
    ensures { IfOk result (λ v. view v ≡ domain_data domain.now) }
{
    let mut table = Table::new(alloc);
    put(
        alloc,
        &mut table,
        Key::Channels,
        Value::Integer(domain.channels),
    )?;
    put(
        alloc,
        &mut table,
        Key::Name,
        text(alloc, domain.name.as_slice())?,
    )?;
    Ok(Value::Table(table))
}

/// The table of a tile.
fn tile(alloc: Global, tile: &DraftTile) -> Result<Value, AllocError>
    requires { All (λ n. is_utf8 n ≡ true) tile.now.domains }
    ensures { IfOk result (λ v. view v ≡ tile_data tile.now) }
{
    let mut table = Table::new(alloc);
    put(alloc, &mut table, Key::At, Value::Integer(tile.at))?;
    put(
        alloc,
        &mut table,
        Key::Hosts,
        texts(alloc, tile.domains.as_slice())?,
    )?;
    Ok(Value::Table(table))
}

/// The table of a range.
fn range(alloc: Global, range: &DraftRange) -> Result<Value, AllocError>
    ensures { IfOk result (λ v. view v ≡ range_data range.now) }
{
    let mut table = Table::new(alloc);
    put(alloc, &mut table, Key::First, Value::Integer(range.first))?;
    put(alloc, &mut table, Key::Last, Value::Integer(range.last))?;
    put(alloc, &mut table, Key::InTile, Value::Integer(range.tile))?;
    Ok(Value::Table(table))
}

/// The tables of domains.
fn domains(alloc: Global, list: &[DraftDomain]) -> Result<Value, AllocError>
    requires { All (λ x. is_utf8 x.name ≡ true) list.now }
    ensures { IfOk result (λ v. view v ≡ array_by domain_data list.now) }
{
    let mut items = Vec::new(alloc);
    for element in list {
        items.push(domain(alloc, element)?)?;
    }
    Ok(Value::Array(items))
}

/// The tables of tiles.
fn tiles(alloc: Global, list: &[DraftTile]) -> Result<Value, AllocError>
    requires { All (λ x. All (λ n. is_utf8 n ≡ true) x.domains) list.now }
    ensures { IfOk result (λ v. view v ≡ array_by tile_data list.now) }
{
    let mut items = Vec::new(alloc);
    for element in list {
        items.push(tile(alloc, element)?)?;
    }
    Ok(Value::Array(items))
}

/// The tables of ranges.
fn ranges(alloc: Global, list: &[DraftRange]) -> Result<Value, AllocError>
    ensures { IfOk result (λ v. view v ≡ array_by range_data list.now) }
{
    let mut items = Vec::new(alloc);
    for element in list {
        items.push(range(alloc, element)?)?;
    }
    Ok(Value::Array(items))
}

/// The table of what has one value or is a list of numbers.
fn sizes(alloc: Global, draft: &Draft) -> Result<Table, AllocError>
    requires { is_utf8 draft.now.shape ≡ true }
    ensures { IfOk result (λ t. table_view t ≡ sizes_of draft.now) }
{
    let mut table = Table::new(alloc);
    put(alloc, &mut table, Key::Buffer, Value::Integer(draft.buffer))?;
    put(alloc, &mut table, Key::Stages, Value::Integer(draft.stages))?;
    put(
        alloc,
        &mut table,
        Key::Dims,
        numbers(alloc, draft.dims.as_slice())?,
    )?;
    put(
        alloc,
        &mut table,
        Key::Shape,
        text(alloc, draft.shape.as_slice())?,
    )?;
    put(
        alloc,
        &mut table,
        Key::Version,
        Value::Integer(draft.version),
    )?;
    Ok(table)
}

/// Puts the lists.
fn put_lists(alloc: Global, table: &mut Table, draft: &Draft) -> Result<(), AllocError>
    requires { AreTexts draft.now }
    ensures { OnOk result (table_view table.new ≡ lists_of draft.now (table_view table.old)) }
{
    put(
        alloc,
        table,
        Key::Domains,
        domains(alloc, draft.domains.as_slice())?,
    )?;
    put(
        alloc,
        table,
        Key::Tiles,
        tiles(alloc, draft.tiles.as_slice())?,
    )?;
    put(
        alloc,
        table,
        Key::Ranges,
        ranges(alloc, draft.ranges.as_slice())?,
    )?;
    put(
        alloc,
        table,
        Key::Slots,
        texts(alloc, draft.slots.as_slice())?,
    )
}

/// Writes a draft of version 2 as a document, whose table has the draft's values and no others.
///
/// Its texts are UTF-8. The document is the printer's: keys in their order, and a table for each domain, tile and
/// range.
///
/// # Errors
///
/// When memory runs out.
pub fn write_draft(alloc: Global, draft: &Draft) -> Result<Vec<u8>, AllocError>
    requires { AreTexts draft.now }
    ensures table { IfOk result (λ bytes. table_of bytes.items ≡ Some (document draft.now)) }
    ensures no_fault { draft.now.version ≡ pos 2 → IfOk result (λ bytes. first_fault bytes.items ≡ None) }
    ensures reads_back { IfOk result (λ bytes. draft_of bytes.items ≡ Some draft.now) }
{
    let mut table = sizes(alloc, draft)?;
    put_lists(alloc, &mut table, draft)?;
    match toml::table_to_string(alloc, &table) {
        Ok(text) => Ok(text.into_bytes()),
        Err(_) => Err(AllocError),
    }
}
