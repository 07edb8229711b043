//! The first fault of a description's tables.

ghost use Rattle.std.specs.Prelude.{◌≡◌};
ghost use Rattle.std.specs.List.{position_from};
ghost use Rattle.toml.specs.View.{items_view, table_view};
ghost use Rattle.noc_desc.specs.Keys.{keys, is_missing, is_misfit};
ghost use Rattle.noc_desc.specs.Values.{elements_at};
ghost use Rattle.noc_desc.specs.Faults.{top_kind, kind_number, unlisted_from, flawed_key, fault_at, place_fault, element_tables, tables, first_some, table_fault};

use crate::DescFault;
use crate::keys::{Key, Kind, is_listed, is_misfit, is_missing, keys};
use crate::values::{elements_at, number_at};
use toml::{Table, Value};

/// What may be wrong with a key.
#[derive(Clone, Copy)]
pub(crate) enum Flaw {
    /// The table has it, but it is not listed.
    Unknown,
    /// It has to be there, and is absent.
    Missing,
    /// Its value is of another form.
    Misfit,
}

/// The number of a kind of table.
fn kind_number(kind: Kind) -> u64
    ensures { result ≡ kind_number kind }
{
    match kind {
        Kind::Top | Kind::WeightedTop => 0,
        Kind::Domain => 1,
        Kind::Tile => 2,
        Kind::Range => 3,
    }
}

/// The kind of the whole document's table.
fn top_kind(table: &Table) -> Kind
    ensures { result ≡ top_kind (table_view table.now) }
{
    if number_at(table, Key::Version) == 2 {
        Kind::WeightedTop
    } else {
        Kind::Top
    }
}

/// The first of the table's own keys that is not listed.
fn unlisted(kind: Kind, table: &Table) -> Option<u64>
    ensures { result ≡ unlisted_from kind 0 (table_view table.now) }
{
    let mut number = 0;
    for (key, _value) in table.iter() {
        if !is_listed(kind, key.as_str()) {
            return Some(number);
        }
        number += 1;
    }
    None
}

/// The first key that has to be there and is absent.
fn missing(kind: Kind, table: &Table) -> Option<u64>
    ensures { result ≡ position_from (is_missing (table_view table.now)) 0 (keys kind) }
{
    for (number, key) in keys(kind).iter().enumerate() {
        if is_missing(table, *key) {
            return Some(number as u64);
        }
    }
    None
}

/// The first key whose value is of another form.
fn misfit(kind: Kind, table: &Table) -> Option<u64>
    ensures { result ≡ position_from (is_misfit (table_view table.now)) 0 (keys kind) }
{
    for (number, key) in keys(kind).iter().enumerate() {
        if is_misfit(table, *key) {
            return Some(number as u64);
        }
    }
    None
}

/// The least number of a key with the flaw.
fn flawed_key(flaw: Flaw, kind: Kind, table: &Table) -> Option<u64>
    ensures { result ≡ flawed_key flaw kind (table_view table.now) }
{
    match flaw {
        Flaw::Unknown => unlisted(kind, table),
        Flaw::Missing => missing(kind, table),
        Flaw::Misfit => misfit(kind, table),
    }
}

/// The fault that a flaw is at a place.
fn fault_at(flaw: Flaw, kind: u64, element: u64, key: u64) -> DescFault
    ensures { result ≡ fault_at flaw kind element key }
{
    match flaw {
        Flaw::Unknown => DescFault::KeyUnknown(kind, element, key),
        Flaw::Missing => DescFault::KeyMissing(kind, element, key),
        Flaw::Misfit => DescFault::KeyKind(kind, element, key),
    }
}

/// The first fault of one flaw in one table.
fn place_fault(flaw: Flaw, kind: Kind, element: u64, table: &Table) -> Option<DescFault>
    ensures { result ≡ place_fault flaw record { kind = kind; element = element; members = table_view table.now } }
{
    match flawed_key(flaw, kind, table) {
        Some(key) => Some(fault_at(flaw, kind_number(kind), element, key)),
        None => None,
    }
}

/// The first fault of one flaw in the elements of an array that are tables.
fn element_fault(flaw: Flaw, kind: Kind, items: &[Value]) -> Option<DescFault>
    ensures { result ≡ first_some (place_fault flaw) (element_tables kind 0 (items_view items.now)) }
{
    for (element, item) in items.iter().enumerate() {
        if let Some(table) = item.as_table() {
            if let Some(fault) = place_fault(flaw, kind, element as u64, table) {
                return Some(fault);
            }
        }
    }
    None
}

/// The first fault of one flaw.
#[tactic(auto, using(crate::proofs::First::first_some_append))]
fn flaw_fault(flaw: Flaw, table: &Table) -> Option<DescFault>
    ensures { result ≡ first_some (place_fault flaw) (tables (table_view table.now)) }
{
    if let Some(fault) = place_fault(flaw, top_kind(table), 0, table) {
        return Some(fault);
    }
    if let Some(fault) = element_fault(flaw, Kind::Domain, elements_at(table, Key::Domains)) {
        return Some(fault);
    }
    if let Some(fault) = element_fault(flaw, Kind::Tile, elements_at(table, Key::Tiles)) {
        return Some(fault);
    }
    element_fault(flaw, Kind::Range, elements_at(table, Key::Ranges))
}

/// The first fault of a description's tables.
pub(crate) fn table_fault(table: &Table) -> Option<DescFault>
    ensures { result ≡ table_fault (table_view table.now) }
{
    if let Some(fault) = flaw_fault(Flaw::Unknown, table) {
        return Some(fault);
    }
    if let Some(fault) = flaw_fault(Flaw::Missing, table) {
        return Some(fault);
    }
    flaw_fault(Flaw::Misfit, table)
}
