//! The keys that a description's tables have, and what a key's value is.

ghost use Rattle.std.specs.Prelude.{◌≡◌, option_map};
ghost use Rattle.toml.specs.View.{view, items_view, table_view};
ghost use Rattle.noc_desc.specs.Keys.{keys, name, form_of, is_required, is_listed, value_at, fits_element, all_fit, fits, is_missing, is_misfit};

use toml::{Table, Value};

/// Which table of a description.
#[derive(Clone, Copy)]
pub(crate) enum Kind {
    /// The table of the whole document, whose version is not 2.
    Top,
    /// The table of the whole document, of version 2, which lists the owner of each slot.
    WeightedTop,
    /// An element of the key `domain`.
    Domain,
    /// An element of the key `tile`.
    Tile,
    /// An element of the key `range`.
    Range,
}

/// A key of one kind of table.
#[derive(Clone, Copy)]
pub(crate) enum Key {
    /// Of the whole: the version of the format.
    Version,
    /// Of the whole: the word for the shape.
    Shape,
    /// Of the whole: how many tiles each side has.
    Dims,
    /// Of the whole: how many registers a link has.
    Stages,
    /// Of the whole: how many flits a virtual channel's buffer holds.
    Buffer,
    /// Of the whole: the domains.
    Domains,
    /// Of the whole: the tiles with attachments.
    Tiles,
    /// Of the whole: the address ranges.
    Ranges,
    /// Of the whole, in version 2: the owner of each slot.
    Slots,
    /// Of a domain: its name.
    Name,
    /// Of a domain: its virtual channels.
    Channels,
    /// Of a tile: its number.
    At,
    /// Of a tile: the domains that it hosts.
    Hosts,
    /// Of a range: the number of its tile.
    InTile,
    /// Of a range: the first address.
    First,
    /// Of a range: the last address.
    Last,
}

/// What stands alone or as an element of an array.
#[derive(Clone, Copy)]
pub(crate) enum Element {
    /// An integer.
    Integer,
    /// A string.
    Text,
    /// A table.
    Table,
}

/// What the value of a key is.
#[derive(Clone, Copy)]
pub(crate) enum Form {
    /// One of these.
    One(Element),
    /// An array of these.
    Array(Element),
}

/// The keys of a table of this kind, by number.
pub(crate) fn keys(kind: Kind) -> &'static [Key]
    ensures { result.now ≡ keys kind }
{
    match kind {
        Kind::Top => &[
            Key::Version,
            Key::Shape,
            Key::Dims,
            Key::Stages,
            Key::Buffer,
            Key::Domains,
            Key::Tiles,
            Key::Ranges,
        ],
        Kind::WeightedTop => &[
            Key::Version,
            Key::Shape,
            Key::Dims,
            Key::Stages,
            Key::Buffer,
            Key::Domains,
            Key::Tiles,
            Key::Ranges,
            Key::Slots,
        ],
        Kind::Domain => &[Key::Name, Key::Channels],
        Kind::Tile => &[Key::At, Key::Hosts],
        Kind::Range => &[Key::InTile, Key::First, Key::Last],
    }
}

/// How the key is written.
pub(crate) fn name(key: Key) -> &'static str
    ensures { result.now ≡ name key }
{
    match key {
        Key::Version => "version",
        Key::Shape => "shape",
        Key::Dims => "dims",
        Key::Stages => "stages",
        Key::Buffer => "buffer",
        Key::Domains => "domain",
        Key::Tiles => "tile",
        Key::Ranges => "range",
        Key::Slots => "slots",
        Key::Name => "name",
        Key::Channels => "channels",
        Key::At => "at",
        Key::Hosts => "domains",
        Key::InTile => "tile",
        Key::First => "first",
        Key::Last => "last",
    }
}

/// What the key's value is.
fn form_of(key: Key) -> Form
    ensures { result ≡ form_of key }
{
    match key {
        Key::Version | Key::Stages | Key::Buffer => Form::One(Element::Integer),
        Key::Channels | Key::At => Form::One(Element::Integer),
        Key::InTile | Key::First | Key::Last => Form::One(Element::Integer),
        Key::Shape | Key::Name => Form::One(Element::Text),
        Key::Dims => Form::Array(Element::Integer),
        Key::Hosts | Key::Slots => Form::Array(Element::Text),
        Key::Domains | Key::Tiles | Key::Ranges => Form::Array(Element::Table),
    }
}

/// Whether the key has to be there.
fn is_required(key: Key) -> bool
    ensures { result ≡ is_required key }
{
    match key {
        Key::Tiles | Key::Ranges => false,
        _ => true,
    }
}

/// Whether a table of this kind has a key that is written so.
pub(crate) fn is_listed(kind: Kind, written: &str) -> bool
    ensures { result ≡ is_listed kind written.now }
{
    for key in keys(kind) {
        if written == name(*key) {
            return true;
        }
    }
    false
}

/// The value at a key of a table.
pub(crate) fn value_at(table: &Table, key: Key) -> Option<&Value>
    ensures { option_map (λ v. view v.now) result ≡ value_at key (table_view table.now) }
{
    table.get(name(key))
}

/// Whether the value is such an element.
fn fits_element(element: Element, value: &Value) -> bool
    ensures { result ≡ fits_element element (view value.now) }
{
    match element {
        Element::Integer => value.is_integer(),
        Element::Text => value.is_str(),
        Element::Table => value.is_table(),
    }
}

/// Whether each value is such an element.
fn all_fit(element: Element, items: &[Value]) -> bool
    ensures { result ≡ all_fit element (items_view items.now) }
{
    for item in items {
        if !fits_element(element, item) {
            return false;
        }
    }
    true
}

/// Whether the value has the form.
fn fits(form: Form, value: &Value) -> bool
    ensures { result ≡ fits form (view value.now) }
{
    match form {
        Form::One(element) => fits_element(element, value),
        Form::Array(element) => match value.as_array() {
            Some(array) => all_fit(element, array.as_slice()),
            None => false,
        },
    }
}

/// Whether the key has to be there, and is absent.
pub(crate) fn is_missing(table: &Table, key: Key) -> bool
    ensures { result ≡ is_missing (table_view table.now) key }
{
    is_required(key) && value_at(table, key).is_none()
}

/// Whether the key is there, with a value of another form.
pub(crate) fn is_misfit(table: &Table, key: Key) -> bool
    ensures { result ≡ is_misfit (table_view table.now) key }
{
    match value_at(table, key) {
        Some(value) => !fits(form_of(key), value),
        None => false,
    }
}
