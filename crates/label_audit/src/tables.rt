//! The rows of an instance.
ghost use Rattle.std.specs.Prelude.{◌≡◌, [], get_or};

use crate::bit::Bit;
use crate::row::Row;
use std::marker::Model;

/// The labels of an instance's nets and memories, by the lines that declare them.
#[derive(Drop)]
pub(crate) struct Rows {
    rows: Vec<Row>,
}

impl Model for Rows {
    ghost use Rattle.std.specs.Prelude.{List};
    ghost use Rattle.label_audit.specs.declared.bit.Bit.{Bit};

    ghost Value = { List (List Bit) };

    ghost view = { λ r. r.rows.items };
}

impl Rows {
    pub(crate) fn new(rows: Vec<Row>) -> Rows
        ensures { result ≡ rows.items }
    {
        Rows { rows }
    }

    pub(crate) fn as_slice(&self) -> &[Row]
        ensures { result.now ≡ self.now }
    {
        self.rows.as_slice()
    }
}

/// The row at a place, which has no bits behind the last.
pub(crate) fn at(rows: &[Row], place: usize) -> &[Bit]
    ensures { result.now ≡ get_or rows.now place [] }
{
    match rows.get(place) {
        Some(row) => row.as_slice(),
        None => &[],
    }
}

/// The rows of instance `i`, of which there are none behind the last.
pub(crate) fn of_instance(kept: &[Rows], i: usize) -> &[Row]
    ensures { result.now ≡ get_or kept.now i [] }
{
    match kept.get(i) {
        Some(rows) => rows.as_slice(),
        None => &[],
    }
}
