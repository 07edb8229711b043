//! The lists of a draft.

use crate::{DraftDomain, DraftRange, DraftTile};
use surf_base::{Bytes, Seq};

/// A list of whole numbers.
pub type Nums = Seq<i64>;

/// A list of names, in UTF-8.
pub type Names = Seq<Bytes>;

/// The domains of a draft, in order.
pub type DraftDomains = Seq<DraftDomain>;

/// The tiles of a draft that have attachments, in order.
pub type DraftTiles = Seq<DraftTile>;

/// The address ranges of a draft, in order.
pub type DraftRanges = Seq<DraftRange>;
