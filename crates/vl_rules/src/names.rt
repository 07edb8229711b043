//! Tables keyed by name.

ghost use Rattle.std.specs.Prelude.{◌≡◌, List, ℕ, None, Some, OnOk, bytes_eq, if◌then◌else◌};
ghost use Rattle.std.specs.Option.{option_or};
ghost use Rattle.vl_rules.specs.Names.{found};

use indexmap::IndexMap;
use std::alloc::{AllocError, Global};

/// A value for each of some names.
#[derive(Drop)]
pub struct Names<V> {
    table: IndexMap<Vec<u8>, V>,
}

impl<V: Copy + Drop> Names<V> {
    /// The table without a name.
    pub fn new(alloc: Global) -> Names<V>
        ensures { (n : List ℕ) → found result n ≡ None }
    {
        Names {
            table: IndexMap::new(alloc),
        }
    }

    /// The value of the name.
    pub fn get(&self, name: &[u8]) -> Option<V>
        ensures { result ≡ found self.now name.now }
    {
        self.table.get(name).copied()
    }

    /// Gives the name this value.
    ///
    /// # Errors
    ///
    /// Memory ran out; then nothing is known of the table.
    pub fn put(&mut self, alloc: Global, name: &[u8], value: V) -> Result<(), AllocError>
        ensures { OnOk result ((n : List ℕ)
            → found self.new n ≡ (if bytes_eq n name.now then Some value else found self.old n)) }
    {
        let key = Vec::from_slice(alloc, name)?;
        self.table.insert(key, value)?;
        Ok(())
    }

    /// Gives the name this value, if it has none.
    ///
    /// # Errors
    ///
    /// Memory ran out; then nothing is known of the table.
    pub fn put_first(&mut self, alloc: Global, name: &[u8], value: V) -> Result<(), AllocError>
        ensures { OnOk result ((n : List ℕ)
            → found self.new n ≡ option_or (found self.old n) (if bytes_eq n name.now then Some value else None)) }
    {
        if self.get(name).is_none() {
            self.put(alloc, name, value)?;
        }
        Ok(())
    }
}
