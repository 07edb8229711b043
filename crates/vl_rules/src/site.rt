//! A module among the others, with what its lines declare.

use crate::library::Library;
use crate::lines::Module;
use crate::names::Names;
use crate::scope::Entry;

/// A module, the leaves before it, and what it declares.
#[derive(Clone, Copy)]
pub struct Site<'a> {
    pub library: &'a Library<'a>,
    /// How many leaves stand before the module.
    pub leaves: usize,
    pub subject: Module<'a>,
    pub declared: &'a Names<Entry>,
}
