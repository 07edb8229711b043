//! A whole text.

ghost use Rattle.std.specs.Prelude.{◌≡◌, ℕ, IfOk, IfErr, MatchResult, Err};
ghost use Rattle.vl_tree.specs.Values as values;
ghost use Rattle.vl_tree.specs.Read as views;
ghost use Rattle.vl_tree.specs.Spells.{Spells, ByteFault, TokenFault, GrammarFault};
ghost use Rattle.vl_tree.specs.declared.fault.TextFault.TheVariants as faults;
ghost use Rattle.vl_tree.specs.Tokens.{tokens_of};
ghost use Rattle.vl_tree.specs.Reading.{design_at};
ghost use Rattle.vl_read.specs.Gives.{Gives};
ghost use Rattle.vl_tree.specs.Faults.{IsMemory, MemoryOr, IsReadFault};

use crate::ahead::first_of;
use crate::clean::{text_len, unread};
use crate::error::ReadError;
use crate::modules::design;
use std::alloc::Global;
use vl_tree::{Design, TextFault};

/// The design of a text that is made of tokens, blanks and comments.
fn parsed(alloc: Global, bytes: &[u8]) -> Result<Design, ReadError>
    ensures { Gives views.read_design result (design_at (tokens_of bytes.now)) }
{
    design(alloc, first_of(bytes))
}

/// The design that the bytes spell, or their first fault.
///
/// # Errors
///
/// The first fault of the text, or `TextFault::Memory` when memory runs out.
pub fn read_design(alloc: Global, bytes: &[u8]) -> Result<Design, TextFault>
    // What is read is spelled so.
    ensures ok { IfOk result (λ d. Spells bytes.now (views.read_design d)) }
    // What is spelled is read, unless memory runs out.
    ensures complete { (d : values.Design) → Spells bytes.now d
        → MatchResult result (λ r. views.read_design r ≡ d) IsMemory }
    // A fault is the first one, at its place.
    ensures err { IfErr result (λ e. MemoryOr e (IsReadFault bytes.now e)) }
    // The first faults of the bytes and of the tokens are always found.
    ensures byte { (n : ℕ) → ByteFault bytes.now n → result ≡ Err (faults.Byte n) }
    ensures token { (n : ℕ) → TokenFault bytes.now n → result ≡ Err (faults.Token n) }
    // So is that of the grammar, unless memory runs out.
    ensures grammar { (n : ℕ) → GrammarFault bytes.now n
        → MatchResult result (λ _. ⊥) (λ e. MemoryOr e (e ≡ faults.Grammar n)) }
{
    let len = bytes.len();
    let clean = text_len(bytes);
    if clean < len {
        return Err(TextFault::Byte(clean as u64));
    }
    let left = unread(bytes);
    if 0 < left {
        return Err(TextFault::Token((len - left) as u64));
    }
    match parsed(alloc, bytes) {
        Ok(design) => Ok(design),
        Err(ReadError::Memory(e)) => Err(TextFault::Memory(e)),
        Err(ReadError::At(left)) => Err(TextFault::Grammar((len - left) as u64)),
    }
}
