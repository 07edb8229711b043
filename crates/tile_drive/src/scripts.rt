//! What a trace asks for, by attachment.

ghost use Rattle.std.specs.Prelude.{◌≡◌, ℕ, ◌<◌, [], ◌++◌, length, OnOk, IfOk, vec_len};
ghost use Rattle.tile_drive.specs.TraceDriver.{due_words, due_of, spans_of, due_in, spans_in, is_deaf};
ghost use Rattle.tile_drive.specs.Scripts.{due_at, spans_at, AddsEntry, AreSettled, AreAllSettled};

use crate::spans::{ends_of, sort_spans};
use flit_word::Offer;
use std::alloc::{AllocError, Global};
use trace_read::Entry;

/// A word that is offered from a cycle on.
#[derive(Clone, Copy)]
pub(crate) struct Due {
    pub(crate) cycle: u32,
    pub(crate) offer: Offer,
}

/// `count` cycles from `cycle` on.
#[derive(Clone, Copy)]
pub(crate) struct Span {
    pub(crate) cycle: u32,
    pub(crate) count: u32,
}

/// The words of an attachment, in order, and when it is deaf.
#[derive(Drop)]
pub(crate) struct Script {
    pub(crate) due: Vec<Due>,
    pub(crate) spans: Vec<Span>,
    /// The greatest end of the spans up to each, once they are sorted by cycle.
    pub(crate) ends: Vec<u64>,
}

/// Adds the words of a send.
fn add_words(due: &mut Vec<Due>, cycle: u32, address: u32, words: &[u32]) -> Result<(), AllocError>
    ensures { OnOk result (due.new.items ≡ due.old.items ++ due_words cycle address words.now) }
{
    let mut rest = words;
    while let [word, more @ ..] = rest {
        let offer = Offer {
            address,
            payload: *word,
            last: more.is_empty(),
        };
        due.push(Due { cycle, offer })?;
        rest = more;
    }
    Ok(())
}

/// Adds what the entry asks of its attachment.
fn add_to_script(script: &mut Script, entry: &Entry) -> Result<(), AllocError>
    ensures due { OnOk result (script.new.due.items ≡ script.old.due.items ++ due_of entry.now) }
    ensures spans { OnOk result (script.new.spans.items ≡ script.old.spans.items ++ spans_of entry.now) }
{
    match entry {
        Entry::Send {
            cycle,
            address,
            words,
            ..
        } => add_words(&mut script.due, *cycle, *address, words.as_slice()),
        Entry::Hold { cycle, count, .. } => {
            script.spans.push(Span {
                cycle: *cycle,
                count: *count,
            })?;
            Ok(())
        }
    }
}

/// Adds an entry. One of no attachment adds nothing.
fn add_entry(scripts: &mut [Script], entry: &Entry) -> Result<(), AllocError>
    ensures { OnOk result (AddsEntry scripts.old scripts.new entry.now) }
{
    let j = entry.attach() as usize;
    if j >= scripts.len() {
        return Ok(());
    }
    let script = &mut scripts[j];
    add_to_script(script, entry)?;
    Ok(())
}

/// A script with nothing in it.
fn empty_script(alloc: Global) -> Script
    ensures due { result.due.items ≡ [] }
    ensures spans { result.spans.items ≡ [] }
{
    Script {
        due: Vec::new(alloc),
        spans: Vec::new(alloc),
        ends: Vec::new(alloc),
    }
}

/// So many scripts with nothing in them.
fn empty_scripts(alloc: Global, count: u32) -> Result<Vec<Script>, AllocError>
    ensures count { IfOk result (λ scripts. vec_len scripts ≡ count) }
    ensures due { IfOk result (λ scripts. (j : ℕ) → due_at scripts.items j ≡ []) }
    ensures spans { IfOk result (λ scripts. (j : ℕ) → spans_at scripts.items j ≡ []) }
{
    let mut scripts = Vec::new(alloc);
    for _i in 0..count {
        scripts.push(empty_script(alloc))?;
    }
    Ok(scripts)
}

/// What the entries ask of each of so many attachments, in their order.
fn gathered(alloc: Global, count: u32, entries: &[Entry]) -> Result<Vec<Script>, AllocError>
    ensures count { IfOk result (λ scripts. length scripts.items ≡ count) }
    ensures due { IfOk result (λ scripts. (j : ℕ) → j < count → due_at scripts.items j ≡ due_in entries.now j) }
    ensures spans { IfOk result (λ scripts. (j : ℕ) → j < count → spans_at scripts.items j ≡ spans_in entries.now j) }
{
    let mut scripts = empty_scripts(alloc, count)?;
    for entry in entries {
        add_entry(scripts.as_mut_slice(), entry)?;
    }
    Ok(scripts)
}

/// Sorts the spans of a script, and keeps their ends.
fn settle(alloc: Global, script: &mut Script) -> Result<(), AllocError>
    ensures due { OnOk result (script.new.due.items ≡ script.old.due.items) }
    ensures deaf { OnOk result ((t : ℕ) → is_deaf script.new.spans.items t ≡ is_deaf script.old.spans.items t) }
    ensures settled { OnOk result (AreSettled script.new.spans.items script.new.ends.items) }
{
    sort_spans(&mut script.spans);
    script.ends = ends_of(alloc, script.spans.as_slice())?;
    Ok(())
}

/// Sorts the spans of each script, and keeps their ends.
fn settle_all(alloc: Global, scripts: &mut [Script]) -> Result<(), AllocError>
    ensures due { OnOk result ((j : ℕ) → due_at scripts.new j ≡ due_at scripts.old j) }
    ensures deaf { OnOk result ((j t : ℕ) → is_deaf (spans_at scripts.new j) t ≡ is_deaf (spans_at scripts.old j) t) }
    ensures settled { OnOk result (AreAllSettled scripts.new) }
{
    for script in scripts.iter_mut() {
        settle(alloc, script)?;
    }
    Ok(())
}

/// What a trace asks of each of so many attachments, settled.
pub(crate) fn scripts_of(
    alloc: Global,
    count: u32,
    entries: &[Entry],
) -> Result<Vec<Script>, AllocError>
    ensures count { IfOk result (λ scripts. length scripts.items ≡ count) }
    ensures due { IfOk result (λ scripts. (j : ℕ) → j < count → due_at scripts.items j ≡ due_in entries.now j) }
    ensures deaf { IfOk result (λ scripts. (j t : ℕ) → j < count
        → is_deaf (spans_at scripts.items j) t ≡ is_deaf (spans_in entries.now j) t) }
    ensures settled { IfOk result (λ scripts. AreAllSettled scripts.items) }
{
    let mut scripts = gathered(alloc, count, entries)?;
    settle_all(alloc, scripts.as_mut_slice())?;
    Ok(scripts)
}
