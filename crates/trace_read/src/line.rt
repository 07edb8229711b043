//! Reads a line.

ghost use Rattle.std.specs.Prelude.{◌≡◌, ◌==◌, ◌||◌, nat_lt, ◌<◌, ◌∷◌, [], ◌++◌, List, Bool, true, false, None, Some, map, drop, codes, IfOk, IfErr, OnOk, MatchOption, MatchResult, length};
ghost use Rattle.std.specs.List.{cons_option};
ghost use Rattle.std.specs.Str.{bytes_eq};
ghost use Rattle.surf_base.specs.Numbers.{decimal_in, hex_in};
ghost use Rattle.noc_model.specs.Plan.{Plan as PlanValue};
ghost use Rattle.trace_read.specs.declared.fault.TraceFault.{TraceFault};
ghost use Rattle.trace_read.specs.Text.{fields};
ghost use Rattle.trace_read.specs.Entries.{is_skipped, is_send, number, word_of, attach_named, entry_of, line_entry};
ghost use Rattle.trace_read.specs.Faults.{has_no_word, most_words, first_of, place_faults, field_faults, all_faults, line_fault};
ghost use Rattle.trace_read.specs.Accepted.{MemoryOr};
ghost use Rattle.trace_read.specs.Heads.{head_fields};

use crate::entries::{Entry, Trace, Words};
use crate::fault::TraceFault;
use crate::text::{is_plain, next_field};
use noc_model::Plan;
use std::alloc::{AllocError, Global};
use surf_base::{read_decimal, read_hex};

/// The most words of a send.
const MOST_WORDS: usize = 256;

/// The five fields that each entry has, and what is behind them.
#[derive(Drop)]
pub(crate) struct Head<'a> {
    pub(crate) cycle: &'a [u8],
    pub(crate) tile: &'a [u8],
    pub(crate) domain: &'a [u8],
    pub(crate) verb: &'a [u8],
    pub(crate) value: &'a [u8],
    pub(crate) more: &'a [u8],
}

/// The five fields of a line.
fn head_of(line: &[u8]) -> Option<Head<'_>>
    ensures { MatchOption result (length (fields line.now) < 5) (λ h. fields line.now ≡ head_fields h) }
{
    let (cycle, more) = next_field(line)?;
    let (tile, more) = next_field(more)?;
    let (domain, more) = next_field(more)?;
    let (verb, more) = next_field(more)?;
    let (value, more) = next_field(more)?;
    Some(Head {
        cycle,
        tile,
        domain,
        verb,
        value,
        more,
    })
}

/// A cycle, a tile or a count.
fn number_in(field: &[u8], line: u64) -> Result<u32, TraceFault>
    ensures { MatchResult result (λ v. number field.now ≡ Some v)
        (λ e. (number field.now ≡ None) × (e ≡ TraceFault.Number line)) }
{
    match read_decimal(field, 4294967295) {
        Some(value) => Ok(value as u32),
        None => Err(TraceFault::Number { line }),
    }
}

/// An address or a word.
fn word_in(field: &[u8], line: u64) -> Result<u32, TraceFault>
    ensures { MatchResult result (λ v. hex_in field.now ≡ Some v)
        (λ e. (hex_in field.now ≡ None) × (e ≡ TraceFault.Number line)) }
{
    match read_hex(field) {
        Some(value) => Ok(value),
        None => Err(TraceFault::Number { line }),
    }
}

/// The words of the fields, in order.
fn read_words(alloc: Global, text: &[u8], line: u64) -> Result<Words, TraceFault>
    ensures ok { IfOk result (λ words. (has_no_word (fields text.now) ≡ false)
        × (words ≡ map word_of (fields text.now))) }
    ensures err { IfErr result (λ e. MemoryOr e
        ((has_no_word (fields text.now) ≡ true) × (e ≡ TraceFault.Number line))) }
{
    let mut words = Words::new(alloc);
    let mut rest = text;
    while let Some((field, more)) = next_field(rest) {
        words.push(word_in(field, line)?)?;
        rest = more;
    }
    Ok(words)
}

/// The attachment of the tile and the domain of this name.
fn attach_named(plan: &Plan, tile: u32, name: &[u8], line: u64) -> Result<u32, TraceFault>
    ensures ok { IfOk result (λ j. (j ≡ attach_named plan.now tile name.now) × ((more : List (Bool × TraceFault)) →
        first_of (place_faults plan.now line tile name.now more) ≡ first_of more)) }
    ensures err { IfErr result (λ e. (more : List (Bool × TraceFault)) →
        first_of (place_faults plan.now line tile name.now more) ≡ Some e) }
{
    if tile >= plan.tiles() {
        return Err(TraceFault::TileRange { line });
    }
    let Some(domain) = plan.find(name) else {
        return Err(TraceFault::DomainUnknown { line });
    };
    match plan.attach_of(tile, domain) {
        Some(j) => Ok(j),
        None => Err(TraceFault::NotHosted { line }),
    }
}

/// Whether the word asks for a send.
fn is_send(verb: &[u8]) -> bool
    ensures { result ≡ bytes_eq verb.now (codes "send") }
{
    verb == b"send".as_slice()
}

/// Whether the word asks for a hold.
fn is_hold(verb: &[u8]) -> bool
    ensures { result ≡ bytes_eq verb.now (codes "hold") }
{
    verb == b"hold".as_slice()
}

/// Whether there is no word, or too many.
fn is_miscounted(words: &Words) -> bool
    ensures { result ≡ ((length words.now == 0) || nat_lt most_words (length words.now)) }
{
    words.len() == 0 || words.len() > MOST_WORDS
}

/// The entry of a line that asks for a send.
fn read_send(alloc: Global, plan: &Plan, head: &Head<'_>, line: u64) -> Result<Entry, TraceFault>
    requires { is_send (head_fields head.now) ≡ true }
    ensures ok { IfOk result (λ e. (first_of (field_faults plan.now line (head_fields head.now)) ≡ None)
        × (e ≡ entry_of plan.now (head_fields head.now))) }
    ensures err { IfErr result (λ e. MemoryOr e
        (first_of (field_faults plan.now line (head_fields head.now)) ≡ Some e)) }
{
    let cycle = number_in(head.cycle, line)?;
    let tile = number_in(head.tile, line)?;
    let address = word_in(head.value, line)?;
    let words = read_words(alloc, head.more, line)?;
    match attach_named(plan, tile, head.domain, line) {
        Err(fault) => Err(fault),
        Ok(_) if is_miscounted(&words) => Err(TraceFault::WordCount { line }),
        Ok(attach) => Ok(Entry::Send {
            cycle,
            attach,
            address,
            words,
        }),
    }
}

/// The entry of a line that asks for a hold, and has five fields.
fn read_hold(plan: &Plan, head: &Head<'_>, line: u64) -> Result<Entry, TraceFault>
    requires { is_send (head_fields head.now) ≡ false }
    ensures ok { IfOk result (λ e. (first_of (field_faults plan.now line (head_fields head.now)) ≡ None)
        × (e ≡ entry_of plan.now (head_fields head.now))) }
    ensures err { IfErr result (λ e. first_of (field_faults plan.now line (head_fields head.now)) ≡ Some e) }
{
    let cycle = number_in(head.cycle, line)?;
    let tile = number_in(head.tile, line)?;
    let count = number_in(head.value, line)?;
    match attach_named(plan, tile, head.domain, line) {
        Err(fault) => Err(fault),
        Ok(attach) => Ok(Entry::Hold {
            cycle,
            attach,
            count,
        }),
    }
}

/// The entry of a line that is no comment and has a field.
fn read_fields(alloc: Global, plan: &Plan, text: &[u8], line: u64) -> Result<Entry, TraceFault>
    ensures ok { IfOk result (λ e. (first_of (all_faults plan.now line text.now) ≡ None)
        × (e ≡ entry_of plan.now (fields text.now))) }
    ensures err { IfErr result (λ e. MemoryOr e (first_of (all_faults plan.now line text.now) ≡ Some e)) }
{
    if !is_plain(text) {
        return Err(TraceFault::Syntax { line });
    }
    let Some(head) = head_of(text) else {
        return Err(TraceFault::Syntax { line });
    };
    if is_send(head.verb) {
        read_send(alloc, plan, &head, line)
    } else if is_hold(head.verb) && next_field(head.more).is_none() {
        read_hold(plan, &head, line)
    } else {
        Err(TraceFault::Syntax { line })
    }
}

/// Whether there is no field, or a comment.
fn is_skipped(text: &[u8]) -> bool
    ensures { result ≡ is_skipped (fields text.now) }
{
    match next_field(text) {
        Some((field, _)) => field[0] == b'#',
        None => true,
    }
}

/// The entry of a line, which a skipped line doesn't have.
pub(crate) fn read_line(
    alloc: Global,
    plan: &Plan,
    text: &[u8],
    line: u64,
) -> Result<Option<Entry>, TraceFault>
    ensures ok { IfOk result (λ o. (line_fault plan.now line text.now ≡ None)
        × (o ≡ line_entry plan.now text.now)) }
    ensures err { IfErr result (λ e. MemoryOr e (line_fault plan.now line text.now ≡ Some e)) }
{
    if is_skipped(text) {
        return Ok(None);
    }
    match read_fields(alloc, plan, text, line) {
        Ok(entry) => Ok(Some(entry)),
        Err(fault) => Err(fault),
    }
}

/// Adds the entry of a line, where it has one.
pub(crate) fn add_line(
    alloc: Global,
    plan: &Plan,
    trace: &mut Trace,
    text: &[u8],
    line: u64,
) -> Result<(), TraceFault>
    ensures fault { OnOk result (line_fault plan.now line text.now ≡ None) }
    ensures entry { OnOk result (trace.new ≡ trace.old ++ cons_option (line_entry plan.now text.now) []) }
    ensures err { IfErr result (λ e. MemoryOr e (line_fault plan.now line text.now ≡ Some e)) }
{
    match read_line(alloc, plan, text, line) {
        Ok(Some(entry)) => Ok(trace.push(entry)?),
        Ok(None) => Ok(()),
        Err(fault) => Err(fault),
    }
}
