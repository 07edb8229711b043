//! The first fault of a design.

ghost use Rattle.std.specs.Prelude.{◌≡◌, ◌<◌, ◌+◌, ◌++◌, [], IfOk, Some, length, map, take, slice_get};
ghost use Rattle.std.specs.List.{position_from};
ghost use Rattle.vl_tree.specs.Read.{read_design, read_leaves};
ghost use Rattle.vl_model.specs.Lines.{leaf_sites, leaf_lines, top_lines, module_sites};
ghost use Rattle.vl_model.specs.Rules as model;
ghost use Rattle.vl_tree.specs.Values.{Leaf};
ghost use Rattle.vl_rules.specs.Scope.{Declares};
ghost use Rattle.vl_rules.specs.Library.{IsLibrary};
ghost use Rattle.vl_rules.specs.Lines.{lines_of};
ghost use Rattle.vl_rules.specs.Site.{IsKnown, leaves_before};
ghost use Rattle.vl_rules.specs.Check.{rule_of};
ghost use Rattle.vl_rules.specs.Judge.{fault_by};

use crate::check::{Rule, fault, first_in};
use crate::library::Library;
use crate::lines::Module;
use crate::names::Names;
use crate::scope::{Entry, declarations};
use crate::site::Site;
use std::alloc::{AllocError, Global};
use vl_tree::{Design, TextFault, Top};

/// The rules, by the numbers of their faults.
const RULES: [Rule; 8] = [
    Rule::NameTwice,
    Rule::NameUnknown,
    Rule::Width,
    Rule::Order,
    Rule::Driver,
    Rule::Mealy,
    Rule::MemSize,
    Rule::Instance,
];

/// The sum. A number of a line that doesn't fit counts as memory that ran out.
fn sum(a: u64, b: usize) -> Result<u64, AllocError>
    ensures { IfOk result (λ n. n ≡ a + b) }
{
    match a.checked_add(b as u64) {
        Some(n) => Ok(n),
        None => Err(AllocError),
    }
}

/// A leaf among the others.
fn leaf_site<'a>(library: &'a Library<'a>, number: usize) -> Site<'a>
    requires library { IsLibrary library.now }
    requires within { number < length library.now.leaves.now }
    ensures known { IsKnown result }
    ensures leaves { leaves_before result ≡ take number (read_leaves library.now.leaves.now) }
    ensures lines { (l : Leaf) → slice_get (read_leaves library.now.leaves.now) number ≡ Some l
        → lines_of result.subject ≡ leaf_lines l }
{
    let known = library.known(number);
    Site {
        library,
        leaves: number,
        subject: Module::Leaf(known.leaf),
        declared: known.declared,
    }
}

/// The top, behind all leaves.
fn top_site<'a>(library: &'a Library<'a>, top: &'a Top, declared: &'a Names<Entry>) -> Site<'a>
    requires library { IsLibrary library.now }
    requires declared { Declares declared.now (top_lines top.now) }
    ensures known { IsKnown result }
    ensures leaves { leaves_before result ≡ read_leaves library.now.leaves.now }
    ensures lines { lines_of result.subject ≡ top_lines top.now }
{
    Site {
        library,
        leaves: library.leaves.len(),
        subject: Module::Top(top),
        declared,
    }
}

/// The first line of the design that breaks the rule.
fn first_line<'a>(
    alloc: Global,
    rule: Rule,
    library: &'a Library<'a>,
    top: &'a Top,
    declared: &'a Names<Entry>,
) -> Result<Option<u64>, AllocError>
    requires library { IsLibrary library.now }
    requires declared { Declares declared.now (top_lines top.now) }
    ensures { IfOk result (λ r. r
        ≡ position_from (rule_of rule).1 0
        (leaf_sites [] (read_leaves library.now.leaves.now)
        ++ module_sites (read_leaves library.now.leaves.now) (top_lines top.now))) }
{
    let mut start = 0;
    for number in 0..library.leaves.len() {
        let site = leaf_site(library, number);
        if let Some(line) = first_in(alloc, rule, &site)? {
            let place = sum(start, line)?;
            return Ok(Some(place));
        }
        start = sum(start, site.subject.len())?;
    }
    let site = top_site(library, top, declared);
    match first_in(alloc, rule, &site)? {
        Some(line) => {
            let place = sum(start, line)?;
            Ok(Some(place))
        }
        None => Ok(None),
    }
}

/// The fault of a rule at the first line that breaks it.
fn rule_fault<'a>(
    alloc: Global,
    rule: Rule,
    library: &'a Library<'a>,
    top: &'a Top,
    declared: &'a Names<Entry>,
) -> Result<Option<TextFault>, AllocError>
    requires library { IsLibrary library.now }
    requires declared { Declares declared.now (top_lines top.now) }
    ensures { IfOk result (λ r. r ≡ fault_by (rule_of rule) (leaf_sites [] (read_leaves library.now.leaves.now)
        ++ module_sites (read_leaves library.now.leaves.now) (top_lines top.now))) }
{
    match first_line(alloc, rule, library, top, declared)? {
        Some(line) => Ok(Some(fault(rule, line))),
        None => Ok(None),
    }
}

/// The fault of the first of these rules that is broken.
#[tactic(auto, using(crate::proofs::Ruled::fault_at))]
fn first_of<'a>(
    alloc: Global,
    rules: &[Rule],
    library: &'a Library<'a>,
    top: &'a Top,
    declared: &'a Names<Entry>,
) -> Result<Option<TextFault>, AllocError>
    requires library { IsLibrary library.now }
    requires declared { Declares declared.now (top_lines top.now) }
    ensures { IfOk result (λ r. r
        ≡ model.first_fault_of (map rule_of rules.now)
        (leaf_sites [] (read_leaves library.now.leaves.now)
        ++ module_sites (read_leaves library.now.leaves.now) (top_lines top.now))) }
{
    for rule in rules {
        if let Some(fault) = rule_fault(alloc, *rule, library, top, declared)? {
            return Ok(Some(fault));
        }
    }
    Ok(None)
}

/// The first of faults 4 to 11 of the design, if it has one.
#[tactic(auto, unfolding(vl_model::specs::Rules::first_fault))]
pub fn first_fault(alloc: Global, design: &Design) -> Result<Option<TextFault>, AllocError>
    ensures { IfOk result (λ r. r ≡ model.first_fault (read_design design.now)) }
{
    let library = Library::new(alloc, design.leaves.as_slice())?;
    let declared = declarations(alloc, &Module::Top(&design.top))?;
    let first = first_of(alloc, &RULES, &library, &design.top, &declared)?;
    Ok(first)
}
