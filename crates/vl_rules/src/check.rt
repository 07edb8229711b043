//! A rule, with what it needs to know of a module, and the first line that breaks it.

ghost use Rattle.std.specs.Prelude.{◌≡◌, IfOk};
ghost use Rattle.std.specs.List.{position_from};
ghost use Rattle.vl_model.specs.Lines.{module_sites};
ghost use Rattle.vl_rules.specs.Lines.{lines_of, line_of};
ghost use Rattle.vl_rules.specs.Site.{IsKnown, leaves_before, site_at};
ghost use Rattle.vl_rules.specs.Check.{rule_of, test_of, IsReady, fault_of};

use crate::driven::{is_through, joins_each, lacks_driver, reads_early};
use crate::fits::{fits_line, has_size};
use crate::known::{knows_line, repeats};
use crate::lines::Line;
use crate::names::Names;
use crate::scope::assignments;
use crate::site::Site;
use crate::tallies::{dependents, driver_counts};
use std::alloc::{AllocError, Global};
use vl_tree::TextFault;

/// A rule of a sound design.
#[derive(Clone, Copy)]
pub enum Rule {
    NameTwice,
    NameUnknown,
    Width,
    Order,
    Driver,
    Mealy,
    MemSize,
    Instance,
}

/// A rule, with what it needs to know of a module.
#[derive(Drop)]
pub enum Check {
    NameTwice,
    NameUnknown,
    Width,
    /// The first line that assigns each name.
    Order(Names<usize>),
    /// How often each name is driven.
    Driver(Names<u8>),
    /// The names that depend on an input port.
    Mealy(Names<()>),
    MemSize,
    Instance,
}

/// The fault of a line that breaks the rule.
pub fn fault(rule: Rule, line: u64) -> TextFault
    ensures { result ≡ fault_of rule line }
{
    match rule {
        Rule::NameTwice => TextFault::NameTwice(line),
        Rule::NameUnknown => TextFault::NameUnknown(line),
        Rule::Width => TextFault::Width(line),
        Rule::Order => TextFault::Order(line),
        Rule::Driver => TextFault::Driver(line),
        Rule::Mealy => TextFault::Mealy(line),
        Rule::MemSize => TextFault::MemSize(line),
        Rule::Instance => TextFault::Instance(line),
    }
}

/// The rule, with the tables that it needs of the module.
fn prepare(alloc: Global, rule: Rule, site: &Site) -> Result<Check, AllocError>
    requires { IsKnown site.now }
    ensures ready { IfOk result (IsReady site.now) }
    ensures test { IfOk result (λ c. test_of c ≡ (rule_of rule).1) }
{
    match rule {
        Rule::NameTwice => Ok(Check::NameTwice),
        Rule::NameUnknown => Ok(Check::NameUnknown),
        Rule::Width => Ok(Check::Width),
        Rule::Order => Ok(Check::Order(assignments(alloc, &site.subject)?)),
        Rule::Driver => {
            let counts = driver_counts(alloc, site.library, site.leaves, &site.subject)?;
            Ok(Check::Driver(counts))
        }
        Rule::Mealy => Ok(Check::Mealy(dependents(alloc, &site.subject)?)),
        Rule::MemSize => Ok(Check::MemSize),
        Rule::Instance => Ok(Check::Instance),
    }
}

/// Whether the check finds a fault at the line.
fn breaks(
    alloc: Global,
    check: &Check,
    site: &Site,
    number: usize,
    line: &Line,
) -> Result<bool, AllocError>
    requires known { IsKnown site.now }
    requires ready { IsReady site.now check.now }
    ensures { IfOk result (λ b. b ≡ test_of check.now (site_at site.now number (line_of line.now))) }
{
    match check {
        Check::NameTwice => Ok(repeats(site, number, line)),
        Check::NameUnknown => Ok(!knows_line(site, number, line)),
        Check::Width => Ok(!fits_line(site, number, line)),
        Check::Order(assigned) => Ok(reads_early(site, assigned, number, line)),
        Check::Driver(counts) => Ok(lacks_driver(site, counts, line)),
        Check::Mealy(dependents) => Ok(is_through(site, dependents, line)),
        Check::MemSize => Ok(!has_size(site, number, line)),
        Check::Instance => Ok(!joins_each(alloc, site, line)?),
    }
}

/// The first line of the module at which the check finds a fault.
fn search(alloc: Global, check: &Check, site: &Site) -> Result<Option<usize>, AllocError>
    requires known { IsKnown site.now }
    requires ready { IsReady site.now check.now }
    ensures { IfOk result (λ r. r
        ≡ position_from (test_of check.now) 0 (module_sites (leaves_before site.now) (lines_of site.now.subject))) }
{
    for number in 0..site.subject.len() {
        let line = site.subject.line(number);
        if breaks(alloc, check, site, number, &line)? {
            return Ok(Some(number));
        }
    }
    Ok(None)
}

/// The first line of the module that breaks the rule.
pub fn first_in(alloc: Global, rule: Rule, site: &Site) -> Result<Option<usize>, AllocError>
    requires { IsKnown site.now }
    ensures { IfOk result (λ r. r
        ≡ position_from (rule_of rule).1 0 (module_sites (leaves_before site.now) (lines_of site.now.subject))) }
{
    let check = prepare(alloc, rule, site)?;
    let first = search(alloc, &check, site)?;
    Ok(first)
}
