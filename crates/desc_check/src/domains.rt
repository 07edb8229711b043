//! Faults of the domains.

ghost use Rattle.std.specs.Prelude.{◌≡◌};
ghost use Rattle.desc_check.specs.Faults.{domain_name_fault, same_name_fault, domain_twice_fault, channels_fault};
ghost use Rattle.desc_check.specs.Accepted.{domains_fault};

use crate::words::{is_between, is_name, is_within};
use noc_desc::{DescFault, Draft, DraftDomain};
use noc_model::limits::{MOST_CHANNELS, MOST_DOMAINS};

/// The first domain without a good name.
fn domain_name_fault(domains: &[DraftDomain]) -> Option<DescFault>
    ensures { result ≡ domain_name_fault domains.now }
{
    for (i, domain) in domains.iter().enumerate() {
        if !is_name(domain.name.as_slice()) {
            return Some(DescFault::DomainName(i as u64));
        }
    }
    None
}

/// The first later domain that has the name of domain `i`.
fn same_name_fault(domains: &[DraftDomain], i: usize, domain: &DraftDomain) -> Option<DescFault>
    ensures { result ≡ same_name_fault domains.now i domain.now }
{
    for (j, other) in domains.iter().enumerate() {
        if i < j && domain.name.as_slice() == other.name.as_slice() {
            return Some(DescFault::DomainTwice(i as u64, j as u64));
        }
    }
    None
}

/// The first pair of domains with one name.
fn domain_twice_fault(domains: &[DraftDomain]) -> Option<DescFault>
    ensures { result ≡ domain_twice_fault domains.now }
{
    for (i, domain) in domains.iter().enumerate() {
        if let Some(fault) = same_name_fault(domains, i, domain) {
            return Some(fault);
        }
    }
    None
}

/// The first domain without 1 to 4 channels.
fn channels_fault(domains: &[DraftDomain]) -> Option<DescFault>
    ensures { result ≡ channels_fault domains.now }
{
    for (i, domain) in domains.iter().enumerate() {
        if !is_within(1, MOST_CHANNELS, domain.channels) {
            return Some(DescFault::Channels(i as u64));
        }
    }
    None
}

/// The first fault of the domains.
pub(crate) fn domains_fault(draft: &Draft) -> Option<DescFault>
    ensures { result ≡ domains_fault draft.now }
{
    let domains = draft.domains.as_slice();
    if !is_between(1, MOST_DOMAINS, domains.len()) {
        return Some(DescFault::DomainCount);
    }
    if let Some(fault) = domain_name_fault(domains) {
        return Some(fault);
    }
    if let Some(fault) = domain_twice_fault(domains) {
        return Some(fault);
    }
    channels_fault(domains)
}
