//! Domains, as a list.

ghost use Rattle.std.specs.Prelude.{◌≡◌, ◌≢◌, ◌<◌, ◌≤◌, ℕ, length, if◌then◌else◌, IfSome, IfNone};
ghost use Rattle.noc_model.specs.Limits.{most_domains};
ghost use Rattle.noc_model.specs.Plan.{name_at, all_link_channels};
ghost use Rattle.noc_model.specs.Sound.{HaveChannels};

use crate::plan::DomainPart;

/// The number of the domain of this name.
pub(crate) fn find_in(domains: &[DomainPart], name: &[u8]) -> Option<u32>
    requires { length domains.now ≤ most_domains }
    ensures found { IfSome result (λ d. (d < length domains.now) × (name_at domains.now d ≡ name.now)) }
    ensures absent { IfNone result ((d : ℕ) → d < length domains.now → name_at domains.now d ≢ name.now) }
{
    for (d, domain) in domains.iter().enumerate() {
        if domain.name.as_slice() == name {
            return Some(d as u32);
        }
    }
    None
}

/// The number of channel classes.
pub(crate) fn classes_of(torus: bool) -> u32
    ensures value { result ≡ (if torus then 2 else 1) }
    ensures few { result ≤ 2 }
{
    if torus { 2 } else { 1 }
}

/// The channels of all domains on a link, at most 128.
pub(crate) fn all_link_channels(domains: &[DomainPart], classes: u32) -> u32
    requires count { length domains.now ≤ most_domains }
    requires channels { HaveChannels domains.now }
    requires classes { classes ≤ 2 }
    ensures value { result ≡ all_link_channels classes domains.now }
    ensures few { result ≤ 128 }
{
    let mut count = 0;
    for domain in domains {
        count += classes * domain.channels;
    }
    count
}
