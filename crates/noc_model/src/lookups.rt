//! Hosts and ranges, as lists.

ghost use Rattle.std.specs.Prelude.{◌≡◌, ◌<◌, ◌≤◌, length, slice_get, Some, is_some, IfSome, find, position};
ghost use Rattle.std.specs.List.{list_any};
ghost use Rattle.noc_model.specs.Limits.{most_hosts};
ghost use Rattle.noc_model.specs.Plan.{is_host, holds_address};

use crate::{Host, Range};

/// The place of the host of tile `n` and domain `d`.
fn host_place(hosts: &[Host], n: u32, d: u32) -> Option<usize>
    ensures { result ≡ position (is_host n d) hosts.now }
{
    hosts.iter().position(|h| h.tile == n && h.domain == d)
}

/// The number of the host of tile `n` and domain `d`.
pub(crate) fn host_in(hosts: &[Host], n: u32, d: u32) -> Option<u32>
    requires { length hosts.now ≤ most_hosts }
    ensures value { result ≡ position (is_host n d) hosts.now }
    ensures found { IfSome result (λ j. slice_get hosts.now j ≡ Some (record { tile = n; domain = d })) }
    ensures hosted { is_some result ≡ list_any (is_host n d) hosts.now }
{
    match host_place(hosts, n, d) {
        Some(j) => Some(j as u32),
        None => None,
    }
}

/// The first range that has the address.
pub(crate) fn range_in(ranges: &[Range], addr: u32) -> Option<Range>
    ensures { result ≡ find (holds_address addr) ranges.now }
{
    ranges
        .iter()
        .find(|r| r.first <= addr && addr <= r.last)
        .copied()
}
