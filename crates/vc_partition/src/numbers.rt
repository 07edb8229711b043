//! The numbers of ports, channels and inputs.

ghost use Rattle.std.specs.Prelude.{◌≡◌, ◌<◌, ◌≤◌, ◌*◌, ◌+◌, ◌/◌, ◌%◌, length, map, IfOk};
ghost use Rattle.std.specs.List.{range_with_len};
ghost use Rattle.noc_model.specs.Plan.{ports, channels, link_channels, in_channels, classes};
ghost use Rattle.noc_model.specs.Inputs.{place, pack, unpack, input_count};
ghost use Rattle.vc_partition.specs.Lanes.{total};

use noc_model::Plan;
use std::alloc::{AllocError, Global};

/// The virtual channels of domain `d` at an input port, 1 to 8: the local port has those of one class.
pub fn channel_count(plan: &Plan, d: u32, port: u32) -> u32
    requires { d < length plan.now.domains }
    ensures value { result ≡ in_channels plan.now d port }
    ensures some { 1 ≤ result }
    ensures few { result ≤ 8 }
{
    if port == 0 {
        plan.channels(d)
    } else {
        plan.link_channels(d)
    }
}

/// The number of the `ch`-th channel of a class of domain `d`.
pub fn pack(plan: &Plan, d: u32, class: u32, ch: u32) -> u32
    requires domain { d < length plan.now.domains }
    requires class { class < classes plan.now }
    requires channel { ch < channels plan.now d }
    ensures value { result ≡ pack plan.now d class ch }
    ensures below { result < link_channels plan.now d }
{
    class * plan.channels(d) + ch
}

/// The class of channel `w` of domain `d`, and which channel of the class it is.
pub fn unpack(plan: &Plan, d: u32, w: u32) -> (u32, u32)
    requires { d < length plan.now.domains }
    ensures { result ≡ unpack plan.now d w }
{
    let channels = plan.channels(d);
    (w / channels, w % channels)
}

/// The number of an input of domain `d` at a tile, below 56: of channel `ch` of an input port.
pub fn place(plan: &Plan, d: u32, port: u32, ch: u32) -> u32
    requires domain { d < length plan.now.domains }
    requires port { port < ports plan.now }
    requires channel { ch < link_channels plan.now d }
    ensures value { result ≡ place plan.now d port ch }
    ensures below { result < input_count plan.now d }
    ensures few { result < 56 }
{
    plan.known();
    port * plan.link_channels(d) + ch
}

/// How many inputs each domain has at a tile, where every port counts as one with a link: the lengths of lanes with a
/// place for each input.
///
/// # Errors
///
/// When memory runs out.
pub fn input_counts(alloc: Global, plan: &Plan) -> Result<Vec<u32>, AllocError>
    ensures value { IfOk result (λ v. v.items
        ≡ map (input_count plan.now) (range_with_len 0 (length plan.now.domains))) }
    ensures few { IfOk result (λ v. total v.items ≤ 896) }
{
    plan.known();
    let mut counts = Vec::with_capacity(alloc, plan.domains() as usize)?;
    for d in 0..plan.domains() {
        counts.push(plan.ports() * plan.link_channels(d))?;
    }
    Ok(counts)
}

/// How many ports each domain has at a tile, which is the same for all: the lengths of lanes with a place for each
/// port.
///
/// # Errors
///
/// When memory runs out.
pub fn port_counts(alloc: Global, plan: &Plan) -> Result<Vec<u32>, AllocError>
    ensures value { IfOk result (λ v. v.items
        ≡ map (λ d. ports plan.now) (range_with_len 0 (length plan.now.domains))) }
    ensures few { IfOk result (λ v. total v.items ≤ 112) }
{
    plan.known();
    let mut counts = Vec::with_capacity(alloc, plan.domains() as usize)?;
    for _ in 0..plan.domains() {
        counts.push(plan.ports())?;
    }
    Ok(counts)
}
