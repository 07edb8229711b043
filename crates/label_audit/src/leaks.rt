//! The first leak.
ghost use Rattle.std.specs.Prelude.{◌≡◌, ◌==◌, ◌&&◌, ◌<◌, ◌/◌, ◌^◌, not, length, slice_get, Some};
ghost use Rattle.vl_tree.specs.declared.tree.Port.{Port};
ghost use Rattle.vl_run.specs.Emit.{place_in};
ghost use Rattle.label_model.specs.Verdict.{first_of};
ghost use Rattle.label_audit.specs.Bits.{domains_in};
ghost use Rattle.label_audit.specs.Audited.{leak_of};
ghost use Rattle.label_audit.specs.Whole.{IsShape, domain_at, phase_in};
ghost use Rattle.label_audit.specs.Leaks.{leak_in, port_rows, port_leak_in, leaks_in};

use crate::phase::{Shape, owner};
use crate::row::{all_domains, is_one};
use crate::tables::{Rows, of_instance};
use vl_tree::Port;

/// The most domains that a plan has.
const DOMAINS: u32 = 16;

/// What an audit answers.
#[derive(Clone, Copy, Debug, PartialEq, Eq)]
pub enum Verdict {
    /// Each output port depends on its own domain's inputs alone.
    Clean,
    /// The first leak: the position of the port in the top's list, then the phase, then the domain.
    Leak { port: u32, phase: u32, foreign: u32 },
}

/// Whether the domain is in the set.
#[tactic(auto, using(crate::proofs::Rows::rows))]
fn has(mask: u16, domain: u32) -> bool
    ensures { result ≡ domains_in mask domain }
{
    domain < 16 && is_one(mask as u64, domain as usize)
}

/// Whether the domain is in the set, and not the port's own.
fn is_foreign(mask: u16, own: u32, domain: u32) -> bool
    ensures { result ≡ (not (domain == own) && domains_in mask domain) }
{
    domain != own && has(mask, domain)
}

/// The least of `count` domains in the set that is not the port's own.
fn foreign(mask: u16, own: u32, count: u32) -> Option<u32>
    ensures { result ≡ first_of (λ e. not (e == own) && domains_in mask e) 0 count }
{
    for e in 0..count {
        if is_foreign(mask, own, e) {
            return Some(e);
        }
    }
    None
}

/// The first leak of a port, by phase.
fn port_leak(shape: &Shape, tops: &[Rows], port: &Port, position: usize) -> Verdict
    requires host { position / 11 < length shape.now.plan.now.hosts }
    requires small { position < 2 ^ 32 }
    requires few { length tops.now < 2 ^ 32 }
    ensures { leak_of result ≡ leak_in (domain_at shape.now.plan.now.hosts position) position
        (port_rows (place_in shape.now.declared.now) (phase_in tops.now) port.now.name) 0 (length tops.now) }
{
    let own = owner(shape.plan, position);
    for f in 0..tops.len() {
        let row = shape.shown(of_instance(tops, f), port);
        if let Some(e) = foreign(all_domains(row), own, DOMAINS) {
            return Verdict::Leak {
                port: position as u32,
                phase: f as u32,
                foreign: e,
            };
        }
    }
    Verdict::Clean
}

/// The first leak of the port, if it is an output port.
fn output_leak(shape: &Shape, tops: &[Rows], position: usize) -> Verdict
    requires shape { IsShape shape.now }
    requires within { position < length shape.now.design.now.top.ports }
    requires few { length tops.now < 2 ^ 32 }
    ensures { (q : Port) → slice_get shape.now.design.now.top.ports position ≡ Some q → leak_of result
        ≡ port_leak_in (place_in shape.now.declared.now) shape.now.plan.now.hosts (phase_in tops.now)
        (length tops.now) q position }
{
    let port = shape.design.top.ports.at(position);
    if port.output {
        port_leak(shape, tops, port, position)
    } else {
        Verdict::Clean
    }
}

/// The first leak of the ports, or none.
pub(crate) fn judged(shape: &Shape, tops: &[Rows]) -> Verdict
    requires shape { IsShape shape.now }
    requires few { length tops.now < 2 ^ 32 }
    ensures { leak_of result
        ≡ leaks_in (place_in shape.now.declared.now) shape.now.plan.now.hosts (phase_in tops.now)
        (length tops.now) shape.now.design.now.top.ports 0 }
{
    for i in 0..shape.design.top.ports.len() {
        match output_leak(shape, tops, i) {
            Verdict::Clean => {}
            Verdict::Leak {
                port,
                phase,
                foreign,
            } => {
                return Verdict::Leak {
                    port,
                    phase,
                    foreign,
                };
            }
        }
    }
    Verdict::Clean
}
