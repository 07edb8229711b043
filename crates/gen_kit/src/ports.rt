//! The ports of a plan's text, one by one.

ghost use Rattle.std.specs.Prelude.{◌≡◌, ◌≢◌, ◌<◌, ◌≤◌, ◌∷◌, ◌++◌, ℕ, List, nat_le, length, Some, IfSome, IfNone, slice_get, decimal, bytes_eq};
ghost use Rattle.gen_kit.specs.Ports.{top_ports, host_name, same_port, difference};
ghost use Rattle.gen_kit.specs.PortSpec.{high_of, kind_head, port_of, same_at, IsSpec};

use noc_model::Plan;
use surf_base::decimal;
use vl_tree::Port;

/// How many ports an attachment has.
const KINDS: u32 = 11;

/// A port of a plan's text. `high` is the number of its most significant bit.
///
/// `kind` is its place among the ports of its attachment, 0 to 10: a word is offered, its address, its payload,
/// whether it is its packet's last, whether the tile hears; ready, the drop pulse, whether there is a flit, its head
/// bit, its tail bit, its payload.
#[derive(Clone, Copy, Debug, PartialEq, Eq)]
pub struct PortSpec {
    pub output: bool,
    pub high: u32,
    pub kind: u32,
    pub tile: u32,
    pub domain: u32,
}

/// How many ports the plan's text has: 11 for each attachment.
pub fn top_port_count(plan: &Plan) -> u32
    ensures { result ≡ length (top_ports plan.now) }
{
    plan.known();
    KINDS * plan.attach_count()
}

fn high(kind: u32) -> u32
    ensures { result ≡ high_of kind }
{
    match kind {
        1 | 2 | 10 => 31,
        _ => 0,
    }
}

/// Port `i` of the plan's text, from 0.
pub fn top_port(plan: &Plan, i: u32) -> PortSpec
    requires { i < length (top_ports plan.now) }
    ensures port { slice_get (top_ports plan.now) i ≡ Some (port_of result) }
    ensures spec { IsSpec result }
{
    let host = plan.attach(i / KINDS);
    let kind = i % KINDS;
    PortSpec {
        output: 5 <= kind,
        high: high(kind),
        kind,
        tile: host.tile,
        domain: host.domain,
    }
}

/// The front of the name of a port of this kind.
fn head(kind: u32) -> &'static [u8]
    ensures { result.now ≡ kind_head kind }
{
    match kind {
        0 => b"ov",
        1 => b"oa",
        2 => b"op",
        3 => b"ol",
        4 => b"hr",
        5 => b"rd",
        6 => b"dr",
        7 => b"ev",
        8 => b"eh",
        9 => b"et",
        10 => b"ep",
        _ => b"",
    }
}

/// What stands behind the front, if the name begins with it.
#[tactic(auto, using(crate::proofs::Behind::behinds))]
fn behind<'a>(name: &'a [u8], front: &[u8]) -> Option<&'a [u8]>
    ensures same { IfSome result (λ rest. name.now ≡ front.now ++ rest.now) }
    ensures other { IfNone result ((rest : List ℕ) → name.now ≢ front.now ++ rest) }
{
    let count = front.len();
    if name.len() < count {
        return None;
    }
    if &name[..count] == front {
        return Some(&name[count..]);
    }
    None
}

/// What stands behind an underscore and the number, if the name begins with them.
fn behind_number<'a>(name: &'a [u8], number: u32) -> Option<&'a [u8]>
    ensures same { IfSome result (λ rest. name.now ≡ (95 ∷ decimal number) ++ rest.now) }
    ensures other { IfNone result ((rest : List ℕ) → name.now ≢ (95 ∷ decimal number) ++ rest) }
{
    let mut digits = [0; 20];
    let count = decimal(number as u64, &mut digits);
    match behind(name, b"_") {
        Some(rest) => behind(rest, &digits[..count]),
        None => None,
    }
}

/// Whether this is the name of a port of the tile and the domain, with this front.
fn is_name_of(name: &[u8], front: &[u8], tile: u32, domain: u32) -> bool
    ensures { result ≡ bytes_eq name.now (host_name front.now (record { tile = tile; domain = domain })) }
{
    let Some(numbers) = behind(name, front) else {
        return false;
    };
    let Some(last) = behind_number(numbers, tile) else {
        return false;
    };
    match behind_number(last, domain) {
        Some(rest) => rest.is_empty(),
        None => false,
    }
}

impl PortSpec {
    /// Whether a port has the direction, the width and the name of this one.
    pub fn fits(&self, port: &Port) -> bool
        ensures { result ≡ same_port port.now (port_of self.now) }
    {
        is_name_of(
            port.name.as_slice(),
            head(self.kind),
            self.tile,
            self.domain,
        ) && port.high == self.high
            && port.output == self.output
    }
}

/// Whether both lists have the same port at the position.
fn is_same(plan: &Plan, ports: &[Port], i: u32) -> bool
    requires { i < length (top_ports plan.now) }
    ensures { result ≡ same_at (slice_get ports.now i) (slice_get (top_ports plan.now) i) }
{
    if ports.len() <= i as usize {
        return false;
    }
    top_port(plan, i).fits(&ports[i as usize])
}

/// The first position at which these ports are not the plan's, or one of the two lists ends; nothing where they are the
/// plan's.
#[tactic(auto, using(crate::proofs::Behind::differences))]
pub fn first_other_port(plan: &Plan, ports: &[Port]) -> Option<u64>
    ensures { result ≡ difference 0 ports.now (top_ports plan.now) }
{
    let count = top_port_count(plan);
    for i in 0..count {
        if !is_same(plan, ports, i) {
            return Some(i as u64);
        }
    }
    if (count as usize) < ports.len() {
        return Some(count as u64);
    }
    None
}
