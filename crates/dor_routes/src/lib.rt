//! Dimension-order routing with datelines: the port that a flit takes, and the channel class that it goes on in.
//!
//! `route`, `class_after` and `rank` answer what `noc_model` defines for a plan, for each tile and port, with a few
//! divisions and without memory. That the rank rises along every route is a law of `noc_model`. Which of a class's
//! channels a packet gets, and when a flit moves, is left to the router above.
#![tactic(auto)]

ghost use Rattle.std.specs.Prelude.{◌≡◌, ◌≢◌, ◌<◌, ◌≤◌, ◌+◌, ◌-◌, ◌*◌, ◌%◌, length, IsTrue, if◌then◌else◌, nat_lt, ◌&&◌};
ghost use Rattle.noc_model.specs.Limits.{most_side, most_sides};
ghost use Rattle.noc_model.specs.Plan.{tiles, ports, classes};
ghost use Rattle.noc_model.specs.declared.ways.Way.TheVariants.{Plus, Minus};
ghost use Rattle.noc_model.specs.Place.{route, class_after, rank, goes_plus, is_wrap, is_same_dim, are_edges, next_in, last_in, position};

pub mod laws;

use noc_model::limits::MOST_SIDE;
use noc_model::{Plan, Way};

/// The port by which a flit for tile `dest` leaves tile `at` (dimension-order routing: Dally and Towles, section 8.4):
/// the local port, 0, at `dest` itself. On a torus it goes round a ring the shorter way, and by plus at a tie.
pub fn route(plan: &Plan, at: u32, dest: u32) -> u32
    requires at { at < tiles plan.now }
    requires dest { dest < tiles plan.now }
    ensures value { result ≡ route plan.now at dest }
    ensures port { result < ports plan.now }
{
    plan.known();
    for i in 0..plan.dims() {
        let x = plan.coord(at, i);
        let y = plan.coord(dest, i);
        if x != y {
            return way_in(i, goes_plus(plan.torus(), plan.side(i), x, y)).port();
        }
    }
    Way::Local.port()
}

/// Whether the way from the coordinate `x` to another, `y`, is by plus.
fn goes_plus(torus: bool, k: u32, x: u32, y: u32) -> bool
    requires side { k ≤ most_side }
    requires here { x < k }
    requires there { y < k }
    ensures { result ≡ goes_plus torus k x y }
{
    if torus {
        2 * ((y + k - x) % k) <= k
    } else {
        x < y
    }
}

/// The way in dimension `i` by plus or by minus.
fn way_in(i: u32, plus: bool) -> Way
    ensures { result ≡ (if plus then Plus i else Minus i) }
{
    if plus { Way::Plus(i) } else { Way::Minus(i) }
}

/// The class of the channels in which a packet goes on by `out_port` that came in by `in_port` in class `in_class`
/// (datelines: Dally and Towles, section 14.2.3): 1 on a wrap link, else the same within a dimension, else 0.
pub fn class_after(plan: &Plan, at: u32, in_port: u32, in_class: u32, out_port: u32) -> u32
    requires tile { at < tiles plan.now }
    requires in_port { in_port < ports plan.now }
    requires in_class { in_class < classes plan.now }
    requires out_port { out_port < ports plan.now }
    ensures value { result ≡ class_after plan.now at in_port in_class out_port }
    ensures class { result < classes plan.now }
{
    let came = Way::of_port(in_port);
    let goes = Way::of_port(out_port);
    if is_wrap(plan, at, out_port) {
        1
    } else if is_same_dim(came, goes) {
        in_class
    } else {
        0
    }
}

/// Whether the link that leaves a tile by the port is a wrap link.
fn is_wrap(plan: &Plan, at: u32, port: u32) -> bool
    requires tile { at < tiles plan.now }
    requires port { port < ports plan.now }
    ensures value { result ≡ is_wrap plan.now at port }
    ensures torus { IsTrue result → IsTrue plan.now.torus }
{
    if !plan.torus() {
        return false;
    }
    match Way::of_port(port) {
        Way::Local => false,
        Way::Plus(i) => is_over_edge(true, plan.side(i), plan.coord(at, i)),
        Way::Minus(i) => is_over_edge(false, plan.side(i), plan.coord(at, i)),
    }
}

/// Whether a step from the coordinate `x` round a ring of `k` goes from edge to edge: in a ring of 2 each does.
fn is_over_edge(plus: bool, k: u32, x: u32) -> bool
    requires { x < k }
    ensures { result ≡ (nat_lt 1 k && are_edges k x (if plus then next_in k x else last_in k x)) }
{
    let edge = if plus { k - 1 } else { 0 };
    k == 2 || k > 2 && x == edge
}

/// Whether both ways are of one dimension.
fn is_same_dim(a: Way, b: Way) -> bool
    ensures { result ≡ is_same_dim a b }
{
    match (a, b) {
        (Way::Plus(i) | Way::Minus(i), Way::Plus(j) | Way::Minus(j)) => i == j,
        _ => false,
    }
}

/// The rank of the channels of a class on the link that leaves tile `at` by the port, below 96; 0 for the local port.
/// It rises along every route.
pub fn rank(plan: &Plan, at: u32, out_port: u32, class: u32) -> u32
    requires tile { at < tiles plan.now }
    requires port { out_port < ports plan.now }
    requires class { class < classes plan.now }
    ensures value { result ≡ rank plan.now at out_port class }
    ensures few { result < 96 }
{
    plan.known();
    match Way::of_port(out_port) {
        Way::Local => 0,
        Way::Plus(i) => rank_on(i, plan.side(i), plan.coord(at, i), class),
        Way::Minus(i) => {
            let k = plan.side(i);
            rank_on(i, k, k - 1 - plan.coord(at, i), class)
        }
    }
}

/// The rank of the channels of a class on the link of dimension `i` that leaves the `x`-th of `k` tiles from the edge
/// on.
fn rank_on(i: u32, k: u32, x: u32, class: u32) -> u32
    requires dim { i < most_sides }
    requires within { x < k }
    requires side { k ≤ most_side }
    requires class { class < 2 }
    ensures value { result ≡ (2 * i + class) * most_side + position k x class }
    ensures few { result < 96 }
{
    (2 * i + class) * MOST_SIDE + position(k, x, class)
}

/// How far along its ring of `k` a link stands that leaves the `x`-th tile, in channels of a class.
fn position(k: u32, x: u32, class: u32) -> u32
    requires within { x < k }
    requires side { k ≤ most_side }
    ensures value { result ≡ position k x class }
    ensures below { result < k }
{
    if class == 0 { x } else { (x + 1) % k }
}
