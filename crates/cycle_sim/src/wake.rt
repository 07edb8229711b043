//! Which tiles are awake: those that have something to do, or to which something comes. A cycle leaves out the others.

ghost use Rattle.std.specs.Prelude.{◌≡◌, ◌<◌, ◌*◌, ℕ, true, false, length, Some, None, slice_get};
ghost use Rattle.noc_model.specs.declared.Host.{Host};
ghost use Rattle.noc_model.specs.Plan.{tiles, ports};
ghost use Rattle.noc_model.specs.Place.{neighbour};
ghost use Rattle.vc_partition.specs.Lanes.{lane};
ghost use Rattle.router_core.specs.Parts.{Parts};
ghost use Rattle.router_core.specs.Pulses.{pulse_at};
ghost use Rattle.router_core.specs.Sizes.{HasPorts, IsMade};
ghost use Rattle.credit_links.specs.Rows.{place_at};
ghost use Rattle.cycle_sim.specs.Links.{row_of, pulses_of};
ghost use Rattle.cycle_sim.specs.Asleep.{is_awake, SendsNothing, IsAsleep, AreAsleep};

use credit_links::Pipe;
use noc_model::Plan;
use router_core::Router;
use tile_drive::Drive;
use vc_partition::Lanes;

/// The channel of domain `d` for which a tile with these pulses gives a credit back by a port.
fn pulse_of(pulses: &Lanes<Option<u32>>, d: u32, port: u32) -> Option<u32>
    requires domain { d < length pulses.now }
    requires port { port < length (lane pulses.now d) }
    ensures { result ≡ pulse_at pulses.now d port }
{
    *pulses.at(d, port)
}

/// Whether a credit of some domain goes back by a port of a tile with these pulses.
fn has_pulse(plan: &Plan, pulses: &Lanes<Option<u32>>, port: u32) -> bool
    requires ports { HasPorts plan.now pulses.now }
    requires port { port < ports plan.now }
    ensures { result ≡ false → (d : ℕ) → d < length plan.now.domains → pulse_at pulses.now d port ≡ None }
{
    for d in 0..plan.domains() {
        if pulse_of(pulses, d, port).is_some() {
            return true;
        }
    }
    false
}

/// The registers of the link that leaves a tile by a port.
fn row_at<'a>(plan: &Plan, rows: &'a [Pipe], tile: u32, port: u32) -> &'a Pipe
    requires tile { tile < tiles plan.now }
    requires port { port < ports plan.now }
    requires rows { length rows.now ≡ tiles plan.now * ports plan.now }
    ensures { result.now ≡ row_of plan.now rows.now tile port }
{
    plan.known();
    &rows[(tile * plan.ports() + port) as usize]
}

/// Whether something goes out of tile `m` by a port as a cycle begins: a flit that comes off its link, or a credit.
fn sends_something(
    plan: &Plan,
    rows: &[Pipe],
    pulses: &[Lanes<Option<u32>>],
    m: u32,
    port: u32,
) -> bool
    requires tile { m < tiles plan.now }
    requires port { port < ports plan.now }
    requires rows { length rows.now ≡ tiles plan.now * ports plan.now }
    requires pulses { length pulses.now ≡ tiles plan.now }
    requires pulse_ports { (k : ℕ) → k < tiles plan.now → HasPorts plan.now (pulses_of pulses.now k) }
    ensures { result ≡ false → SendsNothing plan.now rows.now pulses.now m port }
{
    row_at(plan, rows, m, port).last().is_some() || has_pulse(plan, &pulses[m as usize], port)
}

/// The tile to which something goes from tile `m` by a port is awake.
fn wake_by(
    plan: &Plan,
    rows: &[Pipe],
    pulses: &[Lanes<Option<u32>>],
    m: u32,
    port: u32,
    awake: &mut Vec<bool>,
)
    requires tile { m < tiles plan.now }
    requires port { port < ports plan.now }
    requires rows { length rows.now ≡ tiles plan.now * ports plan.now }
    requires pulses { length pulses.now ≡ tiles plan.now }
    requires pulse_ports { (k : ℕ) → k < tiles plan.now → HasPorts plan.now (pulses_of pulses.now k) }
    requires awake { length awake.old.items ≡ tiles plan.now }
    ensures count { length awake.new.items ≡ tiles plan.now }
    ensures asleep { (n : ℕ) → is_awake awake.new.items n ≡ false → is_awake awake.old.items n ≡ false }
    ensures nothing { (n : ℕ) → neighbour plan.now m port ≡ Some n → is_awake awake.new.items n ≡ false
        → SendsNothing plan.now rows.now pulses.now m port }
{
    plan.known();
    if sends_something(plan, rows, pulses, m, port) {
        if let Some(n) = plan.neighbour(m, port) {
            awake[n as usize] = true;
        }
    }
}

/// The tiles to which something goes from tile `m` are awake.
fn wake_from(
    plan: &Plan,
    rows: &[Pipe],
    pulses: &[Lanes<Option<u32>>],
    m: u32,
    awake: &mut Vec<bool>,
)
    requires tile { m < tiles plan.now }
    requires rows { length rows.now ≡ tiles plan.now * ports plan.now }
    requires pulses { length pulses.now ≡ tiles plan.now }
    requires pulse_ports { (k : ℕ) → k < tiles plan.now → HasPorts plan.now (pulses_of pulses.now k) }
    requires awake { length awake.old.items ≡ tiles plan.now }
    ensures count { length awake.new.items ≡ tiles plan.now }
    ensures asleep { (n : ℕ) → is_awake awake.new.items n ≡ false → is_awake awake.old.items n ≡ false }
    ensures nothing { (n port : ℕ) → port < ports plan.now → neighbour plan.now m port ≡ Some n
        → is_awake awake.new.items n ≡ false → SendsNothing plan.now rows.now pulses.now m port }
{
    for port in 0..plan.ports() {
        wake_by(plan, rows, pulses, m, port, awake);
    }
}

/// The tiles to which something goes from tile `m`, if that is awake, are awake.
fn wake_from_if(
    plan: &Plan,
    rows: &[Pipe],
    pulses: &[Lanes<Option<u32>>],
    m: u32,
    sends: bool,
    awake: &mut Vec<bool>,
)
    requires tile { m < tiles plan.now }
    requires rows { length rows.now ≡ tiles plan.now * ports plan.now }
    requires pulses { length pulses.now ≡ tiles plan.now }
    requires pulse_ports { (k : ℕ) → k < tiles plan.now → HasPorts plan.now (pulses_of pulses.now k) }
    requires awake { length awake.old.items ≡ tiles plan.now }
    ensures count { length awake.new.items ≡ tiles plan.now }
    ensures asleep { (n : ℕ) → is_awake awake.new.items n ≡ false → is_awake awake.old.items n ≡ false }
    ensures nothing { sends ≡ true → (n port : ℕ) → port < ports plan.now → neighbour plan.now m port ≡ Some n
        → is_awake awake.new.items n ≡ false → SendsNothing plan.now rows.now pulses.now m port }
{
    if sends {
        wake_from(plan, rows, pulses, m, awake);
    }
}

/// The tiles to which something goes from those that were awake are awake.
fn wake_near(plan: &Plan, rows: &[Pipe], pulses: &[Lanes<Option<u32>>], awake: &mut Vec<bool>)
    requires rows { length rows.now ≡ tiles plan.now * ports plan.now }
    requires pulses { length pulses.now ≡ tiles plan.now }
    requires pulse_ports { (k : ℕ) → k < tiles plan.now → HasPorts plan.now (pulses_of pulses.now k) }
    requires awake { length awake.old.items ≡ tiles plan.now }
    ensures count { length awake.new.items ≡ tiles plan.now }
    ensures asleep { (n : ℕ) → is_awake awake.new.items n ≡ false → is_awake awake.old.items n ≡ false }
    ensures nothing { (m n port : ℕ) → m < tiles plan.now → port < ports plan.now
        → is_awake awake.old.items m ≡ true → neighbour plan.now m port ≡ Some n
        → is_awake awake.new.items n ≡ false → SendsNothing plan.now rows.now pulses.now m port }
{
    for m in 0..plan.tiles() {
        wake_from_if(plan, rows, pulses, m, awake[m as usize], awake);
    }
}

/// Whether each tile is awake.
fn are_all_awake(awake: &[bool]) -> bool
    ensures { result ≡ true → (n : ℕ) → n < length awake.now → is_awake awake.now n ≡ true }
{
    for n in 0..awake.len() {
        if !awake[n] {
            return false;
        }
    }
    true
}

/// The tiles to which something goes from those that were awake are awake. Where all tiles are, nothing is looked at.
pub(crate) fn wake_neighbours(
    plan: &Plan,
    rows: &[Pipe],
    pulses: &[Lanes<Option<u32>>],
    awake: &mut Vec<bool>,
)
    requires rows { length rows.now ≡ tiles plan.now * ports plan.now }
    requires pulses { length pulses.now ≡ tiles plan.now }
    requires pulse_ports { (k : ℕ) → k < tiles plan.now → HasPorts plan.now (pulses_of pulses.now k) }
    requires awake { length awake.old.items ≡ tiles plan.now }
    ensures count { length awake.new.items ≡ tiles plan.now }
    ensures asleep { (n : ℕ) → is_awake awake.new.items n ≡ false → is_awake awake.old.items n ≡ false }
    ensures nothing { (m n port : ℕ) → m < tiles plan.now → port < ports plan.now
        → is_awake awake.old.items m ≡ true → neighbour plan.now m port ≡ Some n
        → is_awake awake.new.items n ≡ false → SendsNothing plan.now rows.now pulses.now m port }
{
    plan.known();
    if !are_all_awake(awake.as_slice()) {
        wake_near(plan, rows, pulses, awake);
    }
}

/// A tile is awake where a word is offered at its attachment `j`.
fn wake_host<D: Drive>(cycle: u32, j: u32, tile: u32, drive: &D, awake: &mut Vec<bool>)
    requires there { j < D.count drive.now }
    requires tile { tile < length awake.old.items }
    ensures count { length awake.new.items ≡ length awake.old.items }
    ensures asleep { (n : ℕ) → is_awake awake.new.items n ≡ false → is_awake awake.old.items n ≡ false }
    ensures nothing { is_awake awake.new.items tile ≡ false
        → (D.driver drive.now).offer j (D.state drive.now j) cycle ≡ None }
{
    if !awake[tile as usize] && drive.offer(j, cycle).is_some() {
        awake[tile as usize] = true;
    }
}

/// The tiles at which words are offered are awake.
fn wake_offered<D: Drive>(plan: &Plan, cycle: u32, drive: &D, awake: &mut Vec<bool>)
    requires count { D.count drive.now ≡ length plan.now.hosts }
    requires awake { length awake.old.items ≡ tiles plan.now }
    ensures count { length awake.new.items ≡ tiles plan.now }
    ensures asleep { (n : ℕ) → is_awake awake.new.items n ≡ false → is_awake awake.old.items n ≡ false }
    ensures nothing { (j : ℕ) (h : Host) → slice_get plan.now.hosts j ≡ Some h
        → is_awake awake.new.items h.tile ≡ false
        → (D.driver drive.now).offer j (D.state drive.now j) cycle ≡ None }
{
    plan.known();
    for j in 0..plan.attach_count() {
        wake_host(cycle, j, plan.attach(j).tile, drive, awake);
    }
}

/// The tiles at which words are offered are awake. Where all tiles are, nobody is asked.
pub(crate) fn wake_hosts<D: Drive>(plan: &Plan, cycle: u32, drive: &D, awake: &mut Vec<bool>)
    requires count { D.count drive.now ≡ length plan.now.hosts }
    requires awake { length awake.old.items ≡ tiles plan.now }
    ensures count { length awake.new.items ≡ tiles plan.now }
    ensures asleep { (n : ℕ) → is_awake awake.new.items n ≡ false → is_awake awake.old.items n ≡ false }
    ensures nothing { (j : ℕ) (h : Host) → slice_get plan.now.hosts j ≡ Some h
        → is_awake awake.new.items h.tile ≡ false
        → (D.driver drive.now).offer j (D.state drive.now j) cycle ≡ None }
{
    plan.known();
    if !are_all_awake(awake.as_slice()) {
        wake_offered(plan, cycle, drive, awake);
    }
}

/// Whether no flit is on the links that leave a tile.
fn has_no_flits(plan: &Plan, tile: u32, rows: &[Pipe]) -> bool
    requires tile { tile < tiles plan.now }
    requires rows { length rows.now ≡ tiles plan.now * ports plan.now }
    ensures { result ≡ true → (o i : ℕ) → o < ports plan.now → place_at (row_of plan.now rows.now tile o) i ≡ None }
{
    for port in 0..plan.ports() {
        if !row_at(plan, rows, tile, port).is_empty() {
            return false;
        }
    }
    true
}

/// Whether a tile with these pulses gives no credit back.
fn has_no_pulses(plan: &Plan, pulses: &Lanes<Option<u32>>) -> bool
    requires { HasPorts plan.now pulses.now }
    ensures { result ≡ true → (d port : ℕ) → d < length plan.now.domains → port < ports plan.now
        → pulse_at pulses.now d port ≡ None }
{
    for port in 0..plan.ports() {
        if has_pulse(plan, pulses, port) {
            return false;
        }
    }
    true
}

/// Whether a tile has nothing to do.
fn may_sleep(
    plan: &Plan,
    tile: u32,
    router: &Router,
    rows: &[Pipe],
    pulses: &[Lanes<Option<u32>>],
) -> bool
    requires tile { tile < tiles plan.now }
    requires made { IsMade router.now plan.now }
    requires rows { length rows.now ≡ tiles plan.now * ports plan.now }
    requires pulses { length pulses.now ≡ tiles plan.now }
    requires pulse_ports { (k : ℕ) → k < tiles plan.now → HasPorts plan.now (pulses_of pulses.now k) }
    ensures { result ≡ true → IsAsleep plan.now tile router.now rows.now pulses.now }
{
    router.is_idle(plan)
        && has_no_flits(plan, tile, rows)
        && has_no_pulses(plan, &pulses[tile as usize])
}

/// Whether a tile that is awake, or isn't, is awake from now on.
fn stays_awake(
    plan: &Plan,
    tile: u32,
    awake: bool,
    router: &Router,
    rows: &[Pipe],
    pulses: &[Lanes<Option<u32>>],
) -> bool
    requires tile { tile < tiles plan.now }
    requires made { IsMade router.now plan.now }
    requires rows { length rows.now ≡ tiles plan.now * ports plan.now }
    requires pulses { length pulses.now ≡ tiles plan.now }
    requires pulse_ports { (k : ℕ) → k < tiles plan.now → HasPorts plan.now (pulses_of pulses.now k) }
    requires asleep { awake ≡ false → IsAsleep plan.now tile router.now rows.now pulses.now }
    ensures { result ≡ false → IsAsleep plan.now tile router.now rows.now pulses.now }
{
    awake && !may_sleep(plan, tile, router, rows, pulses)
}

/// The tiles that have nothing to do sleep from now on.
fn sleep_quiet(
    plan: &Plan,
    routers: &[Router],
    rows: &[Pipe],
    pulses: &[Lanes<Option<u32>>],
    awake: &mut Vec<bool>,
)
    requires routers { length routers.now ≡ tiles plan.now }
    requires made { (n : ℕ) (r : Parts) → slice_get routers.now n ≡ Some r → IsMade r plan.now }
    requires rows { length rows.now ≡ tiles plan.now * ports plan.now }
    requires pulses { length pulses.now ≡ tiles plan.now }
    requires pulse_ports { (k : ℕ) → k < tiles plan.now → HasPorts plan.now (pulses_of pulses.now k) }
    requires asleep { AreAsleep plan.now routers.now rows.now pulses.now awake.old.items }
    ensures { AreAsleep plan.now routers.now rows.now pulses.now awake.new.items }
{
    for n in 0..plan.tiles() {
        awake[n as usize] = stays_awake(
            plan,
            n,
            awake[n as usize],
            &routers[n as usize],
            rows,
            pulses,
        );
    }
}

/// In one cycle of 16, the tiles that have nothing to do sleep from now on: to look at each in each cycle would cost a
/// busy network more than a few cycles of a quiet tile.
pub(crate) fn sleep_all(
    plan: &Plan,
    cycle: u32,
    routers: &[Router],
    rows: &[Pipe],
    pulses: &[Lanes<Option<u32>>],
    awake: &mut Vec<bool>,
)
    requires routers { length routers.now ≡ tiles plan.now }
    requires made { (n : ℕ) (r : Parts) → slice_get routers.now n ≡ Some r → IsMade r plan.now }
    requires rows { length rows.now ≡ tiles plan.now * ports plan.now }
    requires pulses { length pulses.now ≡ tiles plan.now }
    requires pulse_ports { (k : ℕ) → k < tiles plan.now → HasPorts plan.now (pulses_of pulses.now k) }
    requires asleep { AreAsleep plan.now routers.now rows.now pulses.now awake.old.items }
    ensures { AreAsleep plan.now routers.now rows.now pulses.now awake.new.items }
{
    if cycle % 16 == 15 {
        sleep_quiet(plan, routers, rows, pulses, awake);
    }
}
