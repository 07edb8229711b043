//! All groups of a leaf, in order.

ghost use Rattle.std.specs.Prelude.{◌≡◌, ◌<◌, ◌≤◌, ◌*◌, ◌^◌, length, OnOk, IfOk};
ghost use Rattle.vl_tree.specs.Read.{read_leaf};
ghost use Rattle.flit_word.specs.Words.{bits};
ghost use Rattle.vl_model.specs.Laws.{with_items};
ghost use Rattle.noc_model.specs.Plan.{tiles, ports, link_channels};
ghost use Rattle.noc_model.specs.Place.{neighbour};
ghost use Rattle.leaf_tie.specs.Names.{bundle_name, credit_base, inner_groups};
ghost use Rattle.leaf_tie.specs.Whole.{each_group, link_uses, uses_slot};
ghost use Rattle.leaf_parts.specs.Phases.{items_of, all_of};
ghost use Rattle.gen_router.specs.Ordered.{its_slots, its_links, its_outputs, its_flits, its_channel, its_words, its_buffers, its_attachment, its_groups};
ghost use Rattle.gen_router.specs.Given.{slot_part, its_link, link_part, its_credits, output_part, flit_part, word_part, filled_buffers, buffer_part, local_buffers, hosted_part, first_groups, last_groups};

use flit_word::{channel_bits, flit_bits};
use gen_kit::{LeafWork, name_of};
use leaf_glue::{
    arrival, arriving_slot, eject, ends, filled, flit, freed, has_link, has_port, leaving_slot,
    led, link_buffer, local_buffer, on_channel, pulse, readies, switch_part, tails, unready, word,
};
use leaf_parts::{
    Phase, allocation, attachment, count_high, credits, idle_places, leaving_link, slot_counter,
};
use noc_model::Plan;
use std::alloc::{AllocError, Global};
use vl_tree::Name;

// The bits of a slot counter.
fn slot_bits(plan: &Plan) -> u32
    ensures value { result ≡ bits (length plan.now.slots) }
    ensures some { 1 ≤ result }
    ensures few { result ≤ 8 }
    ensures enough { length plan.now.slots ≤ 2 ^ result }
{
    plan.known();
    let count = plan.slots();
    for b in 1..8 {
        if count <= 2u32.pow(b) {
            return b;
        }
    }
    8
}

// Whether a link of the tile has the slot in cycle 0.
fn link_uses(plan: &Plan, tile: u32, slot: u32, out: u32) -> bool
    requires tile { tile < tiles plan.now }
    requires out { out < ports plan.now }
    ensures { result ≡ link_uses plan.now tile slot out (neighbour plan.now tile out) }
{
    match plan.neighbour(tile, out) {
        Some(from) => {
            leaving_slot(plan, tile, out) == slot || arriving_slot(plan, from, out) == slot
        }
        None => false,
    }
}

fn uses_slot(plan: &Plan, tile: u32, slot: u32) -> bool
    requires { tile < tiles plan.now }
    ensures { result ≡ uses_slot plan.now tile slot }
{
    plan.known();
    let mut used = link_uses(plan, tile, slot, 0);
    for out in 0..plan.ports() - 1 {
        let more = link_uses(plan, tile, slot, out + 1);
        used = used || more;
    }
    used
}

// The counter that begins at a slot, where a link needs it.
fn slot_part(
    alloc: Global,
    phase: Phase,
    plan: &Plan,
    tile: u32,
    slot: u32,
    work: &mut LeafWork,
) -> Result<(), AllocError>
    requires tile { tile < tiles plan.now }
    requires slot { slot < length plan.now.slots }
    ensures { OnOk result (read_leaf work.new.leaf ≡ with_items (read_leaf work.old.leaf)
        (all_of phase (slot_part plan.now tile slot))) }
{
    plan.known();
    if !uses_slot(plan, tile, slot) {
        return Ok(());
    }
    slot_counter(alloc, phase, plan, slot, slot_bits(plan) - 1, work)?;
    Ok(())
}

fn all_slots(
    alloc: Global,
    phase: Phase,
    plan: &Plan,
    tile: u32,
    work: &mut LeafWork,
) -> Result<(), AllocError>
    requires tile { tile < tiles plan.now }
    ensures { OnOk result (read_leaf work.new.leaf ≡ with_items (read_leaf work.old.leaf)
        (all_of phase (its_slots plan.now tile))) }
{
    for slot in 0..plan.slots() {
        slot_part(alloc, phase, plan, tile, slot, work)?;
    }
    Ok(())
}

// The row of a link.
fn its_link(
    alloc: Global,
    phase: Phase,
    plan: &Plan,
    tile: u32,
    out: u32,
    work: &mut LeafWork,
) -> Result<(), AllocError>
    requires tile { tile < tiles plan.now }
    requires out { out < ports plan.now }
    ensures { OnOk result (read_leaf work.new.leaf ≡ with_items (read_leaf work.old.leaf)
        (items_of phase (its_link plan.now tile out))) }
{
    plan.known();
    let first = leaving_slot(plan, tile, out);
    let high = channel_bits(plan) + flit_bits(plan);
    leaving_link(
        alloc,
        phase,
        plan,
        out,
        first,
        high,
        plan.stages() - 1,
        work,
    )
}

// What a link has for all domains.
fn link_part(
    alloc: Global,
    phase: Phase,
    plan: &Plan,
    tile: u32,
    out: u32,
    work: &mut LeafWork,
) -> Result<(), AllocError>
    requires tile { tile < tiles plan.now }
    requires out { out < ports plan.now }
    ensures { OnOk result (read_leaf work.new.leaf ≡ with_items (read_leaf work.old.leaf)
        (all_of phase (link_part plan.now tile out))) }
{
    plan.known();
    if !has_link(plan, tile, out) {
        return Ok(());
    }
    arrival(alloc, phase, plan, tile, out, work)?;
    its_link(alloc, phase, plan, tile, out, work)?;
    Ok(())
}

fn all_links(
    alloc: Global,
    phase: Phase,
    plan: &Plan,
    tile: u32,
    work: &mut LeafWork,
) -> Result<(), AllocError>
    requires tile { tile < tiles plan.now }
    ensures { OnOk result (read_leaf work.new.leaf ≡ with_items (read_leaf work.old.leaf)
        (all_of phase (its_links plan.now tile))) }
{
    for out in 0..plan.ports() {
        link_part(alloc, phase, plan, tile, out, work)?;
    }
    Ok(())
}

// What an output has before the switch.
fn output_part(
    alloc: Global,
    phase: Phase,
    plan: &Plan,
    tile: u32,
    domain: u32,
    out: u32,
    work: &mut LeafWork,
) -> Result<(), AllocError>
    requires tile { tile < tiles plan.now }
    requires domain { domain < length plan.now.domains }
    requires out { out < ports plan.now }
    ensures { OnOk result (read_leaf work.new.leaf ≡ with_items (read_leaf work.old.leaf)
        (all_of phase (output_part plan.now tile domain out))) }
{
    if !has_port(plan, tile, domain, out) {
        unready(alloc, phase, plan, domain, out, work)?;
        return Ok(());
    }
    led(alloc, phase, plan, tile, domain, out, work)?;
    allocation(alloc, phase, plan, tile, domain, out, work)?;
    readies(alloc, phase, plan, tile, domain, out, work)?;
    Ok(())
}

fn all_outputs(
    alloc: Global,
    phase: Phase,
    plan: &Plan,
    tile: u32,
    domain: u32,
    work: &mut LeafWork,
) -> Result<(), AllocError>
    requires tile { tile < tiles plan.now }
    requires domain { domain < length plan.now.domains }
    ensures { OnOk result (read_leaf work.new.leaf ≡ with_items (read_leaf work.old.leaf)
        (all_of phase (its_outputs plan.now tile domain))) }
{
    for out in 0..plan.ports() {
        output_part(alloc, phase, plan, tile, domain, out, work)?;
    }
    Ok(())
}

// What a port has behind the switch.
fn flit_part(
    alloc: Global,
    phase: Phase,
    plan: &Plan,
    tile: u32,
    domain: u32,
    port: u32,
    work: &mut LeafWork,
) -> Result<(), AllocError>
    requires tile { tile < tiles plan.now }
    requires domain { domain < length plan.now.domains }
    requires port { port < ports plan.now }
    ensures { OnOk result (read_leaf work.new.leaf ≡ with_items (read_leaf work.old.leaf)
        (all_of phase (flit_part plan.now tile domain port))) }
{
    if !has_port(plan, tile, domain, port) {
        return Ok(());
    }
    freed(alloc, phase, plan, domain, port, work)?;
    flit(alloc, phase, plan, domain, port, work)?;
    Ok(())
}

fn all_flits(
    alloc: Global,
    phase: Phase,
    plan: &Plan,
    tile: u32,
    domain: u32,
    work: &mut LeafWork,
) -> Result<(), AllocError>
    requires tile { tile < tiles plan.now }
    requires domain { domain < length plan.now.domains }
    ensures { OnOk result (read_leaf work.new.leaf ≡ with_items (read_leaf work.old.leaf)
        (all_of phase (its_flits plan.now tile domain))) }
{
    for port in 0..plan.ports() {
        flit_part(alloc, phase, plan, tile, domain, port, work)?;
    }
    Ok(())
}

/// The number of a domain's first credit.
pub fn credit_base(plan: &Plan, domain: u32) -> u32
    requires { domain ≤ length plan.now.domains }
    ensures value { result ≡ credit_base plan.now domain }
    ensures some { domain ≤ result }
    ensures few { result ≤ 8 * domain }
{
    plan.known();
    let mut base = 0;
    for earlier in 0..domain {
        base += plan.link_channels(earlier);
    }
    base
}

/// The bundle in which a credit stands.
///
/// # Errors
///
/// Memory ran out.
pub fn bundle_name(
    alloc: Global,
    head: &[u8],
    tile: u32,
    port: u32,
    credit: u32,
) -> Result<Name, AllocError>
    ensures { IfOk result (λ n. n ≡ bundle_name head.now tile port credit) }
{
    if credit < 64 {
        name_of(alloc, head, &[tile, port])
    } else {
        name_of(alloc, head, &[tile, port, 1])
    }
}

// A channel of a leaving link: whether a flit goes by it, and its credits.
fn channel_part(
    alloc: Global,
    phase: Phase,
    plan: &Plan,
    tile: u32,
    domain: u32,
    out: u32,
    channel: u32,
    work: &mut LeafWork,
) -> Result<(), AllocError>
    requires domain { domain < length plan.now.domains }
    requires out { out < ports plan.now }
    requires channel { channel < 8 }
    ensures { OnOk result (read_leaf work.new.leaf ≡ with_items (read_leaf work.old.leaf)
        (all_of phase (its_channel plan.now tile domain out channel))) }
{
    on_channel(alloc, phase, plan, domain, out, channel, work)?;
    its_credits(alloc, phase, plan, tile, domain, out, channel, work)?;
    Ok(())
}

// The credits of a channel of a leaving link.
fn its_credits(
    alloc: Global,
    phase: Phase,
    plan: &Plan,
    tile: u32,
    domain: u32,
    out: u32,
    channel: u32,
    work: &mut LeafWork,
) -> Result<(), AllocError>
    requires domain { domain < length plan.now.domains }
    requires out { out < ports plan.now }
    requires channel { channel < 8 }
    ensures { OnOk result (read_leaf work.new.leaf ≡ with_items (read_leaf work.old.leaf)
        (items_of phase (its_credits plan.now tile domain out channel))) }
{
    plan.known();
    let credit = credit_base(plan, domain) + channel;
    let bundle = bundle_name(alloc, b"ci", tile, out, credit)?;
    let place = if credit < 64 { credit } else { credit - 64 };
    let high = count_high(plan.buffer());
    credits(
        alloc, phase, plan, domain, out, channel, &bundle, place, high, work,
    )
}

fn all_channels(
    alloc: Global,
    phase: Phase,
    plan: &Plan,
    tile: u32,
    domain: u32,
    out: u32,
    work: &mut LeafWork,
) -> Result<(), AllocError>
    requires domain { domain < length plan.now.domains }
    requires out { out < ports plan.now }
    ensures { OnOk result (read_leaf work.new.leaf ≡ with_items (read_leaf work.old.leaf) (all_of phase
        (each_group (link_channels plan.now domain) (its_channel plan.now tile domain out)))) }
{
    for channel in 0..plan.link_channels(domain) {
        channel_part(alloc, phase, plan, tile, domain, out, channel, work)?;
    }
    Ok(())
}

// What a link has for the domain.
fn word_part(
    alloc: Global,
    phase: Phase,
    plan: &Plan,
    tile: u32,
    domain: u32,
    out: u32,
    work: &mut LeafWork,
) -> Result<(), AllocError>
    requires tile { tile < tiles plan.now }
    requires domain { domain < length plan.now.domains }
    requires out { out < ports plan.now }
    ensures { OnOk result (read_leaf work.new.leaf ≡ with_items (read_leaf work.old.leaf)
        (all_of phase (word_part plan.now tile domain out))) }
{
    if !has_link(plan, tile, out) {
        return Ok(());
    }
    all_channels(alloc, phase, plan, tile, domain, out, work)?;
    word(alloc, phase, plan, tile, domain, out, work)?;
    pulse(alloc, phase, plan, domain, out, work)?;
    Ok(())
}

fn all_words(
    alloc: Global,
    phase: Phase,
    plan: &Plan,
    tile: u32,
    domain: u32,
    work: &mut LeafWork,
) -> Result<(), AllocError>
    requires tile { tile < tiles plan.now }
    requires domain { domain < length plan.now.domains }
    ensures { OnOk result (read_leaf work.new.leaf ≡ with_items (read_leaf work.old.leaf)
        (all_of phase (its_words plan.now tile domain))) }
{
    for out in 0..plan.ports() {
        word_part(alloc, phase, plan, tile, domain, out, work)?;
    }
    Ok(())
}

// The buffers that a link from a tile fills.
fn filled_buffers(
    alloc: Global,
    phase: Phase,
    plan: &Plan,
    tile: u32,
    from: u32,
    domain: u32,
    port: u32,
    work: &mut LeafWork,
) -> Result<(), AllocError>
    requires from { from < tiles plan.now }
    requires domain { domain < length plan.now.domains }
    requires port { port < ports plan.now }
    ensures { OnOk result (read_leaf work.new.leaf ≡ with_items (read_leaf work.old.leaf) (all_of phase
        (filled_buffers plan.now tile domain port from))) }
{
    for channel in 0..plan.link_channels(domain) {
        link_buffer(alloc, phase, plan, tile, from, domain, port, channel, work)?;
    }
    Ok(())
}

fn buffer_part(
    alloc: Global,
    phase: Phase,
    plan: &Plan,
    tile: u32,
    domain: u32,
    port: u32,
    work: &mut LeafWork,
) -> Result<(), AllocError>
    requires tile { tile < tiles plan.now }
    requires domain { domain < length plan.now.domains }
    requires port { port < ports plan.now }
    ensures { OnOk result (read_leaf work.new.leaf ≡ with_items (read_leaf work.old.leaf)
        (all_of phase (buffer_part plan.now tile domain port))) }
{
    match plan.neighbour(tile, port) {
        Some(from) => filled_buffers(alloc, phase, plan, tile, from, domain, port, work),
        None => Ok(()),
    }
}

fn all_buffers(
    alloc: Global,
    phase: Phase,
    plan: &Plan,
    tile: u32,
    domain: u32,
    work: &mut LeafWork,
) -> Result<(), AllocError>
    requires tile { tile < tiles plan.now }
    requires domain { domain < length plan.now.domains }
    ensures { OnOk result (read_leaf work.new.leaf ≡ with_items (read_leaf work.old.leaf)
        (all_of phase (its_buffers plan.now tile domain))) }
{
    for port in 0..plan.ports() {
        buffer_part(alloc, phase, plan, tile, domain, port, work)?;
    }
    Ok(())
}

// The buffers that the attachment fills.
fn local_buffers(
    alloc: Global,
    phase: Phase,
    plan: &Plan,
    domain: u32,
    work: &mut LeafWork,
) -> Result<(), AllocError>
    requires domain { domain < length plan.now.domains }
    ensures { OnOk result (read_leaf work.new.leaf ≡ with_items (read_leaf work.old.leaf) (all_of phase
        (local_buffers plan.now domain))) }
{
    for channel in 0..plan.channels(domain) {
        local_buffer(alloc, phase, plan, domain, channel, work)?;
    }
    Ok(())
}

fn hosted(
    alloc: Global,
    phase: Phase,
    plan: &Plan,
    tile: u32,
    domain: u32,
    work: &mut LeafWork,
) -> Result<(), AllocError>
    requires tile { tile < tiles plan.now }
    requires domain { domain < length plan.now.domains }
    ensures { OnOk result (read_leaf work.new.leaf ≡ with_items (read_leaf work.old.leaf)
        (all_of phase (its_attachment plan.now tile domain))) }
{
    plan.known();
    on_channel(alloc, phase, plan, domain, 0, 0, work)?;
    eject(alloc, phase, plan, tile, domain, work)?;
    attachment(alloc, phase, plan, tile, domain, work)?;
    local_buffers(alloc, phase, plan, domain, work)?;
    Ok(())
}

fn hosted_part(
    alloc: Global,
    phase: Phase,
    plan: &Plan,
    tile: u32,
    domain: u32,
    work: &mut LeafWork,
) -> Result<(), AllocError>
    requires tile { tile < tiles plan.now }
    requires domain { domain < length plan.now.domains }
    ensures { OnOk result (read_leaf work.new.leaf ≡ with_items (read_leaf work.old.leaf)
        (all_of phase (hosted_part plan.now tile domain))) }
{
    if !plan.hosts(tile, domain) {
        return Ok(());
    }
    hosted(alloc, phase, plan, tile, domain, work)?;
    Ok(())
}

// What a domain has of the switch and before it.
fn first_groups(
    alloc: Global,
    phase: Phase,
    plan: &Plan,
    tile: u32,
    domain: u32,
    work: &mut LeafWork,
) -> Result<(), AllocError>
    requires tile { tile < tiles plan.now }
    requires domain { domain < length plan.now.domains }
    ensures { OnOk result (read_leaf work.new.leaf ≡ with_items (read_leaf work.old.leaf)
        (all_of phase (first_groups plan.now tile domain))) }
{
    filled(alloc, phase, plan, tile, domain, work)?;
    tails(alloc, phase, plan, tile, domain, work)?;
    all_outputs(alloc, phase, plan, tile, domain, work)?;
    switch_part(alloc, phase, plan, tile, domain, work)?;
    ends(alloc, phase, plan, domain, work)?;
    idle_places(alloc, phase, plan, domain, work)?;
    Ok(())
}

// What it has behind the switch.
fn last_groups(
    alloc: Global,
    phase: Phase,
    plan: &Plan,
    tile: u32,
    domain: u32,
    work: &mut LeafWork,
) -> Result<(), AllocError>
    requires tile { tile < tiles plan.now }
    requires domain { domain < length plan.now.domains }
    ensures { OnOk result (read_leaf work.new.leaf ≡ with_items (read_leaf work.old.leaf)
        (all_of phase (last_groups plan.now tile domain))) }
{
    all_flits(alloc, phase, plan, tile, domain, work)?;
    all_words(alloc, phase, plan, tile, domain, work)?;
    all_buffers(alloc, phase, plan, tile, domain, work)?;
    hosted_part(alloc, phase, plan, tile, domain, work)?;
    Ok(())
}

fn domain_groups(
    alloc: Global,
    phase: Phase,
    plan: &Plan,
    tile: u32,
    domain: u32,
    work: &mut LeafWork,
) -> Result<(), AllocError>
    requires tile { tile < tiles plan.now }
    requires domain { domain < length plan.now.domains }
    ensures { OnOk result (read_leaf work.new.leaf ≡ with_items (read_leaf work.old.leaf)
        (all_of phase (its_groups plan.now tile domain))) }
{
    first_groups(alloc, phase, plan, tile, domain, work)?;
    last_groups(alloc, phase, plan, tile, domain, work)?;
    Ok(())
}

fn all_domains(
    alloc: Global,
    phase: Phase,
    plan: &Plan,
    tile: u32,
    work: &mut LeafWork,
) -> Result<(), AllocError>
    requires tile { tile < tiles plan.now }
    ensures { OnOk result (read_leaf work.new.leaf ≡ with_items (read_leaf work.old.leaf) (all_of phase
        (each_group (length plan.now.domains) (its_groups plan.now tile)))) }
{
    for domain in 0..plan.domains() {
        domain_groups(alloc, phase, plan, tile, domain, work)?;
    }
    Ok(())
}

/// Writes a part of all groups but those of the output ports.
///
/// # Errors
///
/// Memory ran out.
pub fn inner(
    alloc: Global,
    phase: Phase,
    plan: &Plan,
    tile: u32,
    work: &mut LeafWork,
) -> Result<(), AllocError>
    requires { tile < tiles plan.now }
    ensures { OnOk result (read_leaf work.new.leaf ≡ with_items (read_leaf work.old.leaf)
        (all_of phase (inner_groups plan.now tile))) }
{
    all_slots(alloc, phase, plan, tile, work)?;
    all_links(alloc, phase, plan, tile, work)?;
    all_domains(alloc, phase, plan, tile, work)?;
    Ok(())
}
