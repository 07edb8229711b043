//! An accepted plan.

ghost use Rattle.std.specs.Prelude.{◌≡◌, ◌≢◌, ◌<◌, ◌≤◌, ℕ, length, slice_index, slice_get, slice_set, option_map, Some, is_some, IfSome, IfNone, IfOk};
ghost use Rattle.noc_model.specs.Plan.{product, tiles, ports, hop, channels, link_channels, classes, name_of, domain_named, places, hosts, attach_of, lookup};
ghost use Rattle.noc_model.specs.Limits.{most_sides, most_side, most_tiles, most_buffer, most_channels, most_domains};
ghost use Rattle.noc_model.specs.Sound.{AreSides, HaveChannels};
ghost use Rattle.noc_model.specs.Place.{side, coord, coords_in, tile_in, neighbour};

use crate::copies::copy_of;
use crate::domains::{all_link_channels, classes_of, find_in};
use crate::lookups::{host_in, range_in};
use crate::sides::{coord_in, minus_of, moved_in, plus_of, product_of};
use crate::{Host, Range, Way};
use std::alloc::{AllocError, Global};
use std::marker::Model;
use surf_base::Bytes;

/// A security domain: its name, of 1 to 16 bytes, and its virtual channels of each class, 1 to 4.
#[derive(Drop)]
pub struct DomainPart {
    pub name: Bytes,
    pub channels: u32,
}

/// What a plan is made of. Domains have their numbers by their order here.
#[derive(Drop)]
pub struct Parts {
    /// Whether each ring is closed by a wrap link.
    pub torus: bool,
    /// The tiles along each dimension, one to three sides.
    pub dims: Vec<u32>,
    /// The registers of a link, 1 to 4: a flit is on it for as many cycles.
    pub stages: u32,
    /// The flits that an input channel may hold, 1 to 16.
    pub buffer: u32,
    pub domains: Vec<DomainPart>,
    /// The attachments, by tile, then by domain.
    pub hosts: Vec<Host>,
    /// The addresses of tiles, apart from each other.
    pub ranges: Vec<Range>,
    /// The owners of a link's slots, in turn.
    pub slots: Vec<u32>,
}

impl Parts {
    ghost use Rattle.noc_model.specs.PlanOf.{plan_of};

    /// The buffer slots of a network of these parts, where every port counts as one with a link.
    pub fn places(&self) -> u32
        requires dims { length self.now.dims.items ≤ most_sides }
        requires sides { AreSides self.now.dims.items }
        requires tiles { product self.now.dims.items ≤ most_tiles }
        requires buffer { self.now.buffer ≤ most_buffer }
        requires domains { length self.now.domains.items ≤ most_domains }
        requires channels { HaveChannels self.now.domains.items }
        ensures { result ≡ places (plan_of self.now) }
    {
        let channels = all_link_channels(&self.domains, classes_of(self.torus));
        let sides = self.dims.as_slice();
        let ports = 1 + 2 * sides.len() as u32;
        product_of(sides) * ports * channels * self.buffer
    }
}

/// An accepted plan, which contracts see as the record of its parts.
#[derive(Drop)]
pub struct Plan {
    parts: Parts,
}

impl Model for Plan {
    ghost use Rattle.noc_model.specs.Plan.{Plan as PlanValue};

    ghost Value = { PlanValue };

    ghost use Rattle.noc_model.specs.PlanOf.{plan_of};
    ghost use Rattle.noc_model.specs.Sound.{IsSound};

    ghost view = { λ a. plan_of a.parts };

    ghost invariant = { λ a. IsSound (plan_of a.parts) };
}

impl Plan {
    ghost use Rattle.noc_model.specs.PlanOf.{plan_of};
    ghost use Rattle.noc_model.specs.Sound.{IsSound};

    /// The plan of these parts.
    pub fn new(parts: Parts) -> Plan
        requires { IsSound (plan_of parts) }
        ensures { result ≡ plan_of parts }
    {
        Plan { parts }
    }

    /// Lets callers' proofs use the invariant of a plan. It does nothing.
    pub fn known(&self)
        ensures { IsSound self.now }
    {
        let _ = &self.parts;
    }

    /// The number of tiles, 1 to 256.
    pub fn tiles(&self) -> u32
        ensures { result ≡ tiles self.now }
    {
        product_of(&self.parts.dims)
    }

    /// The number of dimensions, 1 to 3.
    pub fn dims(&self) -> u32
        ensures { result ≡ length self.now.dims }
    {
        self.parts.dims.len() as u32
    }

    /// The tiles along dimension `i`, 1 to 16.
    pub fn side(&self, i: u32) -> u32
        requires { i < length self.now.dims }
        ensures value { result ≡ side self.now i }
        ensures some { 1 ≤ result }
        ensures few { result ≤ most_side }
    {
        self.parts.dims[i as usize]
    }

    /// Whether each ring is closed by a wrap link.
    pub fn torus(&self) -> bool
        ensures { result ≡ self.now.torus }
    {
        self.parts.torus
    }

    /// The registers of a link, 1 to 4.
    pub fn stages(&self) -> u32
        ensures { result ≡ self.now.stages }
    {
        self.parts.stages
    }

    /// The flits that an input channel may hold, 1 to 16.
    pub fn buffer(&self) -> u32
        ensures { result ≡ self.now.buffer }
    {
        self.parts.buffer
    }

    /// The number of domains, 1 to 16.
    pub fn domains(&self) -> u32
        ensures { result ≡ length self.now.domains }
    {
        self.parts.domains.len() as u32
    }

    /// The name of domain `d`.
    pub fn name(&self, d: u32) -> &[u8]
        requires { d < length self.now.domains }
        ensures { result.now ≡ name_of self.now d }
    {
        self.parts.domains[d as usize].name.as_slice()
    }

    /// The domain of this name.
    pub fn find(&self, name: &[u8]) -> Option<u32>
        ensures value { result ≡ domain_named self.now name.now }
        ensures found { IfSome result (λ d. (d < length self.now.domains) × (name_of self.now d ≡ name.now)) }
        ensures absent { IfNone result ((d : ℕ) → d < length self.now.domains → name_of self.now d ≢ name.now) }
    {
        find_in(&self.parts.domains, name)
    }

    /// The ports of a tile, at most 7: the local one, and two for each dimension, with a link or without.
    pub fn ports(&self) -> u32
        ensures value { result ≡ ports self.now }
        ensures few { result ≤ 7 }
    {
        self.known();
        1 + 2 * self.dims()
    }

    /// The virtual channels of domain `d`, of each class, 1 to 4.
    pub fn channels(&self, d: u32) -> u32
        requires { d < length self.now.domains }
        ensures value { result ≡ channels self.now d }
        ensures some { 1 ≤ result }
        ensures few { result ≤ most_channels }
    {
        self.known();
        self.parts.domains[d as usize].channels
    }

    /// The virtual channels of domain `d` on a link, 1 to 8: those of every class.
    pub fn link_channels(&self, d: u32) -> u32
        requires { d < length self.now.domains }
        ensures value { result ≡ link_channels self.now d }
        ensures some { 1 ≤ result }
        ensures few { result ≤ 8 }
    {
        self.known();
        self.classes() * self.channels(d)
    }

    /// The number of channel classes: 1 on a mesh, 2 on a torus.
    pub fn classes(&self) -> u32
        ensures { result ≡ classes self.now }
    {
        classes_of(self.parts.torus)
    }

    /// The buffer slots of the network, at most 24,576, where every port counts as one with a link.
    pub fn places(&self) -> u32
        ensures { result ≡ places self.now }
    {
        self.parts.places()
    }

    /// The cycles from entering one link to entering the next, unstalled.
    pub fn hop(&self) -> u32
        ensures { result ≡ hop self.now }
    {
        self.parts.stages + 3
    }

    /// Coordinate `i` of tile `n`.
    pub fn coord(&self, n: u32, i: u32) -> u32
        requires { i < length self.now.dims }
        ensures value { result ≡ coord self.now n i }
        ensures below { result < side self.now i }
        ensures few { result < most_side }
    {
        coord_in(&self.parts.dims, n, i as usize)
    }

    /// The tile at the other end of the link that leaves tile `n` by the port.
    pub fn neighbour(&self, n: u32, port: u32) -> Option<u32>
        requires tile { n < tiles self.now }
        requires port { port < ports self.now }
        ensures value { result ≡ neighbour self.now n port }
        ensures tile { IfSome result (λ m. m < tiles self.now) }
    {
        match Way::of_port(port) {
            Way::Local => None,
            Way::Plus(i) => {
                let next = plus_of(self.parts.torus, self.side(i), self.coord(n, i));
                self.moved(n, i, next)
            }
            Way::Minus(i) => {
                let next = minus_of(self.parts.torus, self.side(i), self.coord(n, i));
                self.moved(n, i, next)
            }
        }
    }

    /// Tile `n` with its coordinate `i` changed to `next`, where there is one.
    fn moved(&self, n: u32, i: u32, next: Option<u32>) -> Option<u32>
        requires tile { n < tiles self.now }
        requires dim { i < length self.now.dims }
        requires below { IfSome next (λ y. y < side self.now i) }
        ensures value { result ≡ option_map (λ y. tile_in self.now.dims (slice_set (coords_in self.now.dims n) i y))
            next }
        ensures tile { IfSome result (λ m. m < tiles self.now) }
    {
        match next {
            Some(y) => Some(moved_in(&self.parts.dims, n, i as usize, y)),
            None => None,
        }
    }

    /// The number of slots, 1 to 64.
    pub fn slots(&self) -> u32
        ensures { result ≡ length self.now.slots }
    {
        self.parts.slots.len() as u32
    }

    /// The domain that owns slot `i`.
    pub fn slot(&self, i: u32) -> u32
        requires { i < length self.now.slots }
        ensures value { result ≡ slice_index self.now.slots i }
        ensures domain { result < length self.now.domains }
    {
        self.parts.slots[i as usize]
    }

    /// Whether tile `n` hosts domain `d`.
    pub fn hosts(&self, n: u32, d: u32) -> bool
        ensures { result ≡ hosts self.now n d }
    {
        self.parts
            .hosts
            .iter()
            .any(|h| h.tile == n && h.domain == d)
    }

    /// The number of attachments, at most 256: one for each domain that a tile hosts.
    pub fn attach_count(&self) -> u32
        ensures { result ≡ length self.now.hosts }
    {
        self.parts.hosts.len() as u32
    }

    /// Attachment `j`, by tile, then by domain.
    pub fn attach(&self, j: u32) -> Host
        requires { j < length self.now.hosts }
        ensures { slice_get self.now.hosts j ≡ Some result }
    {
        self.parts.hosts[j as usize]
    }

    /// The number of the attachment of tile `n` and domain `d`: none exactly where the tile doesn't host it.
    pub fn attach_of(&self, n: u32, d: u32) -> Option<u32>
        ensures value { result ≡ attach_of self.now n d }
        ensures found { IfSome result (λ j. slice_get self.now.hosts j ≡ Some (record { tile = n; domain = d })) }
        ensures hosted { is_some result ≡ hosts self.now n d }
    {
        host_in(&self.parts.hosts, n, d)
    }

    /// The tile that domain `d` reaches by the address: the one with a range that has it, where that tile hosts the
    /// domain.
    pub fn lookup(&self, d: u32, addr: u32) -> Option<u32>
        ensures { result ≡ lookup self.now d addr }
    {
        match range_in(&self.parts.ranges, addr) {
            Some(range) if self.hosts(range.tile, d) => Some(range.tile),
            _ => None,
        }
    }

    /// The number of address ranges, at most 1,024.
    pub fn range_count(&self) -> u32
        ensures { result ≡ length self.now.ranges }
    {
        self.parts.ranges.len() as u32
    }

    /// Range `i`.
    pub fn range(&self, i: u32) -> Range
        requires { i < length self.now.ranges }
        ensures { slice_get self.now.ranges i ≡ Some result }
    {
        self.parts.ranges[i as usize]
    }

    /// An equal plan.
    ///
    /// # Errors
    ///
    /// When memory runs out.
    pub fn copy(&self, alloc: Global) -> Result<Plan, AllocError>
        ensures { IfOk result (λ p. p ≡ self.now) }
    {
        let parts = copy_of(alloc, &self.parts)?;
        Ok(Plan { parts })
    }
}
