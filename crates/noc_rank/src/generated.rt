//! Ranks by formula: the order of channels behind each rule's freedom from deadlock (Dally
//! and Towles, chapter 14).

ghost use Rattle.std.specs.Prelude.{◌≡◌, ◌+◌, ◌*◌, ◌/◌, ◌<◌, ◌≤◌, IfOk, IfSome, true, slice_index};
ghost use Rattle.noc_topo.specs.declared.limits.TheConstants.{MAX_RADIX};
ghost use Rattle.noc_topo.specs.Shape.{IsGrid, nodes, dimensions, coordinates, local_port};
ghost use Rattle.noc_route.specs.Ranks.{rank_count};
ghost use Rattle.noc_rank.specs.Formulas.{has_ranks, is_ranked, passed_in, west_first_rank, formula};

use crate::channel::{all_ports, is_channel, link_ports};
use noc_route::{Rule, escapes, is_right, resource_class};
use noc_topo::{Kind, MAX_RADIX, Shape};
use std::alloc::{AllocError, Global};

// No rank by formula is above this one.
const HIGHEST: u32 = 1000;

// Whether a rule fits these numbers and has ranks by formula: dimension order on a mesh, dateline,
// west first and adaptive.
pub(crate) fn has_ranks(shape: &Shape, vcs: usize, classes: usize, rule: &Rule) -> bool
    ensures { result ≡ has_ranks shape.now vcs classes rule.now }
{
    is_right(shape, vcs, classes, rule)
        && match rule {
            Rule::Dor => shape.kind() == Kind::Mesh,
            Rule::Dateline | Rule::WestFirst | Rule::Adaptive => true,
            Rule::Rows(_) => false,
        }
}

// A rule that has ranks by formula, with the shape and the numbers that it fits.
#[derive(Drop)]
pub(crate) struct Formula<'a> {
    pub(crate) shape: &'a Shape,
    pub(crate) vcs: usize,
    pub(crate) classes: usize,
    pub(crate) rule: &'a Rule,
    ghost ruled: { has_ranks shape.now vcs classes rule.now ≡ true },
}

impl<'a> Formula<'a> {
    ghost use Rattle.noc_rank.specs.Formulated.{AreByFormula, IsWithin, rank_in, part_in};

    // The ranks of all channels of link ports, none where a port has no link
    // and for adaptive channels.
    pub(crate) fn ranks(&self, alloc: Global) -> Result<Vec<Option<u32>>, AllocError>
        ensures ranks { IfOk result (λ ranks. AreByFormula self.now
            (rank_count self.now.shape.now self.now.vcs) ranks.items) }
        ensures grid { IsGrid self.now.shape.now }
    {
        let ports = link_ports(self.shape);
        let count = all_ports(self.shape) * self.vcs;
        let mut ranks = Vec::with_capacity(alloc, count)?;
        for index in 0..count {
            let channel = index / self.vcs;
            ranks.push_reserved(self.rank_at(channel / ports, channel % ports, index % self.vcs));
        }
        Ok(ranks)
    }

    // The rank of a channel of a link port, none where the port has no link or
    // the channel is adaptive.
    fn rank_at(&self, router: usize, port: usize, vc: usize) -> Option<u32>
        requires router { router < nodes self.now.shape.now }
        requires port { port < local_port self.now.shape.now }
        ensures value { result ≡ rank_in self.now router port vc }
        ensures within { IfSome result IsWithin }
    {
        if !is_channel(self.shape, self.vcs, router, port, vc) || !self.is_ranked(vc) {
            return None;
        }
        Some(self.rank(router, port, vc) as u32)
    }

    // Whether the rule gives this channel of a link a rank: all, but the adaptive ones.
    fn is_ranked(&self, vc: usize) -> bool
        ensures { result ≡ is_ranked self.now.shape.now self.now.vcs self.now.classes
            self.now.rule.now vc }
    {
        match self.rule {
            Rule::Adaptive => vc % (self.vcs / self.classes) < escapes(self.shape),
            _ => true,
        }
    }

    // The rank of a link channel that has one.
    fn rank(&self, router: usize, port: usize, vc: usize) -> usize
        requires router { router < nodes self.now.shape.now }
        requires port { port < local_port self.now.shape.now }
        requires ranked { is_ranked self.now.shape.now self.now.vcs self.now.classes
            self.now.rule.now vc ≡ true }
        ensures value { result
            ≡ formula self.now.shape.now self.now.vcs self.now.classes self.now.rule.now router port
            vc }
        ensures within { IsWithin result }
    {
        match self.rule {
            Rule::WestFirst => west_first_rank(self.shape, router, port),
            _ => axis_of(self.shape, router, port / 2).rank(port, self.part(vc)),
        }
    }

    // The part of a dimension's channels in which this one is, in the order in which packets take
    // them: by dateline the half of its class's channels, by adaptive the escape channel.
    fn part(&self, vc: usize) -> usize
        requires { is_ranked self.now.shape.now self.now.vcs self.now.classes self.now.rule.now vc
            ≡ true }
        ensures value { result ≡ part_in self.now vc }
        ensures few { result ≤ 2 }
    {
        match self.rule {
            Rule::Dateline => resource_class(self.vcs, self.classes, vc),
            Rule::Adaptive => vc % (self.vcs / self.classes),
            Rule::Dor | Rule::WestFirst | Rule::Rows(_) => 0,
        }
    }
}

// The rank of a link channel by west first: the ports down dimension 0 before all others.
fn west_first_rank(shape: &Shape, router: usize, port: usize) -> usize
    requires dimensions { dimensions shape.now ≡ 2 }
    requires router { router < nodes shape.now }
    requires port { port < 4 }
    ensures value { result ≡ west_first_rank shape.now router port }
    ensures within { (1 ≤ result) × (result ≤ HIGHEST) }
{
    let first = axis_of(shape, router, 0);
    let second = axis_of(shape, router, 1);
    let start = first.size + first.at * (second.size + 1);
    match port {
        0 => start + second.size + 1,
        1 => first.size - first.at,
        _ => start + second.passed(port) + 1,
    }
}

// A coordinate in a dimension, with the size of the dimension.
#[derive(Clone, Copy)]
struct Axis {
    at: usize,
    size: usize,
    ghost inside: { at < size },
    ghost few: { size ≤ MAX_RADIX },
}

// The coordinate of a router in a dimension.
fn axis_of(shape: &Shape, router: usize, dimension: usize) -> Axis
    requires router { router < nodes shape.now }
    requires dimension { dimension < dimensions shape.now }
    ensures at { result.at ≡ slice_index (coordinates shape.now.radix router) dimension }
    ensures size { result.size ≡ slice_index shape.now.radix dimension }
    ensures grid { IsGrid shape.now }
{
    Axis {
        at: shape.coordinates(router)[dimension],
        size: shape.radix(dimension),
    }
}

impl Axis {
    // The rank of a channel of this part along a port of this dimension: dimension by dimension,
    // part by part, link by link.
    fn rank(self, port: usize, part: usize) -> usize
        requires port { port < 6 }
        requires part { part ≤ 2 }
        ensures value { result ≡ 32 *
            (port / 2) + part * self.size + passed_in self.size self.at port + 1 }
        ensures few { result ≤ HIGHEST }
    {
        32 * (port / 2) + part * self.size + self.passed(port) + 1
    }

    // How many routers lie behind this one, seen along a port of its dimension.
    fn passed(self, port: usize) -> usize
        ensures value { result ≡ passed_in self.size self.at port }
        ensures few { result < MAX_RADIX }
    {
        if port % 2 == 0 {
            self.at
        } else {
            self.size - 1 - self.at
        }
    }
}
