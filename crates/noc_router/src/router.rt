//! The router.

ghost use Rattle.std.specs.List.Sorted.{IsStrictlyIncreasing};
ghost use Rattle.std.specs.Prelude.{◌≡◌, ℕ, ◌+◌, ◌*◌, ◌/◌, ◌%◌, ◌<◌, ◌≤◌, All, IfOk, length, slice_index_or, [], None};
ghost use Rattle.noc_topo.specs.Shape.{nodes as nodes_of, ports as ports_of, local_port, neighbour as neighbour_of};
ghost use Rattle.noc_view.specs.Arrivals.{noted_arrival};
ghost use Rattle.noc_view.specs.Finish.{view_after_finish};
ghost use Rattle.noc_view.specs.View.{IsRelationOf, opening_view, local_step};
ghost use Rattle.noc_view.specs.Start.{IsNumberedPacket};

use crate::arbiters::Arbiters;
use crate::arrivals::Arrivals;
use crate::channels::Channels;
use crate::parts::new_parts;
use crate::plan::Plan;
use crate::source::Source;
use crate::tally::VerdictTally;
use noc_packet::{Beat, MAX_BUFFER, Memory, Packet};
use noc_route::Relation;
use noc_topo::{LINKS, Shape};
use noc_view::{Finding, VERDICTS};
use std::alloc::Global;
use std::marker::Model;

/// One router with virtual channels and credit-based flow control (Dally and Towles, chapter 16),
/// the source and the sink of its node, and what it counts.
///
/// A cycle takes a beat at each link port (`take`), injects at most one flit (`inject`), and
/// decides on one frozen state (`plan`). It then lets all verdicts take effect (`commit`) and puts
/// a beat on each link (`put`); `step` does it whole. What comes in and does not fit is turned away
/// and adds one to `misfits`.
#[derive(Drop)]
pub struct Router {
    pub(crate) node: usize,
    pub(crate) ports: usize,
    pub(crate) vcs: usize,
    depth: usize,
    pub(crate) cycle: u64,
    pub(crate) had_event: bool,
    pub(crate) last_event: Option<u64>,
    pub(crate) misfits: u64,
    pub(crate) source: Source,
    pub(crate) channels: Channels,
    // The beat that is still to be put on each link.
    pub(crate) to_put: [Beat; LINKS],
    pub(crate) tally: VerdictTally,
    pub(crate) arbiters: Arbiters,
    pub(crate) arrivals: Arrivals,
    shape: Shape,
    // The neighbour at each link port, and the port by which a flit enters there, as the shape has
    // them.
    neighbours: [Option<(usize, usize)>; LINKS],
}

impl Model for Router {
    ghost use Rattle.noc_view.specs.View.{View};

    ghost Value = { View };

    ghost use Rattle.noc_router.specs.Inside.{view_of, IsRouter};

    ghost view = { view_of };

    ghost invariant = { IsRouter };
}

impl Router {
    /// The router of a node before its first cycle, with buffers of `depth` (1 to 16) flits.
    ///
    /// `starts` are the packets of this node with their numbers, by due time and then by number;
    /// `ends` are the numbers of the packets that are built to end here, rising.
    pub fn new(
        alloc: Global,
        relation: &Relation,
        node: usize,
        depth: usize,
        starts: Vec<(u32, Packet)>,
        ends: Vec<u32>,
    ) -> Result<Router, Memory>
        requires node { node < nodes_of relation.now.grid }
        requires some_depth { 0 < depth }
        requires depth { depth ≤ MAX_BUFFER }
        requires starts { All IsNumberedPacket starts.items }
        requires ends { IsStrictlyIncreasing ends.items }
        ensures { IfOk result (λ router. router ≡ opening_view (record
            { grid = relation.now.grid; node = node; vcs = relation.now.vcs; depth = depth })
            starts.items ends.items) }
    {
        let shape = *relation.shape();
        let ports = shape.ports();
        let vcs = relation.vcs();
        let arrivals = Arrivals::new(alloc, ends)?;
        let parts = new_parts(alloc, ports, vcs, depth)?;
        let (channels, tally, arbiters) = parts;
        Ok(Router {
            node,
            ports,
            vcs,
            depth,
            cycle: 0,
            had_event: false,
            last_event: None,
            misfits: 0,
            source: Source::new(starts),
            channels,
            to_put: [Beat::idle(); LINKS],
            tally,
            arbiters,
            arrivals,
            shape,
            neighbours: neighbours_of(&shape, node),
        })
    }

    /// One whole cycle: the beats that came, one for each link port, and the beats that go out.
    pub fn step(
        &mut self,
        relation: &Relation,
        plan: &mut Plan,
        cycle: u64,
        beats_in: &[Beat],
        beats_out: &mut [Beat],
    )
        requires relation { IsRelationOf relation.now self.old }
        requires beats_in { length beats_in.now ≡ local_port self.old.site.grid }
        requires beats_out { length beats_out.old ≡ local_port self.old.site.grid }
        ensures view { self.new ≡ (local_step relation.now self.old beats_in.now cycle).0 }
        ensures site { self.new.site ≡ self.old.site }
        ensures beats { beats_out.new ≡ (local_step relation.now self.old beats_in.now cycle).1 }
    {
        self.take_all(relation, beats_in);
        self.inject(cycle);
        self.plan(relation, plan);
        self.commit(plan);
        self.put_all(beats_out);
    }

    /// Ends a cycle of a router that has taken its beats: it injects what is due by cycle
    /// `cycle` (from 0), decides and commits.
    pub fn finish(&mut self, relation: &Relation, plan: &mut Plan, cycle: u64)
        requires { IsRelationOf relation.now self.old }
        ensures { self.new ≡ view_after_finish relation.now cycle self.old }
    {
        self.inject(cycle);
        self.plan(relation, plan);
        self.commit(plan);
    }

    /// The neighbour at a link port, and the port by which a flit enters there:
    /// None at a border of a mesh.
    pub fn neighbour(&self, port: usize) -> Option<(usize, usize)>
        requires { port < local_port self.now.site.grid }
        ensures { result ≡ neighbour_of self.now.site.grid self.now.site.node port }
    {
        let neighbours = &self.neighbours;
        neighbours[port]
    }

    // The port and the virtual channel of an index.
    pub(crate) fn split(&self, index: usize) -> (usize, usize)
        ensures { result ≡ (index / self.now.site.vcs, index % self.now.site.vcs) }
    {
        (index / self.vcs, index % self.vcs)
    }

    /// What was found in the last cycle, by input channel (port * V + virtual channel): nothing
    /// before the first.
    pub fn findings(&self) -> &[Finding]
        ensures { result.now ≡ self.now.findings }
    {
        self.tally.findings()
    }

    /// In how many cycles each verdict was that of an input channel, in the order of `Verdict`.
    pub fn counts(&self, port: usize, vc: usize) -> [u64; VERDICTS]
        requires port { port < ports_of self.now.site.grid }
        requires vc { vc < self.now.site.vcs }
        ensures { result ≡ slice_index_or self.now.counts (port * self.now.site.vcs + vc) [] }
    {
        self.tally.counts(port * self.vcs + vc)
    }

    /// The last cycle in which a flit was injected or landed, a credit came,
    /// or a verdict took effect.
    pub fn last_event(&self) -> Option<u64>
        ensures { result ≡ self.now.last_event }
    {
        self.last_event
    }

    /// The cycle in which the tail of a packet was out here: None for one that
    /// was not built to end here.
    pub fn arrival(&self, packet: u32) -> Option<u64>
        ensures { result ≡ noted_arrival packet self.now.ends }
    {
        self.arrivals.cycle_of(packet)
    }

    /// How many flits and credits were turned away, and tails that came out where
    /// or when they should not.
    pub fn misfits(&self) -> u64
        ensures { result ≡ self.now.misfits }
    {
        self.misfits
    }
}

// The neighbour at each link port of a node, and the port by which a flit enters there.
fn neighbours_of(shape: &Shape, node: usize) -> [Option<(usize, usize)>; LINKS]
    requires { node < nodes_of shape.now }
    ensures { (port : ℕ) → port < local_port shape.now
        → slice_index_or result port None ≡ neighbour_of shape.now node port }
{
    let mut neighbours = [None; LINKS];
    for port in 0..shape.ports() - 1 {
        neighbours[port] = shape.neighbour(node, port);
    }
    neighbours
}
