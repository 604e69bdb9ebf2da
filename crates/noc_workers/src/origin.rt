//! A run of a network, of which mails say that they are.

ghost use Rattle.std.specs.Prelude.{◌≡◌};
ghost use Rattle.noc_workers.specs.Rounds.{start_by, start_of};

use noc_engine::Plan;
use noc_packet::Packet;
use noc_route::Relation;
use std::snapshot::Snapshot;

/// A run of a network: from what the network was made, and where the run begins.
#[derive(Clone, Copy)]
pub(crate) struct Run<'a> {
    pub(crate) relation: &'a Relation,
    /// Flits in each buffer.
    pub(crate) depth: usize,
    pub(crate) packets: &'a Vec<Packet>,
    /// The network in the words of its blocks.
    pub(crate) plan: &'a Plan,
    /// The cycle with which it begins.
    pub(crate) cycle: u32,
}

impl<'a> Run<'a> {
    /// A run of what is made from this, by this plan, from this cycle on.
    pub(crate) fn of(
        relation: &'a Relation,
        depth: usize,
        packets: &'a Vec<Packet>,
        plan: &'a Plan,
        cycle: u32,
    ) -> Run<'a>
        ensures { start_by result
            ≡ start_of relation.now depth packets.now.items plan.now cycle }
    {
        Run {
            relation,
            depth,
            packets,
            plan,
            cycle,
        }
    }
}

/// A run of tiles as clauses see it: it has no bytes.
#[derive(Drop)]
pub(crate) struct Origin {
    pub(crate) relation: Snapshot<Relation>,
    pub(crate) depth: Snapshot<usize>,
    pub(crate) packets: Snapshot<Vec<Packet>>,
    pub(crate) plan: Snapshot<Plan>,
    pub(crate) cycle: Snapshot<u32>,
}

impl Origin {
    /// That of a run.
    pub(crate) fn of(run: &Run<'_>) -> Origin
        ensures relation { result.relation.value ≡ run.now.relation.now }
        ensures depth { result.depth.value ≡ run.now.depth }
        ensures packets { result.packets.value ≡ run.now.packets.now }
        ensures plan { result.plan.value ≡ run.now.plan.now }
        ensures cycle { result.cycle.value ≡ run.now.cycle }
    {
        Origin {
            relation: Snapshot::of(run.relation),
            depth: Snapshot::of(&run.depth),
            packets: Snapshot::of(run.packets),
            plan: Snapshot::of(run.plan),
            cycle: Snapshot::of(&run.cycle),
        }
    }
}
