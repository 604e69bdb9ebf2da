//! What one router decides in one cycle.
//!
//! A plan keeps verdicts and no findings: it is seen as `PlanContents`, which has the round, what
//! is asked for, the verdicts and the routes. Packet and output channel of a finding are those of
//! the view, so `commit` reads them there. A whole cycle is defined by `Decisions`, which adds
//! findings; `decisions-are` proves once that both agree.

ghost use Rattle.std.specs.Prelude.{◌≡◌, ◌<◌, IsOkAnd, length, slice_index, slice_index_or, None};
ghost use Rattle.noc_topo.specs.Shape.{ports as ports_of};
ghost use Rattle.noc_router.specs.Decided.{empty_plan_contents};
ghost use Rattle.noc_view.specs.declared.verdict.Verdict.TheVariants.{Empty};

use noc_packet::{ChannelSet, INDICES, MAX_PORTS, Memory};
use noc_route::Relation;
use noc_view::Verdict;
use std::alloc::Global;
use std::marker::Model;

/// What one router's arbiters decide in one cycle, the sets for its heads, and the
/// verdict on each input channel.
///
/// One plan serves all routers, one after the other: it has room for any router.
#[derive(Drop)]
pub struct Plan {
    pub(crate) ports: usize,
    pub(crate) size: usize,
    // By input channel: the set for its head, the output channel that it asks for, its verdict.
    pub(crate) routes: [ChannelSet; INDICES],
    pub(crate) asks: [Option<usize>; INDICES],
    pub(crate) verdicts: [Verdict; INDICES],
    // The output port to which each input channel can send.
    pub(crate) ready: [Option<usize>; INDICES],
    // The input channel that each output channel goes to.
    pub(crate) grants: [Option<usize>; INDICES],
    // The virtual channel that each input port picks, and the input port that each output port
    // goes to.
    pub(crate) picks: [Option<usize>; MAX_PORTS],
    pub(crate) wins: [Option<usize>; MAX_PORTS],
}

impl Model for Plan {
    ghost use Rattle.noc_view.specs.View.{PlanContents};

    ghost Value = { PlanContents };

    ghost use Rattle.noc_router.specs.Planned.{plan_contents_in, IsPlan};

    ghost view = { plan_contents_in };

    ghost invariant = { IsPlan };
}

impl Plan {
    /// A plan without requests, of a router of this relation's network. It takes no memory from
    /// `alloc`, so it is never refused.
    pub fn new(alloc: Global, relation: &Relation) -> Result<Plan, Memory>
        ensures { IsOkAnd result (λ plan. plan
            ≡ empty_plan_contents (ports_of relation.now.grid) relation.now.vcs) }
    {
        let _ = alloc;
        Ok(Plan::empty(relation))
    }

    // A plan without requests, of a router of this relation's network.
    fn empty(relation: &Relation) -> Plan
        ensures { result ≡ empty_plan_contents (ports_of relation.now.grid) relation.now.vcs }
    {
        let ports = relation.shape().ports();
        Plan {
            ports,
            size: ports * relation.vcs(),
            routes: [ChannelSet::empty(); INDICES],
            asks: [None; INDICES],
            verdicts: [Verdict::Empty; INDICES],
            ready: [None; INDICES],
            grants: [None; INDICES],
            picks: [None; MAX_PORTS],
            wins: [None; MAX_PORTS],
        }
    }

    /// Makes it a plan without requests again, of a router of this relation's network.
    pub fn clear(&mut self, relation: &Relation)
        ensures { self.new ≡ empty_plan_contents (ports_of relation.now.grid) relation.now.vcs }
    {
        *self = Plan::empty(relation);
    }

    // The input channel that each output channel goes to.
    pub(crate) fn grants(&self) -> &[Option<usize>]
        ensures { result.now ≡ self.now.round.grants }
    {
        &self.grants[..self.size]
    }

    // The virtual channel that each input port picks.
    pub(crate) fn picks(&self) -> &[Option<usize>]
        ensures { result.now ≡ self.now.round.picks }
    {
        &self.picks[..self.ports]
    }

    // The input port that each output port goes to.
    pub(crate) fn wins(&self) -> &[Option<usize>]
        ensures { result.now ≡ self.now.round.wins }
    {
        &self.wins[..self.ports]
    }

    // The verdict on an input channel.
    pub(crate) fn verdict(&self, index: usize) -> Verdict
        requires { index < length self.now.verdicts }
        ensures { result ≡ slice_index_or self.now.verdicts index Empty }
    {
        let verdicts = &self.verdicts;
        verdicts[index]
    }

    // The output channel that an input channel asks for.
    pub(crate) fn ask(&self, index: usize) -> Option<usize>
        requires { index < length self.now.asks }
        ensures { result ≡ slice_index_or self.now.asks index None }
    {
        let asks = &self.asks;
        asks[index]
    }

    // The set for the head of an input channel: the empty one where there is none.
    pub(crate) fn route(&self, index: usize) -> ChannelSet
        requires { index < length self.now.routes }
        ensures { result ≡ slice_index self.now.routes index }
    {
        let routes = &self.routes;
        routes[index]
    }
}
