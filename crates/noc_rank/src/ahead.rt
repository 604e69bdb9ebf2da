//! The least mark ahead of each channel, through adaptive channels.

ghost use Rattle.std.specs.Prelude.{◌≡◌, ◌+◌, ◌<◌, None, length, if◌then◌else◌};
ghost use Rattle.noc_topo.specs.Shape.{nodes, distance};
ghost use Rattle.noc_packet.specs.declared.limits.TheConstants.{INDICES};
ghost use Rattle.noc_route.specs.Ranks.{rank_count};
ghost use Rattle.noc_route.specs.Routes.{IsRelation};
ghost use Rattle.noc_rank.specs.LeastAhead.{IsLeastOf, outputs, lesser};
ghost use Rattle.noc_steps.specs.Falls.{counts_for};
ghost use Rattle.noc_rank.specs.NotRisingTo.{AreReal};
ghost use Rattle.noc_packet.specs.Set.{has_bit};

use crate::channel::{link_ports, rank_index};
use noc_packet::ChannelSet;
use noc_route::Relation;
use noc_steps::counts_for;
use noc_topo::MAX_DISTANCE;

// The ranks of a relation's link channels, by index.
#[derive(Drop)]
pub(crate) struct RankList<'a> {
    pub(crate) relation: &'a Relation,
    pub(crate) ranks: &'a [Option<u32>],
    ghost all: { length ranks.now ≡ rank_count relation.now.grid relation.now.vcs },
    ghost few: { length ranks.now < 4294967296 },
    ghost real: { AreReal relation.now ranks.now },
}

// Marks of a relation's link channels, and the packets that look for them: those of a
// class on their way to a node.
#[derive(Drop)]
pub(crate) struct Search<'a> {
    pub(crate) relation: &'a Relation,
    pub(crate) ranks: &'a [Option<u32>],
    pub(crate) marks: &'a [Option<u32>],
    pub(crate) class: usize,
    pub(crate) dst: usize,
    ghost all_ranks: { length ranks.now ≡ rank_count relation.now.grid relation.now.vcs },
    ghost all_marks: { length marks.now ≡ rank_count relation.now.grid relation.now.vcs },
    ghost class_exists: { class < relation.now.classes },
    ghost dst_exists: { dst < nodes relation.now.grid },
}

impl<'a> Search<'a> {
    ghost use Rattle.noc_rank.specs.Filled.{IsFilled, IsAllFilled, IsFoundIn};

    // Writes for each link channel the least of the marks of the channels with a rank to which the
    // packets come from it, directly or through adaptive channels.
    pub(crate) fn fill_least(&self, least: &mut [Option<u32>])
        requires least { length least.old ≡ length self.now.ranks.now }
        requires built { IsRelation self.now.relation.now }
        ensures { IsAllFilled self.now least.new }
    {
        for distance in 0..MAX_DISTANCE + 1 {
            self.fill_at(least, distance);
        }
    }

    // Fills in the channels that arrive at a router so far from the destination,
    // where those nearer are done.
    fn fill_at(&self, least: &mut [Option<u32>], distance: usize)
        requires { IsFilled self.now distance 0 0 least.old }
        ensures { IsFilled self.now (distance + 1) 0 0 least.new }
    {
        for router in 0..self.relation.shape().nodes() {
            self.fill_router(least, distance, router);
        }
    }

    // Fills in the channels that arrive at this router, if it is so far from the destination.
    fn fill_router(&self, least: &mut [Option<u32>], distance: usize, router: usize)
        requires router { router < nodes self.now.relation.now.grid }
        requires before { IsFilled self.now distance router 0 least.old }
        ensures { IsFilled self.now distance (router + 1) 0 least.new }
    {
        if self.relation.shape().distance(router, self.dst) != distance {
            return;
        }
        for input in 0..link_ports(self.relation.shape()) * self.relation.vcs() {
            self.fill_input(least, router, input);
        }
    }

    // Fills in the channel that arrives at this input channel of a router, if one does.
    fn fill_input(&self, least: &mut [Option<u32>], router: usize, input: usize)
        requires router { router < nodes self.now.relation.now.grid }
        requires input { input < outputs self.now.relation.now }
        requires before { IsFilled self.now
            (distance self.now.relation.now.grid router self.now.dst) router input least.old }
        ensures { IsFilled self.now (distance self.now.relation.now.grid router self.now.dst) router
            (input + 1) least.new }
    {
        let vcs = self.relation.vcs();
        let (port, vc) = (input / vcs, input % vcs);
        if let Some((sender, out_port)) = self.relation.shape().neighbour(router, port) {
            let set = self
                .relation
                .permitted(self.class, router, port, vc, self.dst);
            let value = self.least_of(least, router, set);
            least[rank_index(self.relation.shape(), vcs, sender, out_port, vc)] = value;
        }
    }

    // The least of what the channels of a router's set on link ports count for.
    fn least_of(&self, least: &[Option<u32>], router: usize, set: ChannelSet) -> Option<u32>
        requires least { length least.now ≡ length self.now.ranks.now }
        requires router { router < nodes self.now.relation.now.grid }
        ensures { IsLeastOf (IsFoundIn self.now least.now router set
            (outputs self.now.relation.now)) result }
    {
        let count = link_ports(self.relation.shape()) * self.relation.vcs();
        let mut best = None;
        for index in 0..count {
            let value = self.counted(least, set, router * count, index);
            best = lesser(best, value);
        }
        best
    }

    // What the channel of this index counts for, if it is in the set: its mark where it has a rank,
    // else the least mark ahead.
    fn counted(
        &self,
        least: &[Option<u32>],
        set: ChannelSet,
        first: usize,
        index: usize,
    ) -> Option<u32>
        requires least { length least.now ≡ length self.now.ranks.now }
        requires index { index < INDICES }
        requires within { first + index < length least.now }
        ensures { result ≡ (if has_bit set index then counts_for self.now.ranks.now
            self.now.marks.now least.now (first + index) else None) }
    {
        if !set.contains(index) {
            return None;
        }
        counts_for(self.ranks, self.marks, least, first + index)
    }
}

// The lesser of two numbers, where either may be missing.
pub(crate) fn lesser(a: Option<u32>, b: Option<u32>) -> Option<u32>
    ensures { result ≡ lesser a b }
{
    match (a, b) {
        (Some(x), Some(y)) => Some(x.min(y)),
        _ => a.or(b),
    }
}
