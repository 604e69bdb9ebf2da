//! Ranks of the link channels of a network.

ghost use Rattle.std.specs.Prelude.{◌≡◌, ℕ, ◌+◌, ◌*◌, ◌/◌, ◌%◌, ◌<◌, ◌≤◌, IfOk, IfErr, IfSome, true};
ghost use Rattle.noc_topo.specs.Shape.{nodes, local_port};
ghost use Rattle.noc_route.specs.Ranks.{is_port_channel, is_channel, rank_at};
ghost use Rattle.noc_rank.specs.Ranking.{IsRanking};
ghost use Rattle.noc_rank.specs.Formulas.{IsGenerated, IsFaultOfFormula};
ghost use Rattle.noc_rank.specs.Rows.{IsRankingOf, IsFaultOfRows};

use crate::channel::{all_ports, link_ports, rank_index};
use crate::fault::RankFault;
use crate::generated::{Formula, has_ranks};
use crate::rows::{RankRow, enter, missing};
use noc_route::Rule;
use noc_topo::Shape;
use std::alloc::Global;
use std::marker::Model;

/// A rank, 1 to 1,000,000, for each link channel of a shape, or none for an adaptive one (Dally
/// and Towles, chapter 14).
#[derive(Drop)]
pub struct Ranks {
    shape: Shape,
    vcs: usize,
    ranks: Vec<Option<u32>>,
}

impl Model for Ranks {
    ghost use Rattle.noc_route.specs.Ranks.{Ranking};

    ghost Value = { Ranking };

    ghost use Rattle.noc_rank.specs.Ranking.{IsRanking};
    ghost use Rattle.noc_rank.specs.Stored.{ranking_of};

    ghost view = { ranking_of };

    ghost invariant = { λ s. IsRanking (ranking_of s) };
}

impl Ranks {
    /// The ranks of these rows, one for each link channel of the shape with `vcs` channels per
    /// link. Answers the first fault: `Memory`; row by row `UnknownChannel`, `BadRank`,
    /// `DoubleChannel`; `MissingChannel` with the first link channel that no row names, in the
    /// order of router, port and channel.
    pub fn from_rows(
        alloc: Global,
        shape: &Shape,
        vcs: usize,
        rows: &[RankRow],
    ) -> Result<Ranks, RankFault>
        ensures ok { IfOk result (IsRankingOf shape.now vcs rows.now) }
        ensures err { IfErr result (IsFaultOfRows shape.now vcs rows.now) }
    {
        // more channels than there are numbers are more than any allocator gives
        let count = all_ports(shape).saturating_mul(vcs);
        let mut ranks = vec![in alloc; None::<u32>; count]?;
        let mut named = vec![in alloc; false; count]?;
        enter(shape, vcs, rows, &mut ranks, &mut named)?;
        match missing(shape, vcs, &named) {
            Some(fault) => Err(fault),
            None => Ok(Ranks {
                shape: *shape,
                vcs,
                ranks,
            }),
        }
    }

    /// The ranks by formula of a rule: dimension order on a mesh, dateline on a torus, west first
    /// on a mesh of two dimensions, and adaptive, whose adaptive channels have none. Answers
    /// `NoGenerated` for another rule and where the rule does not fit the shape or the numbers of
    /// channels and classes; else `Memory` where it was refused.
    pub fn generated(
        alloc: Global,
        shape: &Shape,
        vcs: usize,
        classes: usize,
        rule: &Rule,
    ) -> Result<Ranks, RankFault>
        ensures ok { IfOk result (IsGenerated shape.now vcs classes rule.now) }
        ensures err { IfErr result (IsFaultOfFormula shape.now vcs classes rule.now) }
    {
        if !has_ranks(shape, vcs, classes, rule) {
            return Err(RankFault::NoGenerated);
        }
        let formula = Formula {
            shape,
            vcs,
            classes,
            rule,
        };
        let ranks = formula.ranks(alloc)?;
        Ok(Ranks {
            shape: *shape,
            vcs,
            ranks,
        })
    }

    /// The rank of a link channel, 1 to 1,000,000; None of an adaptive one.
    pub fn rank(&self, router: usize, port: usize, vc: usize) -> Option<u32>
        requires { is_channel self.now.grid self.now.vcs router port vc ≡ true }
        ensures value { result ≡ rank_at self.now router port vc }
        ensures ranking { IsRanking self.now }
    {
        rank_at(self, router, port, vc)
    }
}

// The rank of a channel of a link port; None of an adaptive one, and where the port has no link.
pub(crate) fn rank_at(ranks: &Ranks, router: usize, port: usize, vc: usize) -> Option<u32>
    requires { is_port_channel ranks.now.grid ranks.now.vcs router port vc ≡ true }
    ensures value { result ≡ rank_at ranks.now router port vc }
    ensures ranking { IsRanking ranks.now }
{
    ranks.ranks[rank_index(&ranks.shape, ranks.vcs, router, port, vc)]
}

// The rank of an output channel of a router on a link port, by its index, port
// times channels plus channel.
pub(crate) fn output_rank(ranks: &Ranks, router: usize, index: usize) -> Option<u32>
    requires router { router < nodes ranks.now.grid }
    requires index { index < local_port ranks.now.grid * ranks.now.vcs }
    ensures value { result ≡ rank_at ranks.now router (index / ranks.now.vcs)
        (index % ranks.now.vcs) }
    ensures ranking { IsRanking ranks.now }
{
    ranks.ranks[router * link_ports(&ranks.shape) * ranks.vcs + index]
}

// The ranks of all channels of link ports, router by router, then by link port and channel.
pub(crate) fn list(ranks: &Ranks) -> &[Option<u32>]
    ensures value { result.now ≡ ranks.now.ranks }
    ensures ranking { IsRanking ranks.now }
{
    &ranks.ranks
}
