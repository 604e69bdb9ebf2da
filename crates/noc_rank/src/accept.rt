//! Checking ranks against a routing relation (Dally and Towles, chapter 14).
//!
//! Where each channel has a rank, no memory is taken: the check looks for the first entry with a
//! step that does not rise. Where some channels are adaptive it takes one list for what lies ahead
//! of each link channel, once every entry is known to have its escape, and one for marks. So
//! `Memory` comes after NoEscape, and before a pair that does not rise. Entries are looked at in
//! parallel, and the pairs one class and destination after the other.

ghost use Rattle.std.specs.Prelude.{◌≡◌, ◌↔◌, IsOk, OnOk, IfErr, IsTrue, is_some, true, false};
ghost use Rattle.noc_route.specs.Ranks.{AreAllRanked, IsRankedBy, is_channel, rank_at};
ghost use Rattle.noc_route.specs.Routes.{IsRelation};
ghost use Rattle.noc_rank.specs.Faults.{IsFaultOfCheck};
ghost use Rattle.noc_rank.specs.declared.fault.RankFault.TheVariants.{Memory};

use crate::bare::first_bare;
use crate::channel::{all_ports, is_channel, link_ports};
use crate::descent::first_descent;
use crate::fault::RankFault;
use crate::ranked::Ranked;
use crate::ranks::{Ranks, rank_at};
use crate::rising::first_fall;
use noc_route::Relation;
use std::alloc::Global;
use std::thread::Threads;

/// The answer that a relation is ranked.
#[derive(Clone, Copy, Debug, PartialEq, Eq)]
pub struct Accepted;

/// Whether the relation is ranked by these ranks.
///
/// Where each link channel has a rank: whether ranks rise with each permitted step from one link
/// channel to the next. Answers `NotRising` with the first step that does not rise, in the order of
/// class, router, input port and channel, destination, output port and channel. Looks at the
/// entries in parallel and takes no memory, so `Memory` is never answered.
///
/// Where some are adaptive: answers `NoEscape` with the first entry to which packets come, away
/// from their destination, and which permits no channel with a rank. Entries are in the order of
/// class, router, input port and channel, and destination. Then comes `Memory` where it was
/// refused. `NotRisingTo` comes last, with two channels such that packets come on from the first to
/// the second, directly or through adaptive channels, whose rank is not greater. They are the first
/// two, in the order of router, port and channel.
pub fn check(
    rt: &(impl Threads + Sync),
    alloc: Global,
    relation: &Relation,
    ranks: &Ranks,
) -> Result<Accepted, RankFault>
    requires shape { relation.now.grid ≡ ranks.now.grid }
    requires vcs { relation.now.vcs ≡ ranks.now.vcs }
    ensures ok { OnOk result (IsRankedBy relation.now ranks.now) }
    ensures err { IfErr result (IsFaultOfCheck relation.now ranks.now) }
    ensures accepted { AreAllRanked ranks.now.grid ranks.now.vcs (rank_at ranks.now)
        → IsRankedBy relation.now ranks.now → IsOk result }
    ensures refused { IsRankedBy relation.now ranks.now → IfErr result (λ fault. fault ≡ Memory) }
{
    let ranked = Ranked { relation, ranks };
    if is_full(&ranked) {
        return match first_fall(rt, &ranked) {
            None => Ok(Accepted),
            Some(fall) => Err(fall.fault()),
        };
    }
    if let Some(entry) = first_bare(rt, &ranked) {
        return Err(RankFault::NoEscape(entry));
    }
    match first_descent(alloc, &ranked)? {
        None => Ok(Accepted),
        Some(descent) => Err(descent.fault()),
    }
}

// Whether each link channel has a rank.
fn is_full(ranked: &Ranked) -> bool
    ensures full { let k = ranked.now.ranks.now in
        IsTrue result ↔ AreAllRanked k.grid k.vcs (rank_at k) }
    ensures built { IsRelation ranked.now.relation.now }
{
    let shape = ranked.relation.shape();
    let vcs = ranked.relation.vcs();
    let ports = link_ports(shape);
    for index in 0..all_ports(shape) * vcs {
        let (router, port, vc) = (index / vcs / ports, index / vcs % ports, index % vcs);
        if is_adaptive(ranked, router, port, vc) {
            return false;
        }
    }
    true
}

// Whether this is a link channel without a rank.
fn is_adaptive(ranked: &Ranked, router: usize, port: usize, vc: usize) -> bool
    ensures { let k = ranked.now.ranks.now in (result ≡ false) ↔
        (is_channel k.grid k.vcs router port vc ≡ true
        → is_some (rank_at k router port vc) ≡ true) }
{
    is_channel(
        ranked.relation.shape(),
        ranked.relation.vcs(),
        router,
        port,
        vc,
    ) && rank_at(ranked.ranks, router, port, vc).is_none()
}
