//! Channels from which packets come on, through adaptive channels, to one of no greater rank.

ghost use Rattle.std.specs.Prelude.{◌≡◌, ℕ, ◌*◌, ◌/◌, ◌%◌, ◌<◌, ◌⊎◌, Some, None, IfOk, IfSome, IfNone, MatchOption, length, slice_index_or, vec_len};
ghost use Rattle.noc_topo.specs.Shape.{nodes};
ghost use Rattle.noc_route.specs.Routes.{IsRelation};
ghost use Rattle.noc_rank.specs.Faults.{HasNoDescent, IsFirstDescent};
ghost use Rattle.noc_rank.specs.LeastAhead.{over, IsLeastOf, AreAllLeast};
ghost use Rattle.noc_rank.specs.NotRisingTo.{IsOver, BeginsDescent, IsStartBy, IsAheadAt, IsLinkIndex, channel_at, mark_below, fault_of_descent};
ghost use Rattle.noc_steps.specs.Falls.{falls};

use crate::ahead::{RankList, Search, lesser};
use crate::channel::{LinkChannel, all_ports, link_ports};
use crate::fault::RankFault;
use crate::ranked::Ranked;
use crate::ranks::list;
use noc_route::Relation;
use noc_steps::falls;
use std::alloc::{AllocError, Global};

// Two channels such that packets come on from the first to the second, with their ranks, of which
// the second is not greater.
#[derive(Clone, Copy)]
pub(crate) struct Descent {
    from: LinkChannel,
    to: LinkChannel,
    rank: u32,
    next: u32,
}

impl Descent {
    // The fault that names it.
    pub(crate) fn fault(self) -> RankFault
        ensures { result ≡ fault_of_descent self }
    {
        RankFault::NotRisingTo {
            from: self.from,
            to: self.to,
            rank: self.rank,
            next: self.next,
        }
    }
}

// The first descent along the relation, in the order of router, port and channel of the
// first and then of the second.
pub(crate) fn first_descent(alloc: Global, ranked: &Ranked) -> Result<Option<Descent>, AllocError>
    ensures { let routes = ranked.now.relation.now in let k = ranked.now.ranks.now in
        IfOk result (λ found. MatchOption found (HasNoDescent routes k)
        (λ d. IsFirstDescent routes k d.from d.to d.rank d.next)) }
{
    let relation = ranked.relation;
    let count = all_ports(relation.shape()) * relation.vcs();
    let mut least = vec![in alloc; None::<u32>; count]?;
    let list = RankList {
        relation,
        ranks: list(ranked.ranks),
    };
    descent_in(alloc, &list, &mut least)
}

// The first descent along the relation, by the list of ranks; what `least` holds
// is lost.
fn descent_in(
    alloc: Global,
    list: &RankList,
    least: &mut [Option<u32>],
) -> Result<Option<Descent>, AllocError>
    requires least { length least.old ≡ length list.now.ranks.now }
    requires built { IsRelation list.now.relation.now }
    ensures { let routes = list.now.relation.now in let k = over routes list.now.ranks.now in
        IfOk result (λ found. MatchOption found (HasNoDescent routes k)
        (λ d. IsFirstDescent routes k d.from d.to d.rank d.next)) }
{
    let Some(start) = first_start(list, least) else {
        return Ok(None);
    };
    let marks = marks_below(alloc, list, start)?;
    let Some(end) = first_end(list, &marks, least, start) else {
        return Ok(None);
    };
    Ok(descent_of(list, start, end))
}

// The index of the first channel from which packets come on to one of no
// greater rank; what `least` holds is lost.
fn first_start(list: &RankList, least: &mut [Option<u32>]) -> Option<u32>
    requires { length least.old ≡ length list.now.ranks.now }
    ensures { IsLeastOf (IsOver list.now.relation.now
        (IsStartBy list.now.relation.now list.now.ranks.now)) result }
{
    let mut first = None;
    for number in 0..list.relation.classes() * list.relation.shape().nodes() {
        fill_least(list, list.ranks, number, least);
        first = lesser(first, start_in(list, least));
    }
    first
}

// Writes for each link channel the least mark ahead of it, for the packets with this number: class
// by class those to each node.
fn fill_least(list: &RankList, marks: &[Option<u32>], number: usize, least: &mut [Option<u32>])
    requires marks { length marks.now ≡ length list.now.ranks.now }
    requires number { let routes = list.now.relation.now in
        number < routes.classes * nodes routes.grid }
    requires least { length least.old ≡ length list.now.ranks.now }
    ensures { let routes = list.now.relation.now in
        AreAllLeast routes list.now.ranks.now marks.now (number / nodes routes.grid)
        (number % nodes routes.grid) least.new }
{
    let nodes = list.relation.shape().nodes();
    let search = Search {
        relation: list.relation,
        ranks: list.ranks,
        marks,
        class: number / nodes,
        dst: number % nodes,
    };
    search.fill_least(least);
}

// The index of the first channel with a rank that is no less than the one ahead of it.
fn start_in(list: &RankList, least: &[Option<u32>]) -> Option<u32>
    requires { length least.now ≡ length list.now.ranks.now }
    ensures { IsLeastOf (BeginsDescent list.now.ranks.now least.now) result }
{
    for index in 0..list.ranks.len() {
        if falls(list.ranks[index], least[index]) {
            return Some(index as u32);
        }
    }
    None
}

// Marks each channel whose rank is no greater than that of the channel `start` with its index.
fn marks_below(alloc: Global, list: &RankList, start: u32) -> Result<Vec<Option<u32>>, AllocError>
    requires { start < length list.now.ranks.now }
    ensures len { IfOk result (λ marks. vec_len marks ≡ length list.now.ranks.now) }
    ensures items { IfOk result (λ marks. (k : ℕ) → k < length list.now.ranks.now
        → slice_index_or marks.items k None ≡ mark_below list.now.ranks.now start k) }
{
    let mut marks = Vec::with_capacity(alloc, list.ranks.len())?;
    for index in 0..list.ranks.len() {
        marks.push_reserved(mark_below(list, start, index));
    }
    Ok(marks)
}

// The index of a channel whose rank is no greater than that of the channel `start`.
fn mark_below(list: &RankList, start: u32, index: usize) -> Option<u32>
    requires start { start < length list.now.ranks.now }
    requires index { index < length list.now.ranks.now }
    ensures { result ≡ mark_below list.now.ranks.now start index }
{
    if falls(list.ranks[start as usize], list.ranks[index]) {
        Some(index as u32)
    } else {
        None
    }
}

// The least mark to which packets come on from the channel `start`; what `least`
// holds is lost.
fn first_end(
    list: &RankList,
    marks: &[Option<u32>],
    least: &mut [Option<u32>],
    start: u32,
) -> Option<u32>
    requires marks { length marks.now ≡ length list.now.ranks.now }
    requires least { length least.old ≡ length list.now.ranks.now }
    requires start { IsLinkIndex list.now.relation.now start }
    ensures { let routes = list.now.relation.now in
        IsLeastOf (IsOver routes
        (λ m t n. IsAheadAt routes list.now.ranks.now marks.now m t start n)) result }
{
    let mut first = None;
    for number in 0..list.relation.classes() * list.relation.shape().nodes() {
        fill_least(list, marks, number, least);
        first = lesser(first, least[start as usize]);
    }
    first
}

// The descent from one channel to another, which have ranks.
fn descent_of(list: &RankList, start: u32, end: u32) -> Option<Descent>
    requires start { start < length list.now.ranks.now }
    requires end { end < length list.now.ranks.now }
    ensures none { let ranks = list.now.ranks.now in
        IfNone result ((slice_index_or ranks start None ≡ None)
        ⊎ (slice_index_or ranks end None ≡ None)) }
    ensures some { let ranks = list.now.ranks.now in
        IfSome result (λ d. (d.from ≡ channel_at list.now.relation.now start)
        × (d.to ≡ channel_at list.now.relation.now end)
        × (slice_index_or ranks start None ≡ Some d.rank)
        × (slice_index_or ranks end None ≡ Some d.next)) }
{
    let rank = list.ranks[start as usize]?;
    let next = list.ranks[end as usize]?;
    Some(Descent {
        from: channel_at(list.relation, start as usize),
        to: channel_at(list.relation, end as usize),
        rank,
        next,
    })
}

// The channel with an index.
fn channel_at(relation: &Relation, index: usize) -> LinkChannel
    ensures { result ≡ channel_at relation.now index }
{
    let vcs = relation.vcs();
    let ports = link_ports(relation.shape());
    LinkChannel {
        router: index / vcs / ports,
        port: index / vcs % ports,
        vc: index % vcs,
    }
}
