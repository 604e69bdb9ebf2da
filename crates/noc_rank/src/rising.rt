//! Steps from one channel to the next along which ranks do not rise.

ghost use Rattle.std.specs.Prelude.{◌≡◌, ◌*◌, ◌/◌, ◌%◌, ◌<◌, ◌↔◌, IfSome, IfNone, MatchOption, Some, false, true};
ghost use Rattle.noc_topo.specs.Shape.{nodes, ports};
ghost use Rattle.noc_packet.specs.declared.limits.TheConstants.{INDICES};
ghost use Rattle.noc_route.specs.Ranks.{IsRising, rank_at};
ghost use Rattle.noc_rank.specs.Rising.{IsFirstFall};
ghost use Rattle.noc_rank.specs.NotRising.{fault_of_fall, arrival_rank, link_output_count, input_count, IsLeastBelow, HasNone, HasNoFall, IsFirstAt};

use crate::channel::link_ports;
use crate::fault::RankFault;
use crate::ranked::Ranked;
use crate::ranks::{output_rank, rank_at};
use noc_packet::ChannelSet;
use noc_route::{Entry, RouteRow};
use noc_steps::{falls, inputs};
use rayon::prelude::*;
use std::thread::Threads;

// The first step of the relation from one channel with a rank to the next that does not rise, in
// the order of class, router, input port and channel, destination, output port and channel. Looks
// at the entries in parallel and takes no memory.
pub(crate) fn first_fall(rt: &(impl Threads + Sync), ranked: &Ranked) -> Option<Fall>
    ensures { MatchOption result (IsRising ranked.now.relation.now (rank_at ranked.now.ranks.now))
        (λ fall. IsFirstFall ranked.now.relation.now ranked.now.ranks.now fall.step fall.rank
        fall.next) }
{
    let relation = ranked.relation;
    let count = inputs(relation.shape(), relation.vcs(), relation.classes());
    let number = (0..count).into_par_iter().find_first(
        rt,
        |number: &usize| -> bool
            requires { number.now < ranked.now.relation.now.classes * input_count
                ranked.now.ranks.now }
            ensures { (result ≡ false) ↔ HasNoFall ranked.entry.now.relation.now
                ranked.entry.now.ranks.now number.now }
        { first_at(ranked, *number).is_some() },
    )?;
    first_at(ranked, number)
}

// A step that does not rise, with the ranks before and after it.
#[derive(Clone, Copy)]
pub(crate) struct Fall {
    step: RouteRow,
    rank: u32,
    next: u32,
}

impl Fall {
    // The fault that names it.
    pub(crate) fn fault(self) -> RankFault
        ensures { result ≡ fault_of_fall self }
    {
        let step = self.step;
        RankFault::NotRising {
            entry: Entry {
                class: step.class,
                router: step.router,
                in_port: step.in_port,
                in_vc: step.in_vc,
                dst: step.dst,
            },
            out_port: step.out_port,
            out_vc: step.out_vc,
            rank: self.rank,
            next: self.next,
        }
    }
}

// The first step that does not rise of those that packets of a class take that came by an input
// channel, both by number.
fn first_at(ranked: &Ranked, number: usize) -> Option<Fall>
    requires { number < ranked.now.relation.now.classes * input_count ranked.now.ranks.now }
    ensures { MatchOption result (HasNoFall ranked.now.relation.now ranked.now.ranks.now number)
        (IsFirstAt ranked.now.relation.now ranked.now.ranks.now number) }
{
    let vcs = ranked.relation.vcs();
    let ports = ranked.relation.shape().ports();
    let nodes = ranked.relation.shape().nodes();
    let (router, in_port, in_vc) = (
        number / vcs / ports % nodes,
        number / vcs % ports,
        number % vcs,
    );
    let rank = arrival_rank(ranked, router, in_port, in_vc)?;
    let arrival = Arrival {
        ranked,
        class: number / vcs / ports / nodes,
        router,
        in_port,
        in_vc,
        rank,
    };
    arrival.first_fall()
}

// The rank of the link channel that arrives at an input channel, if there is one and it has a rank.
fn arrival_rank(ranked: &Ranked, router: usize, port: usize, vc: usize) -> Option<u32>
    requires router { router < nodes ranked.now.ranks.now.grid }
    requires port { port < ports ranked.now.ranks.now.grid }
    requires vc { vc < ranked.now.ranks.now.vcs }
    ensures { result ≡ arrival_rank ranked.now.ranks.now router port vc }
{
    let (sender, out_port) = ranked.relation.shape().neighbour(router, port)?;
    rank_at(ranked.ranks, sender, out_port, vc)
}

// Packets of a class that come to a router on a channel with this rank.
#[derive(Drop)]
struct Arrival<'a> {
    ranked: &'a Ranked<'a>,
    class: usize,
    router: usize,
    in_port: usize,
    in_vc: usize,
    rank: u32,
    ghost class_exists: { class < ranked.now.relation.now.classes },
    ghost router_exists: { router < nodes ranked.now.ranks.now.grid },
    ghost port_exists: { in_port < ports ranked.now.ranks.now.grid },
    ghost vc_exists: { in_vc < ranked.now.ranks.now.vcs },
}

impl<'a> Arrival<'a> {
    ghost use Rattle.noc_rank.specs.Arriving.{IsFirstOf, HasNoneOf, falls_in};

    // The first step that does not rise, over all destinations.
    fn first_fall(&self) -> Option<Fall>
        ensures { MatchOption result (HasNoneOf self.now) (IsFirstOf self.now) }
    {
        let relation = self.ranked.relation;
        let vcs = relation.vcs();
        for dst in 0..relation.shape().nodes() {
            let set = relation.permitted(self.class, self.router, self.in_port, self.in_vc, dst);
            if let Some((index, next)) = self.first_in(set) {
                let (out_port, out_vc) = (index / vcs, index % vcs);
                let step = RouteRow {
                    class: self.class,
                    router: self.router,
                    in_port: self.in_port,
                    in_vc: self.in_vc,
                    dst,
                    out_port,
                    out_vc,
                };
                return Some(Fall {
                    step,
                    rank: self.rank,
                    next,
                });
            }
        }
        None
    }

    // The first channel on a link port in a set whose rank is not greater, by
    // its index, with its rank.
    fn first_in(&self, set: ChannelSet) -> Option<(usize, u32)>
        ensures none { IfNone result
            (HasNone (falls_in self.now set) (link_output_count self.now.ranked.now.ranks.now)) }
        ensures some { let k = self.now.ranked.now.ranks.now in
            IfSome result (λ found. IsLeastBelow (falls_in self.now set)
            (link_output_count k) found.0
            × (rank_at k self.now.router (found.0 / k.vcs) (found.0 % k.vcs) ≡ Some found.1)) }
    {
        let relation = self.ranked.relation;
        for index in 0..link_ports(relation.shape()) * relation.vcs() {
            if let Some(next) = self.falls_to(set, index) {
                return Some((index, next));
            }
        }
        None
    }

    // The rank of a channel on a link port, by its index, if it is in the set and
    // its rank is not greater.
    fn falls_to(&self, set: ChannelSet, index: usize) -> Option<u32>
        requires index { index < link_output_count self.now.ranked.now.ranks.now }
        requires few { index < INDICES }
        ensures none { IfNone result (falls_in self.now set index ≡ false) }
        ensures some { let k = self.now.ranked.now.ranks.now in
            IfSome result (λ next. (falls_in self.now set index ≡ true)
            × (rank_at k self.now.router (index / k.vcs) (index % k.vcs) ≡ Some next)) }
    {
        if !set.contains(index) {
            return None;
        }
        let next = output_rank(self.ranked.ranks, self.router, index);
        if falls(Some(self.rank), next) {
            next
        } else {
            None
        }
    }
}
