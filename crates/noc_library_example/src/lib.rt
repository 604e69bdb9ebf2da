//! noc as a library: a relation is built, its ranks are checked, a network runs, a count is read.
#![tactic(auto)]

ghost use Rattle.std.specs.Prelude.{◌≡◌, ◌∷◌, [], IfSome, true};
ghost use Rattle.noc_library.specs.Ranks.{IsRankedBy, Ranking};

use noc_library::{Kind, Network, Ranks, Relation, Rule, Shape, Verdict, check};
use std::alloc::Global;
use std::thread::Threads;

/// The relation of a dateline on a ring of four routers with two channels on each link, once
/// its ranks are accepted: no network on it is ever stuck. None where memory was refused.
pub fn ring(rt: &(impl Threads + Sync), alloc: Global) -> Option<Relation>
    ensures ranked { IfSome result (λ r. (ranks : Ranking) × IsRankedBy r ranks) }
{
    let shape = Shape::new(Kind::Torus, &[4]).ok()?;
    let relation = Relation::build(alloc, &shape, 2, 1, Rule::Dateline).ok()?;
    let ranks = Ranks::generated(alloc, &shape, 2, 1, &Rule::Dateline).ok()?;
    check(rt, alloc, &relation, &ranks).ok()?;
    Some(relation)
}

/// Runs a network with ranks as long as its limit says. All packets are out then, by proof.
pub fn drain(network: &mut Network) -> bool
    requires ranked { (ranks : Ranking) × IsRankedBy network.old.net.relation ranks }
    requires start { network.old.count ≡ 0 }
    ensures out { result ≡ true }
{
    let limit = network.limit();
    network.run(limit);
    network.all_out()
}

/// In how many cycles the channel by which packets come from router 0 to router 1 of that ring
/// had no credit.
pub fn cycles_without_credit(network: &Network) -> u64
    requires ring { network.now.net.relation.grid ≡ record { wraps = true; radix = 4 ∷ [] } }
    requires channels { network.now.net.relation.vcs ≡ 2 }
{
    let counts = network.counts(1, 1, 0);
    counts[Verdict::NoCredit as usize]
}
