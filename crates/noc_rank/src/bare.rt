//! Entries at which no channel with a rank is permitted.

ghost use Rattle.std.specs.Prelude.{◌≡◌, ℕ, ◌*◌, ◌<◌, ◌≤◌, ◌↔◌, IfSome, IfNone, MatchOption, true, false};
ghost use Rattle.noc_topo.specs.Shape.{nodes, ports, local_port};
ghost use Rattle.noc_route.specs.Routes.{IsRelation};
ghost use Rattle.noc_rank.specs.Faults.{HasEscapes, IsFirstBare};
ghost use Rattle.noc_rank.specs.NoEscape.{entries, numbered_entry, IsBareSet, IsRankedIn};

use crate::channel::link_ports;
use crate::ranked::Ranked;
use crate::ranks::output_rank;
use noc_packet::ChannelSet;
use noc_route::{Entry, Relation};
use noc_steps::inputs;
use rayon::prelude::*;
use std::thread::Threads;

// The first entry, in the order of class, router, input port and channel, and destination, to which
// packets come, away from their destination, and at which no channel with a rank is permitted.
// Looks at the entries in parallel.
pub(crate) fn first_bare(rt: &(impl Threads + Sync), ranked: &Ranked) -> Option<Entry>
    ensures { MatchOption result (HasEscapes ranked.now.relation.now ranked.now.ranks.now)
        (IsFirstBare ranked.now.relation.now ranked.now.ranks.now) }
{
    let relation = ranked.relation;
    let shape = relation.shape();
    let count = inputs(shape, relation.vcs(), relation.classes()) * shape.nodes();
    let number = (0..count).into_par_iter().find_first(
        rt,
        |number: &usize| -> bool
            requires { number.now < entries ranked.now.relation.now }
            ensures { (result ≡ false) ↔
                (IsBareSet ranked.entry.now.relation.now ranked.entry.now.ranks.now
                (numbered_entry ranked.entry.now.relation.now number.now) → ⊥) }
        { bare_at(ranked, *number).is_some() },
    )?;
    bare_at(ranked, number)
}

// The entry of this number, if no channel with a rank is permitted there though others are.
fn bare_at(ranked: &Ranked, number: usize) -> Option<Entry>
    requires { number < entries ranked.now.relation.now }
    ensures none { let routes = ranked.now.relation.now in
        IfNone result (IsBareSet routes ranked.now.ranks.now (numbered_entry routes number) → ⊥) }
    ensures some { let routes = ranked.now.relation.now in
        IfSome result (λ entry. (entry ≡ numbered_entry routes number)
        × IsBareSet routes ranked.now.ranks.now entry) }
{
    let entry = entry_of(ranked.relation, number);
    let set = ranked.relation.permitted(
        entry.class,
        entry.router,
        entry.in_port,
        entry.in_vc,
        entry.dst,
    );
    if entry.router == entry.dst || set.is_empty() || has_rank(ranked, entry.router, set) {
        return None;
    }
    Some(entry)
}

// The entry of a number, of which the destination is the last digit.
fn entry_of(relation: &Relation, number: usize) -> Entry
    ensures value { result ≡ numbered_entry relation.now number }
    ensures nodes { 1 ≤ nodes relation.now.grid }
    ensures ports { 1 ≤ ports relation.now.grid }
    ensures vcs { 1 ≤ relation.now.vcs }
    ensures built { IsRelation relation.now }
{
    let vcs = relation.vcs();
    let ports = relation.shape().ports();
    let nodes = relation.shape().nodes();
    let input = number / nodes;
    Entry {
        class: input / vcs / ports / nodes,
        router: input / vcs / ports % nodes,
        in_port: input / vcs % ports,
        in_vc: input % vcs,
        dst: number % nodes,
    }
}

// Whether a set of a router has a channel on a link port with a rank.
fn has_rank(ranked: &Ranked, router: usize, set: ChannelSet) -> bool
    requires { router < nodes ranked.now.ranks.now.grid }
    ensures no { let k = ranked.now.ranks.now in result ≡ false → (i : ℕ)
        → i < local_port k.grid * k.vcs → IsRankedIn k router set i → ⊥ }
    ensures yes { let k = ranked.now.ranks.now in result ≡ true → (i : ℕ)
        × (i < local_port k.grid * k.vcs) × IsRankedIn k router set i }
{
    for index in 0..link_ports(ranked.relation.shape()) * ranked.relation.vcs() {
        if set.contains(index) && output_rank(ranked.ranks, router, index).is_some() {
            return true;
        }
    }
    false
}
