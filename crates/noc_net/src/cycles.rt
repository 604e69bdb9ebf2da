//! A cycle of a network, in two loops over its routers
//! (docs/ARCHITECTURE.md, "Routers, one at a time").

ghost use Rattle.std.specs.Prelude.{◌≡◌, ℕ, ◌<◌, All, length, map};
ghost use Rattle.noc_net.specs.Prelude.{map_indexed, nodes as nodes_of, neighbour as neighbour_of, IsRelationOf, HaveTheirBeats, IsLinked, IsSilent, beat_at, view_after_decide, view_after_puts, incoming, beat_from, beats_at};

use noc_packet::Beat;
use noc_route::Relation;
use noc_router::{Plan, Router};
use noc_topo::LINKS;
use noc_wires::{deliver, take_beats};

// Each router takes the beats that came to it, injects, decides and commits.
pub(crate) fn decide_all(
    relation: &Relation,
    plan: &mut Plan,
    cycle: u64,
    routers: &mut [Router],
    beats: &mut [[Beat; LINKS]],
)
    requires routers { All (λ v. IsRelationOf relation.now v) routers.old }
    requires beats { All (IsLinked relation.now.grid) beats.old }
    requires count { length beats.old ≡ length routers.old }
    ensures routers { routers.new ≡ map_indexed
        (λ r v. view_after_decide relation.now cycle
        (incoming relation.now.grid (beats_at beats.old r)) v) routers.old }
    ensures beats { All IsSilent beats.new }
{
    for node in 0..routers.len() {
        decide(relation, plan, cycle, &mut routers[node], &mut beats[node]);
    }
}

// One router takes the beats that came to it, injects, decides and commits.
fn decide(
    relation: &Relation,
    plan: &mut Plan,
    cycle: u64,
    router: &mut Router,
    beats: &mut [Beat; LINKS],
)
    requires router { IsRelationOf relation.now router.old }
    requires beats { IsLinked relation.now.grid beats.old }
    ensures router { router.new ≡ view_after_decide relation.now cycle
        (incoming relation.now.grid beats.old) router.old }
    ensures beats { IsSilent beats.new }
{
    take_beats(relation, router, beats);
    router.finish(relation, plan, cycle);
}

// Each router puts its beats on the wires that leave it, all of which are idle.
pub(crate) fn deliver_all(relation: &Relation, routers: &mut [Router], beats: &mut [[Beat; LINKS]])
    requires routers { HaveTheirBeats relation.now routers.old }
    requires nodes { length routers.old ≡ nodes_of relation.now.grid }
    requires count { length beats.old ≡ nodes_of relation.now.grid }
    requires beats { All IsSilent beats.old }
    ensures routers { routers.new ≡ map view_after_puts routers.old }
    ensures beats { (r port : ℕ) → r < nodes_of relation.now.grid
        → beat_at beats.new r port ≡ beat_from (map (λ v. v.to_put) routers.old)
        (neighbour_of relation.now.grid r port) }
{
    for node in 0..routers.len() {
        deliver(relation, &mut routers[node], beats);
    }
}
