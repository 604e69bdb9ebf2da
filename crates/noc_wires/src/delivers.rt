//! A router puts its beats on the wires that leave it.

ghost use Rattle.std.specs.Prelude.{◌≡◌, ℕ, ◌<◌, ◌≤◌, IfSome, Some, length};
ghost use Rattle.noc_topo.specs.Shape.{nodes as nodes_of, neighbour as neighbour_of};
ghost use Rattle.noc_view.specs.View.{idle_beat};
ghost use Rattle.noc_theory.specs.Halves.{HasItsBeats, beat_at, sent_on, view_after_puts, wire_after_puts};

use noc_packet::Beat;
use noc_route::Relation;
use noc_router::Router;
use noc_topo::{LINKS, MAX_NODES};

/// One router puts its beats on the wires that leave it, all of which are idle.
pub fn deliver(relation: &Relation, router: &mut Router, beats: &mut [[Beat; LINKS]])
    requires router { HasItsBeats relation.now router.old.site.node router.old }
    requires node { router.old.site.node < nodes_of relation.now.grid }
    requires count { length beats.old ≡ nodes_of relation.now.grid }
    requires idle { (r port q : ℕ) → neighbour_of relation.now.grid r port
        ≡ Some (router.old.site.node, q) → beat_at beats.old r port ≡ idle_beat }
    ensures router { router.new ≡ view_after_puts router.old }
    ensures beats { (r port : ℕ) → r < nodes_of relation.now.grid
        → beat_at beats.new r port ≡ wire_after_puts router.old
        (neighbour_of relation.now.grid r port) (beat_at beats.old r port) }
{
    let links = relation.shape().ports() - 1;
    for port in 0..links {
        let beat = router.put(port);
        send(beats, router.neighbour(port), beat);
    }
}

// A beat is on the wire that arrives at this router and port, where there is a link.
fn send(beats: &mut [[Beat; LINKS]], to: Option<(usize, usize)>, beat: Beat)
    requires few { length beats.old ≤ MAX_NODES }
    requires within { IfSome to (λ input. (input.0 < length beats.old) × (input.1 < LINKS)) }
    ensures { beats.new ≡ sent_on beats.old to beat }
{
    if let Some((node, entry)) = to {
        beats[node][entry] = beat;
    }
}
