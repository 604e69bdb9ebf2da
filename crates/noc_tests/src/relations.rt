//! What a relation permits where no packet comes.

use crate::networks::relation;
use noc_route::{Relation, Rule};
use noc_topo::Kind;
use std::alloc::Global;

// Whether nothing is permitted to what comes to router 0 of a ring by channel 1 of its second port,
// and goes to node 1.
fn leads_nowhere(ring: &Relation) -> bool {
    let has_entry = 2 <= ring.shape().nodes() && 2 <= ring.shape().ports() && 2 <= ring.vcs();
    has_entry && ring.permitted(0, 0, 1, 1, 1).is_empty()
}

// Whether a ring with a dateline permits nothing there.
fn ring_leads_nowhere(alloc: Global) -> bool {
    let Some(ring) = relation(alloc, Kind::Torus, &[4], 2, Rule::Dateline) else {
        return false;
    };
    let leads_nowhere = leads_nowhere(&ring);
    drop(ring);
    leads_nowhere
}

#[test]
fn ring_of_four_with_a_dateline(rt: HostRuntime) {
    assert!(rt; ring_leads_nowhere(rt.alloc()));
}
