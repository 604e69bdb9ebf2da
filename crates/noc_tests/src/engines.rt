//! Networks by columns, and by their routers where they were put together from parts.

use crate::networks::{network, relation};
use noc_net::Network;
use noc_route::Rule;
use noc_topo::Kind;
use std::alloc::Global;

// Whether a new network of these routers and so many channels runs by columns, and the network of
// its parts does not.
fn runs_by_columns(alloc: Global, radix: &[usize], vcs: usize) -> bool {
    let Some(mesh) = relation(alloc, Kind::Mesh, radix, vcs, Rule::Dor) else {
        return false;
    };
    let Some(made) = network(alloc, mesh, 16, &[]) else {
        return false;
    };
    let by_columns = made.runs_by_columns();
    let again = Network::from_parts(made.into_parts());
    let by_routers = !again.runs_by_columns();
    drop(again);
    by_columns && by_routers
}

// Shapes, and how many virtual channels their links have.
const MESHES: &[(&[usize], usize)] = &[
    (&[2], 1),
    (&[2], 8),
    (&[2, 2], 6),
    (&[2, 2], 7),
    (&[2, 2, 2], 4),
    (&[2, 2, 2], 8),
];

#[test]
fn a_network_runs_by_columns_until_it_is_taken_apart(rt: HostRuntime) {
    for (radix, vcs) in MESHES {
        assert!(rt; runs_by_columns(rt.alloc(), radix, *vcs));
    }
}
