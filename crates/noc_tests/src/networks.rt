//! Networks before their first cycle, with packets of one class. None where memory was refused.

ghost use Rattle.std.specs.Prelude.{◌≡◌, ◌<◌, ◌≤◌, ◌∷◌, [], IfSome, false};
ghost use Rattle.noc_packet.specs.declared.limits.TheConstants.{MAX_BUFFER};

use noc_net::Network;
use noc_packet::Packet;
use noc_route::{Relation, Rule};
use noc_topo::{Kind, Shape};
use std::alloc::Global;

// A packet of class 0 with so many flits, which is due in cycle 0.
fn packet(source: u32, destination: u32, length: u32) -> Packet {
    Packet {
        source,
        destination,
        class: 0,
        length,
        due: 0,
    }
}

// The relation of a rule on a shape, for one class of packets.
pub(crate) fn relation(
    alloc: Global,
    kind: Kind,
    radix: &[usize],
    vcs: usize,
    rule: Rule,
) -> Option<Relation>
    ensures { IfSome result (λ r. r.vcs ≡ vcs) }
{
    let Ok(shape) = Shape::new(kind, radix) else {
        return None;
    };
    Relation::build(alloc, &shape, vcs, 1, rule).ok()
}

// Dimension order on a line of so many routers, with one channel on each link.
pub(crate) fn line(alloc: Global, routers: usize) -> Option<Relation>
    ensures grid { IfSome result (λ r. r.grid ≡ record { wraps = false; radix = routers ∷ [] }) }
    ensures vcs { IfSome result (λ r. r.vcs ≡ 1) }
{
    let Ok(shape) = Shape::new(Kind::Mesh, &[routers]) else {
        return None;
    };
    Relation::build(alloc, &shape, 1, 1, Rule::Dor).ok()
}

// The network of a relation with buffers of this depth, 1 to 16 flits.
pub(crate) fn network(
    alloc: Global,
    relation: Relation,
    depth: usize,
    packets: &[Packet],
) -> Option<Network>
    requires some_depth { 0 < depth }
    requires depth { depth ≤ MAX_BUFFER }
    ensures relation { IfSome result (λ n. n.net.relation ≡ relation) }
    ensures count { IfSome result (λ n. n.count ≡ 0) }
{
    let Ok(packets) = packets.to_vec(alloc) else {
        return None;
    };
    Network::new(alloc, relation, depth, packets).ok()
}

// A line of two routers with one channel on each link, without packets.
pub(crate) fn line_of_two(alloc: Global) -> Option<Network>
    ensures grid { IfSome result (λ n. n.net.relation.grid
        ≡ record { wraps = false; radix = 2 ∷ [] }) }
    ensures count { IfSome result (λ n. n.count ≡ 0) }
{
    let Some(line) = line(alloc, 2) else {
        return None;
    };
    network(alloc, line, 2, &[])
}

// A line of three routers, in which packet 0 waits for the channel of packet 1: they
// are out in cycles 10 and 5.
pub(crate) fn line_of_three(alloc: Global) -> Option<Network>
    ensures grid { IfSome result (λ n. n.net.relation.grid
        ≡ record { wraps = false; radix = 3 ∷ [] }) }
    ensures count { IfSome result (λ n. n.count ≡ 0) }
{
    let Some(line) = line(alloc, 3) else {
        return None;
    };
    network(alloc, line, 2, &[packet(0, 2, 1), packet(1, 2, 1)])
}

// A torus of two routers, with two wires each way between them, and a packet from each:
// both are out in cycle 5.
pub(crate) fn torus_of_two(alloc: Global) -> Option<Network>
    ensures { IfSome result (λ n. n.count ≡ 0) }
{
    let Some(torus) = relation(alloc, Kind::Torus, &[2], 1, Rule::Dor) else {
        return None;
    };
    network(alloc, torus, 2, &[packet(0, 1, 1), packet(1, 0, 1)])
}

// A ring of four routers with two channels, one slot and a dateline, on which each node sends four
// flits to the node opposite: the packets are out in cycles 24, 14, 44 and 34.
pub(crate) fn dateline_ring(alloc: Global) -> Option<Network>
    ensures { IfSome result (λ n. n.count ≡ 0) }
{
    let Some(ring) = relation(alloc, Kind::Torus, &[4], 2, Rule::Dateline) else {
        return None;
    };
    let packets = [
        packet(0, 2, 4),
        packet(1, 3, 4),
        packet(2, 0, 4),
        packet(3, 1, 4),
    ];
    network(alloc, ring, 1, &packets)
}
