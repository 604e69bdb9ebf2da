//! What is read of a network, compared with what is wanted of it. Any numbers may be given.

use noc_net::Network;

// When a packet was out. None where it is not out or does not exist.
fn arrival(network: &Network, packet: usize) -> Option<u64> {
    if packet < network.packets() {
        network.arrival(packet)
    } else {
        None
    }
}

// When the packets of a line of three routers are out, those of a ring with a dateline, and those of
// a torus of two routers.
pub(crate) const LINE: &[Option<u64>] = &[Some(10), Some(5)];

pub(crate) const RING: &[Option<u64>] = &[Some(24), Some(14), Some(44), Some(34)];

pub(crate) const TORUS: &[Option<u64>] = &[Some(5), Some(5)];

// Whether there are so many packets, which are out in these cycles: None is one that is not out.
pub(crate) fn are_out(network: &Network, cycles: &[Option<u64>]) -> bool {
    for packet in 0..cycles.len() {
        if arrival(network, packet) != cycles[packet] {
            return false;
        }
    }
    network.packets() == cycles.len()
}
