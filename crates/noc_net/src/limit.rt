//! By when all packets of a network have to be out.

ghost use Rattle.std.specs.Prelude.{◌≡◌, ◌*◌, ◌≤◌};
ghost use Rattle.noc_net.specs.Prelude.{budget};
ghost use Rattle.noc_net.specs.Limit.{IsLastDue};

use crate::network::Network;
use noc_packet::{MAX_DUE, MAX_LENGTH, MAX_PACKETS};
use noc_topo::MAX_DISTANCE;

// The most events that it takes to bring one packet out.
const MAX_EVENTS: u64 = MAX_LENGTH as u64 * (3 * MAX_DISTANCE as u64 + 2)
    + 2 * (MAX_DISTANCE as u64 + 1);

/// The greatest limit that a network has, in cycles: 120,000,000.
pub const MAX_LIMIT: u64 = MAX_DUE as u64 + MAX_PACKETS as u64 * MAX_EVENTS;

// The greatest due time of the packets, 0 where there are none.
pub(crate) fn last_due(network: &Network) -> u64
    ensures value { IsLastDue network.now.net.packets result }
    ensures few { result ≤ MAX_DUE }
{
    let mut last = 0u32;
    for packet in 0..network.packets() {
        last = last.max(network.packet(packet).due);
    }
    u64::from(last)
}

// How many events it takes to bring every packet out. A flit has an injection, a
// move at each router, and a landing and a credit for each hop. A head is also
// routed and granted at each router.
pub(crate) fn budget(network: &Network) -> u64
    ensures value { result ≡ budget network.now.net }
    ensures few { result ≤ MAX_PACKETS * MAX_EVENTS }
{
    let shape = network.relation().shape();
    let mut events = 0u64;
    for packet in 0..network.packets() {
        let sent = network.packet(packet);
        let hops = shape.distance(sent.source as usize, sent.destination as usize) as u64;
        events += u64::from(sent.length) * (3 * hops + 2) + 2 * (hops + 1);
    }
    events
}
