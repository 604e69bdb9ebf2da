//! How long it takes until packets to one node are out.

ghost use Rattle.std.specs.Prelude.{◌≡◌, ℕ, ◌+◌, ◌<◌, ◌≤◌, IfSome, None, false, length, sum_by, true};
ghost use Rattle.noc_answers.specs.Arriving.{is_left, left_for};
ghost use Rattle.noc_answers.specs.Prelude.{is_out_at, IsGoodSetup, arrival_in, packet_at, state_at};

use noc_net::Network;
use noc_packet::MAX_LENGTH;

// How many of the next cycles, at most `most`, it takes until every packet is out, as far as those
// packets say that go to one node, since they take turns
// (`noc_theory::packets_to_a_node_take_turns`). It is the node of the first packet that is not out.
pub(crate) fn arriving_cycles(network: &Network, most: u64) -> u64
    ensures within { result ≤ most }
    ensures waiting { (k : ℕ) → 0 < k → k ≤ result
        → is_out_at network.now.net (network.now.count + k) ≡ false }
{
    let Some(first) = first_left(network) else {
        return 0;
    };
    let left = left_for(network, network.packet(first).destination);
    let early = network.relation().vcs() as u64 * left.longest.saturating_sub(1);
    left.flits.saturating_sub(early + 1).min(most)
}

// The first packet that is not out.
fn first_left(network: &Network) -> Option<usize>
    ensures { IfSome result (λ p. (p < length network.now.net.packets)
        × (arrival_in network.now.net (state_at network.now.net network.now.count) p ≡ None)) }
{
    for packet in 0..network.packets() {
        if network.arrival(packet).is_none() {
            return Some(packet);
        }
    }
    None
}

// The packets to a node that are not out: their flits, and those of the longest of them.
#[derive(Drop)]
struct PacketsLeft {
    flits: u64,
    longest: u64,
}

// What is left for a node.
fn left_for(network: &Network, node: u32) -> PacketsLeft
    ensures flits { result.flits ≡ sum_by (λ p. (packet_at network.now.net p).length)
        (left_for network.now.net network.now.count node) }
    ensures longest { (p : ℕ) → p < length network.now.net.packets
        → is_left network.now.net network.now.count node p ≡ true
        → (packet_at network.now.net p).length ≤ result.longest }
    ensures short { result.longest ≤ MAX_LENGTH }
    ensures good { IsGoodSetup network.now.net }
{
    let mut left = PacketsLeft {
        flits: 0,
        longest: 0,
    };
    for packet in 0..network.packets() {
        if is_left(network, packet, node) {
            let length = u64::from(network.packet(packet).length);
            left.flits += length;
            left.longest = left.longest.max(length);
        }
    }
    left
}

// Whether a packet goes to this node and is not out.
fn is_left(network: &Network, packet: usize, node: u32) -> bool
    requires { packet < length network.now.net.packets }
    ensures { result ≡ is_left network.now.net network.now.count node packet }
{
    network.packet(packet).destination == node && network.arrival(packet).is_none()
}
