//! How long packets take.

ghost use Rattle.std.specs.Prelude.{◌≡◌, ◌+◌, ◌-◌, ◌*◌, ◌<◌, ◌≤◌, ℕ, List, Option, Some, true, is_some, length, sum_by};
ghost use Rattle.noc_topo.specs.Lists.{Each};
ghost use Rattle.noc_theory.specs.Network.{Setup, packet_at, state_at, arrival_in};
ghost use Rattle.noc_theory.specs.Alone.{IsAlone, IsApart, zero_load_latency};
ghost use Rattle.noc_theory.specs.Good.{IsWellFormedSetup};
ghost use Rattle.noc_theory.specs.Waiting.{AreWaiting};

/// A packet that is alone takes exactly its latency at zero load, where each buffer has two slots
/// or more: three cycles for each hop, two more, and one for each flit behind the head. So it is on
/// every shape, by every relation, and whenever it is due. It is enough that its time is apart from
/// that of all others, and this can be told when it is due.
pub fn a_packet_alone_is_never_held_up()
    ensures alone { (net : Setup) (n p : ℕ) → IsWellFormedSetup net → 2 ≤ net.depth
        → p < length net.packets → IsAlone net p
        → (packet_at net p).due + zero_load_latency net p < n
        → arrival_in net (state_at net n) p
        ≡ Some ((packet_at net p).due + zero_load_latency net p) }
    ensures apart { (net : Setup) (n p : ℕ) → IsWellFormedSetup net → 2 ≤ net.depth
        → p < length net.packets → IsApart net p
        → (packet_at net p).due + zero_load_latency net p < n
        → arrival_in net (state_at net n) p
        ≡ Some ((packet_at net p).due + zero_load_latency net p) }
{}

/// Where each buffer has two places or more, a packet is alone exactly where its time is apart from
/// that of all others: each of them was out before it was due, or is due after it is out.
pub fn a_packet_alone_is_apart_from_others()
    ensures apart { (net : Setup) (p : ℕ) → IsWellFormedSetup net → 2 ≤ net.depth
        → p < length net.packets → IsAlone net p → IsApart net p }
    ensures alone { (net : Setup) (p : ℕ) → IsWellFormedSetup net → 2 ≤ net.depth
        → p < length net.packets → IsApart net p → IsAlone net p }
{}

/// Until packets to one node are out, it takes a cycle for each of their flits, since a node takes
/// one flit in a cycle. But flits of some may be out before: of as many packets as there are
/// virtual channels, all but the tail.
pub fn packets_to_a_node_take_turns()
    ensures { (net : Setup) (n k node longest : ℕ) (packets : List ℕ) → IsWellFormedSetup net
        → AreWaiting net n node longest packets
        → Each (λ p. is_some (arrival_in net (state_at net (n + k)) p) ≡ true) packets
        → sum_by (λ p. (packet_at net p).length) packets
        ≤ k + net.relation.vcs * (longest - 1) }
{}
