//! What holds of every network whose setup is well-formed, over every run.

ghost use Rattle.std.specs.Prelude.{◌≡◌, ◌+◌, ◌<◌, ◌≤◌, ℕ, true, false, Option, Some, length};
ghost use Rattle.noc_route.specs.Ranks.{IsRankedBy, Ranking, rank_at};
ghost use Rattle.noc_theory.specs.Network.{Setup, packet_at, state_at, opening_state, network_cycle, arrival_in};
ghost use Rattle.noc_theory.specs.Progress.{NoneDue, budget, events, is_pending, is_stuck, remainder};
ghost use Rattle.noc_theory.specs.Good.{IsWellFormedSetup};

/// No network is ever stuck whose relation is ranked, as the check of ranks answers: each cycle in
/// which a packet waits that was due has an event. The ranks may be of all link channels, or of
/// some to which the others lead. This is for all traffic: however many packets there are, of
/// whatever lengths, due whenever.
pub fn a_ranked_network_is_never_stuck()
    ensures event { (net : Setup) (ranks : Ranking) (n : ℕ) → IsWellFormedSetup net
        → IsRankedBy net.relation ranks
        → is_pending net n (state_at net n) ≡ true → 0 < events net n (state_at net n) }
    ensures unstuck { (net : Setup) (ranks : Ranking) (n : ℕ) → IsWellFormedSetup net
        → IsRankedBy net.relation ranks → is_stuck net n ≡ false }
{}

/// Each event is one less to come: a cycle lowers the remainder by exactly the number of its
/// events. At the start it is the budget.
pub fn each_event_is_one_less_to_come()
    ensures cycle { (net : Setup) (n : ℕ) → IsWellFormedSetup net
        → remainder net (state_at net n)
        ≡ remainder net (network_cycle net n (state_at net n)) + events net n (state_at net n) }
    ensures start { (net : Setup) → remainder net (opening_state net) ≡ budget net }
{}

/// In a network whose relation is ranked, all packets have arrived once as many cycles have passed
/// since the last due time as the budget has events, each in a cycle before.
pub fn all_packets_arrive_within_the_budget()
    ensures arrived { (net : Setup) (ranks : Ranking) (last n p : ℕ) → IsWellFormedSetup net
        → IsRankedBy net.relation ranks
        → ((q : ℕ) → q < length net.packets → (packet_at net q).due ≤ last) → last + budget net ≤ n
        → p < length net.packets
        → (m : ℕ) × (arrival_in net (state_at net n) p ≡ Some m) × (m < last + budget net) }
    ensures idle { (net : Setup) (ranks : Ranking) (last n : ℕ) → IsWellFormedSetup net
        → IsRankedBy net.relation ranks
        → ((q : ℕ) → q < length net.packets → (packet_at net q).due ≤ last) → last + budget net ≤ n
        → is_pending net n (state_at net n) ≡ false }
{}

/// A network whose last cycle had no event stays without events, and nothing of its state changes,
/// until another packet is due.
pub fn nothing_changes_until_a_packet_is_due()
    ensures event { (net : Setup) (n m : ℕ) → IsWellFormedSetup net
        → events net n (state_at net n) ≡ 0
        → n ≤ m → NoneDue net n m → events net m (state_at net m) ≡ 0 }
    ensures state { (net : Setup) (n m : ℕ) → IsWellFormedSetup net
        → events net n (state_at net n) ≡ 0
        → n ≤ m → NoneDue net n m → state_at net (m + 1) ≡ state_at net n }
{}

/// A network that is stuck stays stuck until another packet is due.
pub fn a_stuck_network_stays_stuck()
    ensures { (net : Setup) (n m : ℕ) → IsWellFormedSetup net → is_stuck net (n + 1) ≡ true
        → n ≤ m → NoneDue net n m → is_stuck net (m + 1) ≡ true }
{}
