//! One router of a network, and some of them, its own: what they send in a cycle, and what they
//! show after it where what comes from the others is right.

ghost use Rattle.std.specs.Prelude.{◌≡◌, ℕ, suc, ◌<◌, Bool, true, Option, Some};
ghost use Rattle.noc_topo.specs.Shape.{neighbour, nodes, ports};
ghost use Rattle.noc_sets.specs.Cycle.{Links, Router, Turn};
ghost use Rattle.noc_sets.specs.Layout.{IsLayoutOf, Layout};
ghost use Rattle.noc_theory.specs.Good.{IsGoodSetup};
ghost use Rattle.noc_theory.specs.Network.{Setup};
ghost use Rattle.noc_theory.specs.declared.limits.TheConstants.{CYCLE_LIMIT};
ghost use Rattle.noc_theory_bits.specs.Network.{AreJoined, HasGathered, HasRunOwn, HasTurned, IsTurn, ShowsNetwork, ShowsOwn, ShowsRouter, Words, all_starts, numbers_in, tells_in, with_router};
ghost use Rattle.noc_theory_bits.specs.Sends.{Sends};

/// A router that shows the network sends by each port what that of the network sends.
pub fn a_router_sends_what_the_network_does()
    ensures { (count : ℕ) (net : Setup) (layout : Layout) (n r port : ℕ) (b : Router) (t : Turn)
        → IsGoodSetup net → IsLayoutOf count net.relation net.depth layout → n < CYCLE_LIMIT
        → r < nodes net.relation.grid → port < ports net.relation.grid
        → ShowsRouter count net n r (all_starts net) b → IsTurn net layout n r b t
        → Sends net n r port t.left (tells_in net layout n b t) }
{}

/// Once it has gathered what its neighbours send to it, it shows the network at the next count.
pub fn a_router_shows_the_next_count()
    ensures { (count : ℕ) (net : Setup) (layout : Layout) (n r : ℕ) (b : Router) (t : Turn)
        (left : ℕ → Links) (tells : ℕ → ℕ → Option ℕ) (next : Router)
        → IsGoodSetup net → IsLayoutOf count net.relation net.depth layout → n < CYCLE_LIMIT
        → r < nodes net.relation.grid
        → ShowsRouter count net n r (all_starts net) b → IsTurn net layout n r b t
        → ((q s port : ℕ) → neighbour net.relation.grid r q ≡ Some (s, port)
        → Sends net n s port (left s) (tells s))
        → HasGathered net.relation.grid net.relation.vcs left tells (numbers_in net layout n b) r
        next
        → HasTurned t next → ShowsRouter count net (suc n) r (all_starts net) next }
{}

/// Own routers that show the network, and run a cycle, show it at the next count.
pub fn a_cycle_keeps_what_own_routers_show()
    ensures { (count : ℕ) (net : Setup) (layout : Layout) (own : ℕ → Bool) (n : ℕ)
        (b : Words) (t : ℕ → Turn) (left : ℕ → Links) (tells : ℕ → ℕ → Option ℕ) (next : Words)
        → IsGoodSetup net → IsLayoutOf count net.relation net.depth layout → n < CYCLE_LIMIT
        → ShowsOwn count net own n b → HasRunOwn net layout own n b t left tells next
        → ShowsOwn count net own (suc n) next }
{}

/// Words that show a network show the routers of each test, and where the test holds of all
/// routers, words that show these show the network.
pub fn all_routers_show_the_network()
    ensures some { (count : ℕ) (net : Setup) (own : ℕ → Bool) (n : ℕ) (w : Words)
        → IsGoodSetup net → ShowsNetwork count net n w → ShowsOwn count net own n w }
    ensures all { (count : ℕ) (net : Setup) (n : ℕ) (w : Words)
        → IsGoodSetup net → ShowsOwn count net (λ r. true) n w → ShowsNetwork count net n w }
{}

/// Where each router is in a part of a network, and the words of each part show the routers in it,
/// these words together show the network.
pub fn parts_show_the_network_together()
    ensures { (count : ℕ) (net : Setup) (part : ℕ → ℕ) (n : ℕ) (parts : ℕ → Words) (w : Words)
        → IsGoodSetup net
        → ((r : ℕ) → r < nodes net.relation.grid
        → ShowsOwn count net (with_router part r) n (parts (part r)))
        → AreJoined net part parts w → ShowsNetwork count net n w }
{}
