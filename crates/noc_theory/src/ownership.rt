//! What holds of every network whose setup is well-formed, in every cycle.

ghost use Rattle.std.specs.Prelude.{◌≡◌, ◌+◌, ◌<◌, ℕ, length};
ghost use Rattle.noc_topo.specs.Lists.{Has};
ghost use Rattle.noc_route.specs.Channel.{Channel, Link};
ghost use Rattle.noc_theory.specs.Network.{Setup, On, Out, packet_at, place_of_flit, credit_of, state_at, frozen_at};
ghost use Rattle.noc_theory.specs.Worm.{IsWormOrder};
ghost use Rattle.noc_theory.specs.Good.{IsWellFormedSetup, IsValid, slots_taken};

/// The channels of each packet are one path along the relation, no channel has two owners, and the
/// flits of a packet stand along its path in order, in buffers of link and injection channels. This
/// holds at the start of every cycle, and in the frozen state from which the verdicts of every
/// cycle are taken.
pub fn packets_keep_worm_order()
    ensures start { (net : Setup) (n : ℕ) → IsWellFormedSetup net
        → IsWormOrder net (state_at net n) }
    ensures frozen { (net : Setup) (n : ℕ) → IsWellFormedSetup net
        → IsWormOrder net (frozen_at net n) }
{}

/// The credits of a channel are the free slots of its buffer. Together with the flits on its wire,
/// the flits in its buffer and the credit on its way back they are all its slots, never more and
/// never less.
pub fn credits_are_the_free_slots()
    ensures { (net : Setup) (n : ℕ) (c : Channel) → IsWellFormedSetup net
        → credit_of net (state_at net n) c + slots_taken net (state_at net n) c ≡ net.depth }
{}

/// The flits of a packet go out in order of index, each in a cycle of its own, and all that is out
/// went out in a cycle that is over.
pub fn flits_go_out_in_order()
    ensures rising { (net : Setup) (n p i j a b : ℕ) → IsWellFormedSetup net
        → p < length net.packets → j < (packet_at net p).length → i < j
        → place_of_flit net (state_at net n) p i ≡ Out a
        → place_of_flit net (state_at net n) p j ≡ Out b → a < b }
    ensures over { (net : Setup) (n p i a : ℕ) → IsWellFormedSetup net → p < length net.packets
        → i < (packet_at net p).length
        → place_of_flit net (state_at net n) p i ≡ Out a → a < n }
{}

/// Two flits on the wires of one link are one flit, whatever their virtual channels.
pub fn a_link_carries_one_flit()
    ensures { (net : Setup) (n p i q j r port v w : ℕ) → IsWellFormedSetup net → IsValid net p i
        → IsValid net q j
        → place_of_flit net (state_at net n) p i ≡ On (Link r port v)
        → place_of_flit net (state_at net n) q j ≡ On (Link r port w) → (p ≡ q) × (i ≡ j) }
{}

/// Two credits on their way back along one link are one credit, whatever their virtual channels.
pub fn a_link_carries_one_credit()
    ensures { (net : Setup) (n r port v w : ℕ) → IsWellFormedSetup net
        → Has (Link r port v) (state_at net n).back → Has (Link r port w) (state_at net n).back
        → v ≡ w }
{}

/// A node takes at most one flit in a cycle: two flits to one node that went out in one cycle are
/// one flit.
pub fn a_node_takes_one_flit_in_a_cycle()
    ensures { (net : Setup) (n p i q j cycle : ℕ) → IsWellFormedSetup net → IsValid net p i
        → IsValid net q j → (packet_at net p).destination ≡ (packet_at net q).destination
        → place_of_flit net (state_at net n) p i ≡ Out cycle
        → place_of_flit net (state_at net n) q j ≡ Out cycle → (p ≡ q) × (i ≡ j) }
{}
