//! What stands in the buffers of a network, in every cycle.

ghost use Rattle.std.specs.Prelude.{◌≡◌, ℕ, ◌<◌, ◌&&◌, List, length, nat_eq};
ghost use Rattle.noc_packet.specs.declared.packet.Flit.{Flit};
ghost use Rattle.noc_topo.specs.Shape.{nodes};
ghost use Rattle.noc_view.specs.View.{view_buffer, first_flit, is_tail};
ghost use Rattle.noc_sets.specs.Ended.{AreConsecutive, holds_tail};
ghost use Rattle.noc_theory.specs.Good.{IsGoodSetup};
ghost use Rattle.noc_theory.specs.Lockstep.{view_at};
ghost use Rattle.noc_theory.specs.Network.{Setup, size};
ghost use Rattle.noc_theory_bits.specs.Owners.{frozen_of};

/// The flits of a buffer are consecutive ones of one packet, at each count and in each frozen
/// state.
pub fn buffers_hold_consecutive_flits()
    ensures start { (net : Setup) (n r i : ℕ)
        → IsGoodSetup net → r < nodes net.relation.grid → i < size net
        → AreConsecutive (view_buffer (view_at net n r) i) }
    ensures frozen { (net : Setup) (n r i : ℕ)
        → IsGoodSetup net → r < nodes net.relation.grid → i < size net
        → AreConsecutive (view_buffer (frozen_of net n r) i) }
{}

/// So its first flit is a tail exactly where it holds a tail and no other flit.
pub fn tails_are_told_by_two_bits()
    ensures { (net : Setup) (n r i : ℕ)
        → IsGoodSetup net → r < nodes net.relation.grid → i < size net
        → is_tail (first_flit (frozen_of net n r) i)
        ≡ (holds_tail (view_buffer (frozen_of net n r) i)
        && nat_eq (length (view_buffer (frozen_of net n r) i)) 1) }
{}
