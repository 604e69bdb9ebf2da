//! Which packet holds an input channel, and who knows it.

ghost use Rattle.std.specs.Prelude.{
  ◌≡◌,
  ℕ,
  suc,
  ◌+◌,
  ◌*◌,
  ◌/◌,
  ◌%◌,
  ◌<◌,
  ◌^◌,
  true,
  length,
  List,
  ◌∷◌,
  None,
  Some,
  slice_index_or,
};
ghost use Rattle.noc_packet.specs.declared.packet.Flit.{Flit};
ghost use Rattle.noc_topo.specs.Shape.{nodes, neighbour};
ghost use Rattle.noc_vc.specs.declared.output.OutputState.TheVariants.{Owned};
ghost use Rattle.noc_view.specs.View.{view_buffer, view_output};
ghost use Rattle.noc_packet.specs.Set.{has_bit};
ghost use Rattle.noc_sets.specs.Cycle.{Router, packets_in, still_of};
ghost use Rattle.noc_sets.specs.Layout.{IsLayoutOf, Layout};
ghost use Rattle.noc_sets.specs.Passes.{AreOwners, lane_raised};
ghost use Rattle.noc_sets.specs.Source.{Start};
ghost use Rattle.noc_sets.specs.Taken.{flit_from};
ghost use Rattle.noc_theory.specs.Good.{IsGoodSetup};
ghost use Rattle.noc_theory.specs.Lockstep.{beats_at, beats_in, view_at};
ghost use Rattle.noc_theory.specs.Network.{Setup, frozen_at, size, state_at};
ghost use Rattle.noc_theory.specs.declared.limits.TheConstants.{CYCLE_LIMIT};
ghost use Rattle.noc_theory_bits.specs.Network.{ShowsRouter};
ghost use Rattle.noc_theory_bits.specs.Owners.{ShowsHolders, frozen_of, grants_of, holder_at, told};

/// A flit on a wire is of the packet that holds the channel to which it comes.
pub fn flits_come_to_their_holder()
    ensures { (net : Setup) (n r i : ℕ) (f : Flit)
        → IsGoodSetup net → r < nodes net.relation.grid
        → flit_from net.relation.vcs 0 (beats_at (beats_in net (state_at net n)) r) i ≡ Some f
        → holder_at net (state_at net n) r i ≡ Some f.packet }
{}

/// So are the flits of its buffer, of which the first are to move, when the router is frozen.
pub fn first_flits_are_of_their_holder()
    ensures { (net : Setup) (n r i : ℕ) (f : Flit) (rest : List Flit)
        → IsGoodSetup net → r < nodes net.relation.grid → i < size net
        → view_buffer (frozen_of net n r) i ≡ f ∷ rest
        → holder_at net (frozen_at net n) r i ≡ Some f.packet }
{}

/// The packet that owns an output channel holds the input channel at the other end of its link.
pub fn senders_know_the_holder()
    ensures { (net : Setup) (n s o k p r port : ℕ)
        → IsGoodSetup net → s < nodes net.relation.grid → o < size net
        → (view_output (view_at net n s) o).holder ≡ Owned k p
        → neighbour net.relation.grid s (o / net.relation.vcs) ≡ Some (r, port)
        → holder_at net (state_at net n) r (port * net.relation.vcs + o % net.relation.vcs)
        ≡ Some p }
{}

/// The numbers of the holders in a frozen state, once the grants are told, are those at the next
/// count.
pub fn grants_tell_the_holder()
    ensures { (net : Setup) (n : ℕ) (packets : ℕ → ℕ → ℕ) → IsGoodSetup net
        → ((s : ℕ) → s < nodes net.relation.grid → ShowsHolders net (frozen_at net n) s (packets s))
        → (r : ℕ) → r < nodes net.relation.grid
        → ShowsHolders net (state_at net (suc n)) r
        (told net.relation.grid net.relation.vcs (grants_of net n) packets r) }
{}

/// What is told overwrites no number that is read: nobody holds the channel at the other end of an
/// output channel that is granted.
pub fn grants_go_to_channels_that_nobody_holds()
    ensures { (net : Setup) (n s o k r port : ℕ)
        → IsGoodSetup net → s < nodes net.relation.grid → o < size net
        → grants_of net n s o ≡ Some k
        → neighbour net.relation.grid s (o / net.relation.vcs) ≡ Some (r, port)
        → holder_at net (frozen_at net n) r (port * net.relation.vcs + o % net.relation.vcs)
        ≡ None }
{}

/// The number that a still router keeps of a channel with a flit is that of a packet.
pub fn numbers_of_filled_channels_are_packets()
    ensures { (count : ℕ) (net : Setup) (layout : Layout) (starts : List Start) (n r i up : ℕ)
        (b : Router)
        → IsGoodSetup net → n < CYCLE_LIMIT → IsLayoutOf count net.relation net.depth layout
        → r < nodes net.relation.grid → ShowsRouter count net n r starts b
        → AreOwners (lane_raised b.links.credits b.column) b.marks.owner up → up < 2 ^ 64
        → has_bit (still_of layout starts n up b).filled i ≡ true
        → (i < size net) × (packets_in layout starts n b i < length net.packets) }
{}
