//! What is read of a network by the words of its routers.

ghost use Rattle.std.specs.Prelude.{◌≡◌, ℕ, suc, ◌<◌, slice_index_or};
ghost use Rattle.noc_topo.specs.Shape.{nodes};
ghost use Rattle.noc_view.specs.Found.{empty_finding};
ghost use Rattle.noc_sets.specs.Counts.{ten_counts};
ghost use Rattle.noc_sets.specs.Cycle.{Turn};
ghost use Rattle.noc_sets.specs.Layout.{IsLayoutOf, Layout};
ghost use Rattle.noc_theory.specs.Good.{IsGoodSetup};
ghost use Rattle.noc_theory.specs.Lockstep.{counts_before, findings_before};
ghost use Rattle.noc_theory.specs.Network.{Setup, size};
ghost use Rattle.noc_theory.specs.declared.limits.TheConstants.{CYCLE_LIMIT};
ghost use Rattle.noc_theory_bits.specs.Network.{HasRun, ShowsNetwork, Words};

/// What was counted of a channel.
pub fn counts_are_those_of_the_network()
    ensures { (count : ℕ) (net : Setup) (n : ℕ) (w : Words) (r i : ℕ)
        → ShowsNetwork count net n w → r < nodes net.relation.grid → i < size net
        → ten_counts n ((w.routers r).counts i) ≡ counts_before net n r i }
{}

/// What was found of it in a cycle.
pub fn findings_are_those_of_the_network()
    ensures { (count : ℕ) (net : Setup) (layout : Layout) (n : ℕ)
        (b : Words) (t : ℕ → Turn) (next : Words) (r i : ℕ)
        → IsGoodSetup net → IsLayoutOf count net.relation net.depth layout → n < CYCLE_LIMIT
        → ShowsNetwork count net n b → HasRun net layout n b t next
        → r < nodes net.relation.grid → i < size net
        → (t r).found i ≡ slice_index_or (findings_before net (suc n) r) i empty_finding }
{}
