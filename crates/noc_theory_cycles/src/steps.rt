//! What the turns of routers of blocks make of a network.

ghost use Rattle.std.specs.Prelude.{◌≡◌, ℕ, ◌*◌, ◌<◌, Option, Some};
ghost use Rattle.noc_topo.specs.Shape.{Grid, IsGrid, local_port, nodes};
ghost use Rattle.noc_alloc.specs.Members.{MembersAreBelow};
ghost use Rattle.noc_sets.specs.Cycle.{Links as Left, Router, Turn, granted_in, still_of};
ghost use Rattle.noc_sets.specs.Layout.{Layout};
ghost use Rattle.noc_theory.specs.Good.{IsGoodSetup};
ghost use Rattle.noc_theory.specs.Network.{Setup, size};
ghost use Rattle.noc_theory.specs.declared.limits.TheConstants.{CYCLE_LIMIT};
ghost use Rattle.noc_theory_bits.specs.Network.{AreArrivals, HasTurned, all_starts, tells_in};
ghost use Rattle.noc_columns.specs.declared.channels.Links.{Links};
ghost use Rattle.noc_cycles.specs.Concluding.{HaveArrived};
ghost use Rattle.noc_cycles.specs.Deciding.{undecided};
ghost use Rattle.noc_cycles.specs.Gathered.{ShowsLeft, brought};
ghost use Rattle.noc_cycles.specs.Held.{Held, ShowsHeld};
ghost use Rattle.noc_cycles.specs.Through.{HasTakenAndDecided, Worked};
ghost use Rattle.noc_cycles.specs.Told.{Tells};
ghost use Rattle.noc_cycles.specs.Turning.{ShowsTurn};
ghost use Rattle.noc_cycles.specs.declared.pattern.Pattern.{Pattern};
ghost use Rattle.noc_theory_cycles.specs.Fits.{FitsNetwork};
ghost use Rattle.noc_theory_cycles.specs.Nodes.{ShowsNode};
ghost use Rattle.noc_theory_cycles.specs.Steps.{left_as, router_after};

/// What a router tells over its links in a cycle are the numbers of the packets that it has granted
/// output channels.
pub fn nodes_tell_what_they_grant()
    ensures { (count : ℕ) (net : Setup) (layout : Layout) (pattern : Pattern) (n node : ℕ)
        (links : Links ℕ) (h a d : Held) (b : Router) (sets : ℕ → ℕ → ℕ) (x : Worked) (t : Turn)
        (has : HasTakenAndDecided pattern layout (all_starts net) sets n b a d x)
        → IsGoodSetup net → n < CYCLE_LIMIT → FitsNetwork count net layout pattern
        → ShowsNode count net pattern n node links h b
        → t.grants ≡ granted_in (undecided (still_of layout (all_starts net) n has.takes.up b))
        has.decides.chosen
        → Tells net.relation.grid pattern.table.ports.links.vcs node x.granted d.out_port d.out_vc
        d.packet (tells_in net layout n b t) }
{}

/// What it holds after its turn shows its next words, whatever packets it is told of and its links
/// bring.
pub fn turns_are_shown_by_what_is_held()
    ensures shown { (pattern : Pattern) (k : Held) (t : Turn) (packet : ℕ → ℕ) (links : Links ℕ)
        → ShowsTurn pattern k t
        → ShowsHeld pattern (record k { packet = packet }) links (router_after t packet links) }
    ensures turned { (t : Turn) (packet : ℕ → ℕ) (links : Links ℕ)
        → HasTurned t (router_after t packet links) }
{}

/// Only what leaves routers by their links is brought to others.
pub fn what_leaves_by_links_is_brought()
    ensures { (g : Grid) (vcs r : ℕ) (words : ℕ → Links ℕ) (left : ℕ → Left) → IsGrid g → 0 < vcs
        → r < nodes g
        → ((s : ℕ) → s < nodes g → ShowsLeft (local_port g * vcs) (words s) (left s))
        → brought g vcs (left_as words) r ≡ brought g vcs left r }
{}

/// Where packets arrive from so many routers, and their cycles are read from words, these are the
/// arrivals of the network.
pub fn arrivals_are_read_from_words()
    ensures { (size n many : ℕ) (t : ℕ → Turn) (channels : ℕ → ℕ)
        (packet numbers : ℕ → ℕ → ℕ) (old new : ℕ → ℕ) (read : ℕ → Option ℕ)
        → HaveArrived n many channels packet old new → read n ≡ Some n
        → ((s : ℕ) → s < many → (t s).arrived ≡ channels s)
        → ((s : ℕ) → s < many → MembersAreBelow size (channels s))
        → ((s : ℕ) → s < many → numbers s ≡ packet s)
        → AreArrivals (λ s. s < many) size n t numbers (λ p. read (old p)) (λ p. read (new p)) }
{}
