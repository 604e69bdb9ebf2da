//! The routers of a block that show routers of a network.

ghost use Rattle.std.specs.Prelude.{◌≡◌, ℕ, ◌<◌, Bool, true, List, length};
ghost use Rattle.noc_topo.specs.Shape.{nodes};
ghost use Rattle.noc_packet.specs.Set.{has_bit};
ghost use Rattle.noc_sets.specs.Cycle.{Router};
ghost use Rattle.noc_sets.specs.Layout.{Layout};
ghost use Rattle.noc_sets.specs.Source.{Start};
ghost use Rattle.noc_theory.specs.Good.{IsGoodSetup};
ghost use Rattle.noc_theory.specs.Network.{Setup};
ghost use Rattle.noc_theory.specs.declared.limits.TheConstants.{CYCLE_LIMIT};
ghost use Rattle.noc_theory_bits.specs.Network.{ShowsRouter};
ghost use Rattle.noc_columns.specs.declared.channels.Links.{Links};
ghost use Rattle.noc_columns.specs.declared.channels.Standing.{Standing};
ghost use Rattle.noc_cycles.specs.Held.{Held, ShowsHeld};
ghost use Rattle.noc_cycles.specs.May.{MayConclude, MayDecide, MayInject, MayTake};
ghost use Rattle.noc_cycles.specs.Taking.{HasTaken};
ghost use Rattle.noc_cycles.specs.Through.{HasTakenAndDecided, Worked};
ghost use Rattle.noc_cycles.specs.declared.pattern.Pattern.{Pattern};
ghost use Rattle.noc_theory_cycles.specs.Fits.{FitsNetwork};

/// Before each part of a cycle a router of a block that shows a router of a network has what the
/// part asks for.
pub fn routers_have_what_is_asked_for()
    ensures taking { (count : ℕ) (net : Setup) (layout : Layout) (pattern : Pattern)
        (starts : List Start) (n r : ℕ) (links : Links ℕ) (h : Held) (b : Router)
        → IsGoodSetup net → FitsNetwork count net layout pattern → r < nodes net.relation.grid
        → ShowsRouter count net n r starts b → ShowsHeld pattern h links b
        → MayTake pattern starts h b }
    ensures injecting { (count : ℕ) (net : Setup) (layout : Layout) (pattern : Pattern)
        (starts : List Start) (n r : ℕ) (links : Links ℕ) (h : Held) (b : Router)
        → IsGoodSetup net → n < CYCLE_LIMIT → FitsNetwork count net layout pattern
        → r < nodes net.relation.grid → ShowsRouter count net n r starts b
        → ShowsHeld pattern h links b → MayInject starts n h }
    ensures deciding { (count : ℕ) (net : Setup) (layout : Layout) (pattern : Pattern)
        (starts : List Start) (n r : ℕ) (b : Router) (h : Held) (standing : Standing ℕ)
        (no_credit : ℕ) (comes : Bool)
        → IsGoodSetup net → n < CYCLE_LIMIT → FitsNetwork count net layout pattern
        → r < nodes net.relation.grid → ShowsRouter count net n r starts b
        → HasTaken pattern layout starts n b h standing no_credit comes
        → MayDecide pattern (length net.packets) (nodes net.relation.grid) r h standing }
    ensures concluding { (count : ℕ) (net : Setup) (layout : Layout) (pattern : Pattern)
        (starts : List Start) (n r : ℕ) (b : Router) (a h : Held) (sets : ℕ → ℕ → ℕ) (x : Worked)
        (released : ℕ)
        → IsGoodSetup net → n < CYCLE_LIMIT → FitsNetwork count net layout pattern
        → r < nodes net.relation.grid → ShowsRouter count net n r starts b
        → HasTakenAndDecided pattern layout starts sets n b a h x
        → ((i : ℕ) → has_bit released i ≡ true → has_bit x.decided.picked i ≡ true)
        → MayConclude (length net.packets) h released }
{}
