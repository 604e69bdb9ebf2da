//! The routers of the last block that the network does not have.

ghost use Rattle.std.specs.Prelude.{◌≡◌, ℕ, ◌*◌, ◌<◌, Bool, true, List};
ghost use Rattle.noc_topo.specs.Shape.{ports};
ghost use Rattle.noc_packet.specs.Set.{has_bit};
ghost use Rattle.noc_sets.specs.Cycle.{HasWorked, Router, Turn};
ghost use Rattle.noc_sets.specs.Layout.{IsLayoutOf, Layout};
ghost use Rattle.noc_sets.specs.Source.{NEVER, Start};
ghost use Rattle.noc_theory.specs.Network.{Setup};
ghost use Rattle.noc_theory_bits.specs.Network.{HasTurned};
ghost use Rattle.noc_columns.specs.declared.channels.Links.{Links};
ghost use Rattle.noc_columns.specs.declared.channels.Standing.{Standing};
ghost use Rattle.noc_cycles.specs.Held.{Held, ShowsHeld};
ghost use Rattle.noc_cycles.specs.May.{MayConclude, MayDecide, MayInject, MayTake};
ghost use Rattle.noc_cycles.specs.Opened.{HoldsNothing, router_of};
ghost use Rattle.noc_cycles.specs.Taking.{HasTaken};
ghost use Rattle.noc_cycles.specs.Through.{HasTakenAndDecided, Worked};
ghost use Rattle.noc_cycles.specs.declared.first.First.{First};
ghost use Rattle.noc_cycles.specs.declared.pattern.Pattern.{Pattern};
ghost use Rattle.noc_theory_cycles.specs.Blank.{DoesNothing, HoldsBlank, IsBlank, channels_count};

/// A router of a block that holds nothing is blank before the first cycle, and a blank one holds
/// nothing. So does an opened one in which no packet starts.
pub fn blank_routers_hold_nothing()
    ensures blank { (pattern : Pattern) (h : Held) → HoldsBlank pattern h
        → IsBlank (channels_count pattern) (router_of pattern h) }
    ensures nothing { (pattern : Pattern) (h : Held) (links : Links ℕ) (b : Router)
        → ShowsHeld pattern h links b → IsBlank (channels_count pattern) b
        → HoldsBlank pattern h }
    ensures opened { (pattern : Pattern) (one : First) (r : ℕ) (h : Held)
        → HoldsNothing pattern one r h → one.due ≡ NEVER → HoldsBlank pattern h }
{}

/// It has what each part of a cycle asks for too.
pub fn blank_routers_have_what_is_asked_for()
    ensures taking { (pattern : Pattern) (starts : List Start) (h : Held) (links : Links ℕ)
        (b : Router) → ShowsHeld pattern h links b → IsBlank (channels_count pattern) b
        → MayTake pattern starts h b }
    ensures injecting { (pattern : Pattern) (starts : List Start) (n : ℕ) (h : Held)
        (links : Links ℕ) (b : Router) → n < NEVER → ShowsHeld pattern h links b
        → IsBlank (channels_count pattern) b
        → MayInject starts n h }
    ensures deciding { (pattern : Pattern) (layout : Layout) (starts : List Start) (n : ℕ)
        (b : Router) (h : Held) (standing : Standing ℕ) (no_credit : ℕ) (comes : Bool)
        (packets nodes node : ℕ) → n < NEVER → IsBlank (channels_count pattern) b
        → HasTaken pattern layout starts n b h standing no_credit comes
        → MayDecide pattern packets nodes node h standing }
    ensures concluding { (pattern : Pattern) (layout : Layout) (starts : List Start) (n : ℕ)
        (b : Router) (a h : Held) (sets : ℕ → ℕ → ℕ) (x : Worked) (released packets : ℕ)
        → n < NEVER → IsBlank (channels_count pattern) b
        → HasTakenAndDecided pattern layout starts sets n b a h x
        → ((i : ℕ) → has_bit released i ≡ true → has_bit x.decided.picked i ≡ true)
        → MayConclude packets h released }
{}

/// Through a cycle it stays blank, and it does nothing.
pub fn blank_routers_stay_blank()
    ensures blank { (count : ℕ) (net : Setup) (layout : Layout) (starts : List Start)
        (sets : ℕ → ℕ → ℕ) (n size : ℕ) (b : Router) (t : Turn) (next : Router)
        → IsLayoutOf count net.relation net.depth layout → n < NEVER → IsBlank size b
        → HasWorked (ports net.relation.grid) net.relation.vcs layout starts sets n b t
        → HasTurned t next → next.links.flits ≡ 0 → next.links.credits ≡ 0 → IsBlank size next }
    ensures nothing { (count : ℕ) (net : Setup) (layout : Layout) (starts : List Start)
        (sets : ℕ → ℕ → ℕ) (n size : ℕ) (b : Router) (t : Turn)
        → IsLayoutOf count net.relation net.depth layout → n < NEVER → IsBlank size b
        → HasWorked (ports net.relation.grid) net.relation.vcs layout starts sets n b t
        → DoesNothing (ports net.relation.grid * net.relation.vcs) t }
{}
