//! What the parts of a cycle are of one router. Nothing here runs.

ghost use Rattle.std.specs.Prelude.{ℕ, Bool, List};
ghost use Rattle.noc_sets.specs.Cycle.{Router, still_of};
ghost use Rattle.noc_sets.specs.Layout.{Layout};
ghost use Rattle.noc_sets.specs.Source.{Start};
ghost use Rattle.noc_cycles.specs.Held.{Held};
ghost use Rattle.noc_cycles.specs.Taking.{FitsLayout};
ghost use Rattle.noc_cycles.specs.Through.{HasGoneThrough, Worked};
ghost use Rattle.noc_cycles.specs.Turning.{HasWorkedHeld, verdict_sets_by};
ghost use Rattle.noc_cycles.specs.declared.pattern.Pattern.{Pattern};

/// A router that has gone through a cycle has taken part in it.
pub fn routers_take_part()
    ensures { (pattern : Pattern) (layout : Layout) (starts : List Start) (sets : ℕ → ℕ → ℕ)
        (cycle : ℕ) (b : Router) (n : Held) (x : Worked) (happens : Bool)
        (goes : HasGoneThrough pattern layout starts sets cycle b n x happens)
        → FitsLayout pattern layout
        → HasWorkedHeld pattern layout starts sets cycle b
        (still_of layout starts cycle goes.takes.up b) goes.decides.chosen n
        (verdict_sets_by x.standing x.decided x.verdicts n.inputs.waiting x.granted x.lost)
        x.left x.arrived happens }
{}
