//! What is found of the routers of a block. Nothing here runs.

ghost use Rattle.std.specs.Prelude.{◌≡◌, ◌+◌, ◌*◌, ℕ, List, true};
ghost use Rattle.noc_packet.specs.Set.{has_bit};
ghost use Rattle.noc_sets.specs.Column.{IsColumn};
ghost use Rattle.noc_sets.specs.Cycle.{Router, Still, still_of};
ghost use Rattle.noc_sets.specs.Source.{Start};
ghost use Rattle.noc_view.specs.View.{View};
ghost use Rattle.noc_sets.specs.Layout.{Layout};
ghost use Rattle.noc_columns.specs.declared.channels.Decided.{Decided};
ghost use Rattle.noc_columns.specs.declared.channels.Links.{Links};
ghost use Rattle.noc_columns.specs.declared.channels.Standing.{Standing};
ghost use Rattle.noc_columns.specs.declared.channels.Verdicts.{Verdicts};
ghost use Rattle.noc_cycles.specs.Concluding.{HasConcludedHeld};
ghost use Rattle.noc_cycles.specs.Deciding.{HasDecidedHeld};
ghost use Rattle.noc_cycles.specs.Held.{Held, ShowsStill};
ghost use Rattle.noc_cycles.specs.Turning.{verdict_sets_by};
ghost use Rattle.noc_cycles.specs.declared.pattern.Pattern.{Pattern};
ghost use Rattle.noc_counts.specs.Findings.{FindsAll, WantsAll};

/// What follows from the verdicts of a router, and from the output channels that were granted in
/// the cycle, is what is found by its words before the cycle takes effect. So it is where none of
/// its active channels waits, and all that waiting channels may take is wanted: what a channel asks
/// for is granted, to it or to another one.
pub fn findings_follow_from_grants()
    ensures { (pattern : Pattern) (layout : Layout) (sets : ℕ → ℕ → ℕ) (s : Still) (a h n : Held)
        (standing : Standing ℕ) (decided : Decided ℕ) (granted lost arrived : ℕ)
        (left gone : Links ℕ) (v w : Verdicts ℕ) → ShowsStill pattern a standing v.no_credit s
        → HasDecidedHeld pattern layout sets s a h standing decided granted lost left
        → HasConcludedHeld pattern standing decided granted gone arrived h n v w
        → WantsAll ((pattern.table.ports.links.width + 1) * pattern.table.ports.links.vcs) a
        → FindsAll pattern
        (verdict_sets_by standing decided w n.inputs.waiting granted lost) granted s n }
{}

/// All that the waiting channels of a router may take is wanted, where the words of the router
/// showed a view before it took what comes.
pub fn what_waiting_channels_may_take_is_wanted()
    ensures { (count cycle up no_credit : ℕ) (v : View) (b : Router) (pattern : Pattern)
        (layout : Layout) (starts : List Start) (a : Held) (standing : Standing ℕ)
        → IsColumn count b.column b.marks v
        → ShowsStill pattern a standing no_credit (still_of layout starts cycle up b)
        → (i o : ℕ) → has_bit a.waiting i ≡ true → has_bit (a.set i) o ≡ true
        → has_bit a.wanted o ≡ true }
{}
