//! Which input channels of the routers of a block are granted an output channel.

ghost use Rattle.std.specs.Prelude.{ℕ};
ghost use Rattle.noc_sets.specs.Cycle.{Still};
ghost use Rattle.noc_sets.specs.Layout.{Layout};
ghost use Rattle.noc_columns.specs.declared.channels.Decided.{Decided};
ghost use Rattle.noc_columns.specs.declared.channels.Links.{Links};
ghost use Rattle.noc_columns.specs.declared.channels.Standing.{Standing};
ghost use Rattle.noc_cycles.specs.Deciding.{HasDecidedHeld};
ghost use Rattle.noc_cycles.specs.Held.{Held, ShowsStill};
ghost use Rattle.noc_cycles.specs.May.{MayDecide};
ghost use Rattle.noc_cycles.specs.declared.pattern.Pattern.{Pattern};
ghost use Rattle.noc_theory_cycles.specs.Granted.{AreGranted};

/// The input channels that are granted an output channel are those that have one in its grants, by
/// the numbers that are kept of them.
pub fn granted_channels_have_the_grants()
    ensures { (pattern : Pattern) (layout : Layout) (sets : ℕ → ℕ → ℕ) (s : Still)
        (a h : Held) (standing : Standing ℕ) (no_credit : ℕ) (decided : Decided ℕ)
        (granted lost : ℕ) (left : Links ℕ) (headers nodes node : ℕ)
        → ShowsStill pattern a standing no_credit s
        → MayDecide pattern headers nodes node a standing
        → (has : HasDecidedHeld pattern layout sets s a h standing decided granted lost left)
        → AreGranted pattern s h has.chosen granted }
{}
