//! The input channels of a router as sets by their verdicts.

ghost use Rattle.std.specs.Prelude.{◌≡◌, ℕ, ◌≤◌};
ghost use Rattle.noc_view.specs.VerdictSets.{HasVerdict, VerdictSets, sets_with, verdict_by};
ghost use Rattle.noc_view.specs.declared.verdict.Verdict.{Verdict};

/// A channel has the verdict of the set that it is in, and Empty where it is in none. Where it is
/// in one set at most, as in those of a cycle, it has no other verdict, so it makes no difference
/// in which order `verdict_by` looks.
pub fn a_channel_has_the_verdict_of_its_set()
    ensures has { (sets : VerdictSets) (i : ℕ) → HasVerdict sets i (verdict_by sets i) }
    ensures only { (sets : VerdictSets) (i : ℕ) (verdict : Verdict) → sets_with sets i ≤ 1
        → HasVerdict sets i verdict → verdict_by sets i ≡ verdict }
{}
