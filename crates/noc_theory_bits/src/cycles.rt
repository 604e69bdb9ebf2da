//! A network by the words of its routers: opened, after a cycle, and after a wait.

ghost use Rattle.std.specs.Prelude.{◌≡◌, ℕ, suc, ◌+◌, ◌<◌, ◌≤◌};
ghost use Rattle.noc_sets.specs.Cycle.{Turn};
ghost use Rattle.noc_sets.specs.Layout.{IsLayoutOf, Layout};
ghost use Rattle.noc_theory.specs.Good.{IsGoodSetup};
ghost use Rattle.noc_theory.specs.Network.{Setup};
ghost use Rattle.noc_theory.specs.declared.limits.TheConstants.{CYCLE_LIMIT};
ghost use Rattle.noc_theory_bits.specs.Network.{HasRun, HasRunTo, HasWaited, HaveOpened, MayWait, ShowsNetwork, Words};

/// Words that have opened show the network before its first cycle.
pub fn opened_words_show_the_network()
    ensures { (count : ℕ) (net : Setup) (layout : Layout) (w : Words)
        → IsGoodSetup net → IsLayoutOf count net.relation net.depth layout
        → HaveOpened count net layout w → ShowsNetwork count net 0 w }
{}

/// Where they show it and all routers run a cycle, they show it at the next count.
pub fn a_cycle_keeps_what_they_show()
    ensures { (count : ℕ) (net : Setup) (layout : Layout) (n : ℕ)
        (b : Words) (t : ℕ → Turn) (next : Words)
        → IsGoodSetup net → IsLayoutOf count net.relation net.depth layout → n < CYCLE_LIMIT
        → ShowsNetwork count net n b → HasRun net layout n b t next
        → ShowsNetwork count net (suc n) next }
{}

/// So words that have opened and run cycle after cycle show it at each count.
pub fn a_run_shows_the_network()
    ensures { (count : ℕ) (net : Setup) (layout : Layout) (end n : ℕ) (w : ℕ → Words)
        → IsGoodSetup net → IsLayoutOf count net.relation net.depth layout → end ≤ CYCLE_LIMIT
        → HasRunTo count net layout end w → n ≤ end → ShowsNetwork count net n (w n) }
{}

/// After a cycle in which nothing happened they show it as long as no packet comes to be due.
pub fn a_wait_keeps_what_they_show()
    ensures { (count : ℕ) (net : Setup) (n times end : ℕ) (was is later : Words)
        → IsGoodSetup net → n + suc times ≡ end → end ≤ CYCLE_LIMIT
        → ShowsNetwork count net n was → ShowsNetwork count net (suc n) is
        → MayWait net n end is → HasWaited net times was is later
        → ShowsNetwork count net end later }
{}
