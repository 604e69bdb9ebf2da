//! The layout of the routers of a block.

ghost use Rattle.std.specs.Prelude.{ℕ};
ghost use Rattle.noc_topo.specs.Shape.{Grid};
ghost use Rattle.noc_theory.specs.Good.{IsGoodSetup};
ghost use Rattle.noc_theory.specs.Network.{Setup};
ghost use Rattle.noc_cycles.specs.Patterns.{IsPatternOf};
ghost use Rattle.noc_cycles.specs.Taking.{FitsLayout};
ghost use Rattle.noc_cycles.specs.declared.pattern.Pattern.{Pattern};
ghost use Rattle.noc_theory_cycles.specs.Fits.{FitsNetwork, bits_of, layout_of};

/// The layout of a pattern is that of the network that it is made for.
pub fn patterns_have_a_layout()
    ensures network { (net : Setup) (pattern : Pattern) → IsGoodSetup net
        → IsPatternOf net.relation.grid net.relation.vcs net.depth pattern
        → FitsNetwork (bits_of pattern) net (layout_of pattern) pattern }
    ensures block { (g : Grid) (vcs places : ℕ) (pattern : Pattern)
        → IsPatternOf g vcs places pattern → FitsLayout pattern (layout_of pattern) }
{}
