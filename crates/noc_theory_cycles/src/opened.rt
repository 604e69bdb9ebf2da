//! Opened blocks show a network before its first cycle.

ghost use Rattle.std.specs.Prelude.{ℕ, ◌+◌, ◌*◌, ◌<◌, ◌≤◌, List};
ghost use Rattle.noc_topo.specs.Shape.{nodes};
ghost use Rattle.noc_theory.specs.Good.{IsGoodSetup};
ghost use Rattle.noc_theory.specs.Network.{Setup};
ghost use Rattle.noc_theory_bits.specs.Network.{ShowsNetwork};
ghost use Rattle.noc_columns.specs.declared.words.TheConstants.{ROUTERS};
ghost use Rattle.noc_cycles.specs.Held.{held_at};
ghost use Rattle.noc_cycles.specs.Opened.{IsOpened, no_links, router_of};
ghost use Rattle.noc_cycles.specs.Patterns.{IsPatternOf};
ghost use Rattle.noc_cycles.specs.declared.block.Block.{Block};
ghost use Rattle.noc_cycles.specs.declared.first.First.{First};
ghost use Rattle.noc_cycles.specs.declared.pattern.Pattern.{Pattern};
ghost use Rattle.noc_theory_cycles.specs.Firsts.{AreFirsts};
ghost use Rattle.noc_theory_cycles.specs.Fits.{bits_of};
ghost use Rattle.noc_theory_cycles.specs.Nodes.{ShowsNode};
ghost use Rattle.noc_theory_cycles.specs.Steps.{held_in, opened_words};

/// The routers of an opened block show those of the network before its first cycle, and those that
/// the network does not have are blank. The words of all blocks show the network.
pub fn opened_blocks_show_the_network()
    ensures one { (net : Setup) (pattern : Pattern) (firsts : List First) (b r : ℕ) (block : Block)
        → IsGoodSetup net → IsPatternOf net.relation.grid net.relation.vcs net.depth pattern
        → AreFirsts net.packets (nodes net.relation.grid) firsts → IsOpened pattern firsts b block
        → r < ROUTERS
        → ShowsNode (bits_of pattern) net pattern 0 (ROUTERS * b + r) no_links
        (held_at pattern.table.ports block r)
        (router_of pattern (held_at pattern.table.ports block r)) }
    ensures all { (net : Setup) (pattern : Pattern) (firsts : List First) (blocks : ℕ)
        (block : ℕ → Block)
        → IsGoodSetup net → IsPatternOf net.relation.grid net.relation.vcs net.depth pattern
        → AreFirsts net.packets (nodes net.relation.grid) firsts
        → nodes net.relation.grid ≤ ROUTERS * blocks
        → ((b : ℕ) → b < blocks → IsOpened pattern firsts b (block b))
        → ShowsNetwork (bits_of pattern) net 0
        (opened_words pattern (held_in pattern.table.ports block)) }
{}
