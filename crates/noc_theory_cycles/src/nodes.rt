//! The routers of a block, which are those of a network or such that the network does not have.

ghost use Rattle.std.specs.Prelude.{ℕ, ◌*◌, ◌<◌, ◌≤◌, Bool, length};
ghost use Rattle.noc_topo.specs.Shape.{nodes, ports};
ghost use Rattle.noc_sets.specs.Cycle.{Router, Turn};
ghost use Rattle.noc_sets.specs.Layout.{Layout};
ghost use Rattle.noc_theory.specs.Good.{IsGoodSetup};
ghost use Rattle.noc_theory.specs.Network.{Setup};
ghost use Rattle.noc_theory.specs.declared.limits.TheConstants.{CYCLE_LIMIT};
ghost use Rattle.noc_theory_bits.specs.Network.{IsTurn, all_starts, tells_in};
ghost use Rattle.noc_theory_bits.specs.Sends.{Sends};
ghost use Rattle.noc_columns.specs.declared.channels.Links.{Links};
ghost use Rattle.noc_columns.specs.declared.channels.Standing.{Standing};
ghost use Rattle.noc_columns.specs.declared.channels.Verdicts.{Verdicts};
ghost use Rattle.noc_cycles.specs.Concluding.{HasConcludedHeld};
ghost use Rattle.noc_cycles.specs.Held.{Held};
ghost use Rattle.noc_cycles.specs.May.{MayConclude, MayDecide, MayInject, MayTake};
ghost use Rattle.noc_cycles.specs.Taking.{HasTaken};
ghost use Rattle.noc_cycles.specs.Through.{HasTakenAndDecided, Worked};
ghost use Rattle.noc_cycles.specs.declared.pattern.Pattern.{Pattern};
ghost use Rattle.noc_theory_cycles.specs.Blank.{DoesNothing};
ghost use Rattle.noc_theory_cycles.specs.Fits.{FitsNetwork};
ghost use Rattle.noc_theory_cycles.specs.Nodes.{IsNodeTurn, ShowsNode};

/// Before each part of a cycle a router of a block has what the part asks for, and packets that
/// arrive from it are packets of the network.
pub fn nodes_have_what_is_asked_for()
    ensures taking { (count : ℕ) (net : Setup) (layout : Layout) (pattern : Pattern) (n node : ℕ)
        (links : Links ℕ) (h : Held) (b : Router)
        → IsGoodSetup net → n < CYCLE_LIMIT → FitsNetwork count net layout pattern
        → ShowsNode count net pattern n node links h b → MayTake pattern (all_starts net) h b }
    ensures injecting { (count : ℕ) (net : Setup) (layout : Layout) (pattern : Pattern)
        (n node : ℕ) (links : Links ℕ) (h : Held) (b : Router)
        → IsGoodSetup net → n < CYCLE_LIMIT → FitsNetwork count net layout pattern
        → ShowsNode count net pattern n node links h b → MayInject (all_starts net) n h }
    ensures deciding { (count : ℕ) (net : Setup) (layout : Layout) (pattern : Pattern)
        (n node : ℕ) (links : Links ℕ) (h a : Held) (b : Router) (standing : Standing ℕ)
        (no_credit : ℕ) (comes : Bool)
        → IsGoodSetup net → n < CYCLE_LIMIT → FitsNetwork count net layout pattern
        → ShowsNode count net pattern n node links h b
        → HasTaken pattern layout (all_starts net) n b a standing no_credit comes
        → MayDecide pattern (length net.packets) (nodes net.relation.grid) node a standing }
    ensures arriving { (count : ℕ) (net : Setup) (layout : Layout) (pattern : Pattern)
        (n node : ℕ) (links : Links ℕ) (h a d k : Held) (b : Router) (sets : ℕ → ℕ → ℕ)
        (x : Worked) (after : Links ℕ) (arrived : ℕ) (before verdicts : Verdicts ℕ)
        → IsGoodSetup net → n < CYCLE_LIMIT → FitsNetwork count net layout pattern
        → ShowsNode count net pattern n node links h b
        → HasTakenAndDecided pattern layout (all_starts net) sets n b a d x
        → HasConcludedHeld pattern x.standing x.decided x.granted after arrived d k before verdicts
        → MayConclude (length net.packets) k arrived }
{}

/// What it makes of a cycle is the turn of a router of the network, which sends what the network
/// does, and one that the network does not have does nothing.
pub fn nodes_make_turns_of_the_network()
    ensures turn { (count : ℕ) (net : Setup) (layout : Layout) (pattern : Pattern) (n node : ℕ)
        (b : Router) (t : Turn) → FitsNetwork count net layout pattern
        → IsNodeTurn net pattern layout n node b t → IsTurn net layout n node b t }
    ensures sends { (count : ℕ) (net : Setup) (layout : Layout) (pattern : Pattern)
        (n node port : ℕ) (links : Links ℕ) (h : Held) (b : Router) (t : Turn)
        → IsGoodSetup net → n < CYCLE_LIMIT → FitsNetwork count net layout pattern
        → ShowsNode count net pattern n node links h b → IsNodeTurn net pattern layout n node b t
        → node < nodes net.relation.grid → port < ports net.relation.grid
        → Sends net n node port t.left (tells_in net layout n b t) }
    ensures nothing { (count : ℕ) (net : Setup) (layout : Layout) (pattern : Pattern)
        (n node : ℕ) (links : Links ℕ) (h : Held) (b : Router) (t : Turn)
        → IsGoodSetup net → n < CYCLE_LIMIT → FitsNetwork count net layout pattern
        → ShowsNode count net pattern n node links h b → IsNodeTurn net pattern layout n node b t
        → nodes net.relation.grid ≤ node
        → DoesNothing (ports net.relation.grid * net.relation.vcs) t }
{}
