//! Heads are routed as the relation permits it to their packets.

ghost use Rattle.std.specs.Prelude.{◌≡◌, ℕ, ◌+◌, List, map};
ghost use Rattle.noc_topo.specs.Shape.{ports};
ghost use Rattle.noc_sets.specs.Cycle.{HasWorked, Router, Turn};
ghost use Rattle.noc_sets.specs.Layout.{Layout};
ghost use Rattle.noc_sets.specs.Source.{Start};
ghost use Rattle.noc_theory.specs.Good.{IsGoodSetup};
ghost use Rattle.noc_theory.specs.Network.{Setup};
ghost use Rattle.noc_theory_bits.specs.Network.{permitted};
ghost use Rattle.noc_columns.specs.Routing.{AreRoutable, IsOfPorts, header_of, sets_by};
ghost use Rattle.noc_columns.specs.declared.ports.RouterPorts.{RouterPorts};

/// The packets of a good setup can be routed.
pub fn packets_are_routable()
    ensures { (net : Setup) → IsGoodSetup net
        → AreRoutable net.relation (map header_of net.packets) }
{}

/// By their headers they may take the sets that the relation permits to them.
pub fn heads_are_routed_as_permitted()
    ensures { (net : Setup) (r : ℕ)
        → sets_by net.relation (map header_of net.packets) r ≡ permitted net r }
{}

/// So a router of a block that takes part in a cycle takes part in that of the network.
pub fn routers_work_as_the_relation_permits()
    ensures { (net : Setup) (all : RouterPorts) (layout : Layout) (starts : List Start)
        (n r : ℕ) (b : Router) (t : Turn) → IsOfPorts all net.relation
        → HasWorked (all.links.width + 1) all.links.vcs layout starts
        (sets_by net.relation (map header_of net.packets) r) n b t
        → HasWorked (ports net.relation.grid) net.relation.vcs layout starts (permitted net r) n
        b t }
{}
