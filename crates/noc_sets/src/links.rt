//! What comes over the links, at fixed distances in the numbering of routers.

ghost use Rattle.std.specs.Prelude.{◌≡◌, ℕ, ◌/◌, ◌<◌};
ghost use Rattle.noc_packet.specs.Set.{has_bit};
ghost use Rattle.noc_sets.specs.Gather.{comes_over, gathered, neighbour_by};
ghost use Rattle.noc_topo.specs.Shape.{Grid, IsGrid, local_port, neighbour, nodes};

/// The neighbour of a router at a port is one stride away, or where a line of a torus closes a span
/// the other way.
pub fn neighbours_are_at_two_distances()
    ensures { (g : Grid) (r port : ℕ) → IsGrid g → r < nodes g
        → neighbour g r port ≡ neighbour_by g r port }
{}

/// So the words of all routers, shifted and masked at these two distances, are what comes over
/// their links.
pub fn links_are_gathered_at_two_distances()
    ensures { (g : Grid) (vcs : ℕ) (words : ℕ → ℕ) (r i : ℕ) → IsGrid g → 0 < vcs → r < nodes g
        → has_bit (gathered g vcs words r) i ≡ comes_over g vcs words r i }
{}

/// Only channels of links are gathered, so words that agree on these are gathered alike.
pub fn only_channels_of_links_are_gathered()
    ensures { (g : Grid) (vcs : ℕ) (words others : ℕ → ℕ) (r : ℕ) → IsGrid g → 0 < vcs
        → ((s k : ℕ) → s < nodes g → k / vcs < local_port g
        → has_bit (words s) k ≡ has_bit (others s) k)
        → r < nodes g → gathered g vcs words r ≡ gathered g vcs others r }
{}
