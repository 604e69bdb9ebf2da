//! What has left the routers of all blocks comes over the links to the routers of one.

ghost use Rattle.std.specs.Prelude.{◌≡◌, ◌<◌, ◌≤◌, ◌*◌, ◌/◌, ◌%◌, ◌||◌, ℕ, length};
ghost use Rattle.noc_topo.specs.Shape.{Grid, nodes, opposite};
ghost use Rattle.noc_sets.specs.Cycle.{Links as Left};
ghost use Rattle.noc_columns.specs.Near.{comes_by};
ghost use Rattle.noc_columns.specs.Places.{far_places};
ghost use Rattle.noc_columns.specs.Prelude.{has_bit, port_at, word};
ghost use Rattle.noc_cycles.specs.Around.{far_by};
ghost use Rattle.noc_cycles.specs.Gathered.{AreLed, IsWired, ShowAllLeft, brought, left_by};
ghost use Rattle.noc_cycles.specs.Held.{links_at};

use crate::around::Around;
use crate::pattern::Pattern;
use noc_columns::{Far, Links, Ports, ROUTERS, Words, gather, gather_far};

/// What has left the routers of all blocks comes over the links to those of the block with these
/// tables. Nothing comes to those that the network does not have.
#[inline(never)]
pub fn gather_links(
    pattern: &Pattern,
    around: &Around,
    left: &[Links<Words>],
    came: &mut Links<Words>,
)
    requires { (g : Grid) × IsWired g pattern.now around.now
        × (nodes g ≤ ROUTERS * length left.now) }
    ensures brought { (g : Grid) (leaves : ℕ → Left) (r : ℕ) → IsWired g pattern.now around.now
        → ShowAllLeft g pattern.now.table.ports left.now leaves
        → r / ROUTERS ≡ around.now.block → r < nodes g
        → links_at pattern.now.table.ports came.new (r % ROUTERS)
        ≡ brought g pattern.now.table.ports.links.vcs leaves r }
    ensures nothing { (g : Grid) (r : ℕ) → IsWired g pattern.now around.now
        → r / ROUTERS ≡ around.now.block → nodes g ≤ r
        → links_at pattern.now.table.ports came.new (r % ROUTERS)
        ≡ record { flits = 0; tails = 0; credits = 0 } }
{
    gather(&pattern.frame, &around.near, &left[around.block], came);
    gather_others(&pattern.table.ports.links, &around.far, left, came);
}

// Gathers what comes from other blocks, besides what has come already. (The neighbours stand in one
// list, since by many ports there are none.)
fn gather_others(links: &Ports, far: &[Far], left: &[Links<Words>], came: &mut Links<Words>)
    requires first { links.now.first ≡ 0 }
    requires led { AreLed links.now (length left.now) far.now }
    ensures flits { (p v r : ℕ) → p < links.now.width → v < links.now.vcs → r < ROUTERS
        → has_bit (word ((port_at links.now p).index v) came.new.flits) r
        ≡ (has_bit (word ((port_at links.now p).index v) came.old.flits) r
        || comes_by (far_places (far_by far.now p))
        (λ b. word ((port_at links.now (opposite p)).index v) (left_by left.now b).flits) r) }
    ensures tails { (p v r : ℕ) → p < links.now.width → v < links.now.vcs → r < ROUTERS
        → has_bit (word ((port_at links.now p).index v) came.new.tails) r
        ≡ (has_bit (word ((port_at links.now p).index v) came.old.tails) r
        || comes_by (far_places (far_by far.now p))
        (λ b. word ((port_at links.now (opposite p)).index v) (left_by left.now b).tails) r) }
    ensures credits { (p v r : ℕ) → p < links.now.width → v < links.now.vcs → r < ROUTERS
        → has_bit (word ((port_at links.now p).index v) came.new.credits) r
        ≡ (has_bit (word ((port_at links.now p).index v) came.old.credits) r
        || comes_by (far_places (far_by far.now p))
        (λ b. word ((port_at links.now (opposite p)).index v) (left_by left.now b).credits) r) }
{
    for one in far {
        gather_far(links, one, &left[one.block], came);
    }
}
