//! The blocks of a tile from which links lead to another one.

ghost use Rattle.std.specs.Prelude.{◌≡◌, ℕ, ◌+◌, ◌/◌, ◌<◌, ◌≤◌, All, true, IfOk, length, slice_index};
ghost use Rattle.noc_workers.specs.Prelude.{HasAllNear, end_by, has_block, has_router};

use noc_columns::{PORTS, ROUTERS};
use noc_cycles::Around;
use noc_engine::{Plan, Tile};
use noc_packet::Memory;
use std::alloc::Global;

/// The blocks of a tile, by their numbers in the network, from which links lead to another tile.
pub(crate) fn near_blocks(
    alloc: Global,
    plan: &Plan,
    here: &Tile,
    there: &Tile,
) -> Result<Vec<usize>, Memory>
    requires { here.now.first + length here.now.blocks.items ≤ length plan.now.around.items }
    ensures own { IfOk result (λ near. All (λ b. has_block here.now b ≡ true) near.items) }
    ensures all { IfOk result (λ near. HasAllNear plan.now here.now there.now near.items) }
{
    let mut near = Vec::new(alloc);
    for block in here.first..here.first + here.blocks.len() {
        if leads(&plan.around[block], there) {
            near.push(block)?;
        }
    }
    Ok(near)
}

// Whether links lead from a block to a tile.
fn leads(around: &Around, there: &Tile) -> bool
    ensures { (r p : ℕ) → r < ROUTERS → p < PORTS
        → has_router there.now (end_by around.now.ends r p) ≡ true → result ≡ true }
{
    for r in 0..ROUTERS {
        if ends_in(&around.ends[r], there) {
            return true;
        }
    }
    false
}

// Whether one of these routers, at the ends of the links of one, is in a tile.
fn ends_in(ends: &[u16; PORTS], there: &Tile) -> bool
    ensures { (p : ℕ) → p < PORTS → has_router there.now (slice_index ends.now p) ≡ true
        → result ≡ true }
{
    for p in 0..PORTS {
        if there.has_block(usize::from(ends[p]) / ROUTERS) {
            return true;
        }
    }
    false
}
