//! The tiles of workers joined to one.

ghost use Rattle.std.specs.Prelude.{◌≡◌, ℕ, ◌+◌, ◌<◌, length, IfOk};
ghost use Rattle.noc_workers.specs.Prelude.{AllShow, Setup, Shows};

use crate::worker::Worker;
use noc_engine::{Plan, Tile};
use noc_packet::Memory;

/// The tile of all blocks of some workers.
pub(crate) fn join(plan: &Plan, workers: Vec<Worker>) -> Result<Tile, Memory>
    requires some { 0 < length workers.items }
    requires show { (net : Setup) × (n : ℕ) × (from : ℕ) × (to : ℕ)
        × AllShow net plan.now n from to workers.items }
    ensures { IfOk result (λ tile. (net : Setup) (n from to : ℕ)
        → AllShow net plan.now n from to workers.items
        → (tile.first ≡ from) × (tile.first + length tile.blocks.items ≡ to)
        × Shows net plan.now n tile) }
{
    let mut workers = workers;
    let Worker { mut tile, .. } = workers.remove(0);
    while !workers.is_empty() {
        let Worker { tile: there, .. } = workers.remove(0);
        tile.join(plan, there)?;
    }
    Ok(tile)
}
