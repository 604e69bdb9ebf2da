//! Tiles that are cut, and joined again.

ghost use Rattle.std.specs.Prelude.{◌≡◌, ℕ, ◌+◌, ◌/◌, ◌<◌, ◌≤◌, IfOk, OnOk, length, slice_index, if◌then◌else◌};
ghost use Rattle.noc_engine.specs.Prelude.{HasBehind, IsCut, IsJoined, Plan, Setup, Shows, has_block, header_in};

use crate::exchange::nothing_left;
use crate::plan::Plan;
use crate::tile::Tile;
use noc_columns::{Header, ROUTERS};
use noc_packet::Memory;
use std::alloc::Global;

impl Tile {
    /// Whether it has the block with this number.
    pub fn has_block(&self, block: usize) -> bool
        ensures { result ≡ has_block self.now block }
    {
        self.first <= block && block - self.first < self.blocks.len()
    }

    /// Cuts it at a block, by its number in the network: the blocks from that one on are a tile of
    /// their own.
    pub fn cut(&mut self, alloc: Global, at: usize) -> Result<Tile, Memory>
        requires shows { (net : Setup) × (plan : Plan) × (n : ℕ) × Shows net plan n self.old }
        requires at { (self.old.first ≤ at)
            × (at ≤ self.old.first + length self.old.blocks.items) }
        ensures { IfOk result (λ there. IsCut at self.old self.new there) }
    {
        let kept = at - self.first;
        let Ok(left) = nothing_left(alloc, self.left.len()) else {
            return Err(Memory);
        };
        let Ok(arrivals) = self.arrivals.to_vec(alloc) else {
            return Err(Memory);
        };
        let Ok(blocks) = self.blocks.split_off(kept) else {
            return Err(Memory);
        };
        let Ok(works) = self.works.split_off(kept) else {
            return Err(Memory);
        };
        let Ok(counts) = self.counts.split_off(kept) else {
            return Err(Memory);
        };
        let Ok(notes) = self.notes.split_off(kept) else {
            return Err(Memory);
        };
        Ok(Tile {
            first: at,
            blocks,
            works,
            counts,
            notes,
            left,
            arrivals,
            last: self.last,
            cycle: self.cycle,
        })
    }

    /// Joins it with the tile of the blocks behind its own.
    pub fn join(&mut self, plan: &Plan, mut there: Tile) -> Result<(), Memory>
        requires shows { (net : Setup) × (n : ℕ) × Shows net plan.now n self.old
            × Shows net plan.now n there }
        requires beside { there.first ≡ self.old.first + length self.old.blocks.items }
        ensures { OnOk result (IsJoined plan.now self.old there self.new) }
    {
        take_arrivals(&plan.headers, &there, self.arrivals.as_mut_slice());
        self.last = self.last.max(there.last);
        let joined = self.append(&mut there);
        drop(there);
        joined
    }

    // The blocks of another tile come behind its own.
    fn append(&mut self, there: &mut Tile) -> Result<(), Memory>
        ensures { OnOk result (HasBehind self.old there.old self.new) }
    {
        self.blocks.append(&mut there.blocks)?;
        self.works.append(&mut there.works)?;
        self.counts.append(&mut there.counts)?;
        self.notes.append(&mut there.notes)?;
        Ok(())
    }
}

// When those of these packets arrived that end in a tile is taken from there.
fn take_arrivals(headers: &[Header], tile: &Tile, arrivals: &mut [u32])
    requires tile { length tile.now.arrivals.items ≡ length headers.now }
    requires arrivals { length arrivals.old ≡ length headers.now }
    ensures { (p : ℕ) → p < length headers.now → slice_index arrivals.new p
        ≡ (if has_block tile.now ((header_in headers.now p).destination / ROUTERS)
        then slice_index tile.now.arrivals.items p else slice_index arrivals.old p) }
{
    for packet in 0..headers.len() {
        if tile.has_block(usize::from(headers[packet].destination) / ROUTERS) {
            arrivals[packet] = tile.arrivals[packet];
        }
    }
}
