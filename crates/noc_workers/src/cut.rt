//! A tile cut into tiles that stand side by side, each with a worker that runs it.

ghost use Rattle.std.specs.Prelude.{◌≡◌, ℕ, ◌+◌, ◌++◌, ◌∷◌, [], ◌<◌, ◌≤◌, true, All, Contains, length, IfOk, OnOk};
ghost use Rattle.noc_workers.specs.Prelude.{AreNew, IsGoodSetup, IsNew, IsPlanOf, MeetsMore, Shows, has_block, start_by};

use crate::borders::near_blocks;
use crate::origin::Run;
use crate::post::Post;
use crate::rings::meet;
use crate::worker::Worker;
use noc_engine::Tile;
use noc_packet::Memory;
use std::alloc::Global;

/// Workers for a tile that is about to run, so many, each with some of its blocks.
pub(crate) fn cut(
    alloc: Global,
    run: &Run<'_>,
    tile: Tile,
    count: usize,
) -> Result<Vec<Worker>, Memory>
    requires good { IsGoodSetup (start_by run.now).net }
    requires shows { Shows (start_by run.now).net run.now.plan.now run.now.cycle tile }
    requires all { tile.first + length tile.blocks.items ≡ length run.now.plan.now.around.items }
    requires count { (0 < count) × (count ≤ length tile.blocks.items) }
    ensures { IfOk result (λ workers. AreNew (start_by run.now) tile.first workers.items) }
{
    let mut rest = tile;
    let mut workers = Vec::new(alloc);
    let mut left = count;
    while left > 1 {
        let many = rest.blocks.len();
        let at = rest.first + (many - many / left);
        let there = rest.cut(alloc, at)?;
        add_worker(alloc, run, &mut workers, there)?;
        left -= 1;
    }
    add_worker(alloc, run, &mut workers, rest)?;
    Ok(workers)
}

// Adds a worker for the tile of the blocks before those that have workers.
fn add_worker(
    alloc: Global,
    run: &Run<'_>,
    workers: &mut Vec<Worker>,
    tile: Tile,
) -> Result<(), Memory>
    requires good { IsGoodSetup (start_by run.now).net }
    requires shows { Shows (start_by run.now).net run.now.plan.now run.now.cycle tile }
    requires some { 0 < length tile.blocks.items }
    requires workers { AreNew (start_by run.now) (tile.first + length tile.blocks.items)
        workers.old.items }
    ensures { OnOk result (AreNew (start_by run.now) tile.first workers.new.items) }
{
    let mut one = Worker {
        tile,
        posts: Vec::new(alloc),
        is_whole: false,
    };
    meet_all(alloc, run, &mut one, workers)?;
    workers.insert(0, one)?;
    Ok(())
}

// Makes the rings between a new worker and those of the blocks behind its own.
fn meet_all(
    alloc: Global,
    run: &Run<'_>,
    one: &mut Worker,
    workers: &mut Vec<Worker>,
) -> Result<(), Memory>
    requires good { IsGoodSetup (start_by run.now).net }
    requires one { (from : ℕ) × IsNew (start_by run.now) from from one.old
        × (from ≡ one.old.tile.first + length one.old.tile.blocks.items)
        × AreNew (start_by run.now) from workers.old.items }
    ensures { OnOk result ((from : ℕ) → IsNew (start_by run.now) from from one.old
        → from ≡ one.old.tile.first + length one.old.tile.blocks.items
        → AreNew (start_by run.now) from workers.old.items
        → AreNew (start_by run.now) one.old.tile.first (one.new ∷ workers.new.items)) }
{
    for number in 0..workers.len() {
        meet_one(alloc, run, one, &mut workers[number])?;
    }
    Ok(())
}

// Makes the rings between two workers, if links lead from the tile of the one to that of the other.
fn meet_one(
    alloc: Global,
    run: &Run<'_>,
    here: &mut Worker,
    there: &mut Worker,
) -> Result<(), Memory>
    requires good { IsGoodSetup (start_by run.now).net }
    requires shows { Shows (start_by run.now).net run.now.plan.now run.now.cycle here.old.tile
        × Shows (start_by run.now).net run.now.plan.now run.now.cycle there.old.tile }
    requires some { (0 < length here.old.tile.blocks.items)
        × (0 < length there.old.tile.blocks.items) }
    ensures here_stays { here.new.tile ≡ here.old.tile }
    ensures there_stays { there.new.tile ≡ there.old.tile }
    ensures here { OnOk result (MeetsMore (start_by run.now) here.old.tile there.old.tile
        here.old.posts.items here.new.posts.items) }
    ensures there { OnOk result (MeetsMore (start_by run.now) there.old.tile here.old.tile
        there.old.posts.items there.new.posts.items) }
{
    let from = near_blocks(alloc, run.plan, &here.tile, &there.tile)?;
    let back = near_blocks(alloc, run.plan, &there.tile, &here.tile)?;
    let many = from.len().max(back.len());
    if many == 0 {
        return Ok(());
    }
    let from = filled(from, here.tile.first, many)?;
    let back = filled(back, there.tile.first, many)?;
    let (one, other) = meet(alloc, from, back, run)?;
    add_post(&mut here.posts, one)?;
    add_post(&mut there.posts, other)?;
    Ok(())
}

// Blocks of a tile, and one of them as often as is wanted for so many in all.
fn filled(blocks: Vec<usize>, block: usize, many: usize) -> Result<Vec<usize>, Memory>
    requires { length blocks.items ≤ many }
    ensures many { IfOk result (λ v. length v.items ≡ many) }
    ensures own { IfOk result (λ v. (tile : Tile) → All (λ b. has_block tile b ≡ true) blocks.items
        → has_block tile block ≡ true → All (λ b. has_block tile b ≡ true) v.items) }
    ensures all { IfOk result (λ v. (b : ℕ) → Contains blocks.items b → Contains v.items b) }
{
    let mut blocks = blocks;
    while blocks.len() < many {
        blocks.push(block)?;
    }
    Ok(blocks)
}

// Adds the rings to another tile. The list has room for more, so that what stands behind it, which
// may be another tile's, is not in one line of a processor's cache with the last of them.
fn add_post(posts: &mut Vec<Post>, post: Post) -> Result<(), Memory>
    ensures { OnOk result (posts.new.items ≡ posts.old.items ++ post ∷ []) }
{
    posts.reserve(2)?;
    posts.push(post)?;
    Ok(())
}
