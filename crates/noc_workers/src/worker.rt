//! A tile that one thread runs, and its rings to the tiles near it.

ghost use Rattle.std.specs.Prelude.{◌≡◌, ℕ, ◌+◌, IsTrue};
ghost use Rattle.noc_workers.specs.Prelude.{HasCome, HasReceivedBy, HasSameBlocks, HasSentBy, IsWorkerAt, MayReceiveBy, MayRunFrom, MaySendBy, ReadyPosts, SentPosts, nears_in, start_by};

use crate::origin::Run;
use crate::post::Post;
use noc_engine::Tile;
use std::sync::Wait;

/// A tile with its rings.
#[derive(Drop)]
pub(crate) struct Worker {
    pub(crate) tile: Tile,
    /// The rings to other tiles.
    pub(crate) posts: Vec<Post>,
    /// Whether it has run all cycles.
    pub(crate) is_whole: bool,
}

impl Worker {
    // Runs a cycle. False where a tile near it is gone.
    fn cycle(&mut self, rt: &impl Wait, run: &Run<'_>) -> bool
        requires { (c : ℕ) × MayRunFrom (start_by run.now) c 1 self.old }
        ensures blocks { HasSameBlocks self.old.tile self.new.tile }
        ensures ran { IsTrue result → (c : ℕ) → MayRunFrom (start_by run.now) c 1 self.old
            → IsWorkerAt (start_by run.now) (c + 1) self.new }
    {
        self.tile.turn(run.plan, run.relation);
        let posts = self.posts.as_mut_slice();
        if !send_all(rt, &self.tile, posts) {
            return false;
        }
        // (what no other tile needs is done while the mails are on their way)
        self.tile.hear_own();
        if !receive_all(rt, &mut self.tile, posts) {
            return false;
        }
        self.tile.gather(run.plan);
        true
    }
}

// Sends by each post what blocks of the tile tell in the cycle that it has run. False where a tile
// near it is gone.
fn send_all(rt: &impl Wait, tile: &Tile, posts: &mut [Post]) -> bool
    requires { MaySendBy tile.now (ReadyPosts posts.old) }
    ensures near { nears_in posts.new ≡ nears_in posts.old }
    ensures sent { IsTrue result → HasSentBy tile.now (ReadyPosts posts.old)
        (SentPosts posts.new) }
{
    for k in 0..posts.len() {
        if !posts[k].send(rt, tile) {
            return false;
        }
    }
    true
}

// Receives by each post what others tell in that cycle, and has the tile hear it. False where a
// tile near it is gone.
fn receive_all(rt: &impl Wait, tile: &mut Tile, posts: &mut [Post]) -> bool
    requires { MayReceiveBy tile.old (SentPosts posts.old) }
    ensures near { nears_in posts.new ≡ nears_in posts.old }
    ensures tile { HasSameBlocks tile.old tile.new }
    ensures heard { IsTrue result → HasReceivedBy (nears_in posts.old) tile.old tile.new
        (SentPosts posts.old) (ReadyPosts posts.new) }
{
    for k in 0..posts.len() {
        if !posts[k].receive(rt, tile) {
            return false;
        }
    }
    true
}

/// Runs so many cycles of a worker. Where a tile near it is gone it leaves its rings, so that the
/// others see that too.
pub(crate) fn run_worker(rt: &impl Wait, run: &Run<'_>, worker: Worker, cycles: u32) -> Worker
    requires { (done : ℕ) × MayRunFrom (start_by run.now) done cycles worker }
    ensures { HasCome (start_by run.now) cycles worker result }
{
    let mut worker = worker;
    for _ in 0..cycles {
        if !worker.cycle(rt, run) {
            worker.posts.clear();
            worker.is_whole = false;
            return worker;
        }
    }
    worker.is_whole = true;
    worker
}
