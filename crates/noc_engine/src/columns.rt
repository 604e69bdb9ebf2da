//! What a network by columns keeps.

use crate::origin::Origin;
use crate::plan::Plan;
use crate::tile::Tile;
use noc_view::Finding;

/// What a network keeps whose routers run 64 at a time: a word is one channel of 64 routers.
#[derive(Drop)]
pub struct Columns {
    /// What it was made from, for clauses.
    pub origin: Origin,
    /// The same in the words of its blocks.
    pub plan: Plan,
    /// All its blocks.
    pub tile: Tile,
    /// What each router has found in the last cycle of a run: `CHANNELS` places for its channels.
    pub found: Vec<Finding>,
}
