//! Where the neighbours of the routers of a block stand.

ghost use Rattle.std.specs.Prelude.{◌≡◌, ◌<◌, ◌-◌, ◌%◌, ℕ, slice_index};
ghost use Rattle.noc_columns.specs.declared.words.TheConstants.{ROUTERS};

use crate::words::Words;

/// Neighbours that stand so many routers further on, around the end of a block.
#[derive(Drop)]
pub struct Neighbours {
    /// How far, by link channel: 0 to 63.
    pub distance: Words,
    /// How far back to them, around the other end, by link channel: 0 to 63.
    pub back: Words,
    /// The routers whose neighbour stands there.
    pub mask: Words,
    ghost near: { (k : ℕ) → slice_index distance k < ROUTERS },
    ghost turn: { (k : ℕ)
        → slice_index back k ≡ (ROUTERS - slice_index distance k) % ROUTERS },
}

/// The neighbours of the routers of a block that stand in it. In each direction they stand at one
/// of two distances, the second where a ring of a torus closes.
#[derive(Drop)]
pub struct Near {
    /// Those that are one step on.
    pub straight: Neighbours,
    /// Whether a line is a ring, as in a torus.
    pub rings: bool,
    /// Those at the other end of a ring.
    pub round: Neighbours,
}

/// The neighbours by one port that stand in another block.
#[derive(Drop)]
pub struct Far {
    /// The port.
    pub port: usize,
    /// The block in which they stand.
    pub block: usize,
    /// How many routers further on: 0 to 63.
    pub distance: u64,
    /// The routers whose neighbour stands there.
    pub mask: u64,
    ghost near: { distance < ROUTERS },
}
