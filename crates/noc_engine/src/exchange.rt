//! What a block of a network tells the others in a cycle.

ghost use Rattle.std.specs.Prelude.{◌≡◌, ◌*◌, ◌≤◌, IfOk, length, vec_capacity};
ghost use Rattle.noc_columns.specs.declared.sets.TheConstants.{CHANNELS};
ghost use Rattle.noc_columns.specs.declared.words.TheConstants.{ROUTERS};

use noc_columns::{CHANNELS, Links, ROUTERS, WORDS, Words};
use noc_cycles::Note;
use noc_packet::Memory;
use std::alloc::Global;

/// What a block tells the others in a cycle: what leaves its routers, and which packets hold the
/// channels at the other ends of their links from now on.
#[derive(Drop)]
pub struct Told {
    /// The number of the block.
    pub block: usize,
    /// What leaves its routers over their links.
    pub left: Links<Words>,
    /// The packets that are granted channels of these links. There is room for all of them.
    pub notes: Vec<Note>,
    ghost room: { ROUTERS * CHANNELS ≤ vec_capacity notes },
}

impl Told {
    /// Of this block it is told that nothing leaves it.
    pub fn new(alloc: Global, block: usize) -> Result<Told, Memory>
        ensures { IfOk result (λ told. told.block ≡ block) }
    {
        Ok(Told {
            block,
            left: NOTHING,
            notes: Vec::with_capacity(alloc, ROUTERS * CHANNELS)?,
        })
    }
}

// Nothing has left so many blocks.
pub(crate) fn nothing_left(alloc: Global, count: usize) -> Result<Vec<Links<Words>>, Memory>
    ensures { IfOk result (λ left. length left.items ≡ count) }
{
    let mut left = Vec::with_capacity(alloc, count)?;
    for _ in 0..count {
        left.push_reserved(NOTHING);
    }
    Ok(left)
}

const NOTHING: Links<Words> = Links {
    flits: [0; WORDS],
    tails: [0; WORDS],
    credits: [0; WORDS],
};
