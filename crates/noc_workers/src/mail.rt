//! What a tile of a network sends another one in a cycle.

ghost use Rattle.std.specs.Prelude.{◌≡◌, ℕ, Bool, true, All, IfOk, length};
ghost use Rattle.noc_workers.specs.Prelude.{HasHeard, IsMail, Plan, Setup, blocks_in, has_block, start_by, start_in, with_blocks};

use crate::origin::{Origin, Run};
use noc_engine::{Tile, Told};
use noc_exchange::Letter;
use noc_packet::Memory;
use std::alloc::Global;

/// What blocks of a tile tell another tile in a cycle. It goes by value, and is small.
#[derive(Drop)]
pub(crate) struct Mail {
    /// What each of them tells.
    pub(crate) told: Vec<Told>,
    /// The run of which it is.
    pub(crate) start: Origin,
}

impl Mail {
    /// A mail of these blocks of this run, in which nothing is told.
    pub(crate) fn new(alloc: Global, blocks: &[usize], run: &Run<'_>) -> Result<Mail, Memory>
        ensures blocks { IfOk result (λ mail. blocks_in mail ≡ blocks.now) }
        ensures start { IfOk result (λ mail. start_in mail ≡ start_by run.now) }
    {
        let mut told = Vec::new(alloc);
        for block in blocks {
            told.push(Told::new(alloc, *block)?)?;
        }
        Ok(Mail {
            told,
            start: Origin::of(run),
        })
    }

    /// Writes what these blocks of a tile tell in the cycle that it has run.
    pub(crate) fn write(&mut self, tile: &Tile, blocks: &[usize])
        requires places { length self.old.told.items ≡ length blocks.now }
        requires own { All (λ b. has_block tile.now b ≡ true) blocks.now }
        requires ran { (net : Setup) × (plan : Plan) × (n : ℕ) × (from : ℕ → Bool) × (was : Tile)
            × HasHeard net plan n from was tile.now }
        ensures blocks { blocks_in self.new ≡ blocks.now }
        ensures start { self.new.start ≡ self.old.start }
        ensures is { (net : Setup) (plan : Plan) (n : ℕ) (from : ℕ → Bool) (was : Tile)
            → HasHeard net plan n from was tile.now → IsMail net plan n self.new }
    {
        for k in 0..blocks.len() {
            tile.tell(blocks[k], &mut self.told[k]);
        }
    }
}

impl Letter<Tile> for Mail {
    ghost use Rattle.noc_engine.specs.declared.tile.Tile.{Tile};

    ghost can_tell = { λ mail tile. (net : Setup) × (plan : Plan) × (n : ℕ) × (from : ℕ → Bool)
        × (was : Tile) × HasHeard net plan n from was tile × IsMail net plan n mail };

    ghost tells = { λ mail old new. (net : Setup) (plan : Plan) (n : ℕ) (from : ℕ → Bool)
        (was : Tile) → HasHeard net plan n from was old → IsMail net plan n mail
        → HasHeard net plan n (with_blocks from (blocks_in mail)) was new };

    fn tell(&self, tile: &mut Tile) {
        for told in &self.told {
            tile.hear(told);
        }
    }
}
