//! The rings between two tiles, and a cycle at them.

ghost use Rattle.std.specs.Prelude.{◌≡◌, ◌+◌, ◌<◌, ◌++◌, ◌∷◌, [], length, IsTrue};
ghost use Rattle.rtrb.specs.Ring.{known_items, received, sent};
ghost use Rattle.noc_workers.specs.Prelude.{Follows, HasReceivedBy, HasSameBlocks, HasSentBy, MayReceiveBy, MaySendBy, ReadyPost, SentPost, near_in};

use crate::mail::Mail;
use noc_engine::Tile;
use noc_exchange::{TillGone, hear_next, put};
use rtrb::{Consumer, Producer, Protocol};
use std::alloc::Global;
use std::sync::Wait;

/// What a ring between two tiles carries.
pub(crate) struct Rounds;

impl Protocol<Mail> for Rounds {
    ghost allows = { λ sent mail. Follows sent mail };
}

/// The rings between a tile and another one, in both directions.
#[derive(Drop)]
pub(crate) struct Post {
    /// The blocks of the tile that tell by it, one for each place of a mail.
    pub(crate) blocks: Vec<usize>,
    /// The mail that goes next: none while it is on its way, until the other's has come.
    pub(crate) mail: Option<Mail>,
    pub(crate) out: Producer<Mail, Global, Rounds>,
    pub(crate) back: Consumer<Mail, Global, Rounds>,
}

impl Post {
    /// Sends what its blocks tell in the cycle that their tile has run, and waits until it is on
    /// its way. False where the other tile is gone.
    pub(crate) fn send(&mut self, rt: &impl Wait, tile: &Tile) -> bool
        requires { MaySendBy tile.now (ReadyPost self.old) }
        ensures near { near_in self.new ≡ near_in self.old }
        ensures sent { IsTrue result
            → HasSentBy tile.now (ReadyPost self.old) (SentPost self.new) }
    {
        let Some(mut mail) = self.mail.take() else {
            return false;
        };
        mail.write(tile, self.blocks.as_slice());
        put(rt, &mut self.out, mail, &TillGone)
    }

    /// Waits for what the other tile's blocks tell in the cycle that the tile has run, and has it
    /// hear that. False where the other tile is gone.
    pub(crate) fn receive(&mut self, rt: &impl Wait, tile: &mut Tile) -> bool
        requires { MayReceiveBy tile.old (SentPost self.old) }
        ensures near { near_in self.new ≡ near_in self.old }
        ensures tile { HasSameBlocks tile.old tile.new }
        ensures heard { IsTrue result → HasReceivedBy (near_in self.old) tile.old tile.new
            (SentPost self.old) (ReadyPost self.new) }
    {
        hear_next(rt, &mut self.back, &mut self.mail, tile, &TillGone)
    }
}
