//! The input channels of blocks are held by the packets that are noted for them.

ghost use Rattle.std.specs.Prelude.{◌≡◌, ◌∷◌, [], ◌/◌, ◌%◌, ◌+◌, ℕ, None, Some, slice_get, unwrap_or};
ghost use Rattle.noc_columns.specs.Heads.{packet_in};
ghost use Rattle.noc_cycles.specs.Told.{HasHeard, with_note};
ghost use Rattle.noc_cycles.specs.declared.block.Block.{Block};
ghost use Rattle.noc_cycles.specs.declared.notes.Note.{Note};

use crate::begins::put_number;
use crate::block::Block;
use crate::notes::Note;
use noc_columns::{CHANNELS, ROUTERS};

/// Blocks that stand side by side, of which the first has this number, hear these notes.
pub fn hear(first: usize, notes: &[Note], blocks: &mut [Block])
    ensures { (b : ℕ) (old new : Block) → slice_get blocks.old b ≡ Some old
        → slice_get blocks.new b ≡ Some new → HasHeard notes.now (first + b) old new }
{
    for one in notes {
        hear_note(first, one, blocks);
    }
}

// One note is heard, by the block of its router.
fn hear_note(first: usize, one: &Note, blocks: &mut [Block])
    ensures { (b : ℕ) (old new : Block) → slice_get blocks.old b ≡ Some old
        → slice_get blocks.new b ≡ Some new → HasHeard (one.now ∷ []) (first + b) old new }
{
    let number = usize::from(one.router) / ROUTERS;
    if first <= number && number - first < blocks.len() {
        let block = &mut blocks[number - first];
        hold(one, &mut block.packets);
    }
}

// The input channel of a router of a block that a note is for is held by the packet.
fn hold(one: &Note, packets: &mut [[u32; CHANNELS]; ROUTERS])
    ensures { (r i : ℕ) → r / ROUTERS ≡ one.now.router / ROUTERS
        → packet_in packets.new (r % ROUTERS) i
        ≡ unwrap_or (with_note one.now r i None) (packet_in packets.old (r % ROUTERS) i) }
{
    let there = &mut packets[usize::from(one.router) % ROUTERS];
    put_number(there, usize::from(one.channel), one.packet);
}
