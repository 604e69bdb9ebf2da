//! The routers at the other ends of links are told which packets are granted channels of them.

ghost use Rattle.std.specs.Prelude.{◌≡◌, ◌<◌, ◌≤◌, ◌+◌, ◌*◌, ◌⊎◌, ◌||◌, ◌≢◌, ℕ, Bool, IfOk, Option, Some, vec_capacity, vec_len, nat_eq, true};
ghost use Rattle.noc_topo.specs.Shape.{Grid, neighbour, nodes, opposite};
ghost use Rattle.noc_columns.specs.Heads.{packet_in};
ghost use Rattle.noc_cycles.specs.Gathered.{IsWired};
ghost use Rattle.noc_cycles.specs.Told.{AreNotes, AreTold, HaveRoom, IsNotedOver, NotesFirst, noted, told_by};

use crate::around::{Around, NOWHERE};
use crate::block::Block;
use crate::notes::Note;
use crate::pattern::Pattern;
use noc_columns::{CHANNELS, Grant, ROUTERS, opposite};
use noc_packet::Memory;
use std::alloc::Global;

/// Room for the notes of so many blocks, each of which may tell of all its input channels.
pub fn room_for_notes(alloc: Global, count: usize) -> Result<Vec<Vec<Note>>, Memory>
    ensures { IfOk result (λ told. HaveRoom count told.items) }
{
    let mut told = Vec::new(alloc);
    for _ in 0..count {
        told.push(Vec::with_capacity(alloc, ROUTERS * CHANNELS)?)?;
    }
    Ok(told)
}

/// Each packet of a block that is granted an output channel is noted for the router at the other
/// end of its link, if it is one of a link. There is room for so many notes.
#[inline(never)]
pub fn tell(pattern: &Pattern, around: &Around, block: &Block, notes: &mut Vec<Note>)
    requires told { (g : Grid) × (tells : ℕ → ℕ → Option ℕ)
        × AreTold g pattern.now around.now block.now tells }
    requires room { ROUTERS * CHANNELS ≤ vec_capacity notes.old }
    ensures notes { (g : Grid) (tells : ℕ → ℕ → Option ℕ)
        → AreTold g pattern.now around.now block.now tells
        → AreNotes g pattern.now.table.ports.links.vcs (told_by around.now.block tells)
        notes.new.items }
    ensures few { vec_len notes.new ≤ ROUTERS * CHANNELS }
    ensures room { vec_capacity notes.old ≤ vec_capacity notes.new }
{
    notes.clear();
    let links = &pattern.table.ports.links;
    let channels = (links.width + 1) * links.vcs;
    for number in 0..block.grants.count {
        tell_grant(pattern, around, block, number, channels, notes);
    }
}

// Notes the grant of a block with this number. (Each is one of a channel that the routers have. How
// many these are is worked out once.)
fn tell_grant(
    pattern: &Pattern,
    around: &Around,
    block: &Block,
    number: usize,
    channels: usize,
    notes: &mut Vec<Note>,
)
    requires told { (g : Grid) × (tells : ℕ → ℕ → Option ℕ)
        × AreTold g pattern.now around.now block.now tells }
    requires number { number < block.now.grants.count }
    requires channels { channels ≡ (pattern.now.table.ports.links.width + 1)
        * pattern.now.table.ports.links.vcs }
    requires room { vec_len notes.old < vec_capacity notes.old }
    ensures notes { (g : Grid) (tells : ℕ → ℕ → Option ℕ)
        → AreTold g pattern.now around.now block.now tells
        → NotesFirst g pattern.now around.now block.now tells number notes.old.items
        → NotesFirst g pattern.now around.now block.now tells (number + 1) notes.new.items }
    ensures more { vec_len notes.new ≤ vec_len notes.old + 1 }
    ensures room { vec_capacity notes.old ≤ vec_capacity notes.new }
{
    let grant = &block.grants.given[number];
    let index = usize::from(grant.index);
    if index < channels {
        let channel = pattern.table.channel_at(index);
        tell_one(pattern, around, block, channel, grant, notes);
    }
}

// The number of a packet that has been granted an output channel is noted for the router at the
// other end of its link, if it is one of a link.
fn tell_one(
    pattern: &Pattern,
    around: &Around,
    block: &Block,
    channel: usize,
    grant: &Grant,
    notes: &mut Vec<Note>,
)
    requires wired { (g : Grid) × IsWired g pattern.now around.now
        × (ROUTERS * around.now.block + grant.now.router < nodes g) }
    requires channel { channel < (pattern.now.table.ports.links.width + 1)
        * pattern.now.table.ports.links.vcs }
    requires router { grant.now.router < ROUTERS }
    requires vc { grant.now.vc < pattern.now.table.ports.links.vcs }
    requires room { vec_len notes.old < vec_capacity notes.old }
    ensures noted { (g : Grid) → IsWired g pattern.now around.now
        → ROUTERS * around.now.block + grant.now.router < nodes g
        → IsNotedOver pattern.now.table.ports.links.vcs grant.now.vc
        (packet_in block.now.packets grant.now.router channel) notes.old.items notes.new.items
        (neighbour g (ROUTERS * around.now.block + grant.now.router) grant.now.port) }
    ensures more { vec_len notes.new ≤ vec_len notes.old + 1 }
    ensures room { vec_capacity notes.old ≤ vec_capacity notes.new }
{
    let links = &pattern.table.ports.links;
    let router = usize::from(grant.router);
    let port = usize::from(grant.port);
    if port < links.width {
        let node = around.ends[router][port];
        if node != NOWHERE {
            let vc = usize::from(grant.vc);
            let there = opposite(port) * links.vcs + vc;
            note(notes, node, there, block.packets[router][channel]);
        }
    }
}

// A packet is noted for an input channel of a router.
fn note(notes: &mut Vec<Note>, router: u16, channel: usize, packet: u32)
    requires channel { channel < CHANNELS }
    requires room { vec_len notes.old < vec_capacity notes.old }
    ensures here { noted notes.new.items router channel ≡ Some packet }
    ensures others { (r i : ℕ) → (r ≢ router) ⊎ (i ≢ channel)
        → noted notes.new.items r i ≡ noted notes.old.items r i }
    ensures more { vec_len notes.new ≡ vec_len notes.old + 1 }
    ensures room { vec_capacity notes.old ≤ vec_capacity notes.new }
{
    notes.push_reserved(Note {
        router,
        channel: channel as u8,
        packet,
    });
}
