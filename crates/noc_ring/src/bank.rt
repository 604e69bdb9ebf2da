//! Rings of flits over one list of slots (Dally and Towles, chapter 17).
//!
//! A bank takes memory in one growth, that of its block. Where rings begin and how many flits they
//! have stands in the bank itself, 112 bytes for at most 56 rings.

ghost use Rattle.std.specs.Prelude.{◌≡◌, ◌+◌, ◌*◌, ◌%◌, ◌<◌, ◌≤◌, nat_le, length, IfOk, ◌∷◌};
ghost use Rattle.std.specs.List.{slice_get};
ghost use Rattle.noc_ring.specs.Buffers.{empty_buffers, buffer_at, buffers_after_push, buffers_after_pop};

use crate::store::Store;
use noc_packet::{Flit, INDICES, MAX_BUFFER, Memory};
use std::alloc::Global;
use std::marker::Model;

// Where a ring begins in its slots, and how many flits it has.
#[derive(Clone, Copy)]
struct Extent {
    head: u8,
    len: u8,
}

/// First-in first-out buffers of flits: 1 to 56 rings, each of the same 1 to 16 slots.
#[derive(Drop)]
pub struct Bank {
    store: Store,
    extents: [Extent; INDICES],
    rings: usize,
    capacity: usize,
}

impl Model for Bank {
    ghost use Rattle.noc_ring.specs.Buffers.{Buffers};

    ghost Value = { Buffers };

    ghost use Rattle.noc_ring.specs.Slots.{rings_of, IsBank, AreHeld};

    ghost view = { λ b. record
        { rings = rings_of b.store.flits b.capacity b.rings b.extents; capacity = b.capacity } };

    ghost invariant = { λ b. IsBank b.store.flits b.capacity b.rings b.extents
        × AreHeld b.store.filled b.capacity b.rings b.extents };
}

// The offset in a ring, for an offset that may be past the ring's end once.
fn wrapped(offset: usize, capacity: usize) -> usize
    requires { offset < capacity + capacity }
    ensures { result ≡ offset % capacity }
{
    if offset < capacity {
        offset
    } else {
        offset - capacity
    }
}

impl Bank {
    /// So many empty rings, 1 to 56, each of so many slots, 1 to 16. The error is
    /// for want of memory alone.
    pub fn new(alloc: Global, rings: usize, capacity: usize) -> Result<Bank, Memory>
        requires some_ring { 0 < rings }
        requires rings { rings ≤ INDICES }
        requires some_slot { 0 < capacity }
        requires capacity { capacity ≤ MAX_BUFFER }
        ensures { IfOk result (λ b. b ≡ empty_buffers rings capacity) }
    {
        Ok(Bank {
            store: Store::new(alloc, rings * capacity)?,
            extents: [Extent { head: 0, len: 0 }; INDICES],
            rings,
            capacity,
        })
    }

    /// How many flits the ring has.
    pub fn len(&self, ring: usize) -> usize
        requires { ring < length self.now.rings }
        ensures count { result ≡ length (buffer_at self.now ring) }
        ensures fits { result ≤ self.now.capacity }
    {
        let extents = &self.extents;
        extents[ring].len as usize
    }

    /// Whether the ring has no slot left.
    pub fn is_full(&self, ring: usize) -> bool
        requires { ring < length self.now.rings }
        ensures { result ≡ nat_le self.now.capacity (length (buffer_at self.now ring)) }
    {
        self.capacity <= self.extents[ring].len as usize
    }

    /// The flit that `pop` would give, or None where the ring is empty.
    pub fn front(&self, ring: usize) -> Option<Flit>
        requires { ring < length self.now.rings }
        ensures { result ≡ slice_get (buffer_at self.now ring) 0 }
    {
        let capacity = self.capacity;
        let extent = self.extents[ring];
        if extent.len == 0 {
            return None;
        }
        Some(self.store.get(ring * capacity + extent.head as usize))
    }

    /// Puts a flit behind those of the ring, which is not full.
    pub fn push(&mut self, ring: usize, flit: Flit)
        requires ring { ring < length self.old.rings }
        requires room { length (buffer_at self.old ring) < self.old.capacity }
        ensures { self.new ≡ buffers_after_push self.old ring flit }
    {
        let capacity = self.capacity;
        let extent = self.extents[ring];
        let offset = wrapped(extent.head as usize + extent.len as usize, capacity);
        self.store.put(ring * capacity + offset, flit);
        self.extents[ring] = Extent {
            head: extent.head,
            len: extent.len + 1,
        };
    }

    /// Takes the first flit of the ring, which is not empty.
    pub fn pop(&mut self, ring: usize) -> Flit
        requires ring { ring < length self.old.rings }
        requires some { 0 < length (buffer_at self.old ring) }
        ensures first { buffer_at self.old ring ≡ result ∷ buffer_at self.new ring }
        ensures rest { self.new ≡ buffers_after_pop self.old ring }
    {
        let capacity = self.capacity;
        let extent = self.extents[ring];
        let flit = self.store.take(ring * capacity + extent.head as usize);
        self.extents[ring] = Extent {
            head: wrapped(extent.head as usize + 1, capacity) as u8,
            len: extent.len - 1,
        };
        flit
    }
}
