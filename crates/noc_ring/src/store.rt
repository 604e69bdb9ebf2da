//! The memory of a bank: slots for flits in one block, empty until a flit is put there.
//!
//! The block is the library's own form for such memory, `Slots` and `Lease` of `core::slots`: a row
//! of slots of which the prover knows which hold a value, and the right to free the row. A read or
//! a take asks for a slot that holds one, and neither can be copied or let go. So there is no
//! pointer in the code. The prover refuses a read past the block or of a slot that holds no pushed
//! flit. A block that is freed twice, or never, is refused before any proof.
//!
//! A struct that holds a `Slots` may go to another thread only by a proof of its author's
//! (`proofs/SendLemmas.antt`). So one function with a proof by hand makes a `Store`, `Store::of`.
//! `reserve` takes the number of slots from the length of a list: `Store::new` gives it a part of a
//! constant list of blank flits, and only its length is read.

ghost use Rattle.std.specs.Prelude.{◌≡◌, ◌<◌, ◌≤◌, true, false, length, IfOk, slice_set, slice_index_or};
ghost use Rattle.std.specs.Mem.Slots.{slots_items, slots_filled, slots_ptr, slots_len, lease_ptr, lease_len, lease_heap};

use core::slots::{Lease, Slots, release, reserve};
use noc_packet::{Flit, INDICES, MAX_BUFFER, Memory};
use std::alloc::Global;
use std::marker::{Model, Send, Sync};

// A flit for the list below alone: nothing puts it into a bank.
const BLANK: Flit = Flit {
    packet: 0,
    index: 0,
    last: false,
    dst: 0,
    class: 0,
};

// The most slots of a bank.
const MOST: usize = INDICES * MAX_BUFFER;

// `reserve` takes the number of slots from the length of a list, and reads nothing else of it.
static AS_MANY: [Flit; MOST] = [BLANK; MOST];

// One block of memory for flits, and the right to free it.
struct SlotBlock {
    slots: Slots<Flit>,
    lease: Lease<Flit, Global>,
    alloc: Global,
    ghost leased: { (lease_ptr lease ≡ slots_ptr slots) × (lease_len lease ≡ slots_len slots)
        × (lease_heap lease ≡ alloc) },
}

/// Slots for flits in one block of memory, each of which is empty or holds a flit.
/// The drop frees the block.
pub(crate) struct Store {
    block: SlotBlock,
}

impl Model for Store {
    ghost use Rattle.std.specs.Mem.Slots.{slots_items, slots_filled};
    ghost use base.Fml.{ftrue};
    ghost use Rattle.noc_ring.specs.Slots.{Held};

    ghost Value = { Held };

    ghost view = { λ p. record
        { flits = slots_items p.block.slots; filled = slots_filled p.block.slots } };

    // It owns what its block owns. A struct with this member may go to another
    // thread by a proof of its own.
    ghost also_owns = { λ _. ftrue };

    ghost also_shares = { λ _ _ _. ftrue };
}

// What it owns names no thread.
unsafe impl Send for Store {}

unsafe impl Sync for Store {}

impl Store {
    fn of(block: SlotBlock) -> Store
        ensures { (result.flits ≡ slots_items block.slots)
            × (result.filled ≡ slots_filled block.slots) }
    {
        Store { block }
    }

    /// So many empty slots, at most `MOST`. The error is for want of memory alone.
    pub(crate) fn new(alloc: Global, count: usize) -> Result<Store, Memory>
        requires { count ≤ MOST }
        ensures { IfOk result (λ p. (length p.flits ≡ count) × (length p.filled ≡ count)) }
    {
        // `unsafe`, since a value in a slot is forgotten when another is put there or the block
        // goes. A flit is plain data.
        let (slots, lease) = unsafe { reserve(&alloc, &AS_MANY[..count])? };
        Ok(Store::of(SlotBlock {
            slots,
            lease,
            alloc,
        }))
    }

    /// The flit that a slot holds.
    pub(crate) fn get(&self, slot: usize) -> Flit
        requires slot { slot < length self.now.flits }
        requires holds { slice_index_or self.now.filled slot false ≡ true }
        ensures { result ≡ slice_index_or self.now.flits slot result }
    {
        *self.block.slots.get(slot)
    }

    /// Puts a flit at a slot.
    pub(crate) fn put(&mut self, slot: usize, flit: Flit)
        requires { slot < length self.old.flits }
        ensures flits { self.new.flits ≡ slice_set self.old.flits slot flit }
        ensures filled { self.new.filled ≡ slice_set self.old.filled slot true }
    {
        self.block.slots.put(slot, flit);
    }

    /// Takes the flit that a slot holds, and leaves the slot empty.
    pub(crate) fn take(&mut self, slot: usize) -> Flit
        requires slot { slot < length self.old.flits }
        requires holds { slice_index_or self.old.filled slot false ≡ true }
        ensures value { result ≡ slice_index_or self.old.flits slot result }
        ensures flits { self.new.flits ≡ self.old.flits }
        ensures filled { self.new.filled ≡ slice_set self.old.filled slot false }
    {
        self.block.slots.take(slot)
    }
}

impl Drop for Store {
    fn drop(self) {
        let Store { block } = self;
        let SlotBlock {
            slots,
            lease,
            alloc,
        } = block;
        release(&alloc, slots, lease);
    }
}
