//! The sources of the routers of a block: packets begin, and sources go on to the next.

ghost use Rattle.std.specs.Prelude.{◌≡◌, ◌≢◌, ◌+◌, ◌-◌, ◌^◌, ◌<◌, ◌≤◌, ◌&&◌, ℕ, true, length, nat_eq, slice_index, if◌then◌else◌};
ghost use Rattle.noc_sets.specs.Source.{start_in};
ghost use Rattle.noc_columns.specs.Sources.{AreDue, begun_if, left_in, sent_if, source_in, starts_by};
ghost use Rattle.noc_columns.specs.Prelude.{has_bit};

use crate::due::Due;
use crate::left::Left;
use crate::sets::{but_lowest, least};
use crate::starts::Start;
use crate::words::{ROUTERS, alone_if};

/// The sources of the routers of a block.
#[derive(Drop)]
pub struct Sources {
    /// How many flits are left of the packets that are injected.
    pub left: Left,
    /// When the next packets are due. (One that is injected is the next until its tail is.)
    pub due: Due,
    /// By router, the place of its next packet in the list of all.
    pub queue: [u32; ROUTERS],
}

impl Sources {
    /// In each of these routers a flit of a packet that has begun is injected. The answer is those
    /// in which it is the last, so that the source goes on to its next packet.
    pub fn send(&mut self, starts: &[Start], cycle: u32, went: u64) -> u64
        requires left { (r : ℕ) → has_bit went r ≡ true → 0 < left_in self.old.left r }
        requires queue { (r : ℕ) → r < ROUTERS → has_bit went r ≡ true
            → slice_index self.old.queue r + 1 < length starts.now }
        requires few { length starts.now < 2 ^ 32 }
        ensures sources { (r : ℕ) → r < ROUTERS → source_in self.new r
            ≡ sent_if (starts_by starts.now) (has_bit went r) (source_in self.old r) }
        ensures last { (r : ℕ) → has_bit result r
            ≡ (has_bit went r && nat_eq (left_in self.old.left r) 1) }
        ensures due { ((r : ℕ) → r < ROUTERS → has_bit went r ≡ true
            → slice_index self.old.due.at r ≤ cycle) → AreDue cycle self.old.due
            → AreDue cycle self.new.due }
    {
        let last = self.left.send(went);
        self.advance_all(starts, cycle, last);
        last
    }

    /// In each of these routers the next packet begins, and its head is injected. The answer is
    /// those in which it is the tail too, so that the source goes on to its next packet.
    pub fn begin(&mut self, starts: &[Start], cycle: u32, begins: u64) -> u64
        requires queue { (r : ℕ) → r < ROUTERS → has_bit begins r ≡ true
            → slice_index self.old.queue r + 1 < length starts.now }
        requires few { length starts.now < 2 ^ 32 }
        ensures sources { (r : ℕ) → r < ROUTERS → source_in self.new r
            ≡ begun_if (starts_by starts.now) (has_bit begins r) (source_in self.old r) }
        ensures last { (r : ℕ) → r < ROUTERS → has_bit result r ≡ (has_bit begins r
            && nat_eq (start_in (starts_by starts.now) (slice_index self.old.queue r)).length 1) }
        ensures due { ((r : ℕ) → r < ROUTERS → has_bit begins r ≡ true
            → slice_index self.old.due.at r ≤ cycle) → AreDue cycle self.old.due
            → AreDue cycle self.new.due }
    {
        let last = self.put_all(starts, begins);
        self.advance_all(starts, cycle, last);
        last
    }

    // Of the next packet of each of these routers all flits but the head are left. The answer is
    // those in which there is none.
    fn put_all(&mut self, starts: &[Start], begins: u64) -> u64
        requires { (r : ℕ) → r < ROUTERS → has_bit begins r ≡ true
            → slice_index self.old.queue r < length starts.now }
        ensures left { (r : ℕ) → r < ROUTERS → left_in self.new.left r ≡ (if has_bit begins r
            then (start_in (starts_by starts.now) (slice_index self.old.queue r)).length - 1
            else left_in self.old.left r) }
        ensures last { (r : ℕ) → r < ROUTERS → has_bit result r ≡ (has_bit begins r
            && nat_eq (start_in (starts_by starts.now) (slice_index self.old.queue r)).length 1) }
        ensures rest { self.new ≡ record self.old { left = self.new.left } }
    {
        let mut rest = begins;
        let mut last = 0;
        while rest != 0 {
            let router = least(rest);
            let start = starts[self.queue[router] as usize];
            self.left.put(router, start.length - 1);
            last = last | alone_if(start.length == 1, router);
            rest = but_lowest(rest);
        }
        last
    }

    // The sources of these routers go on to their next packets.
    fn advance_all(&mut self, starts: &[Start], cycle: u32, routers: u64)
        requires queue { (r : ℕ) → r < ROUTERS → has_bit routers r ≡ true
            → slice_index self.old.queue r + 1 < length starts.now }
        requires few { length starts.now < 2 ^ 32 }
        ensures left { self.new.left ≡ self.old.left }
        ensures queue { (r : ℕ) → r < ROUTERS → slice_index self.new.queue r
            ≡ (if has_bit routers r then slice_index self.old.queue r + 1
            else slice_index self.old.queue r) }
        ensures at { (r : ℕ) → r < ROUTERS → slice_index self.new.due.at r
            ≡ (if has_bit routers r
            then (start_in (starts_by starts.now) (slice_index self.old.queue r + 1)).due
            else slice_index self.old.due.at r) }
        ensures due { ((r : ℕ) → r < ROUTERS → has_bit routers r ≡ true
            → slice_index self.old.due.at r ≤ cycle) → AreDue cycle self.old.due
            → AreDue cycle self.new.due }
    {
        let mut rest = routers;
        while rest != 0 {
            let router = least(rest);
            let place = self.queue[router] + 1;
            self.queue[router] = place;
            self.due.put(cycle, router, starts[place as usize].due);
            rest = but_lowest(rest);
        }
    }
}
