//! How often four channels of a block had each verdict.

ghost use Rattle.std.specs.Prelude.{◌≡◌, ◌+◌, ◌*◌, ◌^◌, ◌<◌, ◌≤◌, ℕ, length};
ghost use Rattle.noc_columns.specs.Prelude.{has_bit, one_if, word};
ghost use Rattle.noc_counts.specs.Counted.{HasAdded, HasNoted, count_in, last_of};
ghost use Rattle.noc_counts.specs.Low.{low_at, set_sum};
ghost use Rattle.noc_counts.specs.Rows.{row_of, waiting_in};
ghost use Rattle.noc_counts.specs.Tallies.{counted_at};
ghost use Rattle.noc_counts.specs.Told.{told_by};

use crate::low::{Low, SLOTS};
use crate::row::{GROUPS, ROW, Row, row_at, waiting_in};
use crate::tally::{Cycles, Tally};
use noc_columns::{ROUTERS, bit};
use noc_cycles::{Block, Work};

// How often each of four channels had each verdict.
#[derive(Drop)]
pub(crate) struct Count {
    // Their words of each cycle since those that were added, and of the last one.
    recent: [Row; SLOTS],
    // The lowest bits of how often they had it in those that were added.
    low: Low<Row>,
    // What these have carried since what they carried was added.
    carried: [Row; 4],
    // The bits above.
    tally: Tally,
}

impl Count {
    // Nothing, from which a count may be copied to where it stands on the heap.
    pub(crate) const NONE: Count = Count {
        recent: [[0; ROW]; SLOTS],
        low: Low::<Row>::NONE,
        carried: [[0; ROW]; 4],
        tally: Tally::NONE,
    };

    // No counts.
    pub(crate) fn clear(&mut self)
        ensures { (j r : ℕ) → j < ROW → count_in self.new 0 j r ≡ 0 }
    {
        self.low.clear();
        self.tally.clear();
    }

    // Notes the verdicts of a cycle, which is this one of the next sixteen.
    #[inline(always)]
    pub(crate) fn note(&mut self, block: &Block, work: &Work, group: usize, slot: usize)
        requires group { group < GROUPS }
        requires slot { slot < SLOTS }
        ensures { HasNoted slot (row_of (λ j. told_by (word j) block.now work.now) group)
            self.old self.new }
    {
        self.recent[slot] = row_at(block, work, group);
    }

    // The last sixteen cycles are added, where such were added so many times.
    #[inline(never)]
    pub(crate) fn add(&mut self, times: u32)
        ensures { HasAdded times self.old self.new }
    {
        let slot = (times % 4) as usize;
        self.low.add(&self.recent, &mut self.carried[slot]);
        if slot == 3 {
            let [first, second, third, fourth] = &self.carried;
            let sets = Cycles {
                first,
                second,
                third,
                fourth,
            };
            self.tally.add(&sets, times / 4);
        }
    }

    // Counts so many cycles more that are like the last one, where so many were counted one by one
    // and nothing happened in the last one.
    pub(crate) fn repeat(&mut self, cycles: u32, times: u32)
        ensures counts { (j r : ℕ) → j < ROW → count_in self.old cycles j r + times < 2 ^ 32
            → count_in self.new cycles j r ≡ count_in self.old cycles j r
            + times * one_if (has_bit (word j (waiting_in (last_of self.old cycles))) r) }
        ensures last { last_of self.new cycles ≡ last_of self.old cycles }
    {
        let slot = (cycles.wrapping_add(15) % SLOTS as u32) as usize;
        let set = waiting_in(&self.recent[slot]);
        repeat(&mut self.low, &mut self.tally, &set, times);
    }

    // How often a router has the word at a place, where so many cycles were counted one by one.
    pub(crate) fn total(&self, place: usize, router: usize, cycles: u32) -> u64
        requires place { place < ROW }
        requires router { router < ROUTERS }
        ensures count { result ≡ count_in self.now cycles place router }
        ensures small { result < 2 ^ 38 }
    {
        let times = cycles / SLOTS as u32;
        let carried = total_of(&self.carried, (times % 4) as usize, place, router);
        let upper = self.tally.total(place, router, times / 4) + carried;
        let slots = (cycles % SLOTS as u32) as usize;
        let recent = total_of(&self.recent, slots, place, router);
        self.low.number(place, router) + recent + 16 * upper
    }
}

// One set is added so many times to the lowest bits, and to those above.
fn repeat(low: &mut Low<Row>, tally: &mut Tally, set: &Row, times: u32)
    ensures { (before j r : ℕ) → j < ROW
        → low_at low.old j r + SLOTS * counted_at tally.old before j r + times < 2 ^ 32
        → low_at low.new j r + SLOTS * counted_at tally.new before j r
        ≡ low_at low.old j r + SLOTS * counted_at tally.old before j r
        + times * one_if (has_bit (word j set.now) r) }
{
    let mut carry = [0; ROW];
    low.repeat(set, times % 16, &mut carry);
    tally.repeat(&carry, 1);
    if times >= 16 {
        tally.repeat(set, times / 16);
    }
}

// In how many of the first sets, so many, a router has a word.
fn total_of(sets: &[Row], count: usize, place: usize, router: usize) -> u64
    requires count { count ≤ length sets.now }
    requires place { place < ROW }
    requires router { router < ROUTERS }
    ensures sum { result ≡ set_sum sets.now count place router }
    ensures small { result ≤ count }
{
    let mut sum = 0;
    for slot in 0..count {
        sum += bit(sets[slot][place], router);
    }
    sum
}
