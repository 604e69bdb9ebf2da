//! The counts of a block by verdict.

ghost use Rattle.std.specs.Prelude.{◌≡◌, ◌+◌, ◌*◌, ◌%◌, ◌^◌, ◌<◌, ◌≤◌, ℕ, IfOk, sum};
ghost use Rattle.noc_sets.specs.Counts.{ByVerdict, nine_counts, ten_counts, with_verdicts};
ghost use Rattle.noc_columns.specs.Prelude.{IsWithin, Numbering, channels_of, has_bit, one_if, set_of, word};
ghost use Rattle.noc_counts.specs.Counted.{HasAdded, HasCounted, HasNoted, count_in};
ghost use Rattle.noc_counts.specs.Counts.{AreClear, AreSmall, HasHad, HasHadIn, HasRepeated, IsClear, WaitsOn, counted_in, delays_of, last_at, numbers_of, of_group, with_delays};
ghost use Rattle.noc_counts.specs.Rows.{row_of};
ghost use Rattle.noc_counts.specs.Told.{told_at, told_by};

use crate::count::Count;
use crate::low::SLOTS;
use crate::nine::Nine;
use crate::row::{
    GROUPS, LOST_CHANNEL, LOST_INPUT, LOST_SWITCH, MOVED, NO_CREDIT, NO_FLIT, NO_IDLE_CHANNEL,
    ROUTED, ROW,
};
use noc_columns::{ChannelTable, Frame, GROUP, ROUTERS, WORDS, bit};
use noc_cycles::{Block, Work};
use noc_packet::Memory;
use noc_times::empty_cycles;
use noc_view::VERDICTS;
use std::alloc::Global;

/// How often each input channel of the routers of a block had each verdict. (Words begin lines of
/// the cache in a list that begins 16 bytes behind one: docs/DECISIONS.md#columns.)
#[derive(Drop)]
pub struct Counts {
    // 48 bytes that hold nothing, so that words begin lines of the cache.
    before: [u64; 6],
    // By group of four channels.
    of: [Count; GROUPS],
    // How many cycles were counted one by one.
    cycles: u32,
    // Nothing, so that all is a multiple of 64 bytes.
    behind: u64,
}

// Room for the counts of so many blocks takes more than 2 MiB, so that the list is mapped by itself.
const LEAST: usize = 6;

/// No counts of so many blocks. (They are cleared where they stand: those of one take 400 kB.)
pub fn no_counts(alloc: Global, blocks: usize) -> Result<Vec<Counts>, Memory>
    ensures { IfOk result (λ all. AreClear blocks all.items) }
{
    let mut all = Vec::with_capacity(alloc, blocks.max(LEAST))?;
    for number in 0..blocks {
        all.push(NONE)?;
        all[number].clear();
    }
    Ok(all)
}

// Nothing, which is copied straight to where it stands on the heap.
const NONE: Counts = Counts {
    before: [0; 6],
    of: [Count::NONE; GROUPS],
    cycles: 0,
    behind: 0,
};

impl Counts {
    /// No counts.
    pub fn clear(&mut self)
        ensures { IsClear self.new }
    {
        clear_all(&mut self.of);
        self.cycles = 0;
    }

    /// Counts a cycle more, after it has taken effect.
    #[inline(never)]
    pub fn count(&mut self, frame: &Frame, block: &Block, work: &Work)
        ensures counts { (n : Numbering) (r i before after : ℕ) (c : ByVerdict)
            → IsWithin (GROUP * frame.now.groups) n → i < n.size
            → counted_in self.old + 1 < 2 ^ 32
            → WaitsOn (told_at n block.now work.now r) i before after
            → HasHad n self.old r i before c
            → HasHad n self.new r i after
            (with_verdicts (told_at n block.now work.now r) i c) }
        ensures last { (n : Numbering) (r : ℕ) → IsWithin (GROUP * frame.now.groups) n
            → counted_in self.old + 1 < 2 ^ 32
            → last_at n self.new r ≡ delays_of (told_at n block.now work.now r) }
        ensures cycles { counted_in self.new ≡ (counted_in self.old + 1) % 2 ^ 32 }
    {
        count_all(frame, block, work, self.cycles, &mut self.of);
        self.cycles = self.cycles.wrapping_add(1);
    }

    /// Counts so many cycles more that are like the last one, in which nothing happened.
    pub fn repeat(&mut self, frame: &Frame, times: u32)
        ensures counts { (n : Numbering) (r i waits : ℕ) (c : ByVerdict)
            → IsWithin (GROUP * frame.now.groups) n → i < n.size
            → sum (nine_counts c) + times < 2 ^ 32
            → HasHad n self.old r i waits c
            → HasHad n self.new r i waits (with_delays times (last_at n self.old r) i c) }
        ensures last { (n : Numbering) (r : ℕ) → last_at n self.new r ≡ last_at n self.old r }
        ensures cycles { counted_in self.new ≡ counted_in self.old }
    {
        repeat_all(frame.groups, self.cycles, times, &mut self.of);
    }

    /// How often a channel of a router of this block had each verdict after so many cycles, in the
    /// order of the stall report.
    pub fn counts_of(
        &self,
        table: &ChannelTable,
        block: &Block,
        router: usize,
        channel: usize,
        cycles: u32,
    ) -> [u64; VERDICTS]
        requires router { router < ROUTERS }
        requires channel { channel < (table.now.ports.links.width + 1)
            * table.now.ports.links.vcs }
        ensures { (c : ByVerdict)
            → HasHad (channels_of table.now.ports) self.now router channel
            (one_if (has_bit (set_of (channels_of table.now.ports) router block.now.inputs.waiting)
            channel)) c
            → result ≡ ten_counts cycles c }
    {
        let index = table.index(channel);
        let waits = bit(block.inputs.waiting[index], router);
        let nine = self.totals(index, router, waits);
        with_empty(cycles, &nine)
    }

    // How often one channel of a router had each of the nine: it waits, where that is 1.
    fn totals(&self, index: usize, router: usize, waits: u64) -> Nine
        requires index { index < WORDS }
        requires router { router < ROUTERS }
        ensures counts { (c : ByVerdict) → HasHadIn self.now index router waits c
            → numbers_of result ≡ c }
        ensures small { AreSmall (numbers_of result) }
    {
        let count = &self.of[index / GROUP];
        let lane = index % GROUP;
        let cycles = self.cycles;
        let routed = count.total(ROUTED + lane, router, cycles);
        Nine {
            routed,
            granted: routed.saturating_sub(waits),
            moved: count.total(MOVED + lane, router, cycles),
            no_flit: count.total(NO_FLIT + lane, router, cycles),
            no_idle_channel: count.total(NO_IDLE_CHANNEL + lane, router, cycles),
            lost_channel: count.total(LOST_CHANNEL + lane, router, cycles),
            no_credit: count.total(NO_CREDIT + lane, router, cycles),
            lost_input: count.total(LOST_INPUT + lane, router, cycles),
            lost_switch: count.total(LOST_SWITCH + lane, router, cycles),
        }
    }
}

// No counts in any group.
fn clear_all(of: &mut [Count; GROUPS])
    ensures { (g j r : ℕ) → g < GROUPS → j < ROW → count_in (of_group of.new g) 0 j r ≡ 0 }
{
    for group in 0..GROUPS {
        of[group].clear();
    }
}

// Counts a cycle more in each group, where so many were counted one by one.
#[inline(always)]
fn count_all(frame: &Frame, block: &Block, work: &Work, cycles: u32, of: &mut [Count; GROUPS])
    ensures { (g : ℕ) → g < frame.now.groups
        → HasCounted cycles (row_of (λ j. told_by (word j) block.now work.now) g)
        (of_group of.old g) (of_group of.new g) }
{
    let slot = (cycles % SLOTS as u32) as usize;
    note_all(frame, block, work, slot, of);
    if slot + 1 == SLOTS {
        add_all(frame, cycles / SLOTS as u32, of);
    }
}

// Notes the verdicts of a cycle in each group, which is this one of the next sixteen.
#[inline(always)]
fn note_all(frame: &Frame, block: &Block, work: &Work, slot: usize, of: &mut [Count; GROUPS])
    requires { slot < SLOTS }
    ensures { (g : ℕ) → g < frame.now.groups
        → HasNoted slot (row_of (λ j. told_by (word j) block.now work.now) g)
        (of_group of.old g) (of_group of.new g) }
{
    for group in 0..frame.groups {
        of[group].note(block, work, group, slot);
    }
}

// The last sixteen cycles are added in each group, where such were added so many times.
#[inline(never)]
fn add_all(frame: &Frame, times: u32, of: &mut [Count; GROUPS])
    ensures { (g : ℕ) → g < frame.now.groups
        → HasAdded times (of_group of.old g) (of_group of.new g) }
{
    for group in 0..frame.groups {
        of[group].add(times);
    }
}

// Counts so many cycles more in each group, where so many were counted one by one.
fn repeat_all(groups: usize, cycles: u32, times: u32, of: &mut [Count; GROUPS])
    requires { groups ≤ GROUPS }
    ensures each { (g : ℕ) → g < groups
        → HasRepeated cycles times (of_group of.old g) (of_group of.new g) }
    ensures others { (g : ℕ) → groups ≤ g → of_group of.new g ≡ of_group of.old g }
{
    for group in 0..groups {
        of[group].repeat(cycles, times);
    }
}

// All ten after so many cycles: Empty in those in which no other verdict was.
fn with_empty(cycles: u32, nine: &Nine) -> [u64; VERDICTS]
    requires { AreSmall (numbers_of nine.now) }
    ensures { result ≡ ten_counts cycles (numbers_of nine.now) }
{
    let mut all = [0; VERDICTS];
    all[0] = empty_cycles(cycles, nine.sum());
    all[1..].copy_from_slice(&nine.list());
    all
}
