//! The passes of a cycle over blocks that stand side by side. `first` is the number of the first of
//! them.

ghost use Rattle.std.specs.Prelude.{◌≡◌, ℕ, ◌+◌, ◌*◌, ◌<◌, ◌≤◌, Option, Some, length, true, slice_get, slice_index};
ghost use Rattle.noc_engine.specs.Prelude.{AreAllNotes, Block, Counts, HasCounted, HaveArrived, HaveGathered, HaveRoom, HaveTurned, IsGoodSetup, IsPlanOf, MayTurnAll, Pattern, Router, Setup, TellAll, TellLeaving, Turn, Work, arrived_of, channels_of, has_bit, packet_in, packets_of, set_of};

use crate::plan::Plan;
use crate::turn::{Cycle, turn};
use noc_columns::{CHANNELS, Links, ROUTERS, WORDS, Words};
use noc_counts::Counts;
use noc_cycles::{Block, Note, Pattern, Work, arrive_all, gather_links, tell};

// Each block has its turn, and it is written what leaves it. The answer is whether something
// happens in one.
pub(crate) fn turn_all(
    cycle: &Cycle<'_>,
    first: usize,
    blocks: &mut [Block],
    works: &mut [Work],
    left: &mut [Links<Words>],
) -> bool
    requires may { (net : Setup) × (words : ℕ → Router)
        × MayTurnAll net cycle.now.relation.now cycle.now.plan.now cycle.now.number first words
        blocks.old works.old }
    requires left { first + length blocks.old ≤ length left.old }
    ensures { (net : Setup) (words : ℕ → Router)
        → MayTurnAll net cycle.now.relation.now cycle.now.plan.now cycle.now.number first words
        blocks.old works.old
        → (turns : ℕ → Turn)
        × HaveTurned net cycle.now.plan.now cycle.now.number first words turns blocks.new works.new
        left.new result }
{
    let mut happened = false;
    for number in 0..blocks.len() {
        let block = &mut blocks[number];
        let work = &mut works[number];
        let left = &mut left[first + number];
        happened |= turn(cycle, first + number, block, work, left);
    }
    happened
}

// The packets that leave the network arrive in this cycle.
pub(crate) fn arrive_blocks(
    cycle: &Cycle<'_>,
    blocks: &[Block],
    works: &[Work],
    arrivals: &mut [u32],
)
    requires works { length works.now ≡ length blocks.now }
    requires leaving { TellLeaving cycle.now.plan.now.pattern.table.ports works.now }
    requires packets { (s k : ℕ) → s < ROUTERS * length blocks.now
        → has_bit (arrived_of cycle.now.plan.now.pattern.table.ports works.now s) k ≡ true
        → packets_of blocks.now s k < length arrivals.old }
    ensures { HaveArrived cycle.now.number (ROUTERS * length blocks.now)
        (arrived_of cycle.now.plan.now.pattern.table.ports works.now) (packets_of blocks.now)
        (slice_index arrivals.old) (slice_index arrivals.new) }
{
    for number in 0..blocks.len() {
        arrive_in(
            &cycle.plan.pattern,
            cycle.number,
            &works[number],
            &blocks[number].packets,
            arrivals,
        );
    }
}

// The packets that leave the network from one block arrive, if there are some.
#[inline(always)]
fn arrive_in(
    pattern: &Pattern,
    cycle: u32,
    work: &Work,
    packets: &[[u32; CHANNELS]; ROUTERS],
    arrivals: &mut [u32],
)
    requires leaving { work.now.leaving ≡ 0 → (r : ℕ)
        → set_of (channels_of pattern.now.table.ports) r work.now.arrived ≡ 0 }
    requires packets { (r k : ℕ) → r < ROUTERS
        → has_bit (set_of (channels_of pattern.now.table.ports) r work.now.arrived) k ≡ true
        → packet_in packets.now r k < length arrivals.old }
    ensures { HaveArrived cycle ROUTERS
        (λ r. set_of (channels_of pattern.now.table.ports) r work.now.arrived)
        (packet_in packets.now) (slice_index arrivals.old) (slice_index arrivals.new) }
{
    if work.leaving != 0 {
        arrive_all(&pattern.table, cycle, &work.arrived, packets, arrivals);
    }
}

// All words of what has left a block are kept.
pub(crate) fn keep(from: &Links<Words>, to: &mut Links<Words>)
    ensures { to.new ≡ from.now }
{
    // (In one loop, since three copies of this size would be three calls.)
    for i in 0..WORDS {
        to.flits[i] = from.flits[i];
        to.tails[i] = from.tails[i];
        to.credits[i] = from.credits[i];
    }
}

// The packets that are granted channels of links are noted for the other ends.
pub(crate) fn tell_all(plan: &Plan, first: usize, blocks: &[Block], notes: &mut [Vec<Note>])
    requires told { (net : Setup) × (tells : ℕ → ℕ → Option ℕ) × IsGoodSetup net
        × IsPlanOf net plan.now
        × TellAll net plan.now.pattern.table.ports first blocks.now tells }
    requires blocks { first + length blocks.now ≤ length plan.now.around.items }
    requires room { HaveRoom (length blocks.now) notes.old }
    ensures noted { (net : Setup) (tells : ℕ → ℕ → Option ℕ) → IsGoodSetup net
        → IsPlanOf net plan.now
        → TellAll net plan.now.pattern.table.ports first blocks.now tells
        → AreAllNotes net tells first (length blocks.now) notes.new }
    ensures room { HaveRoom (length blocks.now) notes.new }
{
    for number in 0..blocks.len() {
        let around = &plan.around[first + number];
        tell(&plan.pattern, around, &blocks[number], &mut notes[number]);
    }
}

// What the routers have done is counted.
pub(crate) fn count_all(plan: &Plan, blocks: &[Block], works: &[Work], counts: &mut [Counts])
    requires works { length works.now ≡ length blocks.now }
    requires counts { length counts.old ≡ length blocks.now }
    ensures { (b : ℕ) (block : Block) (work : Work) (old new : Counts)
        → slice_get blocks.now b ≡ Some block → slice_get works.now b ≡ Some work
        → slice_get counts.old b ≡ Some old → slice_get counts.new b ≡ Some new
        → HasCounted plan.now.pattern.table.ports block work old new }
{
    for number in 0..blocks.len() {
        counts[number].count(&plan.pattern.frame, &blocks[number], &works[number]);
    }
}

// What has left the blocks of the network comes over the links to these.
pub(crate) fn gather_all(plan: &Plan, first: usize, left: &[Links<Words>], works: &mut [Work])
    requires plan { (net : Setup) × IsGoodSetup net × IsPlanOf net plan.now }
    requires left { length left.now ≡ length plan.now.around.items }
    requires works { first + length works.old ≤ length plan.now.around.items }
    ensures { (net : Setup) → IsGoodSetup net → IsPlanOf net plan.now
        → HaveGathered net plan.now.pattern.table.ports first left.now works.new }
{
    for number in 0..works.len() {
        let around = &plan.around[first + number];
        gather_links(&plan.pattern, around, left, &mut works[number].came);
    }
}
