//! Time that jumps over cycles that are like the one before them.

ghost use Rattle.std.specs.Prelude.{◌≡◌, ◌≢◌, ℕ, ◌+◌, ◌-◌, ◌≤◌, Some, min, slice_get};
ghost use Rattle.noc_engine.specs.Prelude.{Counts, HasJustRun, HasRepeated, IsNextDue, ShowsRun, net_in};

use crate::columns::Columns;
use crate::plan::Plan;
use noc_columns::NEVER;
use noc_counts::Counts;
use noc_cycles::Block;

impl Columns {
    // Runs the cycles after the last one that are like it, at most so many, where nothing happened
    // in it. The answer is how many these are.
    pub(crate) fn wait(&mut self, most: u32) -> u32
        requires { (n : ℕ) × HasJustRun (net_in self.old.origin) n most self.old }
        ensures within { result ≤ most }
        ensures shows { ShowsRun (net_in self.old.origin) (self.old.tile.cycle + result) self.new }
        ensures jumps { self.old.tile.last ≢ self.old.tile.cycle → (next : ℕ)
            × IsNextDue self.old.tile.blocks.items next
            × (result ≡ min (next - self.old.tile.cycle) most) }
    {
        if self.tile.is_busy() {
            return 0;
        }
        let due = next_due(&self.tile.blocks);
        let times = due.saturating_sub(self.tile.cycle).min(most);
        repeat_all(&self.plan, times, self.tile.counts.as_mut_slice());
        self.tile.cycle += times;
        times
    }
}

// When the first packet of these blocks comes to be due that is not due yet.
fn next_due(blocks: &[Block]) -> u32
    ensures { IsNextDue blocks.now result }
{
    let mut next = NEVER;
    for number in 0..blocks.len() {
        next = next.min(blocks[number].sources.due.next);
    }
    next
}

// The last cycle, in which nothing happened, is counted so many times more in all blocks.
fn repeat_all(plan: &Plan, times: u32, counts: &mut [Counts])
    ensures { (b : ℕ) (old new : Counts) → slice_get counts.old b ≡ Some old
        → slice_get counts.new b ≡ Some new → HasRepeated plan.now.pattern times old new }
{
    for number in 0..counts.len() {
        counts[number].repeat(&plan.pattern.frame, times);
    }
}
