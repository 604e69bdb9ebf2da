//! What the routers of all blocks find in a cycle.

ghost use Rattle.std.specs.Prelude.{◌≡◌, ℕ, ◌+◌, ◌*◌, ◌/◌, ◌%◌, ◌<◌, ◌≤◌, Some, length, slice_get};
ghost use Rattle.noc_engine.specs.Prelude.{Block, HaveFindings, Work, finding_at, found_at};

use crate::plan::Plan;
use noc_columns::{CHANNELS, ROUTERS};
use noc_counts::{find, granted_outs};
use noc_cycles::{Block, Pattern, Work};
use noc_view::Finding;

// What so many routers find in a cycle is noted: `CHANNELS` places for each.
pub(crate) fn find_all(
    plan: &Plan,
    routers: usize,
    blocks: &[Block],
    works: &[Work],
    found: &mut [Finding],
)
    requires works { length works.now ≡ length blocks.now }
    requires blocks { routers ≤ ROUTERS * length blocks.now }
    requires places { routers * CHANNELS ≤ length found.old }
    ensures { (s : ℕ) (block : Block) (work : Work) → s < routers
        → slice_get blocks.now (s / ROUTERS) ≡ Some block
        → slice_get works.now (s / ROUTERS) ≡ Some work
        → HaveFindings (found_at plan.now.pattern block work (s % ROUTERS))
        ((plan.now.pattern.table.ports.links.width + 1) * plan.now.pattern.table.ports.links.vcs)
        (s * CHANNELS) found.new }
{
    for router in 0..routers {
        let number = router / ROUTERS;
        let first = router * CHANNELS;
        find_in(
            &plan.pattern,
            &blocks[number],
            &works[number],
            router % ROUTERS,
            first,
            found,
        );
    }
}

// What one router of a block finds is noted, from this place on.
fn find_in(
    pattern: &Pattern,
    block: &Block,
    work: &Work,
    router: usize,
    first: usize,
    found: &mut [Finding],
)
    requires router { router < ROUTERS }
    requires places { first + CHANNELS ≤ length found.old }
    ensures here { HaveFindings (found_at pattern.now block.now work.now router)
        ((pattern.now.table.ports.links.width + 1) * pattern.now.table.ports.links.vcs) first
        found.new }
    ensures before { (p : ℕ) → p < first → finding_at found.new p ≡ finding_at found.old p }
{
    let links = &pattern.table.ports.links;
    let outs = granted_outs(pattern, block, router);
    for channel in 0..(links.width + 1) * links.vcs {
        found[first + channel] = find(pattern, block, work, outs, router, channel);
    }
}
