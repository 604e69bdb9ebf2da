//! What is decided takes effect.

ghost use Rattle.std.specs.Prelude.{◌≡◌, ◌<◌, ◌+◌, ◌*◌, ℕ, slice_index};
ghost use Rattle.noc_columns.specs.Arrivals.{HasGivenBack};
ghost use Rattle.noc_columns.specs.Prelude.{channels_of, has_bit, set_of, some_below, word};
ghost use Rattle.noc_cycles.specs.Concluding.{HasConcludedHeld, decided_at, standing_at, verdicts_at};
ghost use Rattle.noc_cycles.specs.Held.{held_at, links_at};

use crate::block::{Block, Work};
use crate::copies::copy;
use crate::pattern::Pattern;
use noc_columns::{
    Digits, GROUP, Links, Marks, Moves, ROUTERS, RouterPorts, Words, give_back, pay, settle,
};

/// What is decided in a block takes effect on its channels, and on what leaves the routers. It is
/// told what the verdicts follow from. The answer is the routers from which a packet leaves the
/// network.
#[inline(never)]
pub fn conclude(
    pattern: &Pattern,
    block: &mut Block,
    work: &mut Work,
    left: &mut Links<Words>,
) -> u64
    ensures concluded { (r : ℕ) → r < ROUTERS → HasConcludedHeld pattern.now
        (standing_at pattern.now.table.ports work.old.standing r)
        (decided_at pattern.now.table.ports work.old.decided r)
        (set_of (channels_of pattern.now.table.ports) r block.old.grants.granted)
        (links_at pattern.now.table.ports left.new r)
        (set_of (channels_of pattern.now.table.ports) r work.new.arrived)
        (held_at pattern.now.table.ports block.old r)
        (held_at pattern.now.table.ports block.new r)
        (verdicts_at pattern.now.table.ports work.old.verdicts r)
        (verdicts_at pattern.now.table.ports work.new.verdicts r) }
    ensures arrived { (r : ℕ) → has_bit result r
        ≡ some_below (GROUP * pattern.now.frame.groups) (λ i. has_bit (word i work.new.arrived) r) }
    ensures block { block.new ≡ record block.old {
      inputs = block.new.inputs;
      outputs = block.new.outputs;
      marks = block.new.marks;
    } }
    ensures work { work.new ≡ record work.old {
      verdicts = work.new.verdicts;
      arrived = work.new.arrived;
    } }
    ensures left { left.new ≡ record left.old { credits = left.new.credits } }
{
    let grants = &block.grants;
    let moves = Moves {
        standing: &work.standing,
        decided: &work.decided,
        grants,
    };
    let (_moved, arrived) = settle(
        &pattern.frame,
        pattern.table.ports.links.width,
        &moves,
        &mut block.inputs,
        &mut work.verdicts,
        &mut work.arrived,
    );
    free_local(
        &pattern.table.ports,
        arrived,
        &work.arrived,
        &grants.sends.vc,
        &mut block.marks,
    );
    pay(&pattern.frame, &left.flits, &left.tails, &mut block.outputs);
    let groups = pattern.frame.link_groups;
    copy(groups, &work.verdicts.moved, &mut left.credits);
    arrived
}

// Local channels are idle again, if packets leave the network from some of these routers.
#[inline(always)]
fn free_local(
    ports: &RouterPorts,
    routers: u64,
    arrived: &Words,
    vc: &Digits<Words>,
    marks: &mut Marks,
)
    requires { routers ≡ 0 → (r : ℕ) → set_of (channels_of ports.now) r arrived.now ≡ 0 }
    ensures { HasGivenBack ports.now arrived.now vc.now marks.old marks.new }
{
    if routers != 0 {
        give_back(ports, arrived, vc, marks);
    }
}
