//! What comes to the routers of a block is taken: credits, what their sources inject, and flits.

ghost use Rattle.std.specs.Prelude.{◌≡◌, ◌+◌, ◌*◌, ◌<◌, ◌≤◌, ◌^◌, ◌&&◌, ◌||◌, ℕ, true, false, length, nat_eq, not, slice_index, bit_or, if◌then◌else◌};
ghost use Rattle.noc_sets.specs.Cycle.{Router};
ghost use Rattle.noc_sets.specs.Layout.{Layout};
ghost use Rattle.noc_sets.specs.Sets.{up_by};
ghost use Rattle.noc_sets.specs.Source.{start_in};
ghost use Rattle.noc_columns.specs.Channels.{standing_by};
ghost use Rattle.noc_columns.specs.Heads.{packet_in};
ghost use Rattle.noc_columns.specs.Marks.{ChangesIdle};
ghost use Rattle.noc_columns.specs.Sources.{AreDue, begun_if, left_in, sent_if, source_in, starts_by};
ghost use Rattle.noc_columns.specs.Prelude.{channels_of, has_bit, links_of, port_at, set_of};
ghost use Rattle.noc_cycles.specs.Held.{ShowsHeld, held_at, links_at};
ghost use Rattle.noc_cycles.specs.May.{MayTake};
ghost use Rattle.noc_cycles.specs.Taking.{FitsLayout, HasCredits, HasInjected, HasTaken, IsPunctual, MaySend, TellsHeads, comes_to};

use crate::begins::begin_packets;
use crate::block::{Block, Work};
use crate::pattern::Pattern;
use noc_columns::{
    CHANNELS, Links, Marks, ROUTERS, Sources, Start, Words, add_links, bring, inject, land,
    look_up, take_credits,
};

/// What comes to the routers of a block is taken: credits, what their sources inject, and flits.
/// The answer is the routers whose sources inject.
#[inline(never)]
pub fn take(
    pattern: &Pattern,
    starts: &[Start],
    cycle: u32,
    block: &mut Block,
    work: &mut Work,
) -> u64
    requires { MaySend pattern.now.table.ports (starts_by starts.now) cycle block.old }
    ensures taken { (layout : Layout) (r : ℕ) (b : Router) → FitsLayout pattern.now layout
        → r < ROUTERS
        → ShowsHeld pattern.now (held_at pattern.now.table.ports block.old r)
        (links_at pattern.now.table.ports work.old.came r) b
        → MayTake pattern.now (starts_by starts.now) (held_at pattern.now.table.ports block.old r) b
        → (let all = set_of (channels_of pattern.now.table.ports) r in
        HasTaken pattern.now layout (starts_by starts.now) cycle b
        (held_at pattern.now.table.ports block.new r) (standing_by all work.new.standing)
        (all work.new.verdicts.no_credit)
        (comes_to pattern.now.table.ports work.new.came r)) }
    ensures injected { (r : ℕ) → has_bit result r ≡ not (nat_eq
        (set_of (port_at pattern.now.table.ports.local 0) r work.new.came.flits) 0) }
    ensures heading { TellsHeads pattern.now.table.ports work.new }
    ensures punctual { IsPunctual cycle pattern.now.table.ports block.new }
    ensures block { block.new ≡ record block.old {
      inputs = block.new.inputs;
      outputs = block.new.outputs;
      injection = block.new.injection;
      marks = block.new.marks;
      packets = block.new.packets;
      sources = block.new.sources;
    } }
    ensures work { work.new ≡ record work.old {
      came = work.new.came;
      returned = work.new.returned;
      standing = work.new.standing;
      heading = work.new.heading;
      verdicts = record work.old.verdicts { no_credit = work.new.verdicts.no_credit };
    } }
{
    count_credits(pattern, block, work);
    let injected = inject_flits(pattern, starts, cycle, block, &mut work.came);
    let heading = land(
        &pattern.frame,
        &work.came,
        &mut block.inputs,
        &mut work.standing,
        &mut work.verdicts.no_credit,
    );
    work.heading = heading;
    injected
}

// The credits that come are counted. Channels that drain and have all their credits again are
// idle, and it is looked up which input channels are supplied.
fn count_credits(pattern: &Pattern, block: &mut Block, work: &mut Work)
    ensures credits { (layout : Layout) (r : ℕ) → FitsLayout pattern.now layout → r < ROUTERS
        → HasCredits pattern.now layout
        (links_at pattern.now.table.ports work.old.came r).credits
        (held_at pattern.now.table.ports block.old r)
        (held_at pattern.now.table.ports block.new r)
        (set_of (channels_of pattern.now.table.ports) r work.new.standing.supplied) }
    ensures block { block.new
        ≡ record block.old { outputs = block.new.outputs; marks = block.new.marks } }
    ensures work { work.new ≡ record work.old {
      returned = work.new.returned;
      standing = record work.old.standing { supplied = work.new.standing.supplied };
    } }
{
    let home = take_credits(
        &pattern.frame,
        &work.came.credits,
        &mut block.outputs,
        &mut work.returned,
    );
    free_links(pattern, home, &mut work.returned.home, &mut block.marks);
    let grants = &block.grants;
    look_up(
        &pattern.frame,
        &pattern.table.ports,
        &grants.sends,
        &work.returned.some,
        &block.outputs.draining,
        &mut work.standing.supplied,
    );
}

// Link channels are idle again, if there are some in these routers.
#[inline(always)]
fn free_links(pattern: &Pattern, routers: u64, home: &mut Words, marks: &mut Marks)
    requires { routers ≡ 0 → (r : ℕ) → r < ROUTERS
        → set_of (links_of pattern.now.table.ports.links) r home.old ≡ 0 }
    ensures idle { (r : ℕ) → r < ROUTERS → slice_index marks.new.idle r
        ≡ bit_or (slice_index marks.old.idle r)
        (set_of (links_of pattern.now.table.ports.links) r home.old) }
    ensures kept { ChangesIdle marks.old marks.new }
{
    if routers != 0 {
        add_links(&pattern.table, home, marks);
    }
}

// The sources of a block inject. What they inject comes to its local channels. The answer is the
// routers in which something does.
fn inject_flits(
    pattern: &Pattern,
    starts: &[Start],
    cycle: u32,
    block: &mut Block,
    came: &mut Links<Words>,
) -> u64
    requires { MaySend pattern.now.table.ports (starts_by starts.now) cycle block.old }
    ensures injected { (layout : Layout) (r : ℕ) → FitsLayout pattern.now layout → r < ROUTERS
        → HasInjected pattern.now layout (starts_by starts.now) cycle
        (links_at pattern.now.table.ports came.old r) (held_at pattern.now.table.ports block.old r)
        (held_at pattern.now.table.ports block.new r)
        (set_of (channels_of pattern.now.table.ports) r came.new.flits)
        (set_of (channels_of pattern.now.table.ports) r came.new.tails) }
    ensures punctual { IsPunctual cycle pattern.now.table.ports block.new }
    ensures block { block.new ≡ record block.old {
      injection = block.new.injection;
      packets = block.new.packets;
      sources = block.new.sources;
    } }
    ensures credits { came.new.credits ≡ came.old.credits }
    ensures some { (r : ℕ) → has_bit result r ≡ not (nat_eq
        (set_of (port_at pattern.now.table.ports.local 0) r came.new.flits) 0) }
{
    let local = &pattern.table.ports.local;
    block.sources.due.pass(cycle);
    let (went, begins) = inject(
        &pattern.frame,
        local,
        block.sources.due.ready,
        &block.inputs,
        &mut block.injection,
    );
    begin_if(
        pattern,
        starts,
        begins,
        &block.sources.queue,
        &block.injection.begun,
        &mut block.packets,
    );
    let last = send_all(starts, cycle, went, begins, &mut block.sources);
    bring(local, last, &mut block.injection, came);
    went | begins
}

// Packets begin in these local channels, if there are some in these routers.
#[inline(always)]
fn begin_if(
    pattern: &Pattern,
    starts: &[Start],
    routers: u64,
    queue: &[u32; ROUTERS],
    begun: &Words,
    packets: &mut [[u32; CHANNELS]; ROUTERS],
)
    requires queue { (r v : ℕ) → r < ROUTERS
        → has_bit (set_of (port_at pattern.now.table.ports.local 0) r begun.now) v ≡ true
        → slice_index queue.now r < length starts.now }
    requires none { routers ≡ 0 → (r : ℕ)
        → set_of (port_at pattern.now.table.ports.local 0) r begun.now ≡ 0 }
    ensures { (r k : ℕ) → r < ROUTERS → packet_in packets.new r k
        ≡ (if has_bit (up_by (set_of (port_at pattern.now.table.ports.local 0) r begun.now)
        (pattern.now.table.ports.links.width * pattern.now.table.ports.links.vcs)) k
        then (start_in (starts_by starts.now) (slice_index queue.now r)).number
        else packet_in packets.old r k) }
{
    if routers != 0 {
        let links = &pattern.table.ports.links;
        begin_packets(
            &pattern.table.ports.local,
            links.width * links.vcs,
            starts,
            queue,
            begun,
            packets,
        );
    }
}

// In some routers a flit of a packet that has begun is injected, and in others the next packet
// begins. The answer is the routers in which the last flit of a packet is injected.
#[inline(always)]
fn send_all(starts: &[Start], cycle: u32, went: u64, begins: u64, sources: &mut Sources) -> u64
    requires few { length starts.now < 2 ^ 32 }
    requires left { (r : ℕ) → has_bit went r ≡ true → 0 < left_in sources.old.left r }
    requires queue { (r : ℕ) → r < ROUTERS → (has_bit went r || has_bit begins r) ≡ true
        → slice_index sources.old.queue r + 1 < length starts.now }
    requires apart { (r : ℕ) → has_bit begins r ≡ true → has_bit went r ≡ false }
    ensures sources { (r : ℕ) → r < ROUTERS → source_in sources.new r
        ≡ begun_if (starts_by starts.now) (has_bit begins r)
        (sent_if (starts_by starts.now) (has_bit went r) (source_in sources.old r)) }
    ensures last { (r : ℕ) → r < ROUTERS → has_bit result r
        ≡ ((has_bit went r && nat_eq (left_in sources.old.left r) 1) || (has_bit begins r
        && nat_eq (start_in (starts_by starts.now) (slice_index sources.old.queue r)).length 1)) }
    ensures due { ((r : ℕ) → r < ROUTERS → (has_bit went r || has_bit begins r) ≡ true
        → slice_index sources.old.due.at r ≤ cycle) → AreDue cycle sources.old.due
        → AreDue cycle sources.new.due }
{
    let ended = sources.send(starts, cycle, went);
    let at_once = sources.begin(starts, cycle, begins);
    ended | at_once
}
