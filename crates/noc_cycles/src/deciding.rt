//! It is decided what the channels of a block do: output channels are granted, heads are routed,
//! and flits go through the switch.

ghost use Rattle.std.specs.Prelude.{◌≡◌, ◌<◌, ◌+◌, ◌*◌, ℕ, true, false, length, slice_index};
ghost use Rattle.noc_topo.specs.Shape.{nodes};
ghost use Rattle.noc_sets.specs.Cycle.{Still};
ghost use Rattle.noc_sets.specs.Layout.{Layout};
ghost use Rattle.noc_columns.specs.Allotted.{HasAllottedAll, MayAllotAll};
ghost use Rattle.noc_columns.specs.Heads.{HasRoutedAll, MayRouteAll};
ghost use Rattle.noc_columns.specs.Picks.{SendByVcs};
ghost use Rattle.noc_columns.specs.Routing.{AreRoutable, IsOfPorts, sets_by};
ghost use Rattle.noc_columns.specs.Prelude.{MembersAreBelow, channels_of, has_bit, set_of};
ghost use Rattle.noc_cycles.specs.Concluding.{standing_at};
ghost use Rattle.noc_cycles.specs.Deciding.{HasSentAll};
ghost use Rattle.noc_cycles.specs.Held.{ShowsStill, held_at};
ghost use Rattle.noc_cycles.specs.May.{MayDecide};
ghost use Rattle.noc_cycles.specs.Taking.{TellsHeads};
ghost use Rattle.noc_cycles.specs.Through.{HasDecidedAt};

use crate::block::{Block, Work};
use crate::copies::clear;
use crate::pattern::Pattern;
use noc_columns::{
    CHANNELS, Candidates, ChannelTable, Decided, Grants, Guide, Header, Links, Marks, Picks,
    ROUTERS, RouterPorts, Switch, Words, allocate, pick, route, traverse,
};
use noc_route::Relation;

/// What the heads in a network are routed by.
#[derive(Drop)]
pub struct Routing<'a> {
    /// The channels that packets may take.
    pub relation: &'a Relation,
    /// The headers of the packets, by number.
    pub headers: &'a [Header],
}

/// Output channels are granted, heads are routed, and flits go through the switch, in a block that
/// has taken what comes and whose first router has this number.
#[inline(never)]
pub fn decide(
    pattern: &Pattern,
    routing: &Routing<'_>,
    first: u32,
    block: &mut Block,
    work: &mut Work,
    left: &mut Links<Words>,
)
    requires ports { IsOfPorts pattern.now.table.ports routing.now.relation.now }
    requires headers { AreRoutable routing.now.relation.now routing.now.headers.now }
    requires heading { TellsHeads pattern.now.table.ports work.old }
    requires may { (r : ℕ) → r < ROUTERS
        → MayDecide pattern.now (length routing.now.headers.now)
        (nodes routing.now.relation.now.grid) (first + r)
        (held_at pattern.now.table.ports block.old r)
        (standing_at pattern.now.table.ports work.old.standing r) }
    ensures decided { (layout : Layout) (r no_credit : ℕ) (s : Still) → r < ROUTERS
        → ShowsStill pattern.now (held_at pattern.now.table.ports block.old r)
        (standing_at pattern.now.table.ports work.old.standing r) no_credit s
        → HasDecidedAt pattern.now layout
        (sets_by routing.now.relation.now routing.now.headers.now (first + r)) s r
        block.old block.new work.old work.new left.new }
    ensures block { block.new ≡ record block.old {
      grants = block.new.grants;
      marks = block.new.marks;
      switch = block.new.switch;
    } }
    ensures work { work.new ≡ record work.old {
      decided = work.new.decided;
      lost = work.new.lost;
      picks = work.new.picks;
    } }
{
    let ports = &pattern.table.ports;
    let channels = (ports.links.width + 1) * ports.links.vcs;
    block.grants.clear();
    clear(channels, &mut work.lost);
    allocate_if(
        &pattern.table,
        &mut block.marks,
        &mut block.grants,
        &mut work.lost,
    );
    let guide = Guide {
        relation: routing.relation,
        headers: routing.headers,
        table: &pattern.table,
        first,
    };
    route_if(
        &guide,
        work.heading,
        &work.standing.heads,
        &block.packets,
        &mut block.marks,
    );
    let grants = &block.grants;
    let candidates = Candidates {
        standing: &work.standing,
        ahead: &block.inputs.ahead,
        sends: &grants.sends,
    };
    send(
        ports,
        &candidates,
        &mut block.switch,
        &mut work.decided,
        left,
        &mut work.picks,
    );
}

// Output channels are granted, if an idle one is wanted in some router.
#[inline(always)]
fn allocate_if(table: &ChannelTable, marks: &mut Marks, grants: &mut Grants, lost: &mut Words)
    requires { MayAllotAll table.now.ports marks.old grants.old }
    ensures { HasAllottedAll table.now.ports marks.old marks.new grants.old grants.new lost.old
        lost.new }
{
    if marks.asking != 0 {
        allocate(table, marks, grants, lost);
    }
}

// Heads are routed, if there are some in these routers.
#[inline(always)]
fn route_if(
    guide: &Guide<'_>,
    routers: u64,
    heads: &Words,
    packets: &[[u32; CHANNELS]; ROUTERS],
    marks: &mut Marks,
)
    requires may { MayRouteAll guide.now heads.now packets.now }
    requires none { routers ≡ 0 → (r : ℕ)
        → set_of (channels_of guide.now.table.now.ports) r heads.now ≡ 0 }
    ensures { HasRoutedAll guide.now heads.now packets.now marks.old marks.new }
{
    if routers != 0 {
        route(guide, heads, packets, marks);
    }
}

// Flits go through the switch.
#[inline(always)]
fn send(
    ports: &RouterPorts,
    candidates: &Candidates<'_>,
    switch: &mut Switch<Words>,
    decided: &mut Decided<Words>,
    left: &mut Links<Words>,
    picks: &mut Picks,
)
    requires { SendByVcs ports.now candidates.now.standing.now.ready candidates.now.sends.now.vc }
    ensures { HasSentAll ports.now candidates.now.standing.now candidates.now.ahead.now
        candidates.now.sends.now switch.old.ahead switch.new.ahead decided.old decided.new left.old
        left.new }
{
    let width = ports.links.width;
    if width == 2 {
        send_by::<2>(ports, candidates, switch, decided, left, picks);
    } else if width == 4 {
        send_by::<4>(ports, candidates, switch, decided, left, picks);
    } else {
        send_by::<6>(ports, candidates, switch, decided, left, picks);
    }
}

// They do so where so many are link ports.
#[inline(always)]
fn send_by<const WIDTH: usize>(
    ports: &RouterPorts,
    candidates: &Candidates<'_>,
    switch: &mut Switch<Words>,
    decided: &mut Decided<Words>,
    left: &mut Links<Words>,
    picks: &mut Picks,
)
    requires width { WIDTH ≡ ports.now.links.width }
    requires sends { SendByVcs ports.now candidates.now.standing.now.ready
        candidates.now.sends.now.vc }
    ensures { HasSentAll ports.now candidates.now.standing.now candidates.now.ahead.now
        candidates.now.sends.now switch.old.ahead switch.new.ahead decided.old decided.new left.old
        left.new }
{
    pick::<WIDTH>(ports, candidates, decided, picks);
    traverse::<WIDTH>(ports, picks, switch, decided, left);
}
