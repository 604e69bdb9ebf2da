//! The turn of a block in a cycle.

ghost use Rattle.std.specs.Prelude.{◌≡◌, ℕ, true, not, nat_eq};
ghost use Rattle.noc_cycles.specs.Taking.{comes_to};
ghost use Rattle.noc_engine.specs.Prelude.{HasTurnedBlock, MayTurn, Router, Setup, Turn, channels_of, happens_in, has_bit, set_of, some_below};

use crate::plan::Plan;
use noc_columns::{Links, ROUTERS, Words};
use noc_cycles::{Block, Pattern, Routing, Work, conclude, decide, some_in, take};
use noc_route::Relation;

// By what blocks have their turn in a cycle.
#[derive(Drop)]
pub(crate) struct Cycle<'a> {
    // What stays as it is.
    pub(crate) plan: &'a Plan,
    // The relation that the network was made for.
    pub(crate) relation: &'a Relation,
    // How many cycles have run before it.
    pub(crate) number: u32,
}

// The block with this number takes what comes, it is decided what its routers do, and that takes
// effect. It is written what leaves them, and the answer is whether something happens in one.
pub(crate) fn turn(
    cycle: &Cycle<'_>,
    number: usize,
    block: &mut Block,
    work: &mut Work,
    left: &mut Links<Words>,
) -> bool
    requires { (net : Setup) × (words : ℕ → Router)
        × MayTurn net cycle.now.relation.now cycle.now.plan.now cycle.now.number number words
        block.old work.old }
    ensures { (net : Setup) (words : ℕ → Router)
        → MayTurn net cycle.now.relation.now cycle.now.plan.now cycle.now.number number words
        block.old work.old
        → (turns : ℕ → Turn) × HasTurnedBlock net cycle.now.plan.now cycle.now.number number words
        turns block.new work.new left.new result }
{
    let plan = cycle.plan;
    let pattern = &plan.pattern;
    let injected = take(pattern, &plan.starts, cycle.number, block, work);
    let routing = Routing {
        relation: cycle.relation,
        headers: &plan.headers,
    };
    decide(
        pattern,
        &routing,
        (ROUTERS * number) as u32,
        block,
        work,
        left,
    );
    let leaving = conclude(pattern, block, work, left);
    work.leaving = leaving;
    does_something(pattern, injected, block, work)
}

// Whether something comes to one of these routers, or happens in one of a block: a head comes to
// wait, an output channel is granted, or a flit moves. The sources of some routers inject.
fn does_something(pattern: &Pattern, injected: u64, block: &Block, work: &Work) -> bool
    requires { (r : ℕ) → has_bit injected r ≡ true
        → comes_to pattern.now.table.ports work.now.came r ≡ true }
    ensures { result
        ≡ some_below ROUTERS (happens_in pattern.now.table.ports block.now work.now) }
{
    if injected != 0 {
        return true;
    }
    does_more(pattern, block, work)
}

// The same, wherever it comes from. (That is seldom asked, since mostly a source injects.)
#[inline(never)]
fn does_more(pattern: &Pattern, block: &Block, work: &Work) -> bool
    ensures { result
        ≡ some_below ROUTERS (happens_in pattern.now.table.ports block.now work.now) }
{
    let links = &pattern.table.ports.links;
    let flits = some_of(pattern, &work.came.flits);
    let credits = some_in(&work.came.credits, 0, links.vcs * links.width);
    let heads = some_of(pattern, &work.standing.heads);
    let granted = some_of(pattern, &block.grants.granted);
    let moved = some_of(pattern, &work.verdicts.moved);
    (flits | credits | (heads | granted | moved)) != 0
}

// The routers that have a channel in these words.
#[inline(always)]
fn some_of(pattern: &Pattern, words: &Words) -> u64
    ensures { (r : ℕ) → has_bit result r
        ≡ not (nat_eq (set_of (channels_of pattern.now.table.ports) r words.now) 0) }
{
    let links = &pattern.table.ports.links;
    some_in(words, 0, links.vcs * links.width + links.vcs)
}
