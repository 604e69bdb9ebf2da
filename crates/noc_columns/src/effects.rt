//! What is decided takes effect.

ghost use Rattle.std.specs.Prelude.{◌<◌, ◌*◌, nat_lt};
ghost use Rattle.noc_columns.specs.Steps.{Settles, SettlesAll};

use crate::channels::{Decided, Inputs, Standing, Verdicts};
use crate::frame::Frame;
use crate::given::Grants;
use crate::planes::less;
use crate::supply::NUMBERS;
use crate::words::{GROUP, Words, put};

/// What is decided of the input channels of a block, and what it follows from.
#[derive(Drop)]
pub struct Moves<'a> {
    /// What the input channels can do.
    pub standing: &'a Standing<Words>,
    /// What is decided of them.
    pub decided: &'a Decided<Words>,
    /// Which of them are granted an output channel, and by which one each of them sends.
    pub grants: &'a Grants,
}

/// Heads, grants and moves take effect on the input channels. It is told which of them owned an
/// output channel, and of which a flit moves. Of those that a tail leaves it is told from which it
/// leaves the network: it goes by the local port, which has this number. The answer is the routers
/// of which a flit moves, and those that a tail leaves.
#[inline(always)]
pub fn settle(
    frame: &Frame,
    local: usize,
    moves: &Moves<'_>,
    inputs: &mut Inputs<Words>,
    verdicts: &mut Verdicts<Words>,
    arrived: &mut Words,
) -> (u64, u64)
    requires { local < NUMBERS }
    ensures { SettlesAll (GROUP * frame.now.groups) frame.now.deep local moves.now.standing.now
        moves.now.decided.now moves.now.grants.now inputs.old inputs.new verdicts.old verdicts.new
        arrived.new result.0 result.1 }
{
    let plane = local == IN_A_PLANE;
    if frame.deep && plane {
        settle_all::<5>(moves, frame, IN_A_PLANE, inputs, verdicts, arrived)
    } else if frame.deep {
        settle_all::<5>(moves, frame, local, inputs, verdicts, arrived)
    } else if plane {
        settle_all::<SHALLOW>(moves, frame, IN_A_PLANE, inputs, verdicts, arrived)
    } else {
        settle_all::<SHALLOW>(moves, frame, local, inputs, verdicts, arrived)
    }
}

// The number of the local port of a network of two dimensions, as most are. (As a constant it
// spares the loop the words that tell which digits it has.)
const IN_A_PLANE: usize = 4;

// How many bits a count has that is not deep.
const SHALLOW: usize = 3;

// What was decided takes effect, where it is told how many bits a count has. (That is a const
// parameter, so that each of both loops has one kind of count. And all is told in one loop, since
// one that does less is unrolled, and does the words one by one that are left over.)
#[inline(always)]
fn settle_all<const BITS: usize>(
    moves: &Moves<'_>,
    frame: &Frame,
    local: usize,
    inputs: &mut Inputs<Words>,
    verdicts: &mut Verdicts<Words>,
    arrived: &mut Words,
) -> (u64, u64)
    requires { local < NUMBERS }
    ensures { SettlesAll (GROUP * frame.now.groups) (nat_lt SHALLOW BITS) local
        moves.now.standing.now moves.now.decided.now moves.now.grants.now inputs.old inputs.new
        verdicts.old verdicts.new arrived.new result.0 result.1 }
{
    let deep = BITS > SHALLOW;
    let mut moving = 0;
    let mut leaving = 0;
    for i in 0..GROUP * frame.groups {
        let could = moves.standing.at(i);
        let what = moves.decided.at(i);
        let had = inputs.at(i);
        let told = verdicts.at(i);
        let settled = with_effects(deep, &could, &what, moves.grants.granted[i], &had, &told);
        let tails = settled.verdicts.moved & could.last;
        let gone = moves.grants.sends.port.at(i).having(local, tails);
        verdicts.put(i, &settled.verdicts);
        inputs.put(i, deep, &settled.inputs);
        put(arrived, i, gone);
        moving = moving | settled.verdicts.moved;
        leaving = leaving | gone;
    }
    (moving, leaving)
}

// What one channel is then.
#[derive(Drop)]
struct Settled {
    inputs: Inputs<u64>,
    verdicts: Verdicts<u64>,
}

// One channel with these effects.
#[inline(always)]
fn with_effects(
    deep: bool,
    could: &Standing<u64>,
    what: &Decided<u64>,
    granted: u64,
    had: &Inputs<u64>,
    told: &Verdicts<u64>,
) -> Settled
    ensures { Settles deep could.now what.now granted had.now result.inputs told.now
        result.verdicts }
{
    let moved = what.picked & what.sends;
    let released = moved & could.last;
    Settled {
        inputs: Inputs {
            waiting: less(had.waiting, granted) | could.heads,
            active: less(had.active | granted, released),
            ended: less(had.ended, released),
            ahead: less(had.ahead, what.sends) | (what.past & what.sends),
            len: had.len.lowered(deep, moved),
        },
        verdicts: Verdicts {
            active: had.active,
            no_credit: told.no_credit,
            moved,
        },
    }
}
