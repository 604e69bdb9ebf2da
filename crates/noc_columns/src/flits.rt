//! The flits that have come land.

ghost use Rattle.std.specs.Prelude.{◌*◌};
ghost use Rattle.noc_columns.specs.Steps.{Lands, LandsAll};

use crate::channels::{Inputs, Links, Standing};
use crate::frame::Frame;
use crate::planes::less;
use crate::words::{GROUP, Words, put};

/// The flits that have come land, and it is told what each channel can do, of those that are
/// supplied, and which are not. The answer is the routers in which a head is first in a buffer.
#[inline(always)]
pub fn land(
    frame: &Frame,
    links: &Links<Words>,
    inputs: &mut Inputs<Words>,
    standing: &mut Standing<Words>,
    no_credit: &mut Words,
) -> u64
    ensures { LandsAll (GROUP * frame.now.groups) frame.now.deep links.now inputs.old inputs.new
        standing.old standing.new no_credit.new result }
{
    if frame.deep {
        land_all(frame, true, links, inputs, standing, no_credit)
    } else {
        land_all(frame, false, links, inputs, standing, no_credit)
    }
}

// Flits land, where it is told whether counts are deep.
#[inline(always)]
fn land_all(
    frame: &Frame,
    deep: bool,
    links: &Links<Words>,
    inputs: &mut Inputs<Words>,
    standing: &mut Standing<Words>,
    no_credit: &mut Words,
) -> u64
    ensures { LandsAll (GROUP * frame.now.groups) deep links.now inputs.old inputs.new standing.old
        standing.new no_credit.new result }
{
    let mut heading = 0;
    for i in 0..GROUP * frame.groups {
        let came = links.at(i);
        let had = inputs.at(i);
        let could = standing.at(i);
        let landed = with_flits(deep, &came, &had, &could);
        inputs.put(i, deep, &landed.inputs);
        standing.put(i, &landed.standing);
        put(no_credit, i, landed.no_credit);
        heading = heading | landed.standing.heads;
    }
    heading
}

// What one channel is once its flits have come.
#[derive(Drop)]
struct Landed {
    inputs: Inputs<u64>,
    standing: Standing<u64>,
    no_credit: u64,
}

// One channel with these flits.
#[inline(always)]
fn with_flits(deep: bool, came: &Links<u64>, had: &Inputs<u64>, could: &Standing<u64>) -> Landed
    ensures { Lands deep came.now had.now result.inputs could.now result.standing
        result.no_credit }
{
    let filled = had.len.some(deep, 0) | came.flits;
    let len = had.len.raised(deep, came.flits);
    let ended = had.ended | came.tails;
    let sending = had.active & filled;
    let ready = sending & could.supplied;
    Landed {
        inputs: Inputs {
            waiting: had.waiting,
            active: had.active,
            ended,
            ahead: had.ahead,
            len,
        },
        standing: Standing {
            supplied: could.supplied,
            heads: less(filled, had.waiting | had.active),
            ready,
            last: less(ended, len.more_than_one(deep)),
        },
        no_credit: less(sending, ready),
    }
}
