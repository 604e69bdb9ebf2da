//! The credits that have come are counted.

ghost use Rattle.std.specs.Prelude.{◌≡◌, ◌<◌, ◌*◌, ℕ};
ghost use Rattle.noc_columns.specs.Channels.{outputs_by, returned_by};
ghost use Rattle.noc_columns.specs.Planes.{list_of, planes_by};
ghost use Rattle.noc_columns.specs.Steps.{TakesCredits};
ghost use Rattle.noc_columns.specs.Prelude.{IsWithin, Numbering, has_bit, set_alike, set_of, some_below, word};

use crate::channels::{Outputs, Returned};
use crate::frame::Frame;
use crate::planes::less;
use crate::words::{GROUP, Words};

/// The credits that have come are counted. A draining channel that has all its credits then drains
/// no more. The answer is the routers that have such a channel.
#[inline(always)]
pub fn take_credits(
    frame: &Frame,
    came: &Words,
    outputs: &mut Outputs<Words>,
    returned: &mut Returned<Words>,
) -> u64
    ensures credits { (n : Numbering) (r : ℕ) → IsWithin (GROUP * frame.now.link_groups) n
        → TakesCredits frame.now.deep
        (list_of frame.now.deep (planes_by (set_alike n r) frame.now.places)) (set_of n r came.now)
        (outputs_by (set_of n r) outputs.old) (outputs_by (set_of n r) outputs.new)
        (returned_by (set_of n r) returned.new) }
    ensures home { (r : ℕ)
        → has_bit result r
        ≡ some_below (GROUP * frame.now.link_groups) (λ i. has_bit (word i returned.new.home) r) }
{
    if frame.deep {
        take_all(frame, true, came, outputs, returned)
    } else {
        take_all(frame, false, came, outputs, returned)
    }
}

// Counts the credits that have come, where it is told whether counts are deep. (Where this is
// known, planes that are not needed cost nothing.)
#[inline(always)]
fn take_all(
    frame: &Frame,
    deep: bool,
    came: &Words,
    outputs: &mut Outputs<Words>,
    returned: &mut Returned<Words>,
) -> u64
    ensures credits { (n : Numbering) (r : ℕ) → IsWithin (GROUP * frame.now.link_groups) n
        → TakesCredits deep
        (list_of deep (planes_by (set_alike n r) frame.now.places)) (set_of n r came.now)
        (outputs_by (set_of n r) outputs.old) (outputs_by (set_of n r) outputs.new)
        (returned_by (set_of n r) returned.new) }
    ensures home { (r : ℕ)
        → has_bit result r
        ≡ some_below (GROUP * frame.now.link_groups) (λ i. has_bit (word i returned.new.home) r) }
{
    let places = frame.places;
    let mut back = 0;
    for i in 0..GROUP * frame.link_groups {
        let credit = outputs.credit.at(i).raised(deep, came[i]);
        let home = less(outputs.draining[i], credit.other_than(deep, &places));
        returned.some[i] = outputs.credit.at(i).some(deep, came[i]);
        returned.home[i] = home;
        outputs.credit.put(i, deep, &credit);
        outputs.draining[i] = outputs.draining[i] ^ home;
        back = back | home;
    }
    back
}
