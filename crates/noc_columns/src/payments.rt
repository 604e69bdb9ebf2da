//! What is sent over the links costs credits.

ghost use Rattle.std.specs.Prelude.{◌*◌, ℕ};
ghost use Rattle.noc_columns.specs.Channels.{outputs_by};
ghost use Rattle.noc_columns.specs.Steps.{Pays};
ghost use Rattle.noc_columns.specs.Prelude.{IsWithin, Numbering, set_of};

use crate::channels::Outputs;
use crate::frame::Frame;
use crate::words::{GROUP, Words};

/// Each link channel by which a flit is sent has one credit less, and one by which a tail is sent
/// drains from then on.
#[inline(always)]
pub fn pay(frame: &Frame, out: &Words, freed: &Words, outputs: &mut Outputs<Words>)
    ensures { (n : Numbering) (r : ℕ) → IsWithin (GROUP * frame.now.link_groups) n
        → Pays frame.now.deep (set_of n r out.now) (set_of n r freed.now)
        (outputs_by (set_of n r) outputs.old) (outputs_by (set_of n r) outputs.new) }
{
    if frame.deep {
        pay_all(frame, true, out, freed, outputs);
    } else {
        pay_all(frame, false, out, freed, outputs);
    }
}

// What is sent costs credits, where it is told whether counts are deep.
#[inline(always)]
fn pay_all(frame: &Frame, deep: bool, out: &Words, freed: &Words, outputs: &mut Outputs<Words>)
    ensures { (n : Numbering) (r : ℕ) → IsWithin (GROUP * frame.now.link_groups) n
        → Pays deep (set_of n r out.now) (set_of n r freed.now)
        (outputs_by (set_of n r) outputs.old) (outputs_by (set_of n r) outputs.new) }
{
    for i in 0..GROUP * frame.link_groups {
        let credit = outputs.credit.at(i).lowered(deep, out[i]);
        outputs.credit.put(i, deep, &credit);
        outputs.draining[i] = outputs.draining[i] | freed[i];
    }
}
