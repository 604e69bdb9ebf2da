//! The verdicts of one channel.

ghost use Rattle.std.specs.Prelude.{◌≡◌, ◌<◌, ℕ};
ghost use Rattle.noc_columns.specs.Words.{word};
ghost use Rattle.noc_counts.specs.Counts.{numbers_of};
ghost use Rattle.noc_counts.specs.Told.{told_by};

use crate::nine::Nine;
use noc_columns::{WORDS, less};
use noc_cycles::{Block, Work};

// The routers in which a channel had each verdict, once the cycle has taken effect.
#[inline(always)]
pub(crate) fn words_at(block: &Block, work: &Work, index: usize) -> Nine
    requires { index < WORDS }
    ensures { numbers_of result ≡ told_by (word index) block.now work.now }
{
    let verdicts = work.verdicts.at(index);
    let heads = work.standing.heads[index];
    let lost_channel = work.lost[index];
    let ready = work.standing.ready[index];
    let picked = work.decided.picked[index];
    Nine {
        routed: heads,
        granted: block.grants.granted[index],
        moved: verdicts.moved,
        no_flit: less(verdicts.active, verdicts.no_credit | ready),
        no_idle_channel: less(block.inputs.waiting[index], heads | lost_channel),
        lost_channel,
        no_credit: verdicts.no_credit,
        lost_input: less(ready, picked),
        lost_switch: less(picked, verdicts.moved),
    }
}
