//! Words of channels become those of another set, or of none.

ghost use Rattle.std.specs.Prelude.{◌≡◌, ◌*◌, ◌<◌, ◌≤◌, ℕ};
ghost use Rattle.noc_columns.specs.Prelude.{word};

use noc_columns::{CHANNELS, GROUP, WORDS, Words, clear_first};

// So many groups of four words become those of another set.
#[inline(always)]
pub(crate) fn copy(groups: usize, from: &Words, to: &mut Words)
    requires { GROUP * groups ≤ WORDS }
    ensures { (k : ℕ) → k < GROUP * groups → word k to.new ≡ word k from.now }
{
    for i in 0..GROUP * groups {
        to[i] = from[i];
    }
}

// No router is left in the words of so many channels.
#[inline(always)]
pub(crate) fn clear(channels: usize, words: &mut Words)
    requires { channels ≤ CHANNELS }
    ensures { (k : ℕ) → k < channels → word k words.new ≡ 0 }
{
    if channels <= FEW {
        clear_first::<FEW>(words);
    } else {
        clear_first::<CHANNELS>(words);
    }
}

// So many words are cleared where there are no more.
const FEW: usize = 20;
