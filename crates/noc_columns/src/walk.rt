//! A walk over the routers of words, word by word, in one loop.

ghost use Rattle.std.specs.Prelude.{◌≡◌, ◌<◌, ◌&&◌, ℕ, true, not, nat_eq, sum};
ghost use Rattle.noc_columns.specs.Prelude.{has_bit, word};

use crate::sets::{but_lowest, least};
use crate::words::{ROUTERS, Words};

/// A router of a word, to which a walk has come.
#[derive(Drop)]
pub(crate) struct Reached {
    /// The index of the word.
    pub(crate) index: usize,
    /// The router.
    pub(crate) router: usize,
    /// The words that have a router left, by index.
    pub(crate) rest: u64,
}

/// A walk over the routers that are left in words comes to the next one, which is left no more.
/// These words have one, by index. (A loop over words and another one over the routers of each
/// would have as many ends as words, and where a loop ends the processor guesses wrong.)
#[inline(always)]
pub(crate) fn step(left: &mut Words, rest: u64) -> Reached
    requires some { 0 < rest }
    requires words { (i : ℕ) → has_bit rest i ≡ true → 0 < word i left.old }
    ensures index { has_bit rest result.index ≡ true }
    ensures router { result.router < ROUTERS }
    ensures member { has_bit (word result.index left.old) result.router ≡ true }
    ensures left { (i r : ℕ) → has_bit (word i left.new) r
        ≡ (has_bit (word i left.old) r
        && not (nat_eq i result.index && nat_eq r result.router)) }
    ensures rest { (i : ℕ) → has_bit result.rest i
        ≡ (has_bit rest i && not (nat_eq (word i left.new) 0)) }
    ensures fewer { sum left.new < sum left.old }
{
    let index = least(rest);
    let routers = left[index];
    let others = but_lowest(routers);
    left[index] = others;
    Reached {
        index,
        router: least(routers),
        rest: rest & (rest - u64::from(others == 0)),
    }
}
