//! Words of channels.

ghost use Rattle.std.specs.Prelude.{◌≡◌, ◌≢◌, ◌^◌, ◌<◌, ◌≤◌, ◌&&◌, ◌||◌, ℕ, nat_eq, nat_lt, not, slice_index, if◌then◌else◌};
ghost use Rattle.noc_columns.specs.Prelude.{has_bit, one_if, word};

use crate::planes::less;
use crate::sets::CHANNELS;

/// How many routers a word has a bit of.
pub const ROUTERS: usize = 64;

/// For how many words there is room in a block, which has one for each channel of a router, 56 at
/// most. (They are nine lines of the cache, so that the words of a channel do not all meet in the
/// same sets of it.)
pub const WORDS: usize = 72;

/// How many words are taken at a time. How many of them channels have is a multiple of it.
pub const GROUP: usize = 4;

/// A word for each channel. Bit `r` of it is router `r` of the block.
pub type Words = [u64; WORDS];

/// Writes the word with an index.
#[inline(always)]
pub(crate) fn put(words: &mut Words, index: usize, word: u64)
    requires { index < WORDS }
    ensures here { slice_index words.new index ≡ word }
    ensures others { (k : ℕ) → k ≢ index → slice_index words.new k ≡ slice_index words.old k }
{
    words[index] = word;
}

/// No router is left in the first `COUNT` words. (As a constant it needs neither loop nor call.)
#[inline(always)]
pub fn clear_first<const COUNT: usize>(words: &mut Words)
    requires { COUNT ≤ CHANNELS }
    ensures { (k : ℕ) → k < COUNT → word k words.new ≡ 0 }
{
    for i in 0..COUNT {
        words[i] = 0;
    }
}

/// Puts a router into the word with an index.
#[inline(always)]
pub(crate) fn put_router(words: &mut Words, index: usize, router: usize)
    requires index { index < WORDS }
    requires router { router < ROUTERS }
    ensures { (k r : ℕ) → has_bit (word k words.new) r
        ≡ ((nat_eq k index && nat_eq r router) || has_bit (word k words.old) r) }
{
    words[index] = words[index] | 1 << router as u32;
}

/// These routers with one of them in or out.
#[inline(always)]
pub(crate) fn with_router(routers: u64, router: usize, inside: bool) -> u64
    requires { router < ROUTERS }
    ensures { (r : ℕ) → has_bit result r
        ≡ (if nat_eq r router then inside else has_bit routers r) }
{
    let alone = 1 << router as u32;
    if inside {
        routers | alone
    } else {
        less(routers, alone)
    }
}

/// 1 where a router is in a word, and else 0.
#[inline(always)]
pub fn bit(word: u64, router: usize) -> u64
    requires { router < ROUTERS }
    ensures count { result ≡ one_if (has_bit word router) }
    ensures small { result < 2 }
{
    word >> router as u32 & 1
}

/// A word that has one member alone, or none.
#[inline(always)]
pub fn alone_if(inside: bool, member: usize) -> u64
    requires { member < ROUTERS }
    ensures { result ≡ (if inside then 2 ^ member else 0) }
{
    if inside { 1 << member as u32 } else { 0 }
}

/// Which of the first so many words have a router, by index.
#[inline(always)]
pub fn used_words(count: usize, words: &Words) -> u64
    requires { count < CHANNELS }
    ensures { (i : ℕ) → has_bit result i ≡ (nat_lt i count && not (nat_eq (word i words.now) 0)) }
{
    let used = if count <= FEW {
        used_of::<FEW>(words)
    } else if count <= MORE {
        used_of::<MORE>(words)
    } else {
        used_of::<CHANNELS>(words)
    };
    used & ((1 << count as u32) - 1)
}

// So many words are looked at where there are no more: those of a mesh of two dimensions with four
// virtual channels.
const FEW: usize = 20;

// So many where there are more: those of such a mesh with eight.
const MORE: usize = 40;

// Which of the first `COUNT` words have a router. (As a constant it needs no tests.)
#[inline(always)]
fn used_of<const COUNT: usize>(words: &Words) -> u64
    requires { COUNT ≤ CHANNELS }
    ensures { (i : ℕ) → has_bit result i ≡ (nat_lt i COUNT && not (nat_eq (word i words.now) 0)) }
{
    let mut used = 0;
    for i in 0..COUNT {
        used = used | alone_if(words[i] != 0, i);
    }
    used
}
