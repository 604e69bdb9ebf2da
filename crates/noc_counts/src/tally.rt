//! How often four channels of a block had each verdict, bit by bit.

ghost use Rattle.std.specs.Prelude.{◌≡◌, ◌+◌, ◌*◌, ◌^◌, ◌<◌, ◌≤◌, ℕ, [], slice_index_or, if◌then◌else◌};
ghost use Rattle.noc_counts.specs.Tallies.{at_level, bit_level, carry_over, counted_at, number_by, sum_of, with_four};
ghost use Rattle.noc_columns.specs.Prelude.{has_bit, one_if, word};

use crate::row::{ROW, Row};
use noc_columns::{ROUTERS, bit};

// How many bits a count has above the lowest two: with them it has 32.
pub(crate) const LEVELS: usize = 30;

// The counts of the verdicts of four channels.
//
// The sets of four cycles are added to the two lowest bits at once. What they carry is pending at
// the next bit until the next four cycles, and so on up, so that each bit is added to half as
// often as the one below it.
#[derive(Drop)]
pub(crate) struct Tally {
    ones: Row,
    twos: Row,
    // From the bit that counts four on.
    bits: [Row; LEVELS],
    pending: [Row; LEVELS],
    // Room for what is carried from bit to bit.
    carry: Row,
}

// The sets of four cycles, one after the other.
#[derive(Drop)]
pub(crate) struct Cycles<'a> {
    // Of the first.
    pub(crate) first: &'a Row,
    // Of the second.
    pub(crate) second: &'a Row,
    // Of the third.
    pub(crate) third: &'a Row,
    // Of the fourth.
    pub(crate) fourth: &'a Row,
}

impl Tally {
    // Nothing, from which a tally may be copied to where it stands on the heap.
    pub(crate) const NONE: Tally = Tally {
        ones: [0; ROW],
        twos: [0; ROW],
        bits: [[0; ROW]; LEVELS],
        pending: [[0; ROW]; LEVELS],
        carry: [0; ROW],
    };

    // No counts. (They are cleared where they stand, since they take 16 kB.)
    pub(crate) fn clear(&mut self)
        ensures { (i r : ℕ) → i < ROW → counted_at self.new 0 i r ≡ 0 }
    {
        self.ones = [0; ROW];
        self.twos = [0; ROW];
        clear_levels(&mut self.bits);
        clear_levels(&mut self.pending);
    }

    // Adds the sets of four cycles to the counts, to which the sets of four cycles were added so
    // many times before. The counts are right for 2^30 - 1 times.
    #[inline(always)]
    pub(crate) fn add(&mut self, sets: &Cycles<'_>, times: u32)
        ensures { times + 1 < 2 ^ LEVELS → (i r : ℕ) → i < ROW
            → counted_at self.new (times + 1) i r
            ≡ counted_at self.old times i r
            + one_if (has_bit (word i sets.now.first.now) r)
            + one_if (has_bit (word i sets.now.second.now) r)
            + one_if (has_bit (word i sets.now.third.now) r)
            + one_if (has_bit (word i sets.now.fourth.now) r) }
    {
        let carry = &mut self.carry;
        add_four(&mut self.ones, &mut self.twos, sets, carry);
        add_carry(&mut self.bits, &mut self.pending, carry, times);
    }

    // Adds one set so many times, also between two sets of four cycles. The counts are right where
    // they stay below 2^32.
    pub(crate) fn repeat(&mut self, set: &Row, cycles: u32)
        ensures { (times i r : ℕ) → i < ROW
            → counted_at self.old times i r + cycles < 2 ^ 32
            → counted_at self.new times i r
            ≡ counted_at self.old times i r + cycles * one_if (has_bit (word i set.now) r) }
    {
        let none = [0; ROW];
        let mut carry = [0; ROW];
        let first = where_bit(cycles, 0, set, &none);
        add_pending(&mut self.ones, first, &mut carry);
        let second = where_bit(cycles, 1, set, &none);
        add_pending(&mut self.twos, second, &mut carry);
        add_number(&mut self.bits, set, cycles / 4, &mut carry);
    }

    // How often a channel of a router had a verdict by now, where sets were added so many times.
    pub(crate) fn total(&self, index: usize, router: usize, times: u32) -> u64
        requires index { index < ROW }
        requires router { router < ROUTERS }
        ensures count { result ≡ counted_at self.now times index router }
        ensures small { result < 2 ^ 33 }
    {
        let mut upper = 0;
        for level in 0..LEVELS {
            upper += self.level(index, router, times, level) << level as u32;
        }
        let low = bit(self.ones[index], router);
        low + 2 * bit(self.twos[index], router) + 4 * upper
    }

    // What one level has of a channel: its bit, and what is pending there.
    #[inline(always)]
    fn level(&self, index: usize, router: usize, times: u32, level: usize) -> u64
        requires index { index < ROW }
        requires router { router < ROUTERS }
        requires level { level < LEVELS }
        ensures count { result
            ≡ at_level self.now.bits self.now.pending times index router level }
        ensures small { result < 3 }
    {
        let counted = bit(self.bits[level][index], router);
        if bit(times as u64, level) == 1 {
            counted + bit(self.pending[level][index], router)
        } else {
            counted
        }
    }
}

// A set is added so many times to the bits above the lowest two, with what these carry.
fn add_number(bits: &mut [Row; LEVELS], set: &Row, times: u32, carry: &mut Row)
    ensures { times < 2 ^ LEVELS → (j k : ℕ) → j < ROW
        → number_by (bit_level bits.new j k) LEVELS
        + 2 ^ LEVELS * one_if (has_bit (word j carry.new) k)
        ≡ number_by (bit_level bits.old j k) LEVELS + times * one_if (has_bit (word j set.now) k)
        + one_if (has_bit (word j carry.old) k) }
{
    let none = [0; ROW];
    for level in 0..LEVELS {
        let more = where_bit(times, level, set, &none);
        add_pending(&mut bits[level], more, carry);
    }
}

// A set, where a number has a bit, and else none.
#[inline(always)]
fn where_bit<'a>(number: u32, level: usize, set: &'a Row, none: &'a Row) -> &'a Row
    requires { level < LEVELS }
    ensures { result.now ≡ (if has_bit number level then set.now else none.now) }
{
    if bit(number as u64, level) == 1 {
        set
    } else {
        none
    }
}

// No bits at any level.
fn clear_levels(levels: &mut [Row; LEVELS])
    ensures { (level i : ℕ) → level < LEVELS → i < ROW
        → word i (slice_index_or levels.new level []) ≡ 0 }
{
    for level in 0..LEVELS {
        levels[level] = [0; ROW];
    }
}

// What the two lowest bits carry is added to those above, before which it was added so many times.
#[inline(always)]
fn add_carry(bits: &mut [Row; LEVELS], pending: &mut [Row; LEVELS], carry: &mut Row, times: u32)
    ensures { times + 1 < 2 ^ LEVELS → (j k : ℕ) → j < ROW
        → number_by (at_level bits.new pending.new (times + 1) j k) LEVELS
        ≡ number_by (at_level bits.old pending.old times j k) LEVELS
        + one_if (has_bit (word j carry.old) k) }
{
    let last = (times.trailing_ones() as usize).min(LEVELS - 1);
    for level in 0..last {
        add_pending(&mut bits[level], &pending[level], carry);
    }
    copy(carry, &mut pending[last]);
}

// The sets of four cycles are added to the two lowest bits. What they carry is of the third.
#[inline(always)]
fn add_four(ones: &mut Row, twos: &mut Row, sets: &Cycles<'_>, carry: &mut Row)
    ensures ones { (k : ℕ) → k < ROW
        → word k ones.new
        ≡ (with_four (word k ones.old) (word k twos.old) (word k sets.now.first.now)
        (word k sets.now.second.now) (word k sets.now.third.now)
        (word k sets.now.fourth.now)).ones }
    ensures twos { (k : ℕ) → k < ROW
        → word k twos.new
        ≡ (with_four (word k ones.old) (word k twos.old) (word k sets.now.first.now)
        (word k sets.now.second.now) (word k sets.now.third.now)
        (word k sets.now.fourth.now)).twos }
    ensures carry { (k : ℕ) → k < ROW
        → word k carry.new
        ≡ (with_four (word k ones.old) (word k twos.old) (word k sets.now.first.now)
        (word k sets.now.second.now) (word k sets.now.third.now)
        (word k sets.now.fourth.now)).carry }
{
    for i in 0..ROW {
        let with_a = ones[i] ^ sets.first[i];
        let first = (ones[i] & sets.first[i]) | (with_a & sets.second[i]);
        let with_b = with_a ^ sets.second[i];
        let with_c = with_b ^ sets.third[i];
        let second = (with_b & sets.third[i]) | (with_c & sets.fourth[i]);
        let with_first = twos[i] ^ first;
        carry[i] = (twos[i] & first) | (with_first & second);
        ones[i] = with_c ^ sets.fourth[i];
        twos[i] = with_first ^ second;
    }
}

// What is pending at a bit is added, with the carry of the bit below. The carry of this one goes
// on.
#[inline(always)]
fn add_pending(bits: &mut Row, pending: &Row, carry: &mut Row)
    ensures bits { (k : ℕ) → k < ROW
        → word k bits.new ≡ sum_of (word k bits.old) (word k pending.now) (word k carry.old) }
    ensures carry { (k : ℕ) → k < ROW
        → word k carry.new ≡ carry_over (word k bits.old) (word k pending.now) (word k carry.old) }
{
    for i in 0..ROW {
        let with = bits[i] ^ pending[i];
        let over = (bits[i] & pending[i]) | (with & carry[i]);
        bits[i] = with ^ carry[i];
        carry[i] = over;
    }
}

// Row become those of another set.
#[inline(always)]
fn copy(from: &Row, to: &mut Row)
    ensures { (k : ℕ) → k < ROW → word k to.new ≡ word k from.now }
{
    for i in 0..ROW {
        to[i] = from[i];
    }
}
