//! The lowest four bits of counts, to which the sets of sixteen cycles are added at once.

ghost use Rattle.std.specs.Prelude.{◌≡◌, ◌≢◌, ◌+◌, ◌*◌, ◌%◌, ◌<◌, ◌≤◌, ℕ, bit_or, false};
ghost use Rattle.noc_columns.specs.Prelude.{has_bit, one_if, word};
ghost use Rattle.noc_counts.specs.Low.{HasRaised, low_at, low_by, low_in, set_sum};

use crate::row::{COUNTED, ROW, Row, put};
use noc_columns::{GROUP, ROUTERS, bit};

// How many cycles are added at once.
pub(crate) const SLOTS: usize = 16;

// The four lowest bits of the counts of channels.
#[derive(Drop)]
pub(crate) struct Low<T> {
    pub(crate) ones: T,
    pub(crate) twos: T,
    pub(crate) fours: T,
    pub(crate) eights: T,
}

impl Low<Row> {
    // No counts.
    pub(crate) const NONE: Low<Row> = Low {
        ones: [0; ROW],
        twos: [0; ROW],
        fours: [0; ROW],
        eights: [0; ROW],
    };

    // No counts.
    pub(crate) fn clear(&mut self)
        ensures { (j r : ℕ) → j < ROW → low_at self.new j r ≡ 0 }
    {
        self.ones = [0; ROW];
        self.twos = [0; ROW];
        self.fours = [0; ROW];
        self.eights = [0; ROW];
    }

    // Adds the sets of sixteen cycles. It is written what is carried.
    #[inline(always)]
    pub(crate) fn add(&mut self, sets: &[Row; SLOTS], carry: &mut Row)
        ensures { (j r : ℕ) → j < ROW
            → low_at self.new j r + SLOTS * one_if (has_bit (word j carry.new) r)
            ≡ low_at self.old j r + set_sum sets.now SLOTS j r }
    {
        *carry = [0; ROW];
        for verdict in 0..COUNTED {
            self.add_if(sets, GROUP * verdict, carry);
        }
    }

    // Adds those of the four words of a verdict, from this one on, where nothing is carried yet.
    // (Often no router has had it in sixteen cycles. Then there is nothing to add.)
    #[inline(always)]
    fn add_if(&mut self, sets: &[Row; SLOTS], first: usize, carry: &mut Row)
        requires first { first + GROUP ≤ ROW }
        requires none { (j : ℕ) → first ≤ j → word j carry.old ≡ 0 }
        ensures { HasRaised (set_sum sets.now SLOTS) first (first + GROUP) self.old self.new
            carry.old carry.new }
    {
        if have_some(sets, first) {
            self.add_from(sets, first, carry);
        }
    }

    // Adds those of the four words of a verdict, from this one on.
    #[inline(always)]
    fn add_from(&mut self, sets: &[Row; SLOTS], first: usize, carry: &mut Row)
        requires { first + GROUP ≤ ROW }
        ensures { HasRaised (set_sum sets.now SLOTS) first (first + GROUP) self.old self.new
            carry.old carry.new }
    {
        for i in first..first + GROUP {
            let added = with_sets(&self.at(i), sets, i);
            self.put(i, &added.low);
            put(carry, i, added.carry);
        }
    }

    // Adds one set so many times. It is written what is carried.
    pub(crate) fn repeat(&mut self, set: &Row, times: u32, carry: &mut Row)
        requires { times < SLOTS }
        ensures { (j r : ℕ) → j < ROW
            → low_at self.new j r + SLOTS * one_if (has_bit (word j carry.new) r)
            ≡ low_at self.old j r + times * one_if (has_bit (word j set.now) r) }
    {
        for i in 0..ROW {
            let added = with_times(&self.at(i), set[i], times);
            self.put(i, &added.low);
            put(carry, i, added.carry);
        }
    }

    // The number of one channel of a router.
    pub(crate) fn number(&self, index: usize, router: usize) -> u64
        requires index { index < ROW }
        requires router { router < ROUTERS }
        ensures count { result ≡ low_at self.now index router }
        ensures small { result < SLOTS }
    {
        let low = self.at(index);
        let ones = bit(low.ones, router);
        let twos = bit(low.twos, router);
        let fours = bit(low.fours, router);
        let eights = bit(low.eights, router);
        ones + 2 * twos + 4 * fours + 8 * eights
    }

    // The words of one channel.
    #[inline(always)]
    fn at(&self, index: usize) -> Low<u64>
        requires { index < ROW }
        ensures { result ≡ low_by (word index) self.now }
    {
        Low {
            ones: self.ones[index],
            twos: self.twos[index],
            fours: self.fours[index],
            eights: self.eights[index],
        }
    }

    // Writes the words of one channel.
    #[inline(always)]
    fn put(&mut self, index: usize, words: &Low<u64>)
        requires { index < ROW }
        ensures here { low_by (word index) self.new ≡ words.now }
        ensures others { (k : ℕ) → k ≢ index
            → low_by (word k) self.new ≡ low_by (word k) self.old }
    {
        self.ones[index] = words.ones;
        self.twos[index] = words.twos;
        self.fours[index] = words.fours;
        self.eights[index] = words.eights;
    }
}

// The lowest bits of one channel, and what they carry.
#[derive(Drop)]
struct Added {
    low: Low<u64>,
    carry: u64,
}

// One channel with its sets of sixteen cycles. (Where they carry from the second bit, four cycles
// at a time, is added to the third.)
#[inline(always)]
fn with_sets(low: &Low<u64>, sets: &[Row; SLOTS], index: usize) -> Added
    requires { index < ROW }
    ensures { (r : ℕ) → low_in result.low r + SLOTS * one_if (has_bit result.carry r)
        ≡ low_in low.now r + set_sum sets.now SLOTS index r }
{
    let first = with_slots(low.ones, low.twos, sets, 0, index);
    let second = with_slots(first.low, first.high, sets, 4, index);
    let third = with_slots(second.low, second.high, sets, 8, index);
    let fourth = with_slots(third.low, third.high, sets, 12, index);
    let upper = with_four(
        low.fours,
        low.eights,
        first.carry,
        second.carry,
        third.carry,
        fourth.carry,
    );
    Added {
        low: Low {
            ones: fourth.low,
            twos: fourth.high,
            fours: upper.low,
            eights: upper.high,
        },
        carry: upper.carry,
    }
}

// Two bits of one channel, and what they carry.
#[derive(Drop)]
struct Two {
    low: u64,
    high: u64,
    carry: u64,
}

// Two bits of one channel with its sets of four cycles, from this one on.
#[inline(always)]
fn with_slots(low: u64, high: u64, sets: &[Row; SLOTS], slot: usize, index: usize) -> Two
    requires slot { slot + 4 ≤ SLOTS }
    requires index { index < ROW }
    ensures { (r : ℕ) → one_if (has_bit result.low r) + 2 * one_if (has_bit result.high r)
        + 4 * one_if (has_bit result.carry r) + set_sum sets.now slot index r
        ≡ one_if (has_bit low r) + 2 * one_if (has_bit high r)
        + set_sum sets.now (slot + 4) index r }
{
    let first = sets[slot][index];
    let second = sets[slot + 1][index];
    let third = sets[slot + 2][index];
    let fourth = sets[slot + 3][index];
    with_four(low, high, first, second, third, fourth)
}

// Two bits with four words that are added to the lower one.
#[inline(always)]
fn with_four(low: u64, high: u64, first: u64, second: u64, third: u64, fourth: u64) -> Two
    ensures { (r : ℕ) → one_if (has_bit result.low r) + 2 * one_if (has_bit result.high r)
        + 4 * one_if (has_bit result.carry r)
        ≡ one_if (has_bit low r) + 2 * one_if (has_bit high r) + one_if (has_bit first r)
        + one_if (has_bit second r) + one_if (has_bit third r) + one_if (has_bit fourth r) }
{
    let lower = with_two(low, first, second);
    let next = with_two(lower.low, third, fourth);
    let upper = with_two(high, lower.carry, next.carry);
    Two {
        low: next.low,
        high: upper.low,
        carry: upper.carry,
    }
}

// One bit, and what it carries.
#[derive(Drop)]
struct One {
    low: u64,
    carry: u64,
}

// One bit with two words that are added to it. (So the first of them is read once, as the
// instruction that takes it from memory wants it.)
#[inline(always)]
fn with_two(low: u64, first: u64, second: u64) -> One
    ensures { (r : ℕ) → one_if (has_bit result.low r) + 2 * one_if (has_bit result.carry r)
        ≡ one_if (has_bit low r) + one_if (has_bit first r) + one_if (has_bit second r) }
{
    let with_first = low ^ first;
    One {
        low: with_first ^ second,
        carry: low ^ (with_first & (low ^ second)),
    }
}

// One channel with a set that is added so many times.
#[inline(always)]
fn with_times(low: &Low<u64>, set: u64, times: u32) -> Added
    requires { times < SLOTS }
    ensures { (r : ℕ) → low_in result.low r + SLOTS * one_if (has_bit result.carry r)
        ≡ low_in low.now r + times * one_if (has_bit set r) }
{
    let one = where_odd(times, set);
    let two = where_odd(times / 2, set);
    let lower = with_four(low.ones, low.twos, one, two, two, 0);
    let four = where_odd(times / 4, set);
    let eight = where_odd(times / 8, set);
    let upper = with_four(low.fours, low.eights, lower.carry, four, eight, eight);
    Added {
        low: Low {
            ones: lower.low,
            twos: lower.high,
            fours: upper.low,
            eights: upper.high,
        },
        carry: upper.carry,
    }
}

// A set where a number is odd, and else none.
#[inline(always)]
fn where_odd(number: u32, set: u64) -> u64
    ensures { (r : ℕ) → one_if (has_bit result r) ≡ number % 2 * one_if (has_bit set r) }
{
    if number % 2 == 1 { set } else { 0 }
}

// Whether one of four words, from this one on, has a router in one of sixteen cycles.
#[inline(always)]
fn have_some(sets: &[Row; SLOTS], first: usize) -> bool
    requires { first + GROUP ≤ ROW }
    ensures { result ≡ false → (j r : ℕ) → first ≤ j → j < first + GROUP
        → set_sum sets.now SLOTS j r ≡ 0 }
{
    let mut some = [0; GROUP];
    for slot in 0..SLOTS {
        join_row(&mut some, &sets[slot], first);
    }
    (some[0] | some[1] | some[2] | some[3]) != 0
}

// Four words of a row, from this one on, are joined with these.
#[inline(always)]
fn join_row(some: &mut [u64; GROUP], row: &Row, first: usize)
    requires { first + GROUP ≤ ROW }
    ensures { (k : ℕ) → k < GROUP
        → word k some.new ≡ bit_or (word k some.old) (word (first + k) row.now) }
{
    for k in 0..GROUP {
        some[k] = some[k] | row[first + k];
    }
}
