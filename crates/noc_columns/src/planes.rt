//! A count of each channel, bit by bit.

ghost use Rattle.std.specs.Prelude.{◌≡◌, ◌≢◌, ◌<◌, ℕ, bit_xor};
ghost use Rattle.noc_columns.specs.Planes.{list_of, planes_by};
ghost use Rattle.noc_sets.specs.Planes.{any_from, lowered_by, more_than_one, raised_by, wrong_from};
ghost use Rattle.noc_columns.specs.Prelude.{less, word};

use crate::words::{WORDS, Words};
use std::alloc::AllocError;

/// A count of each channel: plane by plane those whose count has that bit. A count has five bits
/// where it is deep, and else three: then the last two planes are neither read nor written.
pub struct Planes<T> {
    /// The channels whose count has bit 0.
    pub ones: T,
    /// The channels whose count has bit 1.
    pub twos: T,
    /// The channels whose count has bit 2.
    pub fours: T,
    /// The channels whose count has bit 3, where it is deep.
    pub eights: T,
    /// The channels whose count has bit 4, where it is deep.
    pub sixteens: T,
}

impl<T: Copy> Clone for Planes<T> {
    ghost is_clone = { λ x y. y ≡ x };

    ghost is_infallible = { λ _. Unit {0} };

    fn clone(&self) -> Result<Planes<T>, AllocError> {
        Ok(*self)
    }
}

impl<T: Copy> Copy for Planes<T> {}

impl Planes<u64> {
    /// One more for each member of a set. The greatest count, 31 or 7, becomes 0.
    #[inline(always)]
    pub fn raised(&self, deep: bool, set: u64) -> Planes<u64>
        ensures { list_of deep result ≡ raised_by (list_of deep self.now) set }
    {
        let twos = set & self.ones;
        let fours = twos & self.twos;
        let eights = fours & self.fours;
        let sixteens = eights & self.eights;
        self.flipped(set, twos, fours, eights, sixteens)
    }

    /// One less for each member of a set. A count of 0 becomes the greatest, 31 or 7.
    #[inline(always)]
    pub fn lowered(&self, deep: bool, set: u64) -> Planes<u64>
        ensures { list_of deep result ≡ lowered_by (list_of deep self.now) set }
    {
        let twos = less(set, self.ones);
        let fours = less(twos, self.twos);
        let eights = less(fours, self.fours);
        let sixteens = less(eights, self.eights);
        self.flipped(set, twos, fours, eights, sixteens)
    }

    // Of each plane the members of a set are put in or taken out.
    #[inline(always)]
    fn flipped(&self, ones: u64, twos: u64, fours: u64, eights: u64, sixteens: u64) -> Planes<u64>
        ensures { result ≡ record {
          ones = bit_xor self.now.ones ones;
          twos = bit_xor self.now.twos twos;
          fours = bit_xor self.now.fours fours;
          eights = bit_xor self.now.eights eights;
          sixteens = bit_xor self.now.sixteens sixteens;
        } }
    {
        Planes {
            ones: self.ones ^ ones,
            twos: self.twos ^ twos,
            fours: self.fours ^ fours,
            eights: self.eights ^ eights,
            sixteens: self.sixteens ^ sixteens,
        }
    }

    /// The members of a set and those whose count is not 0.
    #[inline(always)]
    pub fn some(&self, deep: bool, set: u64) -> u64
        ensures { result ≡ any_from set (list_of deep self.now) }
    {
        let low = set | self.ones | self.twos | self.fours;
        if deep {
            low | self.eights | self.sixteens
        } else {
            low
        }
    }

    /// Those whose count is more than 1.
    #[inline(always)]
    pub fn more_than_one(&self, deep: bool) -> u64
        ensures { result ≡ more_than_one (list_of deep self.now) }
    {
        let low = 0 | self.twos | self.fours;
        if deep {
            low | self.eights | self.sixteens
        } else {
            low
        }
    }

    /// Those whose count is not that of other planes.
    #[inline(always)]
    pub fn other_than(&self, deep: bool, others: &Planes<u64>) -> u64
        ensures { result ≡ wrong_from 0 (list_of deep self.now) (list_of deep others.now) }
    {
        let ones = self.ones ^ others.ones;
        let twos = self.twos ^ others.twos;
        let fours = self.fours ^ others.fours;
        let low = 0 | ones | twos | fours;
        if deep {
            let eights = self.eights ^ others.eights;
            let sixteens = self.sixteens ^ others.sixteens;
            low | eights | sixteens
        } else {
            low
        }
    }
}

impl Planes<Words> {
    /// The counts of one channel.
    #[inline(always)]
    pub fn at(&self, index: usize) -> Planes<u64>
        requires { index < WORDS }
        ensures { result ≡ planes_by (word index) self.now }
    {
        Planes {
            ones: self.ones[index],
            twos: self.twos[index],
            fours: self.fours[index],
            eights: self.eights[index],
            sixteens: self.sixteens[index],
        }
    }

    /// Writes the counts of one channel.
    #[inline(always)]
    pub fn put(&mut self, index: usize, deep: bool, planes: &Planes<u64>)
        requires { index < WORDS }
        ensures here { list_of deep (planes_by (word index) self.new)
            ≡ list_of deep planes.now }
        ensures others { (k : ℕ) → k ≢ index
            → planes_by (word k) self.new ≡ planes_by (word k) self.old }
    {
        self.ones[index] = planes.ones;
        self.twos[index] = planes.twos;
        self.fours[index] = planes.fours;
        if deep {
            self.eights[index] = planes.eights;
            self.sixteens[index] = planes.sixteens;
        }
    }
}

/// The members of a set that are not in another.
#[inline(always)]
pub fn less(set: u64, other: u64) -> u64
    ensures { result ≡ less set other }
{
    set ^ (set & other)
}
