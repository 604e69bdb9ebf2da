//! A set of channel indices.

ghost use Rattle.std.specs.Prelude.{◌≡◌, ℕ, ◌+◌, ◌-◌, ◌<◌, ◌≤◌, ◌^◌, Bool, false, ◌&&◌, ◌||◌, ◌==◌, not, nat_le, nat_lt, find, IfNone, IfSome, IsTrue, ◌↔◌, if◌then◌else◌};
ghost use Rattle.noc_packet.specs.Set.{has_bit, has_from, in_both, IsLeast};

use crate::limits::INDICES;
use std::marker::Model;

/// A set of channel indices, each 0 to 55.
#[derive(Clone, Copy, Debug, PartialEq, Eq)]
pub struct ChannelSet {
    bits: u64,
}

impl Model for ChannelSet {
    ghost Value = { ℕ };

    ghost view = { λ s. s.bits };

    ghost invariant = { λ s. s.bits < 2 ^ 56 };

    ghost inverse = { λ n. record { bits = n } };
}

impl ChannelSet {
    /// The set with no member.
    pub fn empty() -> ChannelSet
        ensures members { (k : ℕ) → has_bit result k ≡ false }
        ensures bits { result ≡ 0 }
    {
        ChannelSet { bits: 0 }
    }

    /// This set and the index, which is 0 to 55.
    pub fn with(self, index: usize) -> ChannelSet
        requires { index < INDICES }
        ensures members { (k : ℕ) → has_bit result k ≡ (k == index || has_bit self k) }
        ensures bits { result ≡ (if has_bit self index then self else self + 2 ^ index) }
    {
        ChannelSet {
            bits: self.bits | 1 << index,
        }
    }

    /// This set less the index, which is 0 to 55.
    pub fn without(self, index: usize) -> ChannelSet
        requires { index < INDICES }
        ensures members { (k : ℕ) → has_bit result k ≡ (not (k == index) && has_bit self k) }
        ensures bits { result ≡ (if has_bit self index then self - 2 ^ index else self) }
    {
        ChannelSet {
            bits: self.bits & !(1 << index),
        }
    }

    /// Whether the index, 0 to 55, is a member.
    pub fn contains(&self, index: usize) -> bool
        requires { index < INDICES }
        ensures { result ≡ has_bit self.now index }
    {
        self.bits >> index & 1 == 1
    }

    /// Whether there is no member.
    pub fn is_empty(&self) -> bool
        ensures members { IsTrue result ↔ ((k : ℕ) → has_bit self.now k ≡ false) }
        ensures bits { result ≡ (self.now == 0) }
    {
        self.bits == 0
    }

    /// The least index that is a member of both sets.
    pub fn least_common(&self, other: &ChannelSet) -> Option<usize>
        ensures least { IsLeast (in_both self.now other.now) result }
        ensures within { IfSome result (λ index. index < INDICES) }
    {
        let both = self.bits & other.bits;
        if both == 0 {
            None
        } else {
            Some(both.trailing_zeros() as usize)
        }
    }

    /// Takes the least member out, if there is one.
    pub fn pop_least(&mut self) -> Option<usize>
        ensures least { IsLeast (has_bit self.old) result }
        ensures within { IfSome result (λ index. index < INDICES) }
        ensures rest { IfSome result (λ index. (k : ℕ)
            → has_bit self.new k ≡ (not (k == index) && has_bit self.old k)) }
        ensures fewer { IfSome result (λ _. self.new < self.old) }
        ensures none { IfNone result (self.new ≡ self.old) }
    {
        let set = *self;
        let least = set.least_common(&set)?;
        *self = set.without(least);
        Some(least)
    }

    /// The least member that is no less than the index, which is 0 to 55.
    pub fn least_from(&self, from: usize) -> Option<usize>
        requires { from < INDICES }
        ensures { IsLeast (has_from from self.now) result }
    {
        let ahead = self.bits >> from;
        if ahead == 0 {
            None
        } else {
            Some(from + ahead.trailing_zeros() as usize)
        }
    }

    /// This set less the members of the other.
    pub fn less(self, other: ChannelSet) -> ChannelSet
        ensures { (k : ℕ) → has_bit result k ≡ (not (has_bit other k) && has_bit self k) }
    {
        ChannelSet {
            bits: self.bits & !other.bits,
        }
    }

    /// The members of both sets.
    pub fn both(self, other: ChannelSet) -> ChannelSet
        ensures { (k : ℕ) → has_bit result k ≡ (has_bit self k && has_bit other k) }
    {
        ChannelSet {
            bits: self.bits & other.bits,
        }
    }

    /// The members of either set.
    pub fn either(self, other: ChannelSet) -> ChannelSet
        ensures { (k : ℕ) → has_bit result k ≡ (has_bit self k || has_bit other k) }
    {
        ChannelSet {
            bits: self.bits | other.bits,
        }
    }

    /// The members that are no less than the index, which is 0 to 56.
    pub fn from(self, index: usize) -> ChannelSet
        requires { index ≤ INDICES }
        ensures members { (k : ℕ) → has_bit result k ≡ has_from index self k }
        ensures bits { result ≤ self }
    {
        ChannelSet {
            bits: self.bits & !((1 << index) - 1),
        }
    }

    /// The `count` indices from `from` on; `from` and `count` are together at most 56.
    pub fn span(from: usize, count: usize) -> ChannelSet
        requires { from + count ≤ INDICES }
        ensures { (k : ℕ) → has_bit result k ≡ (nat_le from k && nat_lt k (from + count)) }
    {
        ChannelSet {
            bits: ((1 << count) - 1) << from,
        }
    }

    /// The members among the `count` indices from `from` (0 to 55) on, moved so that the first of
    /// these is `to`; `to` and `count` are together at most 56.
    pub fn moved(self, from: usize, count: usize, to: usize) -> ChannelSet
        requires from { from < INDICES }
        requires room { to + count ≤ INDICES }
        ensures { (k : ℕ) → has_bit result k ≡ (nat_le to k && nat_lt k (to + count)
            && has_bit self (from + (k - to))) }
    {
        ChannelSet {
            bits: (self.bits >> from & ((1 << count) - 1)) << to,
        }
    }

    /// The members among the `count` indices (0 to 56) from `from` (0 to 55) on, numbered from 0.
    pub fn part(self, from: usize, count: usize) -> ChannelSet
        requires from { from < INDICES }
        requires count { count ≤ INDICES }
        ensures { (k : ℕ) → has_bit result k ≡ (nat_lt k count && has_bit self (from + k)) }
    {
        ChannelSet {
            bits: self.bits >> from & ((1 << count) - 1),
        }
    }
}
