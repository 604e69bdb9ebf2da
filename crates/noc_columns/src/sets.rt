//! Sets of channels of one router: their least members.

ghost use Rattle.std.specs.Prelude.{◌≡◌, ◌^◌, ◌<◌, ◌≤◌, ℕ, Some, nat_eq, nat_lt, if◌then◌else◌};
ghost use Rattle.noc_packet.specs.Set.{IsLeast};
ghost use Rattle.noc_sets.specs.Turns.{first_bit};
ghost use Rattle.noc_columns.specs.Prelude.{has_bit, less, lowest};

use crate::planes::less;

/// How many channels a set has at most.
pub const CHANNELS: usize = 64;

/// The least member of a set that has one.
#[inline(always)]
pub fn least(set: u64) -> usize
    requires { 0 < set }
    ensures within { result < CHANNELS }
    ensures least { IsLeast (has_bit set) (Some result) }
{
    set.trailing_zeros() as usize
}

/// The least member of a set that has one, and of one that has none the number behind all channels.
#[inline(always)]
pub(crate) fn least_or_past(set: u64) -> usize
    ensures within { result ≤ CHANNELS }
    ensures least { 0 < set → IsLeast (has_bit set) (Some result) }
    ensures past { set ≡ 0 → result ≡ CHANNELS }
{
    set.trailing_zeros() as usize
}

/// The least member alone, if there is one.
#[inline(always)]
pub(crate) fn lowest(set: u64) -> u64
    ensures { result ≡ lowest set }
{
    if set == 0 { 0 } else { less(set, set - 1) }
}

/// The other members of a set that has one.
#[inline(always)]
pub fn but_lowest(set: u64) -> u64
    requires { 0 < set }
    ensures members { result ≡ less set (lowest set) }
    ensures fewer { result < set }
{
    set & (set - 1)
}

/// The first of some requests, from the pointer of an arbiter on, and around.
#[inline(always)]
pub(crate) fn first_in_turn(requests: u64, after: u64) -> u64
    requires { 0 < requests }
    ensures { result ≡ first_bit requests after }
{
    let high = requests & after;
    let first = if high == 0 { requests } else { high };
    less(first, first - 1)
}

/// The channels after the one that a set has.
#[inline(always)]
pub(crate) fn past(set: u64) -> u64
    requires { 0 < set }
    ensures { (k i : ℕ) → set ≡ 2 ^ k → i < CHANNELS → has_bit result i ≡ nat_lt k i }
{
    less(u64::MAX, set | (set - 1))
}
