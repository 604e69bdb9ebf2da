//! What is left of sets of channels where packets come.

ghost use Rattle.std.specs.Prelude.{◌≡◌, ◌⊎◌, ℕ, ◌+◌, ◌<◌, ◌≤◌, ◌&&◌, ◌||◌, length, slice_index, if◌then◌else◌};
ghost use Rattle.noc_packet.specs.Set.{has_bit};
ghost use Rattle.noc_packet.specs.declared.limits.TheConstants.{INDICES};
ghost use Rattle.noc_steps.specs.Reached.{any_below};

use noc_packet::ChannelSet;

/// The channels by which packets leave a router: the members of those of its input channels' sets
/// to which packets come. The sets of its `count` input channels stand from `first` on.
pub fn taken(sets: &[ChannelSet], first: usize, count: usize, coming: ChannelSet) -> ChannelSet
    requires sets { first + count ≤ length sets.now }
    requires count { count ≤ INDICES }
    ensures { (k : ℕ) → has_bit result k ≡ any_below count
        (λ i. has_bit coming i && has_bit (slice_index sets.now (first + i)) k) }
{
    let mut all = ChannelSet::empty();
    for input in 0..count {
        let set = sets[first + input];
        all = either_if(all, set, coming.contains(input));
    }
    all
}

// The members of a set, and those of another one if they are to be added.
fn either_if(set: ChannelSet, other: ChannelSet, is_added: bool) -> ChannelSet
    ensures { (k : ℕ) → has_bit result k ≡ (has_bit set k || (is_added && has_bit other k)) }
{
    if is_added { set.either(other) } else { set }
}

/// This set, or else the one without members.
pub fn only_if(set: ChannelSet, is_kept: bool) -> ChannelSet
    ensures { result ≡ (if is_kept then set else 0) }
{
    if is_kept { set } else { ChannelSet::empty() }
}

/// Writes the sets from `first` on where packets come to an input channel, and else none. `coming`
/// has the input channels to which packets come, by destination.
pub fn take_row(
    sets: &[ChannelSet],
    first: usize,
    coming: &[ChannelSet],
    input: usize,
    block: &mut [ChannelSet],
    from: usize,
)
    requires sets { first + length coming.now ≤ length sets.now }
    requires input { input < INDICES }
    requires block { from + length coming.now ≤ length block.old }
    ensures column { (t : ℕ) → t < length coming.now → slice_index block.new (from + t)
        ≡ (if has_bit (slice_index coming.now t) input
        then slice_index sets.now (first + t) else 0) }
    ensures others { (j : ℕ) → (j < from) ⊎ (from + length coming.now ≤ j)
        → slice_index block.new j ≡ slice_index block.old j }
{
    for dst in 0..coming.len() {
        let set = sets[first + dst];
        let is_reached = coming[dst].contains(input);
        block[from + dst] = only_if(set, is_reached);
    }
}
