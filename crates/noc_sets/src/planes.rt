//! What the steps on planes mean, in the numbers that are kept bit by bit.

ghost use Rattle.std.specs.Prelude.{◌≡◌, ℕ, ◌+◌, ◌-◌, ◌%◌, ◌<◌, ◌^◌, List, length, nat_eq, nat_lt, not};
ghost use Rattle.noc_packet.specs.Set.{has_bit};
ghost use Rattle.noc_sets.specs.Planes.{ArePlanes, any_from, lowered_by, more_than_one, plane_number, raised_by, wrong_from};
ghost use Rattle.noc_topo.specs.Lists.{one_if};

/// The number of each member of a set is one more, and that of each other channel is the same,
/// modulo 2 to the number of planes.
pub fn numbers_of_members_rise()
    ensures { (planes : List ℕ) (set x : ℕ) → plane_number (raised_by planes set) x
        ≡ (plane_number planes x + one_if (has_bit set x)) % 2 ^ length planes }
{}

/// The number of each member of a set is one less, and that of each other channel is the same,
/// modulo 2 to the number of planes.
pub fn numbers_of_members_fall()
    ensures { (planes : List ℕ) (set x : ℕ) → ArePlanes planes → set < 2 ^ 64
        → plane_number (lowered_by planes set) x
        ≡ (plane_number planes x + 2 ^ length planes - one_if (has_bit set x)) % 2 ^ length planes }
{}

/// A channel is in these sets exactly where its number is not 0, is more than 1, or is not the one
/// that other planes give it.
pub fn sets_of_numbers_are_right()
    ensures some { (planes : List ℕ) (x : ℕ)
        → has_bit (any_from 0 planes) x ≡ nat_lt 0 (plane_number planes x) }
    ensures more { (planes : List ℕ) (x : ℕ)
        → has_bit (more_than_one planes) x ≡ nat_lt 1 (plane_number planes x) }
    ensures other { (planes others : List ℕ) (x : ℕ) → length planes ≡ length others
        → has_bit (wrong_from 0 planes others) x
        ≡ not (nat_eq (plane_number planes x) (plane_number others x)) }
{}
