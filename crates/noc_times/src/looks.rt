//! When a run that drains looks whether every packet is out.

ghost use Rattle.std.specs.Prelude.{◌≡◌, ℕ, ◌+◌, ◌*◌, ◌^◌, ◌<◌, ◌≤◌, max};

/// How many cycles lie between two looks.
pub const DRAIN_CHECK_INTERVAL: u64 = 64;

/// How many cycles it is to the first of the later looks that is at least so many cycles away.
pub fn to_next_look(cycles: u64) -> u64
    requires { cycles < 2 ^ 63 }
    ensures look { (k : ℕ) × (result ≡ (k + 1) * DRAIN_CHECK_INTERVAL)
        × (k * DRAIN_CHECK_INTERVAL < max cycles 1) }
    ensures enough { cycles ≤ result }
{
    cycles.max(1).next_multiple_of(DRAIN_CHECK_INTERVAL)
}
