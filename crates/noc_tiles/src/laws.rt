//! What tiles that run apart make together.

ghost use Rattle.std.specs.Prelude.{ℕ, ◌<◌};
ghost use Rattle.noc_tiles.specs.Prelude.{Setup};
ghost use Rattle.noc_tiles.specs.Together.{Agrees, PutsInFlight, TilesRan, Trace};

/// Tiles that ran apart are where the network is in lockstep. Suppose that each tile of a network
/// began in the network's state at count n. Suppose too that on each wire between two tiles the one
/// received the beat in flight and then what the other put, cycle by cycle. Then after k cycles
/// each has the routers and the inner beats of the network at count n + k. What each put on a wire
/// to another tile in one of its cycles is the beat in flight there at the next count, so what it
/// put last is that at count n + k.
pub fn tiles_that_ran_apart_are_in_lockstep()
    ensures lockstep { (net : Setup) (n k m : ℕ) (tiles : ℕ → Trace) (t : ℕ)
        → TilesRan net n k m tiles → t < m → Agrees net n (tiles t) k }
    ensures in_flight { (net : Setup) (n k m : ℕ) (tiles : ℕ → Trace) (t i : ℕ)
        → TilesRan net n k m tiles → t < m → i < k → PutsInFlight net n (tiles t) i }
{}
