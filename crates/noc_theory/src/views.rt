//! What the routers and wires of a network show of its state.

ghost use Rattle.std.specs.Prelude.{◌≡◌, ◌+◌, ◌-◌, ◌^◌, ◌<◌, ◌≤◌, ℕ, All, sum};
ghost use Rattle.noc_theory.specs.Core.{opening_core};
ghost use Rattle.noc_theory.specs.declared.limits.TheConstants.{CYCLE_LIMIT as LIMIT};
ghost use Rattle.noc_theory.specs.Good.{IsGoodSetup};
ghost use Rattle.noc_theory.specs.InStep.{lockstep_core};
ghost use Rattle.noc_theory.specs.Lockstep.{counts_before, lockstep_cycle};
ghost use Rattle.noc_theory.specs.Network.{Run, Setup};
ghost use Rattle.noc_theory.specs.Seen.{AreSeen, shown_at};

/// Routers that go on in lockstep, each by its own view and the beats that come to it, show
/// the network. At every count each has its view of the network's state, and each wire
/// carries that state's beat.
pub fn routers_in_lockstep_show_the_network()
    ensures { (net : Setup) (n : ℕ) → IsGoodSetup net → n ≤ LIMIT → AreSeen net n }
{}

/// A cycle of the whole network is one local step of each router, on its view
/// and the beats on its wires.
pub fn a_cycle_is_a_step_of_each_router()
    ensures { (net : Setup) (n : ℕ) → IsGoodSetup net → n < LIMIT
        → shown_at net (n + 1) ≡ lockstep_cycle net n (shown_at net n) }
{}

/// A core that is opened on a network begins where its routers are in lockstep.
pub fn a_core_opens_where_its_routers_are()
    ensures { (u : Run) → IsGoodSetup u.net → u.count ≤ LIMIT → opening_core u ≡ lockstep_core u }
{}

/// The ten counts of an input channel add up to the cycles that have run, so that no counter of 64
/// bits reaches its greatest value.
pub fn counts_add_up()
    ensures sum { (net : Setup) (n r i : ℕ) → sum (counts_before net n r i) ≡ n }
    ensures few { (net : Setup) (n r i : ℕ) → n ≤ LIMIT
        → All (λ count. count < 2 ^ 64 - 1) (counts_before net n r i) }
{}
