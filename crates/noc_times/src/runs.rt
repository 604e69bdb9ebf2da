//! Cycles of a run.

ghost use Rattle.std.specs.Prelude.{◌≡◌, ◌+◌, ◌-◌, ◌^◌, ◌<◌, Some, nat_eq, not};
ghost use Rattle.std.specs.Option.{option_eq};

/// Cycles of a run that follow one another.
#[derive(Clone, Copy)]
pub struct Interval {
    /// How many they are.
    pub cycles: u32,
    /// The count behind the last of them.
    pub end: u64,
}

impl Interval {
    /// So many cycles from a count on.
    pub fn starting_at(count: u64, cycles: u64) -> Interval
        requires { count + cycles < 2 ^ 31 }
        ensures cycles { result.cycles ≡ cycles }
        ensures end { result.end ≡ count + cycles }
    {
        Interval {
            cycles: cycles as u32,
            end: count + cycles,
        }
    }
}

/// How many cycles lie between the due time of a packet and the cycle in which its tail was out.
pub fn latency(due: u32, out: u64) -> u64
    ensures { result ≡ out - due }
{
    out.saturating_sub(u64::from(due))
}

/// In how many of so many cycles an input channel was empty: in those of no other verdict.
pub fn empty_cycles(cycles: u32, others: u64) -> u64
    ensures { result ≡ cycles - others }
{
    u64::from(cycles).saturating_sub(others)
}

/// Whether a cycle was quiet: the last event, if there was one, was in another cycle.
pub fn was_quiet(cycle: u64, last_event: Option<u64>) -> bool
    ensures { result ≡ not (option_eq nat_eq last_event (Some cycle)) }
{
    last_event != Some(cycle)
}
