//! The waiting channels of one router ask for output channels.

ghost use Rattle.std.specs.Prelude.{◌≡◌, ◌≢◌, ◌<◌, ℕ, bit_or, slice_index};
ghost use Rattle.noc_sets.specs.Grants.{AreAsks};
ghost use Rattle.noc_columns.specs.Prelude.{has_bit};

use crate::marks::REQUESTS;
use crate::planes::less;
use crate::sets::{CHANNELS, but_lowest, least, least_or_past, lowest};

/// What the waiting channels of a router ask for.
#[derive(Drop)]
pub(crate) struct Asks {
    /// The output channels that are asked for.
    pub(crate) outs: u64,
    /// The input channels that ask.
    pub(crate) inputs: u64,
    /// The sets of all waiting channels.
    pub(crate) wanted: u64,
}

/// Each waiting channel of a router asks for the least idle channel of its set. `requests` has none
/// before, and then by output channel the input channels that ask for it, and behind them those
/// that ask for none. (So there is no test whether a channel asks.)
pub(crate) fn ask_all(
    waiting: u64,
    idle: u64,
    sets: &[u64; CHANNELS],
    requests: &mut [u64; REQUESTS],
) -> Asks
    requires { (o : ℕ) → o < CHANNELS → slice_index requests.old o ≡ 0 }
    ensures { AreAsks (has_bit waiting) idle (λ k. slice_index sets.now k)
        (λ o. slice_index requests.new o) result.outs result.inputs result.wanted }
{
    let mut rest = waiting;
    let mut outs = 0;
    let mut wanted = 0;
    requests[CHANNELS] = 0;
    while rest != 0 {
        let input = least(rest);
        let set = sets[input];
        let free = set & idle;
        ask(1 << input as u32, least_or_past(free), requests);
        outs = outs | lowest(free);
        wanted = wanted | set;
        rest = but_lowest(rest);
    }
    Asks {
        outs,
        inputs: less(waiting, requests[CHANNELS]),
        wanted,
    }
}

// These channels ask for an output channel.
#[inline(always)]
fn ask(channels: u64, out: usize, requests: &mut [u64; REQUESTS])
    requires { out < REQUESTS }
    ensures here { slice_index requests.new out
        ≡ bit_or (slice_index requests.old out) channels }
    ensures others { (o : ℕ) → o ≢ out → slice_index requests.new o ≡ slice_index requests.old o }
{
    requests[out] = requests[out] | channels;
}
