//! Output channels are granted to the channels of a router that ask for them.

ghost use Rattle.std.specs.Prelude.{◌≡◌, ◌≢◌, ◌+◌, ◌/◌, ◌%◌, ◌^◌, ◌<◌, ◌≤◌, ℕ, true, false, nat_lt, slice_index};
ghost use Rattle.noc_columns.specs.Grants.{AreGranted, ArePointersPast, IsNumbered, MayGrant, MayGrantAll};
ghost use Rattle.noc_columns.specs.Prelude.{channels_of, has_bit};

use crate::channel_table::ChannelTable;
use crate::given::Grants;
use crate::marks::REQUESTS;
use crate::sets::{CHANNELS, but_lowest, first_in_turn, least, past};

// An output channel of a router is granted to one of its input channels, and its pointer goes past
// that one.
#[inline(always)]
pub(crate) fn grant(
    table: &ChannelTable,
    router: usize,
    out: usize,
    input: u64,
    turn: &mut [u64; CHANNELS],
    grants: &mut Grants,
)
    requires { MayGrant (channels_of table.now.ports) router out input grants.old }
    ensures turn { (k i : ℕ) → input ≡ 2 ^ k → i < CHANNELS
        → has_bit (slice_index turn.new out) i ≡ nat_lt k i }
    ensures others { (o : ℕ) → o ≢ out → slice_index turn.new o ≡ slice_index turn.old o }
    ensures grants { (r : ℕ) → IsNumbered (channels_of table.now.ports) r router input
        (out / table.now.ports.links.vcs) (out % table.now.ports.links.vcs) grants.old grants.new }
    ensures count { grants.new.count ≡ grants.old.count + 1 }
{
    let index = table.index(least(input));
    turn[out] = past(input);
    grants.put(index, router, table.port(out), table.vc(out));
}

// Each of these output channels of a router is granted to the first of those that ask for it, from
// its pointer on and around, and nobody asks for it any more. The answer is the input channels that
// are granted one.
pub(crate) fn grant_all(
    table: &ChannelTable,
    router: usize,
    outs: u64,
    requests: &mut [u64; REQUESTS],
    turn: &mut [u64; CHANNELS],
    grants: &mut Grants,
) -> u64
    requires { MayGrantAll (channels_of table.now.ports) router (has_bit outs)
        (λ o. slice_index requests.old o) grants.old }
    ensures granted { AreGranted (channels_of table.now.ports) table.now.ports.links.vcs router
        (has_bit outs) (λ o. slice_index requests.old o) (λ o. slice_index turn.old o) result
        grants.old grants.new }
    ensures turns { ArePointersPast (has_bit outs) (λ o. slice_index requests.old o)
        (λ o. slice_index turn.old o) (λ o. slice_index turn.new o) }
    ensures answered { (o : ℕ) → has_bit outs o ≡ true → slice_index requests.new o ≡ 0 }
    ensures unasked { (o : ℕ) → has_bit outs o ≡ false
        → slice_index requests.new o ≡ slice_index requests.old o }
    ensures few { grants.new.count ≤ grants.old.count + CHANNELS }
{
    let mut rest = outs;
    let mut granted = 0;
    while rest != 0 {
        let out = least(rest);
        let asks = requests[out];
        requests[out] = 0;
        let input = first_in_turn(asks, turn[out]);
        grant(table, router, out, input, turn, grants);
        granted = granted | input;
        rest = but_lowest(rest);
    }
    granted
}
