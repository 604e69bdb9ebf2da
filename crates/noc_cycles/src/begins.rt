//! The numbers of the packets that begin.

ghost use Rattle.std.specs.Prelude.{◌≡◌, ◌+◌, ◌<◌, ◌≤◌, ◌&&◌, ℕ, true, length, nat_eq, slice_index, if◌then◌else◌};
ghost use Rattle.noc_sets.specs.Sets.{up_by};
ghost use Rattle.noc_sets.specs.Source.{start_in};
ghost use Rattle.noc_columns.specs.Heads.{packet_in};
ghost use Rattle.noc_columns.specs.Sources.{starts_by};
ghost use Rattle.noc_columns.specs.Prelude.{has_bit, port_at, set_of, some_below, word};

use noc_columns::{CHANNELS, Ports, ROUTERS, Start, WORDS, Words, but_lowest, least};

// A packet begins in these local channels, which stand behind so many link channels. The number
// of each is kept: it is the next of its router.
pub(crate) fn begin_packets(
    local: &Ports,
    links: usize,
    starts: &[Start],
    queue: &[u32; ROUTERS],
    begun: &Words,
    packets: &mut [[u32; CHANNELS]; ROUTERS],
)
    requires width { local.now.width ≡ 1 }
    requires few { links + local.now.vcs ≤ CHANNELS }
    requires queue { (r v : ℕ) → r < ROUTERS
        → has_bit (set_of (port_at local.now 0) r begun.now) v ≡ true
        → slice_index queue.now r < length starts.now }
    ensures { (r k : ℕ) → r < ROUTERS → packet_in packets.new r k
        ≡ (if has_bit (up_by (set_of (port_at local.now 0) r begun.now) links) k
        then (start_in (starts_by starts.now) (slice_index queue.now r)).number
        else packet_in packets.old r k) }
{
    for v in 0..local.vcs {
        begin_in(begun[local.first + v], links + v, starts, queue, packets);
    }
}

// Packets begin in one channel of these routers.
fn begin_in(
    routers: u64,
    channel: usize,
    starts: &[Start],
    queue: &[u32; ROUTERS],
    packets: &mut [[u32; CHANNELS]; ROUTERS],
)
    requires channel { channel < CHANNELS }
    requires queue { (r : ℕ) → r < ROUTERS → has_bit routers r ≡ true
        → slice_index queue.now r < length starts.now }
    ensures { (r k : ℕ) → r < ROUTERS → packet_in packets.new r k
        ≡ (if has_bit routers r && nat_eq k channel
        then (start_in (starts_by starts.now) (slice_index queue.now r)).number
        else packet_in packets.old r k) }
{
    let mut rest = routers;
    while rest != 0 {
        let router = least(rest);
        let start = starts[queue[router] as usize];
        put_number(&mut packets[router], channel, start.number);
        rest = but_lowest(rest);
    }
}

// Writes the number of a packet for one channel of one router.
#[inline(always)]
pub(crate) fn put_number(packets: &mut [u32; CHANNELS], channel: usize, number: u32)
    requires { channel < CHANNELS }
    ensures { (k : ℕ) → slice_index packets.new k
        ≡ (if nat_eq k channel then number else slice_index packets.old k) }
{
    packets[channel] = number;
}

/// The routers that one of so many words has, from one on.
pub fn some_in(words: &Words, first: usize, count: usize) -> u64
    requires { first + count ≤ WORDS }
    ensures { (r : ℕ) → has_bit result r
        ≡ some_below count (λ i. has_bit (word (first + i) words.now) r) }
{
    let mut some = 0;
    for i in 0..count {
        some = some | words[first + i];
    }
    some
}
