//! Packets leave the network.

ghost use Rattle.std.specs.Prelude.{◌≡◌, ◌≢◌, ◌<◌, ℕ, true, length, slice_index};
ghost use Rattle.noc_columns.specs.Heads.{packet_in};
ghost use Rattle.noc_columns.specs.Prelude.{channels_of, has_bit, set_of};
ghost use Rattle.noc_cycles.specs.Concluding.{HaveArrived};

use noc_columns::{CHANNELS, ChannelTable, ROUTERS, Words, but_lowest, least, used_words};

/// The packets that leave the network from these input channels of a block arrive in this cycle.
#[inline(never)]
pub fn arrive_all(
    table: &ChannelTable,
    cycle: u32,
    arrived: &Words,
    packets: &[[u32; CHANNELS]; ROUTERS],
    arrivals: &mut [u32],
)
    requires { (r k : ℕ) → r < ROUTERS
        → has_bit (set_of (channels_of table.now.ports) r arrived.now) k ≡ true
        → packet_in packets.now r k < length arrivals.old }
    ensures { HaveArrived cycle ROUTERS (λ r. set_of (channels_of table.now.ports) r arrived.now)
        (packet_in packets.now) (slice_index arrivals.old) (slice_index arrivals.new) }
{
    let links = &table.ports.links;
    let mut rest = used_words((links.width + 1) * links.vcs, arrived);
    while rest != 0 {
        let index = least(rest);
        let channel = table.channel_at(index);
        arrive_from(channel, arrived[index], cycle, packets, arrivals);
        rest = but_lowest(rest);
    }
}

// The packets that leave these routers from one channel arrive in this cycle.
fn arrive_from(
    channel: usize,
    routers: u64,
    cycle: u32,
    packets: &[[u32; CHANNELS]; ROUTERS],
    arrivals: &mut [u32],
)
    requires channel { channel < CHANNELS }
    requires held { (r : ℕ) → r < ROUTERS → has_bit routers r ≡ true
        → packet_in packets.now r channel < length arrivals.old }
    ensures some { (r : ℕ) → r < ROUTERS → has_bit routers r ≡ true
        → slice_index arrivals.new (packet_in packets.now r channel) ≡ cycle }
    ensures others { (p : ℕ)
        → ((r : ℕ) → r < ROUTERS → has_bit routers r ≡ true
        → packet_in packets.now r channel ≢ p)
        → slice_index arrivals.new p ≡ slice_index arrivals.old p }
{
    let mut rest = routers;
    while rest != 0 {
        let router = least(rest);
        let packet = packets[router][channel] as usize;
        arrivals[packet] = cycle;
        rest = but_lowest(rest);
    }
}
