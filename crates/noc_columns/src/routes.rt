//! Heads are routed in the routers of a block.

ghost use Rattle.std.specs.Prelude.{◌≡◌, ◌≢◌, ◌<◌, ◌+◌, ◌*◌, ◌/◌, ◌%◌, ◌&&◌, ℕ, true, nat_eq, length, slice_index, if◌then◌else◌};
ghost use Rattle.noc_topo.specs.Shape.{nodes, ports};
ghost use Rattle.noc_columns.specs.Heads.{HasRoutedAll, MayRouteAll, headed, heading_at, packet_in};
ghost use Rattle.noc_columns.specs.Marks.{ChangesWaiting};
ghost use Rattle.noc_columns.specs.Routing.{AreRoutable, IsOfPorts, IsRoutable, set_by, sets_by};
ghost use Rattle.noc_columns.specs.Prelude.{has_bit, word};

use crate::channel_table::ChannelTable;
use crate::header::Header;
use crate::marks::Marks;
use crate::sets::CHANNELS;
use crate::walk::step;
use crate::words::{ROUTERS, Words, used_words};
use noc_packet::{ChannelSet, INDICES};
use noc_route::Relation;

/// What the heads in a block are routed by.
#[derive(Drop)]
pub struct Guide<'a> {
    /// The channels that packets may take.
    pub relation: &'a Relation,
    /// The headers of the packets, by number.
    pub headers: &'a [Header],
    /// Where the channels of a router stand.
    pub table: &'a ChannelTable,
    /// The number of the first router of the block.
    pub first: u32,
}

/// Each of these heads waits for one of the output channels that its packet may take, where the
/// input channels of the routers are held by these packets. (What calls this is not to grow by it.)
#[inline(never)]
pub fn route(
    guide: &Guide<'_>,
    heads: &Words,
    packets: &[[u32; CHANNELS]; ROUTERS],
    marks: &mut Marks,
)
    requires { MayRouteAll guide.now heads.now packets.now }
    ensures { HasRoutedAll guide.now heads.now packets.now marks.old marks.new }
{
    // (A value of its own, so the compiler knows that no write changes it.)
    let own = Guide {
        relation: guide.relation,
        headers: guide.headers,
        table: guide.table,
        first: guide.first,
    };
    let links = &guide.table.ports.links;
    let mut left = *heads;
    let mut rest = used_words((links.width + 1) * links.vcs, heads);
    while rest != 0 {
        let next = step(&mut left, rest);
        let channel = own.table.channel_at(next.index);
        let packet = packets[next.router][channel] as usize;
        route_head(&own, channel, next.router, packet, marks);
        rest = next.rest;
    }
}

// The head of one packet is routed.
fn route_head(guide: &Guide<'_>, channel: usize, router: usize, packet: usize, marks: &mut Marks)
    requires ports { IsOfPorts guide.now.table.now.ports guide.now.relation.now }
    requires headers { AreRoutable guide.now.relation.now guide.now.headers.now }
    requires channel { channel < (guide.now.table.now.ports.links.width + 1)
        * guide.now.table.now.ports.links.vcs }
    requires router { router < ROUTERS }
    requires head { (guide.now.first + router < nodes guide.now.relation.now.grid)
        × (packet < length guide.now.headers.now) }
    ensures here { heading_at marks.new router ≡ headed channel
        (sets_by guide.now.relation.now guide.now.headers.now (guide.now.first + router) channel
        packet) (heading_at marks.old router) }
    ensures others { (r : ℕ) → r ≢ router → heading_at marks.new r ≡ heading_at marks.old r }
    ensures kept { ChangesWaiting marks.old marks.new }
{
    let header = guide.headers[packet];
    let node = guide.first as usize + router;
    let set = set_for(guide.relation, header, node, channel);
    note(&mut marks.sets[router], channel, set);
    marks.add_waiting(router, channel, set);
}

// The set of a channel is written.
#[inline(always)]
fn note(sets: &mut [u64; CHANNELS], channel: usize, set: u64)
    requires { channel < CHANNELS }
    ensures { (k : ℕ)
        → slice_index sets.new k ≡ (if nat_eq k channel then set else slice_index sets.old k) }
{
    sets[channel] = set;
}

// The channels that a packet with this header may take which came to a node by this input channel.
fn set_for(relation: &Relation, header: Header, node: usize, channel: usize) -> u64
    requires node { node < nodes relation.now.grid }
    requires header { IsRoutable relation.now header }
    requires channel { channel < ports relation.now.grid * relation.now.vcs }
    ensures { result ≡ set_by relation.now header node (channel / relation.now.vcs)
        (channel % relation.now.vcs) }
{
    let class = usize::from(header.class);
    let destination = usize::from(header.destination);
    bits_of(relation.permitted_from(class, node, channel, destination))
}

// A set of channels, as a number. (Nothing depends on how many there are, so the processor need not
// wait for the set before it goes on.)
fn bits_of(set: ChannelSet) -> u64
    ensures { result ≡ set }
{
    let mut bits = 0u64;
    for channel in 0..INDICES {
        bits |= alone_where(channel, set.contains(channel));
    }
    bits
}

// A channel alone, or none.
#[inline(always)]
fn alone_where(channel: usize, is_member: bool) -> u64
    requires { channel < INDICES }
    ensures { (k : ℕ) → has_bit result k ≡ (nat_eq k channel && is_member) }
{
    u64::from(is_member) << channel as u32
}
