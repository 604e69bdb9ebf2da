//! Notes of the packets that hold input channels from now on.

ghost use Rattle.std.specs.Prelude.{◌<◌};
ghost use Rattle.noc_columns.specs.declared.sets.TheConstants.{CHANNELS};

use noc_columns::CHANNELS;

/// An input channel of a router is held by a packet from now on.
#[derive(Clone, Copy)]
pub struct Note {
    /// The number of the router in the network.
    pub router: u16,
    /// Its input channel.
    pub channel: u8,
    /// The number of the packet.
    pub packet: u32,
    ghost few: { channel < CHANNELS },
}
