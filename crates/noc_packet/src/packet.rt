//! Packets, flits and beats (Dally and Towles, chapter 12).

ghost use Rattle.std.specs.Prelude.{◌≡◌, ◌<◌, None};
ghost use Rattle.noc_packet.specs.Packet.{IsWithinLimits, flit_at};

use crate::limits::MAX_PACKETS;

/// A packet of `length` flits from a source node to a destination node, in a message class.
/// It may be injected from cycle `due` on.
#[derive(Clone, Copy, Debug, PartialEq, Eq)]
pub struct Packet {
    /// A node, 0 to 255.
    pub source: u32,
    /// A node, 0 to 255.
    pub destination: u32,
    /// A message class, 0 to 3.
    pub class: u32,
    /// In flits, 1 to 64.
    pub length: u32,
    /// A cycle, 0 to 1,000,000.
    pub due: u32,
}

/// One flit: the part of a packet that a link carries in one cycle.
#[derive(Clone, Copy, Debug, PartialEq, Eq)]
pub struct Flit {
    /// The number of its packet, below 20,000.
    pub packet: u32,
    /// Its index in its packet, 0 to 63; the head is 0.
    pub index: u8,
    /// Whether it is the tail of its packet.
    pub last: bool,
    /// The node that its packet goes to.
    pub dst: u16,
    /// The message class of its packet.
    pub class: u8,
}

/// What one wire carries in one cycle: at most one flit and at most one credit, each
/// with its virtual channel.
#[derive(Clone, Copy, Debug, PartialEq, Eq)]
pub struct Beat {
    /// A flit, and the virtual channel that it is on.
    pub flit: Option<(u8, Flit)>,
    /// The virtual channel whose buffer has given a slot back.
    pub credit: Option<u8>,
}

impl Beat {
    /// The beat of a wire that carries nothing.
    pub fn idle() -> Beat
        ensures { result ≡ record { flit = None; credit = None } }
    {
        Beat {
            flit: None,
            credit: None,
        }
    }
}

/// The flit with this index, from 0, of the packet with this number. The flit at the
/// length less one is the tail.
pub fn flit_of(packet: &Packet, number: usize, index: usize) -> Flit
    requires limits { IsWithinLimits packet.now }
    requires number { number < MAX_PACKETS }
    requires index { index < packet.now.length }
    ensures { result ≡ flit_at packet.now number index }
{
    Flit {
        packet: number as u32,
        index: index as u8,
        last: index + 1 == packet.length as usize,
        dst: packet.destination as u16,
        class: packet.class as u8,
    }
}
