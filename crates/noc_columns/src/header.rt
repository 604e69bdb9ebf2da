//! Where packets go.

ghost use Rattle.std.specs.Prelude.{◌≡◌, ⊤};
ghost use Rattle.noc_packet.specs.Packet.{IsWithinLimits};
ghost use Rattle.noc_columns.specs.Routing.{header_of};

use noc_packet::Packet;
use std::alloc::AllocError;

/// What the head of a packet tells the routers that it comes to. It is small, since each of them
/// reads it, and headers are read in no order.
#[derive(Copy)]
pub struct Header {
    /// The node that the packet goes to.
    pub destination: u8,
    /// Its message class.
    pub class: u8,
}

impl Clone for Header {
    ghost is_clone = { λ x y. y ≡ x };

    ghost is_infallible = { λ _. ⊤ };

    fn clone(&self) -> Result<Header, AllocError> {
        Ok(*self)
    }
}

impl Header {
    /// The header of a packet.
    pub fn of(packet: &Packet) -> Self
        requires { IsWithinLimits packet.now }
        ensures { result ≡ header_of packet.now }
    {
        Header {
            destination: packet.destination as u8,
            class: packet.class as u8,
        }
    }
}
