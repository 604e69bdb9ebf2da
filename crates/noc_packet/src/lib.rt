//! Packets, their flits, the beats of a wire, and sets of channel indices.
#![tactic(auto)]

mod limits;
mod memory;
mod packet;
mod set;

pub use limits::{
    INDICES, MAX_BUFFER, MAX_CHANNELS, MAX_CLASSES, MAX_DUE, MAX_LENGTH, MAX_NODES, MAX_PACKETS,
    MAX_PORTS,
};
pub use memory::Memory;
pub use packet::{Beat, Flit, Packet, flit_of};
pub use set::ChannelSet;
