//! The limits of the network, as docs/MODEL.md gives them.

/// The most packets of one network; a packet's number is below it.
pub const MAX_PACKETS: usize = 20_000;

/// The most nodes of one network.
pub const MAX_NODES: usize = 256;

/// The most ports of one router: two for each of three dimensions, and the local port.
pub const MAX_PORTS: usize = 7;

/// The most flits of one packet.
pub const MAX_LENGTH: u32 = 64;

/// The latest cycle in which a packet may be due.
pub const MAX_DUE: u32 = 1_000_000;

/// The most virtual channels of one link.
pub const MAX_CHANNELS: usize = 8;

/// The greatest depth of a buffer, in flits.
pub const MAX_BUFFER: usize = 16;

/// The most message classes.
pub const MAX_CLASSES: usize = 4;

/// How many indices a set of channels is over: 0 to 55, one for each channel of a router.
pub const INDICES: usize = 56;

const _: () = prove!(INDICES == MAX_PORTS * MAX_CHANNELS);
