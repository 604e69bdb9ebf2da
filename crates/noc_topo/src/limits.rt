//! The limits of a shape.

/// The most dimensions.
pub const MAX_DIMENSIONS: usize = 3;

/// The most nodes along one dimension.
pub const MAX_RADIX: usize = 16;

/// The most nodes.
pub const MAX_NODES: usize = 256;

/// The most link ports of one router: two for each dimension.
pub const LINKS: usize = 6;

const _: () = prove!(LINKS == 2 * MAX_DIMENSIONS);

/// The most ports of one router: those of links, and the local port.
pub const MAX_PORTS: usize = 7;

const _: () = prove!(MAX_PORTS == LINKS + 1);

/// The most hops that the shortest way between two nodes has, from corner to
/// corner of a mesh of 16 by 16.
pub const MAX_DISTANCE: usize = 30;
