//! Where the links of the routers of a block lead.

ghost use Rattle.std.specs.Prelude.{◌≡◌, ◌<◌, ◌≤◌, ◌*◌, ◌+◌, ℕ, IfOk, slice_index};
ghost use Rattle.noc_columns.specs.Places.{IsNear};
ghost use Rattle.noc_topo.specs.Shape.{local_port, neighbour, nodes};
ghost use Rattle.noc_cycles.specs.Around.{AreAround, AreEnds, AreFarBy, number_or_nowhere};

use noc_columns::{Far, Near, Neighbours, PORTS, ROUTERS, WORDS, far_of, write_near};
use noc_packet::{MAX_CHANNELS, Memory};
use noc_topo::Shape;
use std::alloc::Global;

/// The number of a neighbour where there is none.
pub const NOWHERE: u16 = u16::MAX;

/// Where the links of the routers of a block lead.
#[derive(Drop)]
pub struct Around {
    /// The number of the block.
    pub block: usize,
    /// The neighbours that stand in the block.
    pub near: Near,
    /// Those that stand in other blocks, by port after port.
    pub far: Vec<Far>,
    /// By router and port, the number of the router at the other end of the link, or `NOWHERE`.
    pub ends: [[u16; PORTS]; ROUTERS],
}

/// The tables of so many blocks of a network, where each port has so many virtual channels. (Those
/// of one take 4.5 kB, so they are written where they stand.)
pub fn all_around(
    alloc: Global,
    shape: &Shape,
    vcs: usize,
    count: usize,
) -> Result<Vec<Around>, Memory>
    requires vcs { vcs ≤ MAX_CHANNELS }
    requires count { ROUTERS * count < nodes shape.now + ROUTERS }
    ensures { IfOk result (λ all. AreAround shape.now vcs count all.items) }
{
    let mut all = Vec::with_capacity(alloc, count)?;
    for block in 0..count {
        all.push(Around {
            block,
            near: NO_NEAR,
            far: far_by_port(alloc, shape, block)?,
            ends: NO_ENDS,
        })?;
        all[block].find(shape, vcs, block);
    }
    Ok(all)
}

impl Around {
    // The neighbours of the routers of a block.
    fn find(&mut self, shape: &Shape, vcs: usize, block: usize)
        requires vcs { vcs ≤ MAX_CHANNELS }
        requires block { ROUTERS * block < nodes shape.now }
        ensures near { IsNear shape.now vcs block self.new.near }
        ensures ends { AreEnds shape.now block self.new.ends }
        ensures rest { self.new
            ≡ record self.old { near = self.new.near; ends = self.new.ends } }
    {
        write_near(shape, vcs, block, &mut self.near);
        write_ends(shape, block, &mut self.ends);
    }
}

// The neighbours of the routers of a block that stand in other blocks, by port after port.
fn far_by_port(alloc: Global, shape: &Shape, block: usize) -> Result<Vec<Far>, Memory>
    requires { ROUTERS * block < nodes shape.now }
    ensures { IfOk result (λ far. AreFarBy shape.now block far.items) }
{
    let mut far = Vec::new(alloc);
    let ports = shape.ports() - 1;
    for port in 0..ports {
        let mut more = far_of(alloc, shape, block, port)?;
        far.append(&mut more)?;
    }
    Ok(far)
}

// By router and port, the neighbours of the routers of a block.
#[inline(never)]
fn write_ends(shape: &Shape, block: usize, ends: &mut [[u16; PORTS]; ROUTERS])
    requires { ROUTERS * block < nodes shape.now }
    ensures { AreEnds shape.now block ends.new }
{
    let nodes = shape.nodes();
    for r in 0..ROUTERS {
        let node = ROUTERS * block + r;
        if node < nodes {
            ends[r] = ends_from(shape, node);
        }
    }
}

// By port, the neighbours of one router.
fn ends_from(shape: &Shape, node: usize) -> [u16; PORTS]
    requires { node < nodes shape.now }
    ensures { (p : ℕ) → p < local_port shape.now → slice_index result p
        ≡ number_or_nowhere (neighbour shape.now node p) }
{
    let mut ends = [NOWHERE; PORTS];
    for port in 0..shape.ports() - 1 {
        ends[port] = end_from(shape, node, port);
    }
    ends
}

// The neighbour of a router by one port.
fn end_from(shape: &Shape, node: usize, port: usize) -> u16
    requires node { node < nodes shape.now }
    requires port { port < local_port shape.now }
    ensures { result ≡ number_or_nowhere (neighbour shape.now node port) }
{
    match shape.neighbour(node, port) {
        Some((there, _)) => there as u16,
        None => NOWHERE,
    }
}

// Nowhere at all. (A push copies it from here to where it stands.)
const NO_NEAR: Near = Near {
    straight: NO_NEIGHBOURS,
    rings: false,
    round: NO_NEIGHBOURS,
};

const NO_NEIGHBOURS: Neighbours = Neighbours {
    distance: [0; WORDS],
    back: [0; WORDS],
    mask: [0; WORDS],
};

const NO_ENDS: [[u16; PORTS]; ROUTERS] = [[NOWHERE; PORTS]; ROUTERS];
