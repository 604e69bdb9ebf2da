//! Where the neighbours of the routers of a block stand is worked out of the shape of the network.

ghost use Rattle.std.specs.Prelude.{◌≡◌, ◌+◌, ◌*◌, ◌^◌, ◌<◌, ◌≤◌, ℕ, IfOk, if◌then◌else◌};
ghost use Rattle.noc_sets.specs.Gather.{span, stride};
ghost use Rattle.noc_topo.specs.Shape.{IsGrid, dimensions, local_port, nodes};
ghost use Rattle.noc_columns.specs.Near.{distance_by, leads};
ghost use Rattle.noc_columns.specs.Places.{AreFar, AreFarIn, AreNeighbours, IsNear, stands_in};
ghost use Rattle.noc_columns.specs.Prelude.{has_bit};

use crate::neighbours::{Far, Near, Neighbours};
use crate::words::{ROUTERS, WORDS, alone_if};
use noc_packet::{MAX_CHANNELS, Memory};
use noc_topo::{Kind, MAX_NODES, MAX_RADIX, Shape};
use std::alloc::Global;

/// Writes the neighbours of the routers of a block that stand in it, where each port has so many
/// virtual channels.
pub fn write_near(shape: &Shape, vcs: usize, block: usize, near: &mut Near)
    requires vcs { vcs ≤ MAX_CHANNELS }
    requires block { ROUTERS * block < nodes shape.now }
    ensures { IsNear shape.now vcs block near.new }
{
    near.rings = shape.kind() == Kind::Torus;
    write_neighbours(shape, vcs, block, false, &mut near.straight);
    write_neighbours(shape, vcs, block, true, &mut near.round);
}

// Writes the neighbours one step on, or those round at the other ends of their lines.
fn write_neighbours(
    shape: &Shape,
    vcs: usize,
    block: usize,
    round: bool,
    neighbours: &mut Neighbours,
)
    requires vcs { vcs ≤ MAX_CHANNELS }
    requires block { ROUTERS * block < nodes shape.now }
    ensures { AreNeighbours shape.now vcs block round neighbours.new }
{
    let links = shape.ports() - 1;
    neighbours.mask = [0; WORDS];
    for k in 0..vcs * links {
        let distance = distance_by(shape, k % links, round);
        neighbours.distance[k] = distance;
        neighbours.back[k] = (ROUTERS as u64 - distance) % ROUTERS as u64;
        neighbours.mask[k] = mask_of(shape, block, k % links, round, block);
    }
}

/// The neighbours of the routers of a block by one port that stand in other blocks.
pub fn far_of(alloc: Global, shape: &Shape, block: usize, port: usize) -> Result<Vec<Far>, Memory>
    requires block { ROUTERS * block < nodes shape.now }
    requires port { port < local_port shape.now }
    ensures { IfOk result (λ far. AreFar shape.now block port far.items) }
{
    let mut far = Vec::new(alloc);
    let blocks = (shape.nodes() + ROUTERS - 1) / ROUTERS;
    for i in 0..2 * blocks {
        if let Some(one) = far_in(shape, block, port, i % 2 == 1, i / 2) {
            far.push(one)?;
        }
    }
    Ok(far)
}

// The neighbours by one port that stand in this other block, if there are some.
fn far_in(shape: &Shape, block: usize, port: usize, round: bool, to: usize) -> Option<Far>
    requires block { ROUTERS * block < MAX_NODES }
    requires port { port < local_port shape.now }
    ensures { AreFarIn shape.now block port round to result }
{
    if to == block {
        return None;
    }
    let mask = mask_of(shape, block, port, round, to);
    if mask == 0 {
        return None;
    }
    Some(Far {
        port,
        block: to,
        distance: distance_by(shape, port, round),
        mask,
    })
}

// The routers of a block of which a port leads to this one.
fn mask_of(shape: &Shape, block: usize, port: usize, round: bool, to: usize) -> u64
    requires block { ROUTERS * block < MAX_NODES }
    requires port { port < local_port shape.now }
    ensures { (r : ℕ) → r < ROUTERS
        → has_bit result r ≡ stands_in shape.now (ROUTERS * block + r) port round to }
{
    let mut mask = 0;
    for r in 0..ROUTERS {
        let inside = stands_in(shape, ROUTERS * block + r, port, round, to);
        mask = mask | alone_if(inside, r);
    }
    mask
}

// Whether there is this router, and its port leads to a block.
fn stands_in(shape: &Shape, node: usize, port: usize, round: bool, to: usize) -> bool
    requires { port < local_port shape.now }
    ensures { result ≡ stands_in shape.now node port round to }
{
    if node >= shape.nodes() {
        return false;
    }
    if !leads(shape, node, port, round) {
        return false;
    }
    match shape.neighbour(node, port) {
        Some((there, _)) => there / ROUTERS == to,
        None => false,
    }
}

// Whether a port of a router leads one step on, or round.
fn leads(shape: &Shape, node: usize, port: usize, round: bool) -> bool
    requires node { node < nodes shape.now }
    requires port { port < local_port shape.now }
    ensures { result ≡ leads shape.now node port round }
{
    let coordinates = shape.coordinates(node);
    let at = coordinates[port / 2];
    let inside = if port % 2 == 0 {
        at + 1 < shape.radix(port / 2)
    } else {
        at > 0
    };
    if round {
        shape.kind() == Kind::Torus && !inside
    } else {
        inside
    }
}

// How many routers further on the neighbours by a port stand, around the end of a block.
fn distance_by(shape: &Shape, port: usize, round: bool) -> u64
    requires { port < local_port shape.now }
    ensures is { result ≡ distance_by shape.now port round }
    ensures near { result < ROUTERS }
{
    let step = step_of(shape, port / 2, round) % ROUTERS;
    let up = port % 2 == 0;
    if up == round {
        ((ROUTERS - step) % ROUTERS) as u64
    } else {
        step as u64
    }
}

// How far apart in number neighbours in a dimension are, one step on or round.
fn step_of(shape: &Shape, dimension: usize, round: bool) -> usize
    requires { dimension < dimensions shape.now }
    ensures { result ≡ (if round then span shape.now dimension else stride shape.now dimension) }
{
    let stride = stride_of(shape, dimension);
    if round {
        stride * (shape.radix(dimension) - 1)
    } else {
        stride
    }
}

// How far apart in number neighbours in a dimension are, one step on.
fn stride_of(shape: &Shape, dimension: usize) -> usize
    requires { dimension < dimensions shape.now }
    ensures is { result ≡ stride shape.now dimension }
    ensures few { result ≤ MAX_RADIX ^ dimension }
{
    let mut stride = 1;
    for lower in 0..dimension {
        stride = stride * shape.radix(lower);
    }
    stride
}
