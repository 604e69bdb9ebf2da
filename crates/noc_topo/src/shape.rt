//! The shape of a network: a mesh or a torus of one to three dimensions.

ghost use Rattle.std.specs.Prelude.{◌≡◌, ℕ, ◌+◌, ◌<◌, ◌≤◌, IfOk, IfSome, EachIndex, slice_index};
ghost use Rattle.noc_topo.specs.Shape.{Grid, IsGrid, IsLinkBack, shape_of, wraps_of, nodes, dimensions, ports, local_port, three_coordinates, coordinates, distance, neighbour};

use crate::axis;
use crate::limits::{MAX_DIMENSIONS, MAX_DISTANCE, MAX_NODES, MAX_PORTS, MAX_RADIX};
use std::marker::Model;

/// What a dimension's two ends are: borders (a mesh) or joined (a torus).
/// Dally and Towles, chapter 3.
#[derive(Clone, Copy, Debug, PartialEq, Eq)]
pub enum Kind {
    Mesh,
    Torus,
}

/// Why sizes make no shape.
#[derive(Clone, Copy, Debug, PartialEq, Eq)]
pub enum ShapeFault {
    /// Not 1 to `MAX_DIMENSIONS` dimensions.
    BadDimensions,
    /// A radix is not 2 to `MAX_RADIX`.
    BadRadix,
    /// More than `MAX_NODES` nodes.
    TooManyNodes,
}

/// A mesh or a torus of 1 to 3 dimensions, each of radix 2 to 16, with at most 256 nodes.
#[derive(Clone, Copy, Debug, PartialEq, Eq)]
pub struct Shape {
    wraps: bool,
    sizes: [usize; 3],
    count: usize,
}

impl Model for Shape {
    ghost use Rattle.noc_topo.specs.Shape.{Grid};

    ghost Value = { Grid };

    ghost use Rattle.noc_topo.specs.Inside.{grid_of, IsSound, shape_with};

    ghost view = { grid_of };

    ghost invariant = { IsSound };

    ghost inverse = { shape_with };
}

impl Shape {
    /// The shape of these sizes, lowest dimension first, or the first fault in the order
    /// `BadDimensions`, `BadRadix`, `TooManyNodes`.
    pub fn new(kind: Kind, radix: &[usize]) -> Result<Shape, ShapeFault>
        ensures value { result ≡ shape_of kind radix.now }
        ensures grid { IfOk result IsGrid }
    {
        if radix.is_empty() || radix.len() > MAX_DIMENSIONS {
            return Err(ShapeFault::BadDimensions);
        }
        if !axis::are_radices(radix) {
            return Err(ShapeFault::BadRadix);
        }
        let sizes = axis::filled_sizes(radix);
        if axis::volume(&sizes) > MAX_NODES {
            return Err(ShapeFault::TooManyNodes);
        }
        Ok(Shape {
            wraps: kind == Kind::Torus,
            sizes,
            count: radix.len(),
        })
    }

    /// Whether it is a mesh or a torus.
    pub fn kind(&self) -> Kind
        ensures { wraps_of result ≡ self.now.wraps }
    {
        if self.wraps { Kind::Torus } else { Kind::Mesh }
    }

    /// How many nodes lie along a dimension, 0 to `dimensions` - 1: 2 to 16.
    pub fn radix(&self, dimension: usize) -> usize
        requires { dimension < dimensions self.now }
        ensures value { result ≡ slice_index self.now.radix dimension }
        ensures some { 2 ≤ result }
        ensures few { result ≤ MAX_RADIX }
        ensures grid { IsGrid self.now }
    {
        let sizes = &self.sizes;
        sizes[dimension]
    }

    /// How many nodes there are, 2 to 256.
    pub fn nodes(&self) -> usize
        ensures value { result ≡ nodes self.now }
        ensures some { 2 ≤ result }
        ensures few { result ≤ MAX_NODES }
        ensures grid { IsGrid self.now }
    {
        axis::volume(&self.sizes)
    }

    /// How many dimensions there are, 1 to 3.
    pub fn dimensions(&self) -> usize
        ensures value { result ≡ dimensions self.now }
        ensures some { 1 ≤ result }
        ensures few { result ≤ MAX_DIMENSIONS }
        ensures grid { IsGrid self.now }
    {
        self.count
    }

    /// How many ports a router has, 3 to 7: two for each dimension, and the local
    /// port, which is the last.
    pub fn ports(&self) -> usize
        ensures value { result ≡ ports self.now }
        ensures local { result ≡ local_port self.now + 1 }
        ensures some { 3 ≤ result }
        ensures few { result ≤ MAX_PORTS }
        ensures grid { IsGrid self.now }
    {
        2 * self.count + 1
    }

    /// The coordinates of a node, lowest dimension first, 0 where a dimension is missing.
    pub fn coordinates(&self, node: usize) -> [usize; 3]
        requires { node < nodes self.now }
        ensures value { result ≡ three_coordinates (coordinates self.now.radix node) }
        ensures range { EachIndex result (λ i. slice_index result i < MAX_RADIX) }
        ensures grid { IsGrid self.now }
    {
        axis::split(&self.sizes, node)
    }

    /// How many hops the shortest way from one node to another has, at most `MAX_DISTANCE`.
    /// Dally and Towles, chapter 3.
    pub fn distance(&self, from: usize, to: usize) -> usize
        requires from { from < nodes self.now }
        requires to { to < nodes self.now }
        ensures value { result ≡ distance self.now from to }
        ensures bound { result ≤ MAX_DISTANCE }
        ensures grid { IsGrid self.now }
    {
        let x = axis::split(&self.sizes, from);
        let t = axis::split(&self.sizes, to);
        axis::apart(self.wraps, self.sizes[0], x[0], t[0])
            + axis::apart(self.wraps, self.sizes[1], x[1], t[1])
            + axis::apart(self.wraps, self.sizes[2], x[2], t[2])
    }

    /// The neighbour to which a port leads, and the input port by which a flit enters there; None
    /// at a border of a mesh and for the local port.
    pub fn neighbour(&self, node: usize, port: usize) -> Option<(usize, usize)>
        requires node { node < nodes self.now }
        requires port { port < ports self.now }
        ensures value { result ≡ neighbour self.now node port }
        ensures range { IfSome result (λ to. (to.0 < nodes self.now)
            × (to.1 < local_port self.now)) }
        ensures grid { IsGrid self.now }
    {
        if port >= 2 * self.count {
            return None;
        }
        let mut coordinates = axis::split(&self.sizes, node);
        let dimension = port / 2;
        coordinates[dimension] = axis::moved(
            self.wraps,
            self.sizes[dimension],
            port % 2 == 0,
            coordinates[dimension],
        )?;
        Some((axis::join(&self.sizes, &coordinates), axis::other_end(port)))
    }
}

/// A law: each link leads to a node by a port other than the local one, and the port there leads
/// back. Dally and Towles, chapter 3.
pub fn links_are_mutual()
    ensures { (g : Grid) (a p b q : ℕ) → IsGrid g → a < nodes g → p < ports g
        → neighbour g a p ≡ Some (b, q) → IsLinkBack g a p b q }
{}
