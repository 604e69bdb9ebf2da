//! The links and distances of a network, looked up once.

ghost use Rattle.std.specs.Prelude.{◌≡◌, ℕ, Option, Some, None, ◌+◌, ◌-◌, ◌*◌, ◌/◌, ◌%◌, ◌<◌, ◌≤◌, IfOk, IfSome, EachIndex, length, slice_index, slice_index_or, vec_len};
ghost use Rattle.noc_topo.specs.declared.limits.TheConstants.{MAX_DISTANCE, MAX_RADIX};
ghost use Rattle.noc_topo.specs.Shape.{Grid, nodes, ports, local_port, neighbour, distance, coordinates, three_coordinates};
ghost use Rattle.noc_steps.specs.Ways.{goes_up};

use crate::sizes::Sizes;
use noc_steps::goes_up;
use noc_topo::Kind;
use std::alloc::{AllocError, Global};

// The sizes of a relation, with each link and each distance of the shape.
#[derive(Drop)]
pub(crate) struct Map {
    pub(crate) sizes: Sizes,
    last: [usize; 3],
    links: Vec<Option<(usize, usize)>>,
    apart: Vec<usize>,
    ghost corner: { last ≡ three_coordinates (coordinates sizes.shape.radix
        (nodes sizes.shape - 1)) },
    ghost small: { EachIndex last (λ i. slice_index last i < MAX_RADIX) },
    ghost all_links: { vec_len links ≡ nodes sizes.shape * ports sizes.shape },
    ghost linked: { (k : ℕ) → k < nodes sizes.shape * ports sizes.shape
        → slice_index_or links.items k None ≡ neighbour sizes.shape (k / ports sizes.shape)
        (k % ports sizes.shape) },
    ghost all_apart: { vec_len apart ≡ nodes sizes.shape * nodes sizes.shape },
    ghost spaced: { (k : ℕ) → k < nodes sizes.shape * nodes sizes.shape
        → slice_index apart.items k ≡ distance sizes.shape (k / nodes sizes.shape)
        (k % nodes sizes.shape) },
}

impl Map {
    // The map of these sizes.
    pub(crate) fn new(alloc: Global, sizes: Sizes) -> Result<Map, AllocError>
        ensures { IfOk result (λ map. map.sizes ≡ sizes) }
    {
        let links = links_of(alloc, &sizes)?;
        let apart = distances_of(alloc, &sizes)?;
        Ok(Map {
            sizes,
            last: sizes.shape.coordinates(sizes.node_count - 1),
            links,
            apart,
        })
    }

    // The neighbour to which a port leads, and its input port.
    pub(crate) fn link(&self, router: usize, port: usize) -> Option<(usize, usize)>
        requires router { router < nodes self.now.sizes.shape }
        requires port { port < ports self.now.sizes.shape }
        ensures value { result ≡ neighbour self.now.sizes.shape router port }
        ensures range { IfSome result (λ to. (to.0 < nodes self.now.sizes.shape)
            × (to.1 < local_port self.now.sizes.shape)) }
    {
        self.links[router * self.sizes.port_count + port]
    }

    // How many hops lie between two routers, at most `MAX_DISTANCE`.
    pub(crate) fn distance(&self, from: usize, to: usize) -> usize
        requires from { from < nodes self.now.sizes.shape }
        requires to { to < nodes self.now.sizes.shape }
        ensures { result ≡ distance self.now.sizes.shape from to }
    {
        self.apart[from * self.sizes.node_count + to]
    }

    // The same of all pairs of routers, by the numbers of the pairs.
    pub(crate) fn distances(&self) -> &[usize]
        ensures len { length result.now ≡ nodes self.now.sizes.shape * nodes self.now.sizes.shape }
        ensures items { let n = nodes self.now.sizes.shape in (pair : ℕ) → pair < n * n
            → slice_index result.now pair ≡ distance self.now.sizes.shape (pair / n) (pair % n) }
    {
        self.apart.as_slice()
    }

    // How many hops lie between the routers that are farthest from one another.
    pub(crate) fn farthest(&self) -> usize
        ensures bound { (r t : ℕ) → r < nodes self.now.sizes.shape → t < nodes self.now.sizes.shape
            → distance self.now.sizes.shape r t ≤ result }
        ensures few { result ≤ MAX_DISTANCE }
    {
        let mut farthest = 0usize;
        for apart in &self.apart {
            farthest = farthest.max(*apart);
        }
        farthest
    }

    // Whether the way up is the shorter one from x to t in dimension i, or as long as the way down.
    pub(crate) fn goes_up(&self, i: usize, x: usize, t: usize) -> bool
        requires i { i < 3 }
        requires x { x ≤ slice_index self.now.last i }
        requires t { t ≤ slice_index self.now.last i }
        ensures { result ≡ goes_up self.now.sizes.shape.wraps
            (slice_index self.now.last i + 1) x t }
    {
        let wraps = self.sizes.shape.kind() == Kind::Torus;
        goes_up(wraps, self.last[i] + 1, x, t)
    }
}

// Each link, by router and port.
fn links_of(alloc: Global, sizes: &Sizes) -> Result<Vec<Option<(usize, usize)>>, AllocError>
    ensures len { IfOk result (λ links. vec_len links
        ≡ nodes sizes.now.shape * ports sizes.now.shape) }
    ensures items { IfOk result (λ links. (k : ℕ)
        → k < nodes sizes.now.shape * ports sizes.now.shape
        → slice_index_or links.items k None ≡ neighbour sizes.now.shape (k / ports sizes.now.shape)
        (k % ports sizes.now.shape)) }
{
    let ports = sizes.port_count;
    let count = sizes.node_count * ports;
    let mut links = Vec::with_capacity(alloc, count)?;
    for i in 0..count {
        links.push_reserved(sizes.shape.neighbour(i / ports, i % ports));
    }
    Ok(links)
}

// Each distance, by router and router.
fn distances_of(alloc: Global, sizes: &Sizes) -> Result<Vec<usize>, AllocError>
    ensures len { IfOk result (λ apart. vec_len apart
        ≡ nodes sizes.now.shape * nodes sizes.now.shape) }
    ensures items { IfOk result (λ apart. (k : ℕ)
        → k < nodes sizes.now.shape * nodes sizes.now.shape
        → slice_index apart.items k ≡ distance sizes.now.shape (k / nodes sizes.now.shape)
        (k % nodes sizes.now.shape)) }
{
    let nodes = sizes.node_count;
    let count = nodes * nodes;
    let mut apart = Vec::with_capacity(alloc, count)?;
    for i in 0..count {
        apart.push_reserved(sizes.shape.distance(i / nodes, i % nodes));
    }
    Ok(apart)
}
