//! Link channels, and their indices in a list.

ghost use Rattle.std.specs.Prelude.{◌≡◌, ℕ, ◌+◌, ◌*◌, ◌/◌, ◌%◌, ◌<◌, ◌≤◌, true};
ghost use Rattle.noc_topo.specs.Shape.{IsGrid, nodes, local_port};
ghost use Rattle.noc_route.specs.Ranks.{is_port_channel, is_channel, rank_count, rank_index};

use noc_topo::{LINKS, MAX_NODES, Shape};

/// A virtual channel of a link.
#[derive(Clone, Copy, Debug, PartialEq, Eq)]
pub struct LinkChannel {
    /// The router that sends on it.
    pub router: usize,
    /// Its port there.
    pub port: usize,
    /// Which of the link's virtual channels it is.
    pub vc: usize,
}

// How many link ports a router has, with a link or without: 2 to 6.
pub(crate) fn link_ports(shape: &Shape) -> usize
    ensures value { result ≡ local_port shape.now }
    ensures some { 2 ≤ result }
    ensures few { result ≤ LINKS }
    ensures grid { IsGrid shape.now }
{
    shape.ports() - 1
}

// How many routers and link ports there are, at most 1,536.
pub(crate) fn all_ports(shape: &Shape) -> usize
    ensures value { result ≡ nodes shape.now * local_port shape.now }
    ensures few { result ≤ MAX_NODES * LINKS }
    ensures grid { IsGrid shape.now }
{
    shape.nodes() * link_ports(shape)
}

// Whether a router sends on this channel of this port along a link.
pub(crate) fn is_channel(shape: &Shape, vcs: usize, router: usize, port: usize, vc: usize) -> bool
    ensures { result ≡ is_channel shape.now vcs router port vc }
{
    router < shape.nodes()
        && port < link_ports(shape)
        && vc < vcs
        && shape.neighbour(router, port).is_some()
}

// The index of a channel of a link port, by router, port and channel, in a list that has as
// many as a `usize` can count.
pub(crate) fn rank_index(shape: &Shape, vcs: usize, router: usize, port: usize, vc: usize) -> usize
    requires channel { is_port_channel shape.now vcs router port vc ≡ true }
    requires few { rank_count shape.now vcs < 18446744073709551616 }
    ensures value { result ≡ rank_index shape.now vcs router port vc }
    ensures within { result < rank_count shape.now vcs }
{
    (router * link_ports(shape) + port) * vcs + vc
}
