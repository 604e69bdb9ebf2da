//! The sizes that a routing relation is over, and the indices of its table.

ghost use Rattle.std.specs.Prelude.{◌≡◌, ◌+◌, ◌*◌, ◌/◌, ◌<◌, ◌≤◌, IsTrue, IfNone, IfSome, true, false};
ghost use Rattle.noc_packet.specs.declared.limits.TheConstants.{INDICES, MAX_CHANNELS, MAX_CLASSES, MAX_NODES, MAX_PORTS};
ghost use Rattle.noc_topo.specs.Shape.{IsGrid, nodes, ports};
ghost use Rattle.noc_route.specs.Relation.{resource_class, escapes, is_right};
ghost use Rattle.noc_route.specs.Routes.{width, pages, page_of, page_class, page_router, page_dst};

use crate::rule::Rule;
use noc_packet::{MAX_CHANNELS, MAX_CLASSES, MAX_NODES, MAX_PORTS};
use noc_topo::{Kind, Shape};

const _: () = prove!(noc_topo::MAX_NODES == MAX_NODES && noc_topo::MAX_PORTS == MAX_PORTS);

// A shape with its numbers of channels per link and of classes.
#[derive(Clone, Copy)]
pub(crate) struct Sizes {
    pub(crate) shape: Shape,
    pub(crate) vcs: usize,
    pub(crate) classes: usize,
    pub(crate) node_count: usize,
    pub(crate) port_count: usize,
    ghost grid: { IsGrid shape },
    ghost all_nodes: { node_count ≡ nodes shape },
    ghost all_ports: { port_count ≡ ports shape },
    ghost some_nodes: { 2 ≤ node_count },
    ghost few_nodes: { node_count ≤ MAX_NODES },
    ghost few_ports: { port_count ≤ MAX_PORTS },
    ghost some_vcs: { 1 ≤ vcs },
    ghost few_vcs: { vcs ≤ MAX_CHANNELS },
    ghost some_classes: { 1 ≤ classes },
    ghost few_classes: { classes ≤ MAX_CLASSES },
}

impl Sizes {
    // These sizes, where a relation can be made of them and of this rule.
    pub(crate) fn of(shape: &Shape, vcs: usize, classes: usize, rule: &Rule) -> Option<Sizes>
        ensures none { IfNone result (is_right shape.now vcs classes rule.now ≡ false) }
        ensures some { IfSome result (λ sizes. (is_right shape.now vcs classes rule.now ≡ true)
            × (sizes.shape ≡ shape.now) × (sizes.vcs ≡ vcs) × (sizes.classes ≡ classes)) }
    {
        if !is_right(shape, vcs, classes, rule) {
            return None;
        }
        Some(Sizes {
            shape: *shape,
            vcs,
            classes,
            node_count: shape.nodes(),
            port_count: shape.ports(),
        })
    }

    // How many input channels a router has, and output channels.
    pub(crate) fn width(&self) -> usize
        ensures value { result ≡ width self.now.shape self.now.vcs }
        ensures few { result ≤ INDICES }
    {
        self.port_count * self.vcs
    }

    // How many pages the table has: one for each router, class and destination.
    pub(crate) fn pages(&self) -> usize
        ensures value { result ≡ pages self.now.shape self.now.classes }
        ensures few { result ≤ MAX_NODES * MAX_CLASSES * MAX_NODES }
    {
        self.node_count * self.classes * self.node_count
    }

    // The number of a page.
    pub(crate) fn page(&self, class: usize, router: usize, dst: usize) -> usize
        requires class { class < self.now.classes }
        requires router { router < nodes self.now.shape }
        requires dst { dst < nodes self.now.shape }
        ensures value { result ≡ page_of self.now.shape self.now.classes class router dst }
        ensures within { result < pages self.now.shape self.now.classes }
    {
        (router * self.classes + class) * self.node_count + dst
    }

    // The class, router and destination of a page.
    pub(crate) fn page_parts(&self, page: usize) -> (usize, usize, usize)
        requires { page < pages self.now.shape self.now.classes }
        ensures class { result.0 ≡ page_class self.now.shape self.now.classes page }
        ensures router { result.1 ≡ page_router self.now.shape self.now.classes page }
        ensures dst { result.2 ≡ page_dst self.now.shape page }
        ensures range { (result.0 < self.now.classes) × (result.1 < nodes self.now.shape)
            × (result.2 < nodes self.now.shape) }
    {
        let pair = page / self.node_count;
        (
            pair % self.classes,
            pair / self.classes,
            page % self.node_count,
        )
    }

    // The index of a channel of a router, as an input or as an output.
    pub(crate) fn index(&self, port: usize, vc: usize) -> usize
        requires port { port < ports self.now.shape }
        requires vc { vc < self.now.vcs }
        ensures value { result ≡ port * self.now.vcs + vc }
        ensures within { result < width self.now.shape self.now.vcs }
        ensures few { result < INDICES }
    {
        port * self.vcs + vc
    }

    // How many columns the table has: one for each router, class and input channel.
    pub(crate) fn columns(&self) -> usize
        ensures value { result ≡ nodes self.now.shape * self.now.classes * width self.now.shape
            self.now.vcs }
        ensures few { result ≤ MAX_NODES * MAX_CLASSES * INDICES }
    {
        self.node_count * self.classes * self.width()
    }

    // The number of the column of an input channel.
    pub(crate) fn column(&self, class: usize, router: usize, input: usize) -> usize
        requires class { class < self.now.classes }
        requires router { router < nodes self.now.shape }
        requires input { input < width self.now.shape self.now.vcs }
        ensures value { result ≡ (router * self.now.classes + class) * width self.now.shape
            self.now.vcs + input }
        ensures within { result < nodes self.now.shape * self.now.classes * width self.now.shape
            self.now.vcs }
    {
        (router * self.classes + class) * self.width() + input
    }

    // The index in the table of an input channel of a page.
    pub(crate) fn slot(&self, page: usize, input: usize) -> usize
        requires page { page < pages self.now.shape self.now.classes }
        requires input { input < width self.now.shape self.now.vcs }
        ensures value { result ≡ page * width self.now.shape self.now.vcs + input }
        ensures within { result < pages self.now.shape self.now.classes * width self.now.shape
            self.now.vcs }
    {
        page * self.width() + input
    }
}

/// The half of its class's channels in which a channel is: 0, 1, or 2 for the odd one at the end.
pub fn resource_class(vcs: usize, classes: usize, vc: usize) -> usize
    requires { 0 < vcs / classes / 2 }
    ensures value { result ≡ resource_class vcs classes vc }
    ensures few { result ≤ 2 }
{
    let share = vcs / classes;
    vc % share / (share / 2)
}

/// How many channels of each class, its lowest, are escape channels of the rule `Adaptive`: 1
/// on a mesh, 2 on a torus.
pub fn escapes(shape: &Shape) -> usize
    ensures value { result ≡ escapes shape.now }
    ensures few { result ≤ 2 }
{
    match shape.kind() {
        Kind::Mesh => 1,
        Kind::Torus => 2,
    }
}

/// Whether a relation can be made of these numbers and this rule: 1 to 8 channels, 1 to 4 classes,
/// the classes divide the channels, and the rule fits them and the shape (docs/MODEL.md).
pub fn is_right(shape: &Shape, vcs: usize, classes: usize, rule: &Rule) -> bool
    ensures value { result ≡ is_right shape.now vcs classes rule.now }
    ensures limits { IsTrue result → (1 ≤ vcs) × (vcs ≤ MAX_CHANNELS) × (1 ≤ classes)
        × (classes ≤ MAX_CLASSES) }
{
    if vcs == 0 || vcs > MAX_CHANNELS || classes == 0 || classes > MAX_CLASSES {
        return false;
    }
    if vcs % classes != 0 {
        return false;
    }
    match rule {
        Rule::Dor | Rule::Rows(_) => true,
        Rule::Dateline => shape.kind() == Kind::Torus && vcs % (2 * classes) == 0,
        Rule::WestFirst => shape.kind() == Kind::Mesh && shape.dimensions() == 2,
        Rule::Adaptive => vcs / classes > escapes(shape),
    }
}
