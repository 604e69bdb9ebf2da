//! Lines on channels: router by router, port by port and channel by channel.

ghost use Rattle.std.specs.Prelude.{◌≡◌, ◌+◌, ◌<◌, ◌≤◌, ◌++◌, [], true, ℕ, List, Option, length, IfSome};
ghost use Rattle.std.proofs.Props.{props};
ghost use Rattle.noc_files.specs.Prelude.{below, flat_map, Grid, nodes, ports, Wrote};
ghost use Rattle.noc_files.specs.Channels.{AreInputs, is_input, lines_listed, lines_of_port, lines_of_router, page_router, router_pages};

use crate::inputs::{InputPorts, inputs_of};
use crate::page::{PAGE, Page};
use crate::pages::{Pages, write_pages};
use noc_bytes::{Sink, WriteFault};
use noc_packet::{INDICES, MAX_CHANNELS, MAX_PORTS};
use noc_route::Relation;
use noc_topo::Shape;

// The most bytes of the line on a channel, and of the lines on a port.
// Those on a router fit a page.
pub(crate) const LONGEST_LINE: usize = PAGE / INDICES;

const LONGEST_PORT: usize = LONGEST_LINE * MAX_CHANNELS;

// The channels that there are lines on: how many of the first ports of each router of a shape
// there are lines on, and of how many channels of each port.
#[derive(Drop)]
pub(crate) struct ListedChannels<'a> {
    pub(crate) shape: &'a Shape,
    pub(crate) listed: usize,
    pub(crate) vcs: usize,
}

impl<'a> ListedChannels<'a> {
    // All input channels of the routers of a relation.
    #[inline]
    pub(crate) fn of(relation: &'a Relation) -> ListedChannels<'a>
        ensures shape { result.shape.now ≡ relation.now.grid }
        ensures listed { result.listed ≡ ports relation.now.grid }
        ensures few_ports { result.listed ≤ MAX_PORTS }
        ensures vcs { result.vcs ≡ relation.now.vcs }
        ensures few { result.vcs ≤ MAX_CHANNELS }
    {
        let shape = relation.shape();
        ListedChannels {
            shape,
            listed: shape.ports(),
            vcs: relation.vcs(),
        }
    }
}

// Some lines on each of the channels of a shape.
pub(crate) trait Lines {
    // The shape, how many of the first ports of each router there are lines on,
    // and of how many channels.
    ghost grid: { Self → Grid };

    ghost listed: { Self → ℕ };

    ghost vcs: { Self → ℕ };

    // The lines on the channel of a router, a port and a VC.
    ghost said: { Self → ℕ → ℕ → ℕ → List ℕ };

    // The channels that there are lines on.
    fn channels(&self) -> ListedChannels<'_>
        ensures shape { result.shape.now ≡ grid self.now }
        ensures listed { result.listed ≡ listed self.now }
        ensures within { result.listed ≤ ports (grid self.now) }
        ensures few_ports { result.listed ≤ MAX_PORTS }
        ensures vcs { result.vcs ≡ vcs self.now }
        ensures few { result.vcs ≤ MAX_CHANNELS };

    // Whether a look at a router shows that there are no lines on any of its channels.
    fn is_silent(&self, router: usize) -> bool
        requires { router < nodes (grid self.now) }
        ensures { result ≡ true → (port vc : ℕ) → said self.now router port vc ≡ [] }
    {
        false
    }

    // Adds the lines on a channel of an input port that is local or has a link.
    fn add_line(&self, router: usize, port: usize, vc: usize, page: &mut Page)
        requires router { router < nodes (grid self.now) }
        requires port { port < listed self.now }
        requires vc { vc < vcs self.now }
        requires input { is_input (grid self.now) router port ≡ true }
        requires room { length page.old + LONGEST_LINE ≤ PAGE }
        ensures said { page.new ≡ page.old ++ said self.now router port vc }
        ensures short { length page.new ≤ length page.old + LONGEST_LINE };
}

// The lines on one router or on all, a page for each router.
#[derive(Drop)]
pub(crate) struct Listing<'a, L: Lines> {
    pub(crate) lines: &'a L,
    pub(crate) inputs: &'a InputPorts,
    pub(crate) router: Option<usize>,
    ghost known: { AreInputs (L.grid lines.now) inputs.now },
    ghost there: { IfSome router (λ r. r < nodes (L.grid lines.now)) } by { Prim.hlevel props },
}

impl<'a, L: Lines> Listing<'a, L> {
    // Whether a port is local or has a link.
    #[inline]
    fn has_lines(&self, router: usize, port: usize) -> bool
        requires router { router < nodes (L.grid self.now.lines.now) }
        requires port { port < L.listed self.now.lines.now }
        ensures { result ≡ is_input (L.grid self.now.lines.now) router port }
    {
        let ListedChannels { shape, listed, .. } = self.lines.channels();
        // (the counts say that the index is within the table)
        prove!(router < shape.nodes() && port < listed && listed <= shape.ports());
        self.inputs[router * MAX_PORTS + port]
    }

    // Adds the lines on an input port that is local or has a link.
    #[inline]
    fn add_lines(&self, router: usize, port: usize, page: &mut Page)
        requires router { router < nodes (L.grid self.now.lines.now) }
        requires port { port < L.listed self.now.lines.now }
        requires input { is_input (L.grid self.now.lines.now) router port ≡ true }
        requires room { length page.old + LONGEST_PORT ≤ PAGE }
        ensures said { page.new ≡ page.old ++ flat_map
            (L.said self.now.lines.now router port) (below (L.vcs self.now.lines.now)) }
        ensures short { length page.new ≤ length page.old + LONGEST_PORT }
    {
        for vc in 0..self.lines.channels().vcs {
            self.lines.add_line(router, port, vc, page);
        }
    }

    // Adds the lines on a port, if it is local or has a link.
    fn add_port(&self, router: usize, port: usize, page: &mut Page)
        requires router { router < nodes (L.grid self.now.lines.now) }
        requires port { port < L.listed self.now.lines.now }
        requires room { length page.old + LONGEST_PORT ≤ PAGE }
        ensures said { page.new ≡ page.old
            ++ lines_of_port (L.grid self.now.lines.now) (L.vcs self.now.lines.now) router
            (L.said self.now.lines.now router) port }
        ensures short { length page.new ≤ length page.old + LONGEST_PORT }
    {
        if !self.has_lines(router, port) {
            return;
        }
        self.add_lines(router, port, page);
    }
}

impl<'a, L: Lines> Pages for Listing<'a, L> {
    ghost pages = { λ s. router_pages (L.grid s.lines.now) s.router };

    ghost text = { λ s number. lines_of_router (L.grid s.lines.now) (L.listed s.lines.now)
        (L.vcs s.lines.now) (page_router s.router number)
        (L.said s.lines.now (page_router s.router number)) };

    fn pages(&self) -> usize {
        match self.router {
            Some(_) => 1,
            None => self.lines.channels().shape.nodes(),
        }
    }

    fn fill(&self, number: usize, page: &mut Page) {
        let router = self.router.unwrap_or(number);
        page.clear();
        if self.lines.is_silent(router) {
            return;
        }
        for port in 0..self.lines.channels().listed {
            self.add_port(router, port, page);
        }
    }
}

// Writes a header, and below it the lines on one router or on all.
pub(crate) fn write_lines<L: Lines, W: Sink>(
    header: &str,
    lines: &L,
    router: Option<usize>,
    sink: &mut W,
) -> Result<(), WriteFault>
    requires { IfSome router (λ r. r < nodes (L.grid lines.now)) }
    ensures { Wrote W.contents W.has_failed sink.old sink.new
        (header.now ++ lines_listed (L.grid lines.now) (L.listed lines.now) (L.vcs lines.now)
        router (L.said lines.now)) result }
{
    let inputs = inputs_of(lines.channels().shape);
    let listing = Listing {
        lines,
        inputs: &inputs,
        router,
    };
    write_pages(header, &listing, sink)
}
