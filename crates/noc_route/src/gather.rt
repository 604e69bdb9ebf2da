//! Which channels packets leave each router by, found by falling distance to their destination.

ghost use Rattle.std.specs.Prelude.{◌≡◌, ℕ, ◌+◌, ◌-◌, ◌*◌, ◌/◌, ◌%◌, ◌<◌, ◌≤◌, ◌&&◌, ◌||◌, List, nat_eq, nat_le, nat_lt, length, slice_index, true};
ghost use Rattle.noc_packet.specs.Set.{has_bit};
ghost use Rattle.noc_packet.specs.declared.limits.TheConstants.{INDICES};
ghost use Rattle.noc_topo.specs.Shape.{nodes, ports};
ghost use Rattle.noc_route.specs.Entered.{AreAll, sets_in};
ghost use Rattle.noc_route.specs.Routes.{width, pages};
ghost use Rattle.noc_route.specs.Trimming.{routes_in, set_in, ComesNearer, comes_in, AreComing};
ghost use Rattle.noc_route.specs.Gathering.{AreOuts, AreOutsFrom, FartherFull, IsPairDone};
ghost use Rattle.noc_steps.specs.Reached.{any_below};

use crate::entered::Entered;
use crate::map::Map;
use noc_packet::ChannelSet;
use noc_steps::{only_if, taken};

// Writes the channels by which packets leave each router, by class and destination. A packet comes
// nearer with each hop, so what reaches a router is known once the routers farther off are done.
pub(crate) fn gather(map: &Map, entered: &Entered, outs: &mut [ChannelSet])
    requires all { AreAll map.now.sizes entered.now }
    requires nearer { ComesNearer (routes_in map.now.sizes (sets_in map.now.sizes entered.now)) }
    requires outs { AreOuts (routes_in map.now.sizes (sets_in map.now.sizes entered.now)) outs.old }
    ensures { AreOutsFrom (routes_in map.now.sizes (sets_in map.now.sizes entered.now)) 0 outs.new }
{
    let table = Table { map, entered };
    let farthest = map.farthest();
    for step in 0..farthest + 1 {
        table.gather_at(outs, farthest - step);
    }
}

// Sets over a map, in which each link leads nearer to the destination.
#[derive(Drop)]
struct Table<'a> {
    map: &'a Map,
    entered: &'a Entered,
    ghost all: { AreAll map.now.sizes entered.now },
    ghost nearer: { ComesNearer (routes_in map.now.sizes (sets_in map.now.sizes entered.now)) },
}

impl<'a> Table<'a> {
    // Gathers what reaches the routers at one distance from the destination, where
    // those farther off are done.
    fn gather_at(&self, outs: &mut [ChannelSet], distance: usize)
        requires { AreOutsFrom (routes_in self.now.map.now.sizes
            (sets_in self.now.map.now.sizes self.now.entered.now)) (distance + 1) outs.old }
        ensures { AreOutsFrom (routes_in self.now.map.now.sizes
            (sets_in self.now.map.now.sizes self.now.entered.now)) distance outs.new }
    {
        let nodes = self.map.sizes.node_count;
        let apart = self.map.distances();
        for pair in 0..nodes * nodes {
            if apart[pair] == distance {
                self.gather_number(outs, pair);
            }
        }
    }

    // Gathers what reaches the router of a pair on its way to the pair's destination, by the
    // pair's number. It stands apart, so the loop that looks for pairs is short.
    #[inline(never)]
    fn gather_number(&self, outs: &mut [ChannelSet], pair: usize)
        requires pair { pair < nodes self.now.map.now.sizes.shape * nodes
            self.now.map.now.sizes.shape }
        requires outs { AreOuts (routes_in self.now.map.now.sizes
            (sets_in self.now.map.now.sizes self.now.entered.now)) outs.old }
        requires farther { let f = self.now.map.now.sizes in FartherFull (routes_in f
            (sets_in f self.now.entered.now)) outs.old (pair / f.node_count)
            (pair % f.node_count) }
        ensures { let f = self.now.map.now.sizes in IsPairDone (routes_in f
            (sets_in f self.now.entered.now)) outs.old outs.new (pair / f.node_count)
            (pair % f.node_count) f.classes }
    {
        let nodes = self.map.sizes.node_count;
        self.gather_pair(outs, pair / nodes, pair % nodes);
    }

    // Gathers what reaches one router on its way to one destination.
    fn gather_pair(&self, outs: &mut [ChannelSet], router: usize, dst: usize)
        requires router { router < nodes self.now.map.now.sizes.shape }
        requires dst { dst < nodes self.now.map.now.sizes.shape }
        requires outs { AreOuts (routes_in self.now.map.now.sizes
            (sets_in self.now.map.now.sizes self.now.entered.now)) outs.old }
        requires farther { FartherFull (routes_in self.now.map.now.sizes
            (sets_in self.now.map.now.sizes self.now.entered.now)) outs.old router dst }
        ensures { let f = self.now.map.now.sizes in IsPairDone (routes_in f
            (sets_in f self.now.entered.now)) outs.old outs.new router dst f.classes }
    {
        for class in 0..self.map.sizes.classes {
            let out = self.leaving(outs, class, router, dst);
            outs[self.map.sizes.page(class, router, dst)] = out;
        }
    }

    // The channels by which packets of a class leave a router on their way to `dst`.
    fn leaving(&self, outs: &[ChannelSet], class: usize, router: usize, dst: usize) -> ChannelSet
        requires outs { length outs.now ≡ pages self.now.map.now.sizes.shape
            self.now.map.now.sizes.classes }
        requires class { class < self.now.map.now.sizes.classes }
        requires router { router < nodes self.now.map.now.sizes.shape }
        requires dst { dst < nodes self.now.map.now.sizes.shape }
        ensures { let routes = routes_in self.now.map.now.sizes
            (sets_in self.now.map.now.sizes self.now.entered.now) in (k : ℕ)
            → k < width routes.grid routes.vcs → has_bit result k
            ≡ any_below (width routes.grid routes.vcs)
            (λ i. comes_in routes outs.now class router dst i
            && has_bit (set_in routes class router dst i) k) }
    {
        let sizes = &self.map.sizes;
        let before = Departures {
            map: self.map,
            outs,
        };
        let page = sizes.page(class, router, dst);
        let coming = before.arrivals(class, router, dst);
        match self.entered {
            Entered::OfPages(sets) => only_if(sets[page], !coming.is_empty()),
            Entered::OfEntries(sets) => taken(sets, sizes.slot(page, 0), sizes.width(), coming),
        }
    }
}

// The channels by which packets leave each router, by class and destination.
#[derive(Drop)]
pub(crate) struct Departures<'a> {
    pub(crate) map: &'a Map,
    pub(crate) outs: &'a [ChannelSet],
    ghost long: { length outs.now ≡ pages map.now.sizes.shape map.now.sizes.classes },
}

impl<'a> Departures<'a> {
    // The input channels of a router to which packets of a class come, bound for `dst`.
    pub(crate) fn arrivals(&self, class: usize, router: usize, dst: usize) -> ChannelSet
        requires class { class < self.now.map.now.sizes.classes }
        requires router { router < nodes self.now.map.now.sizes.shape }
        requires dst { dst < nodes self.now.map.now.sizes.shape }
        ensures members { let f = self.now.map.now.sizes in (sets : List ℕ) (i : ℕ)
            → i < width f.shape f.vcs → has_bit result i
            ≡ comes_in (routes_in f sets) self.now.outs.now class router dst i }
        ensures within { let f = self.now.map.now.sizes in (i : ℕ) → has_bit result i ≡ true
            → i < width f.shape f.vcs }
    {
        let mut all = ChannelSet::empty();
        for port in 0..self.map.sizes.port_count {
            all = all.either(self.arrivals_by(class, router, dst, port));
        }
        all
    }

    // Writes the input channels of a router to which packets of a class come, by destination.
    pub(crate) fn arrive(&self, pair: usize, coming: &mut [ChannelSet])
        requires pair { let f = self.now.map.now.sizes in pair < nodes f.shape * f.classes }
        requires coming { length coming.old ≡ nodes self.now.map.now.sizes.shape }
        ensures { AreComing self.now.map.now.sizes self.now.outs.now pair coming.new }
    {
        let sizes = &self.map.sizes;
        let (class, router) = (pair % sizes.classes, pair / sizes.classes);
        coming.fill(ChannelSet::empty());
        for port in 0..sizes.port_count {
            self.arrive_by(class, router, port, coming);
        }
    }

    // Adds those of one input port.
    fn arrive_by(&self, class: usize, router: usize, port: usize, coming: &mut [ChannelSet])
        requires class { class < self.now.map.now.sizes.classes }
        requires router { router < nodes self.now.map.now.sizes.shape }
        requires port { port < ports self.now.map.now.sizes.shape }
        requires coming { length coming.old ≡ nodes self.now.map.now.sizes.shape }
        ensures { let f = self.now.map.now.sizes in (sets : List ℕ) (t i : ℕ)
            → t < nodes f.shape → has_bit (slice_index coming.new t) i
            ≡ (has_bit (slice_index coming.old t) i || (nat_eq (i / f.vcs) port
            && comes_in (routes_in f sets) self.now.outs.now class router t i)) }
    {
        match self.map.link(router, port) {
            None => {
                for dst in 0..coming.len() {
                    let more = self.arrivals_by(class, router, dst, port);
                    coming[dst] = coming[dst].either(more);
                }
            }
            Some((sender, out_port)) => {
                let vcs = self.map.sizes.vcs;
                let first = self.map.sizes.page(class, sender, 0);
                bring(self.outs, first, out_port * vcs, vcs, port * vcs, coming);
            }
        }
    }

    // Those of one input port.
    fn arrivals_by(&self, class: usize, router: usize, dst: usize, port: usize) -> ChannelSet
        requires class { class < self.now.map.now.sizes.classes }
        requires router { router < nodes self.now.map.now.sizes.shape }
        requires dst { dst < nodes self.now.map.now.sizes.shape }
        requires port { port < ports self.now.map.now.sizes.shape }
        ensures { let f = self.now.map.now.sizes in (sets : List ℕ) (i : ℕ)
            → has_bit result i ≡ (nat_eq (i / f.vcs) port
            && comes_in (routes_in f sets) self.now.outs.now class router dst i) }
    {
        let sizes = &self.map.sizes;
        let vcs = sizes.vcs;
        if port + 1 == sizes.port_count {
            let count = if router == dst { 0 } else { vcs };
            return ChannelSet::span(port * vcs, count);
        }
        match self.map.link(router, port) {
            None => ChannelSet::empty(),
            Some((sender, out_port)) => {
                let out = self.outs[sizes.page(class, sender, dst)];
                out.moved(out_port * vcs, vcs, port * vcs)
            }
        }
    }
}

// Adds the members among the `count` indices from `from` on of the sets from `first` on, each to
// one set, moved so that the first of these is `to`.
fn bring(
    outs: &[ChannelSet],
    first: usize,
    from: usize,
    count: usize,
    to: usize,
    coming: &mut [ChannelSet],
)
    requires outs { first + length coming.old ≤ length outs.now }
    requires from { from < INDICES }
    requires room { to + count ≤ INDICES }
    ensures { (t i : ℕ) → t < length coming.old → has_bit (slice_index coming.new t) i
        ≡ (has_bit (slice_index coming.old t) i || (nat_le to i && nat_lt i (to + count)
        && has_bit (slice_index outs.now (first + t)) (from + (i - to)))) }
{
    for dst in 0..coming.len() {
        let out = outs[first + dst];
        coming[dst] = coming[dst].either(out.moved(from, count, to));
    }
}
