//! The rules by coordinates: dimension order, dateline, west first and adaptive (Dally and Towles,
//! chapters 8 to 10 and 14).

ghost use Rattle.std.specs.Prelude.{◌≡◌, ℕ, ◌/◌, ◌%◌, ◌<◌, ◌≤◌, ◌&&◌, IfSome, Some, slice_index, EachIndex, nat_eq, nat_lt};
ghost use Rattle.noc_packet.specs.Set.{has_bit};
ghost use Rattle.noc_topo.specs.Shape.{Grid, nodes, ports, local_port, coordinates, three_coordinates};
ghost use Rattle.noc_route.specs.Entered.{parts_of, IsWay};
ghost use Rattle.noc_route.specs.Relation.{is_led, takes_channel, dor_port, is_nearer, takes_port, takes_of_class, index_in_class, is_escape_taken};
ghost use Rattle.noc_route.specs.Routes.{width};
ghost use Rattle.noc_steps.specs.Ways.{is_of_class};

use crate::fitting::FittingRule;
use crate::map::Map;
use crate::rule::Rule;
use crate::sizes::{Sizes, escapes, resource_class};
use noc_packet::ChannelSet;
use noc_steps::{Way, channels_of_class};
use noc_topo::{Kind, LINKS};

// The output channels by which a rule by coordinates leads a packet of this class, at this router
// and bound for `dst`; none by a table.
pub(crate) fn named_set(
    fitting: &FittingRule,
    class: usize,
    router: usize,
    dst: usize,
) -> ChannelSet
    requires class { class < fitting.now.map.now.sizes.classes }
    requires router { router < nodes fitting.now.map.now.sizes.shape }
    requires dst { dst < nodes fitting.now.map.now.sizes.shape }
    ensures { let f = fitting.now.map.now.sizes in (k : ℕ)
        → has_bit result k ≡ (nat_lt k (width f.shape f.vcs)
        && is_led (parts_of fitting.now) class router dst (k / f.vcs) (k % f.vcs)) }
{
    let sizes = &fitting.map.sizes;
    if router == dst {
        return ejection(sizes, class);
    }
    let way = way_of(fitting.map, router, dst);
    if let Some(port) = only_port(&way, fitting.rule) {
        return channels(&way, fitting, class, port);
    }
    let mut set = ChannelSet::empty();
    for port in 0..sizes.port_count {
        if port < LINKS && takes_port(&way, fitting, port) {
            set = set.either(channels(&way, fitting, class, port));
        }
    }
    set
}

// The ejection channels of a class.
fn ejection(sizes: &Sizes, class: usize) -> ChannelSet
    requires { class < sizes.now.classes }
    ensures { let f = sizes.now in (k : ℕ) → has_bit result k
        ≡ (nat_eq (k / f.vcs) (local_port f.shape)
        && is_of_class f.vcs f.classes class (k % f.vcs)) }
{
    let (first, end) = channels_of_class(sizes.vcs, sizes.classes, class);
    ChannelSet::span((sizes.port_count - 1) * sizes.vcs + first, end - first)
}

// The way from a router to a destination.
fn way_of(map: &Map, router: usize, dst: usize) -> Way
    requires router { router < nodes map.now.sizes.shape }
    requires dst { dst < nodes map.now.sizes.shape }
    ensures way { IsWay map.now.sizes.shape result router dst }
    ensures link { IfSome result.towards (λ port. port < local_port map.now.sizes.shape) }
    ensures here { let xs = result.here in
        EachIndex xs (λ i. slice_index xs i ≤ slice_index map.now.last i) }
    ensures there { let ts = result.there in
        EachIndex ts (λ i. slice_index ts i ≤ slice_index map.now.last i) }
{
    let here = map.sizes.shape.coordinates(router);
    let there = map.sizes.shape.coordinates(dst);
    Way {
        here,
        there,
        towards: dor_port(map, &here, &there),
    }
}

// The port that a rule takes, where it takes no other.
fn only_port(way: &Way, rule: &Rule) -> Option<usize>
    ensures towards { IfSome result (λ port. way.now.towards ≡ Some port) }
    ensures only { IfSome result (λ port. (g : Grid) (r t p : ℕ) → IsWay g way.now r t
        → takes_port g rule.now (coordinates g.radix r) (coordinates g.radix t) p
        ≡ nat_eq port p) }
{
    match rule {
        Rule::Dor | Rule::Dateline => way.towards,
        Rule::WestFirst | Rule::Adaptive | Rule::Rows(_) => None,
    }
}

// The channels of a class and of a port that a rule takes, along which it leads.
fn channels(way: &Way, fitting: &FittingRule, class: usize, port: usize) -> ChannelSet
    requires class { class < fitting.now.map.now.sizes.classes }
    requires port { port < LINKS }
    requires exists { port < ports fitting.now.map.now.sizes.shape }
    ensures { let g = parts_of fitting.now in (r t k : ℕ) → IsWay g.grid way.now r t
        → has_bit result k ≡ (nat_eq (k / g.vcs) port
        && takes_channel g.grid g.vcs g.classes g.rule class (coordinates g.grid.radix r)
        (coordinates g.grid.radix t) port (k % g.vcs)) }
{
    let sizes = &fitting.map.sizes;
    let (first, end) = channels_of_class(sizes.vcs, sizes.classes, class);
    let mut set = ChannelSet::empty();
    for vc in first..end {
        if takes_of_class(way, fitting, port, vc) {
            set = set.with(sizes.index(port, vc));
        }
    }
    set
}

// Whether a rule leads along this port, away from the destination.
fn takes_port(way: &Way, fitting: &FittingRule, port: usize) -> bool
    requires port { port < LINKS }
    requires here { let xs = way.now.here in
        EachIndex xs (λ i. slice_index xs i ≤ slice_index fitting.now.map.now.last i) }
    requires there { let ts = way.now.there in
        EachIndex ts (λ i. slice_index ts i ≤ slice_index fitting.now.map.now.last i) }
    ensures { let g = fitting.now.map.now.sizes.shape in (r t : ℕ) → IsWay g way.now r t
        → result ≡ takes_port g fitting.now.rule.now (coordinates g.radix r)
        (coordinates g.radix t) port }
{
    match fitting.rule {
        Rule::Dor | Rule::Dateline => way.towards == Some(port),
        Rule::WestFirst => is_nearer(way, fitting.map, port) && way.is_west_first(port),
        Rule::Adaptive => is_nearer(way, fitting.map, port),
        Rule::Rows(_) => false,
    }
}

// Whether a link port leads along the shorter way in its dimension, or up where both are
// equally long.
fn is_nearer(way: &Way, map: &Map, port: usize) -> bool
    requires port { port < LINKS }
    requires here { let xs = way.now.here in
        EachIndex xs (λ i. slice_index xs i ≤ slice_index map.now.last i) }
    requires there { let ts = way.now.there in
        EachIndex ts (λ i. slice_index ts i ≤ slice_index map.now.last i) }
    ensures { let g = map.now.sizes.shape in (r t : ℕ) → IsWay g way.now r t
        → result ≡ is_nearer g (coordinates g.radix r) (coordinates g.radix t) port }
{
    let i = port / 2;
    if way.here[i] == way.there[i] {
        return false;
    }
    if map.goes_up(i, way.here[i], way.there[i]) {
        port % 2 == 0
    } else {
        port % 2 != 0
    }
}

// Whether a rule takes a channel of a port that it takes, among those of the packet's class.
fn takes_of_class(way: &Way, fitting: &FittingRule, port: usize, vc: usize) -> bool
    requires { port < LINKS }
    ensures { let f = fitting.now.map.now.sizes in (r t : ℕ) → IsWay f.shape way.now r t
        → result ≡ takes_of_class f.shape f.vcs f.classes fitting.now.rule.now
        (coordinates f.shape.radix r) (coordinates f.shape.radix t) port vc }
{
    let sizes = &fitting.map.sizes;
    match fitting.rule {
        Rule::Dor | Rule::WestFirst | Rule::Rows(_) => true,
        Rule::Dateline => {
            resource_class(sizes.vcs, sizes.classes, vc) == way.dateline_class(port)
        }
        Rule::Adaptive => {
            let index = vc % (sizes.vcs / sizes.classes);
            index >= escapes(&sizes.shape) || takes_escape(way, sizes, port, index)
        }
    }
}

// Whether an escape channel, by its index among those of its class, is taken along a port.
fn takes_escape(way: &Way, sizes: &Sizes, port: usize, index: usize) -> bool
    requires { port < LINKS }
    ensures { let f = sizes.now in (r t v : ℕ) → IsWay f.shape way.now r t
        → index ≡ index_in_class f.vcs f.classes v
        → result ≡ is_escape_taken f.shape f.vcs f.classes (coordinates f.shape.radix r)
        (coordinates f.shape.radix t) port v }
{
    way.takes_escape(sizes.shape.kind() == Kind::Torus, port, index)
}

// The port of dimension order: in the lowest dimension in which router and destination differ.
fn dor_port(map: &Map, here: &[usize; 3], there: &[usize; 3]) -> Option<usize>
    requires here { EachIndex here.now (λ i. slice_index here.now i ≤ slice_index map.now.last i) }
    requires there { EachIndex there.now
        (λ i. slice_index there.now i ≤ slice_index map.now.last i) }
    ensures { let g = map.now.sizes.shape in (r t : ℕ)
        → here.now ≡ three_coordinates (coordinates g.radix r)
        → there.now ≡ three_coordinates (coordinates g.radix t)
        → result ≡ dor_port g (coordinates g.radix r) (coordinates g.radix t) }
{
    for i in 0..3usize {
        if here[i] != there[i] {
            return Some(if map.goes_up(i, here[i], there[i]) {
                2 * i
            } else {
                2 * i + 1
            });
        }
    }
    None
}
