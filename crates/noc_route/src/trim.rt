//! Taking out the entries that no packet reaches.

ghost use Rattle.std.specs.Prelude.{◌≡◌, ℕ, ◌⊎◌, ◌+◌, ◌*◌, ◌<◌, ◌≤◌, ◌&&◌, length, nat_eq, slice_index};
ghost use Rattle.noc_packet.specs.Set.{has_bit};
ghost use Rattle.noc_topo.specs.Shape.{nodes};
ghost use Rattle.noc_route.specs.Entered.{AreAll, sets_in};
ghost use Rattle.noc_route.specs.Order.{earlier_entry};
ghost use Rattle.noc_route.specs.Routes.{width, pages};
ghost use Rattle.noc_route.specs.Trimming.{routes_in, page_set, comes_at, reached_at, left_in, AreComing, IsFirstLeft};

use crate::entered::Entered;
use crate::gather::Departures;
use crate::rule::Entry;
use crate::sizes::Sizes;
use noc_packet::ChannelSet;
use noc_steps::{only_if, take_row};

// Writes the sets that are left of a router and a class, by input channel and destination, and
// answers the first entry that packets reach and whose set is empty, among those of this router and
// class and those before, of which `first` is the first. `coming` gets the input channels to which
// packets come, by destination.
pub(crate) fn leave_pair(
    leaving: &Departures,
    entered: &Entered,
    coming: &mut [ChannelSet],
    block: &mut [ChannelSet],
    pair: usize,
    first: Option<Entry>,
) -> Option<Entry>
    requires all { AreAll leaving.now.map.now.sizes entered.now }
    requires coming { length coming.old ≡ nodes leaving.now.map.now.sizes.shape }
    requires block { let f = leaving.now.map.now.sizes in
        length block.old ≡ nodes f.shape * width f.shape f.vcs }
    requires pair { let f = leaving.now.map.now.sizes in pair < nodes f.shape * f.classes }
    requires first { let f = leaving.now.map.now.sizes in
        IsFirstLeft f (sets_in f entered.now) leaving.now.outs.now
        (pair * nodes f.shape * width f.shape f.vcs) first }
    ensures block { let f = leaving.now.map.now.sizes in (t i : ℕ) → t < nodes f.shape
        → i < width f.shape f.vcs → slice_index block.new (i * nodes f.shape + t)
        ≡ page_set (routes_in f (left_in f (sets_in f entered.now) leaving.now.outs.now))
        (pair * nodes f.shape + t) i }
    ensures first { let f = leaving.now.map.now.sizes in
        IsFirstLeft f (sets_in f entered.now) leaving.now.outs.now
        ((pair + 1) * nodes f.shape * width f.shape f.vcs) result }
{
    leaving.arrive(pair, coming);
    trim_pair(&leaving.map.sizes, entered, coming, block, pair);
    stuck_pair(leaving, entered, coming, pair, first)
}

// Writes the sets of a router and a class, by input channel and destination, empty at the entries
// that no packet reaches. `coming` has the input channels to which packets come, by destination.
fn trim_pair(
    sizes: &Sizes,
    entered: &Entered,
    coming: &[ChannelSet],
    block: &mut [ChannelSet],
    pair: usize,
)
    requires all { AreAll sizes.now entered.now }
    requires coming { length coming.now ≡ nodes sizes.now.shape }
    requires block { let f = sizes.now in length block.old ≡ nodes f.shape * width f.shape f.vcs }
    requires pair { pair < nodes sizes.now.shape * sizes.now.classes }
    ensures { let f = sizes.now in (t i : ℕ) → t < nodes f.shape → i < width f.shape f.vcs
        → slice_index block.new (i * nodes f.shape + t)
        ≡ reached_at f (sets_in f entered.now) coming.now pair i t }
{
    for input in 0..sizes.width() {
        trim_column(sizes, entered, coming, block, pair, input);
    }
}

// Writes those of one input channel, empty where no packet comes to it.
fn trim_column(
    sizes: &Sizes,
    entered: &Entered,
    coming: &[ChannelSet],
    block: &mut [ChannelSet],
    pair: usize,
    input: usize,
)
    requires all { AreAll sizes.now entered.now }
    requires coming { length coming.now ≡ nodes sizes.now.shape }
    requires block { let f = sizes.now in length block.old ≡ nodes f.shape * width f.shape f.vcs }
    requires pair { pair < nodes sizes.now.shape * sizes.now.classes }
    requires input { input < width sizes.now.shape sizes.now.vcs }
    ensures column { let f = sizes.now in (t : ℕ) → t < nodes f.shape
        → slice_index block.new (input * nodes f.shape + t)
        ≡ reached_at f (sets_in f entered.now) coming.now pair input t }
    ensures others { let from = input * nodes sizes.now.shape in (j : ℕ)
        → (j < from) ⊎ (from + nodes sizes.now.shape ≤ j)
        → slice_index block.new j ≡ slice_index block.old j }
{
    let nodes = sizes.node_count;
    if let Entered::OfPages(sets) = entered {
        take_row(sets, pair * nodes, coming, input, block, input * nodes);
        return;
    }
    for dst in 0..nodes {
        let set = entered.set(sizes, pair * nodes + dst, input);
        let is_reached = coming[dst].contains(input);
        block[input * nodes + dst] = only_if(set, is_reached);
    }
}

// The first entry that packets reach and whose set is empty, among those of a router and a class
// and those before, of which `first` is the first; in the order of class, router, input port and
// channel, and destination.
fn stuck_pair(
    leaving: &Departures,
    entered: &Entered,
    coming: &[ChannelSet],
    pair: usize,
    first: Option<Entry>,
) -> Option<Entry>
    requires all { AreAll leaving.now.map.now.sizes entered.now }
    requires len { length coming.now ≡ nodes leaving.now.map.now.sizes.shape }
    requires coming { AreComing leaving.now.map.now.sizes leaving.now.outs.now pair coming.now }
    requires pair { let f = leaving.now.map.now.sizes in pair < nodes f.shape * f.classes }
    requires first { let f = leaving.now.map.now.sizes in
        IsFirstLeft f (sets_in f entered.now) leaving.now.outs.now
        (pair * nodes f.shape * width f.shape f.vcs) first }
    ensures { let f = leaving.now.map.now.sizes in
        IsFirstLeft f (sets_in f entered.now) leaving.now.outs.now
        ((pair + 1) * nodes f.shape * width f.shape f.vcs) result }
{
    let nodes = leaving.map.sizes.node_count;
    let mut first = first;
    for dst in 0..nodes {
        first = stuck_page(leaving, entered, coming[dst], pair * nodes + dst, first);
    }
    first
}

// The same of one page; `first` is the first one among the pages before.
fn stuck_page(
    leaving: &Departures,
    entered: &Entered,
    coming: ChannelSet,
    page: usize,
    first: Option<Entry>,
) -> Option<Entry>
    requires all { AreAll leaving.now.map.now.sizes entered.now }
    requires page { let f = leaving.now.map.now.sizes in page < pages f.shape f.classes }
    requires coming { let f = leaving.now.map.now.sizes in (i : ℕ) → i < width f.shape f.vcs
        → has_bit coming i ≡ comes_at (routes_in f (sets_in f entered.now))
        leaving.now.outs.now page i }
    requires first { let f = leaving.now.map.now.sizes in
        IsFirstLeft f (sets_in f entered.now) leaving.now.outs.now
        (page * width f.shape f.vcs) first }
    ensures { let f = leaving.now.map.now.sizes in
        IsFirstLeft f (sets_in f entered.now) leaving.now.outs.now
        ((page + 1) * width f.shape f.vcs) result }
{
    let sizes = &leaving.map.sizes;
    if let Entered::OfPages(sets) = entered {
        if !sets[page].is_empty() {
            return first;
        }
    }
    let (class, router, dst) = sizes.page_parts(page);
    let mut first = first;
    for input in 0..sizes.width() {
        if is_stuck(sizes, entered, coming, page, input) {
            let entry = Entry {
                class,
                router,
                in_port: input / sizes.vcs,
                in_vc: input % sizes.vcs,
                dst,
            };
            first = Some(earlier(entry, first));
        }
    }
    first
}

// Whether packets come to an input channel of a page and nothing is permitted.
fn is_stuck(sizes: &Sizes, entered: &Entered, coming: ChannelSet, page: usize, input: usize) -> bool
    requires all { AreAll sizes.now entered.now }
    requires page { page < pages sizes.now.shape sizes.now.classes }
    requires input { input < width sizes.now.shape sizes.now.vcs }
    ensures { let f = sizes.now in result ≡ (has_bit coming input
        && nat_eq (page_set (routes_in f (sets_in f entered.now)) page input) 0) }
{
    coming.contains(input) && entered.set(sizes, page, input).is_empty()
}

// The one of two entries that comes first.
fn earlier(entry: Entry, other: Option<Entry>) -> Entry
    ensures { result ≡ earlier_entry entry other }
{
    match other {
        Some(other) if entry.numbers() < other.numbers() => entry,
        Some(other) => other,
        None => entry,
    }
}
