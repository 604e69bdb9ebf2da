//! The table of a relation by columns: the sets of an input channel, by destination.

ghost use Rattle.std.specs.Prelude.{◌≡◌, ◌⊎◌, ℕ, ◌+◌, ◌*◌, ◌<◌, ◌≤◌, IfOk, IfSome, IsTrue, length, slice_index, vec_len};
ghost use Rattle.noc_topo.specs.Shape.{nodes};
ghost use Rattle.noc_route.specs.Columns.{table_of, AreColumns, AreKept, AreKeptTo, StandsAt};
ghost use Rattle.noc_route.specs.Entered.{AreAll, sets_in};
ghost use Rattle.noc_route.specs.Routes.{width, pages};
ghost use Rattle.noc_route.specs.Trimming.{left_in, IsFirstLeft};

use crate::entered::Entered;
use crate::gather::Departures;
use crate::rule::Entry;
use crate::set_list::SetList;
use crate::sizes::Sizes;
use crate::trim::leave_pair;
use noc_packet::ChannelSet;
use std::alloc::{AllocError, Global};

// The columns of a table. Equal ones of a router and a class are kept once: in dimension order all
// channels of an input port have the same.
#[derive(Drop)]
pub(crate) struct Columns {
    pub(crate) sizes: Sizes,
    sets: SetList,
    starts: Vec<u32>,
    ghost all: { AreColumns sizes starts.items (length sets) },
}

impl Columns {
    // The columns of a rule's sets at the entries that packets reach, and the first entry that is
    // reached and has an empty set.
    pub(crate) fn new(
        alloc: Global,
        leaving: &Departures,
        entered: &Entered,
    ) -> Result<(Columns, Option<Entry>), AllocError>
        requires { AreAll leaving.now.map.now.sizes entered.now }
        ensures sizes { IfOk result (λ made. made.0.sizes ≡ leaving.now.map.now.sizes) }
        ensures table { let f = leaving.now.map.now.sizes in
            IfOk result (λ made. table_of f made.0.sets made.0.starts.items
            ≡ left_in f (sets_in f entered.now) leaving.now.outs.now) }
        ensures first { let f = leaving.now.map.now.sizes in
            IfOk result (λ made. IsFirstLeft f (sets_in f entered.now) leaving.now.outs.now
            (pages f.shape f.classes * width f.shape f.vcs) made.1) }
    {
        let sizes = leaving.map.sizes;
        let mut block = vec![in alloc; ChannelSet::empty(); sizes.node_count * sizes.width()]?;
        let mut coming = vec![in alloc; ChannelSet::empty(); sizes.node_count]?;
        let mut starts = vec![in alloc; 0u32; sizes.columns()]?;
        let kept = keep_all(
            alloc,
            leaving,
            entered,
            &mut coming,
            &mut block,
            &mut starts,
        );
        let (sets, first) = kept?;
        let columns = Columns {
            sizes,
            sets: SetList::of(alloc, sets)?,
            starts,
        };
        Ok((columns, first))
    }

    // The set of a column at a destination.
    pub(crate) fn set(&self, column: usize, dst: usize) -> ChannelSet
        requires column { let f = self.now.sizes in
            column < nodes f.shape * f.classes * width f.shape f.vcs }
        requires dst { dst < nodes self.now.sizes.shape }
        ensures { result ≡ slice_index self.now.sets
            (slice_index self.now.starts.items column + dst) }
    {
        self.sets.at(self.starts[column] as usize + dst)
    }
}

// The sets of all columns, which `starts` gets to know, and the first entry that is reached and has
// an empty set. `coming` and `block` are room for a router and a class.
fn keep_all(
    alloc: Global,
    leaving: &Departures,
    entered: &Entered,
    coming: &mut [ChannelSet],
    block: &mut [ChannelSet],
    starts: &mut [u32],
) -> Result<(Vec<ChannelSet>, Option<Entry>), AllocError>
    requires all { AreAll leaving.now.map.now.sizes entered.now }
    requires coming { length coming.old ≡ nodes leaving.now.map.now.sizes.shape }
    requires block { let f = leaving.now.map.now.sizes in
        length block.old ≡ nodes f.shape * width f.shape f.vcs }
    requires starts { let f = leaving.now.map.now.sizes in
        length starts.old ≡ nodes f.shape * f.classes * width f.shape f.vcs }
    ensures kept { let f = leaving.now.map.now.sizes in
        IfOk result (λ kept. AreKept f (left_in f (sets_in f entered.now) leaving.now.outs.now)
        kept.0.items starts.new (nodes f.shape * f.classes) (vec_len kept.0)) }
    ensures first { let f = leaving.now.map.now.sizes in
        IfOk result (λ kept. IsFirstLeft f (sets_in f entered.now) leaving.now.outs.now
        (pages f.shape f.classes * width f.shape f.vcs) kept.1) }
{
    let sizes = &leaving.map.sizes;
    let mut sets = Vec::new(alloc);
    let mut end = 0;
    let mut first = None;
    for pair in 0..sizes.node_count * sizes.classes {
        first = leave_pair(leaving, entered, coming, block, pair, first);
        sets.resize(end + block.len(), ChannelSet::empty())?;
        end = keep_pair(sizes, block, &mut sets, starts, pair, end);
    }
    sets.truncate(end);
    sets.shrink_to_fit();
    Ok((sets, first))
}

// Keeps the columns of a router and a class from `first` on, and answers where they end.
fn keep_pair(
    sizes: &Sizes,
    block: &[ChannelSet],
    sets: &mut [ChannelSet],
    starts: &mut [u32],
    pair: usize,
    first: usize,
) -> usize
    requires block { length block.now
        ≡ nodes sizes.now.shape * width sizes.now.shape sizes.now.vcs }
    requires sets { let f = sizes.now in length sets.old ≤ pages f.shape f.classes * width f.shape
        f.vcs }
    requires starts { length starts.old ≡ nodes sizes.now.shape * sizes.now.classes * width
        sizes.now.shape sizes.now.vcs }
    requires pair { pair < nodes sizes.now.shape * sizes.now.classes }
    requires room { first + length block.now ≤ length sets.old }
    ensures { let f = sizes.now in AreKeptTo f block.now sets.old sets.new starts.old starts.new
        pair first (width f.shape f.vcs) result }
{
    let nodes = sizes.node_count;
    let width = sizes.width();
    let mut end = first;
    for input in 0..width {
        let from = input * nodes;
        let start = place(&block[from..from + nodes], sets, first, end);
        starts[pair * width + input] = start as u32;
        end = end.max(start + nodes);
    }
    end
}

// Where a column is kept: with an equal one of those from `first` on, or at the end.
fn place(column: &[ChannelSet], sets: &mut [ChannelSet], first: usize, end: usize) -> usize
    requires some { 0 < length column.now }
    requires order { first ≤ end }
    requires room { end + length column.now ≤ length sets.old }
    ensures start { result ≤ end }
    ensures kept { StandsAt column.now sets.new result }
    ensures others { (j : ℕ) → (j < end) ⊎ (end + length column.now ≤ j)
        → slice_index sets.new j ≡ slice_index sets.old j }
{
    match find(column, &sets[first..end]) {
        Some(offset) => first + offset,
        None => {
            write(column, sets, end);
            end
        }
    }
}

// Where a column stands among others, of which the last is looked at first.
fn find(column: &[ChannelSet], kept: &[ChannelSet]) -> Option<usize>
    requires { 0 < length column.now }
    ensures within { IfSome result (λ start. start + length column.now ≤ length kept.now) }
    ensures same { IfSome result (StandsAt column.now kept.now) }
{
    for k in 0..kept.len() / column.len() {
        let start = kept.len() - (k + 1) * column.len();
        if is_at(column, kept, start) {
            return Some(start);
        }
    }
    None
}

// Whether a column stands there.
fn is_at(column: &[ChannelSet], kept: &[ChannelSet], start: usize) -> bool
    requires { start + length column.now ≤ length kept.now }
    ensures { IsTrue result → StandsAt column.now kept.now start }
{
    for dst in 0..column.len() {
        if kept[start + dst] != column[dst] {
            return false;
        }
    }
    true
}

// Writes a column.
fn write(column: &[ChannelSet], sets: &mut [ChannelSet], start: usize)
    requires { start + length column.now ≤ length sets.old }
    ensures written { StandsAt column.now sets.new start }
    ensures others { (j : ℕ) → (j < start) ⊎ (start + length column.now ≤ j)
        → slice_index sets.new j ≡ slice_index sets.old j }
{
    for dst in 0..column.len() {
        sets[start + dst] = column[dst];
    }
}
