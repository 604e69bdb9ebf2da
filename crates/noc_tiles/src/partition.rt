//! A network cut into tiles, with rings between them, and the rings emptied.
//!
//! The table of a tile's beats has a row for every router of the network, idle where a router is
//! not its own. Beats that leave the tile go into the table too, are then put, and their wires made
//! idle. One function carries beats for networks and tiles.
//!
//! Rings are made only between tiles; links inside a tile stay in its table. A ring holds two
//! beats, because a neighbour is at most one cycle behind or ahead between cycles. Both ends of a
//! ring are known by the port where the wire arrives, a router and a link port. So numbers are the
//! same everywhere, and the network's own passes serve in tiles.

ghost use Rattle.std.specs.Prelude.{ℕ, List, Option, ◌≡◌, ◌+◌, ◌*◌, ◌/◌, ◌%◌, ◌<◌, ◌≤◌, ◌↔◌, ◌++◌, [], ◌∷◌, Some, None, true, false, get_or, map, length, option_map, is_some, vec_len, IfOk, IfSome, IsOk, IsTrue, MatchOption, OnOk};
ghost use Rattle.noc_tiles.specs.Prelude.{IsGrid, nodes as nodes_of, neighbour as neighbour_of, beat_at};
ghost use Rattle.noc_tiles.specs.Ends.{End, inlet, outlet};
ghost use Rattle.noc_tiles.specs.Partition.{AreCut, IsKept, IsTileOf, IsToCut, IsUncut, own_beat};
ghost use Rattle.noc_tiles.specs.Rings.{AreEnds, AreLeftOut, AreSlots, AreTakenIn, AreTakenOut, AreTogether, CanEmpty, Empties, GoesOutTo, IsSlot, item_at, in_slots, out_slots, tile_start, without};
ghost use Rattle.noc_tiles.specs.TileStep.{is_inside, is_own};
ghost use Rattle.noc_tiles.specs.declared.ends.Outlet.{Outlet as outlet_value};
ghost use Rattle.noc_net.specs.declared.workers.TheConstants.{MAX_WORKERS};

use crate::ends::{Inlet, Outlet, set_beat};
use crate::tile::{Outcome, Tile};
use noc_exchange::ring_with;
use noc_net::Parts;
use noc_packet::{Beat, Memory};
use noc_router::{Plan, Router};
use noc_topo::{LINKS, Shape};
use std::alloc::{AllocError, Global};
use std::mem;

// What is kept of a network while its tiles run so many cycles: the routers of its parts are taken
// out, and the beats are those in flight when it was cut.
#[derive(Drop)]
pub(crate) struct Kept {
    pub parts: Parts,
    pub cycles: u64,
    pub workers: usize,
}

// The routers of a shape, shared out among workers: worker w of W has the routers from w·N/W to
// (w + 1)·N/W - 1, by whole division.
#[derive(Clone, Copy)]
struct Sharing<'a> {
    shape: &'a Shape,
    workers: usize,
    ghost grid: { IsGrid shape.now },
    ghost some: { 0 < workers },
    ghost few: { workers ≤ MAX_WORKERS },
}

impl Sharing<'_> {
    // The first router of a worker's tile, and the end of the tile before it.
    fn start(&self, worker: usize) -> usize
        requires { worker ≤ self.now.workers }
        ensures start { result ≡ tile_start (nodes_of self.now.shape.now) self.now.workers worker }
        ensures within { result ≤ nodes_of self.now.shape.now }
    {
        worker * self.shape.nodes() / self.workers
    }

    // Whether no tile begins between two routers.
    fn are_together(&self, a: usize, b: usize) -> bool
        ensures { IsTrue result ↔ AreTogether (nodes_of self.now.shape.now) self.now.workers a b }
    {
        for worker in 0..self.workers + 1 {
            let start = self.start(worker);
            if (a < start) != (b < start) {
                return false;
            }
        }
        true
    }
}

// Some routers of a shape, side by side.
#[derive(Clone, Copy)]
struct RouterSpan<'a> {
    shape: &'a Shape,
    first: usize,
    count: usize,
    ghost grid: { IsGrid shape.now },
    ghost within: { first + count ≤ nodes_of shape.now },
}

impl RouterSpan<'_> {
    // The neighbour at a port, where it is none of these routers.
    fn other_at(&self, router: usize, port: usize) -> Option<(usize, usize)>
        requires { router < nodes_of self.now.shape.now }
        ensures { MatchOption result
            (is_inside self.now.first self.now.count
            (neighbour_of self.now.shape.now router port) ≡ true)
            (λ p. (neighbour_of self.now.shape.now router port ≡ Some p)
            × (is_own self.now.first self.now.count p.0 ≡ false)
            × (p.0 < nodes_of self.now.shape.now) × (p.1 < LINKS)) }
    {
        if port >= self.shape.ports() {
            return None;
        }
        let (node, entry) = self.shape.neighbour(router, port)?;
        if self.first <= node && node < self.first + self.count {
            None
        } else {
            Some((node, entry))
        }
    }

    // The port with this number, where a wire comes to it at one of these routers from another one.
    fn coming(&self, k: usize) -> Option<usize>
        requires { k < nodes_of self.now.shape.now * LINKS }
        ensures { MatchOption result
            (is_inside self.now.first self.now.count
            (neighbour_of self.now.shape.now (k / LINKS) (k % LINKS)) ≡ true)
            (λ at. (at ≡ k) × (is_inside self.now.first self.now.count
            (neighbour_of self.now.shape.now (k / LINKS) (k % LINKS)) ≡ false)) }
    {
        self.other_at(k / LINKS, k % LINKS)?;
        Some(k)
    }

    // The port at which the wire arrives that goes by the port with this number, where
    // it leaves these routers.
    fn going(&self, k: usize) -> Option<usize>
        requires { k < nodes_of self.now.shape.now * LINKS }
        ensures { MatchOption result
            (is_inside self.now.first self.now.count
            (neighbour_of self.now.shape.now (k / LINKS) (k % LINKS)) ≡ true)
            (GoesOutTo self.now.shape.now self.now.first self.now.count k) }
    {
        let (router, port) = self.other_at(k / LINKS, k % LINKS)?;
        Some(router * LINKS + port)
    }

    // Takes the ends of the wires that come to these routers from others.
    fn take_ins(
        &self,
        alloc: Global,
        slots: &mut Vec<Option<Inlet>>,
    ) -> Result<Vec<Inlet>, AllocError>
        requires { (m : ℕ) → self.now.first * LINKS ≤ m
            → m < (self.now.first + self.now.count) * LINKS
            → is_inside self.now.first self.now.count
            (neighbour_of self.now.shape.now (m / LINKS) (m % LINKS)) ≡ false
            → is_some (get_or (in_slots slots.old.items) m None) ≡ true }
        ensures taken { IfOk result (λ v. AreTakenIn self.now.shape.now self.now.first
            self.now.count ((self.now.first + self.now.count) * LINKS) (in_slots slots.old.items)
            (map inlet v.items)) }
        ensures rest { IsOk result → (m : ℕ) → (self.now.first + self.now.count) * LINKS ≤ m
            → get_or (in_slots slots.new.items) m None
            ≡ get_or (in_slots slots.old.items) m None }
    {
        let mut ins = Vec::new(alloc);
        for k in self.first * LINKS..(self.first + self.count) * LINKS {
            move_end(slots, self.coming(k), &mut ins)?;
        }
        Ok(ins)
    }

    // Takes the ends of the wires that go from these routers to others.
    fn take_outs(
        &self,
        alloc: Global,
        slots: &mut Vec<Option<Outlet>>,
    ) -> Result<Vec<Outlet>, AllocError>
        requires { (k at : ℕ) → self.now.first * LINKS ≤ k
            → k < (self.now.first + self.now.count) * LINKS
            → GoesOutTo self.now.shape.now self.now.first self.now.count k at
            → is_some (get_or (out_slots slots.old.items) at None) ≡ true }
        ensures taken { IfOk result (λ v. AreTakenOut self.now.shape.now self.now.first
            self.now.count ((self.now.first + self.now.count) * LINKS) (out_slots slots.old.items)
            (map outlet v.items)) }
        ensures rest { IsOk result → AreLeftOut self.now.shape.now
            ((self.now.first + self.now.count) * LINKS) (out_slots slots.old.items)
            (out_slots slots.new.items) }
    {
        let mut outs = Vec::new(alloc);
        for k in self.first * LINKS..(self.first + self.count) * LINKS {
            move_end(slots, self.going(k), &mut outs)?;
        }
        Ok(outs)
    }
}

// What stands in a slot goes to the end of a list.
fn move_end<T: Drop>(
    slots: &mut Vec<Option<T>>,
    at: Option<usize>,
    ends: &mut Vec<T>,
) -> Result<(), AllocError>
    requires { IfSome at (λ k. k < vec_len slots.old) }
    ensures slots { OnOk result (slots.new.items ≡ without at slots.old.items) }
    ensures ends { OnOk result (ends.new.items ≡ ends.old.items ++ item_at at slots.old.items) }
{
    let Some(k) = at else {
        return Ok(());
    };
    let Some(end) = slots[k].take() else {
        return Ok(());
    };
    ends.push(end)?;
    Ok(())
}

// The ends of a ring on each wire between two tiles, with the beat that is in flight. They stand by
// the port where the wire arrives: port q of router r at r * LINKS + q.
fn make_rings(
    alloc: Global,
    sharing: &Sharing,
    beats: &[[Beat; LINKS]],
) -> Result<(Vec<Option<Inlet>>, Vec<Option<Outlet>>), AllocError>
    requires { length beats.now ≡ nodes_of sharing.now.shape.now }
    ensures { IfOk result (λ r. AreSlots sharing.now.shape.now sharing.now.workers beats.now
        (nodes_of sharing.now.shape.now * LINKS) (in_slots r.0.items) (out_slots r.1.items)) }
{
    let count = sharing.shape.nodes() * LINKS;
    let mut ins = Vec::with_capacity(alloc, count)?;
    let mut outs = Vec::with_capacity(alloc, count)?;
    for k in 0..count {
        let (one, other) = slot(
            alloc,
            sharing,
            k / LINKS,
            k % LINKS,
            beats[k / LINKS][k % LINKS],
        )?;
        ins.push_reserved(one);
        outs.push_reserved(other);
    }
    Ok((ins, outs))
}

// The two ends of a ring on a wire between two tiles, with the beat that is in
// flight. Other wires have none.
fn slot(
    alloc: Global,
    sharing: &Sharing,
    router: usize,
    port: usize,
    beat: Beat,
) -> Result<(Option<Inlet>, Option<Outlet>), AllocError>
    requires { router < nodes_of sharing.now.shape.now }
    ensures { IfOk result (λ s. IsSlot sharing.now.shape.now sharing.now.workers router port beat
        (option_map inlet s.0) (option_map outlet s.1)) }
{
    if port >= sharing.shape.ports() {
        return Ok((None, None));
    }
    match sharing.shape.neighbour(router, port) {
        Some((from, _)) if !sharing.are_together(router, from) => {
            let (one, other) = new_ring(alloc, router, port, beat)?;
            Ok((Some(one), Some(other)))
        }
        _ => Ok((None, None)),
    }
}

// The two ends of a ring on a wire, with the beat that is in flight.
fn new_ring(
    alloc: Global,
    router: usize,
    port: usize,
    beat: Beat,
) -> Result<(Inlet, Outlet), AllocError>
    ensures to { IfOk result (λ r. ((inlet r.0).at ≡ (router, port)) × ((inlet r.0).past ≡ [])) }
    ensures from { IfOk result (λ r. outlet r.1 ≡ record (inlet r.0) { past = beat ∷ [] }) }
{
    let (producer, consumer) = ring_with(alloc, 2, beat)?;
    Ok((
        Inlet {
            router,
            port,
            end: consumer,
        },
        Outlet {
            router,
            port,
            end: producer,
        },
    ))
}

// What is left of a network while tiles are cut from it: the routers from `first` on, and
// the ends that no tile has.
#[derive(Drop)]
pub(crate) struct Uncut {
    pub first: usize,
    pub routers: Vec<Router>,
    pub ins: Vec<Option<Inlet>>,
    pub outs: Vec<Option<Outlet>>,
}

// As many tiles as there are workers, with a ring on each wire between two of them.
pub(crate) fn partition(
    alloc: Global,
    kept: &Kept,
    routers: Vec<Router>,
) -> Result<Vec<Tile>, Memory>
    requires { IsToCut kept.now routers.items }
    ensures { IfOk result (λ v. AreCut kept.now v.items) }
{
    let mut tiles = Vec::with_capacity(alloc, kept.workers)?;
    let sharing = Sharing {
        shape: kept.parts.relation.shape(),
        workers: kept.workers,
    };
    let (ins, outs) = make_rings(alloc, &sharing, &kept.parts.beats)?;
    let mut rest = Uncut {
        first: 0,
        routers,
        ins,
        outs,
    };
    for worker in 0..kept.workers {
        let tile = cut_tile(alloc, kept, worker, &mut rest)?;
        tiles.push_reserved(tile);
    }
    Ok(tiles)
}

// Cuts the tile of a worker from what is left, with the ends of the rings on
// its wires to other tiles.
fn cut_tile(alloc: Global, kept: &Kept, worker: usize, rest: &mut Uncut) -> Result<Tile, Memory>
    requires kept { IsKept kept.now }
    requires worker { worker < kept.now.workers }
    requires rest { (I : List (Option End)) × (O : List (Option End))
        × IsUncut kept.now I O worker rest.old }
    ensures { IfOk result (λ tile. (I O : List (Option End))
        → IsUncut kept.now I O worker rest.old
        → IsTileOf kept.now I O worker tile × IsUncut kept.now I O (worker + 1) rest.new) }
{
    let shape = kept.parts.relation.shape();
    let sharing = Sharing {
        shape,
        workers: kept.workers,
    };
    let first = rest.first;
    let end = sharing.start(worker + 1);
    let count = end - first;
    let span = RouterSpan {
        shape,
        first,
        count,
    };
    let own = own_beats(alloc, &kept.parts.beats, first, count)?;
    let ins = span.take_ins(alloc, &mut rest.ins)?;
    let outs = span.take_outs(alloc, &mut rest.outs)?;
    let tail = rest.routers.split_off(count)?;
    let routers = mem::replace(&mut rest.routers, tail);
    rest.first = end;
    let plan = Plan::new(alloc, &kept.parts.relation)?;
    Ok(Tile {
        worker,
        first,
        start: kept.parts.count,
        cycles: kept.cycles,
        done: 0,
        outcome: Outcome::Whole,
        routers,
        plan,
        beats: own,
        ins,
        outs,
    })
}

// The wires of a network but for the routers from `first` to before `end`, where the
// beats are those in flight.
fn own_beats(
    alloc: Global,
    beats: &[[Beat; LINKS]],
    first: usize,
    count: usize,
) -> Result<Vec<[Beat; LINKS]>, AllocError>
    requires { first + count ≤ length beats.now }
    ensures size { IfOk result (λ v. vec_len v ≡ length beats.now) }
    ensures beats { IfOk result (λ v. (r q : ℕ)
        → beat_at v.items r q ≡ own_beat first count beats.now r q) }
{
    let mut all = vec![in alloc; [Beat::idle(); LINKS]; beats.len()]?;
    for r in first..first + count {
        all[r] = beats[r];
    }
    Ok(all)
}

// Takes the beats that are left in the rings, and puts each on its wire.
pub(crate) fn empty_all(ins: &mut Vec<Inlet>, outs: &mut Vec<Outlet>, beats: &mut [[Beat; LINKS]])
    requires { CanEmpty (length beats.old) (map inlet ins.old.items) (map outlet outs.old.items) }
    ensures { Empties (map inlet ins.old.items) (map outlet outs.old.items) (vec_len ins.old)
        beats.old beats.new }
{
    for one in ins.iter_mut() {
        let router = one.router;
        let port = one.port;
        let o = find_outlet(outs, router, port);
        let beat = empty_ring(one, &mut outs[o]);
        set_beat(beats, router, port, beat);
    }
}

// The index of the outlet of the wire that arrives at this router and port.
fn find_outlet(outs: &[Outlet], router: usize, port: usize) -> usize
    requires { (o : ℕ) × (o < length outs.now)
        × ((d : outlet_value) → (outlet (get_or outs.now o d)).at ≡ (router, port)) }
    ensures within { result < length outs.now }
    ensures at { (d : outlet_value) → (outlet (get_or outs.now result d)).at ≡ (router, port) }
{
    for k in 0..outs.len() {
        if outs[k].router == router && outs[k].port == port {
            return k;
        }
    }
    unreachable!()
}

// The beat that is left in the ring of the two ends.
fn empty_ring(i: &mut Inlet, o: &mut Outlet) -> Beat
    requires { AreEnds (inlet i.old) (outlet o.old) }
    ensures fifo { (outlet o.old).past ≡ (inlet i.old).past ++ result ∷ [] }
    ensures outlet { outlet o.new ≡ outlet o.old }
{
    i.end.slots_beside(&mut o.end);
    i.end.pop_known()
}
