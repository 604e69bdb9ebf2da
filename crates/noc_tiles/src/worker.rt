//! The run of a tile by its worker, and the phases of its cycle.
//!
//! The routers at which a wire to another tile begins finish their cycle first, and what they put
//! leaves at once. It is handed over while the inner routers work, so a neighbour seldom waits for
//! it. A tile that is all edge gains nothing, as two rows of a mesh with a neighbour on each side.

ghost use Rattle.std.specs.Prelude.{ℕ, List, ◌≡◌, ◌+◌, ◌<◌, ◌↔◌, true, false, map, length, vec_len, IsTrue, IsFalse};
ghost use Rattle.noc_tiles.specs.Prelude.{map_indexed, nodes as nodes_of, neighbour as neighbour_of, view_after_finish, idle_beat, view_after_takes, beat_at, incoming, view_after_puts, wire_after_puts, beats_at};
ghost use Rattle.noc_packet.specs.declared.packet.Beat.{Beat as beat_value};
ghost use Rattle.noc_tiles.specs.Ends.{inlet, outlet};
ghost use Rattle.noc_tiles.specs.Phases.{AreInner, CanFinish, CanTake, HaveFinished, IsCleared, KeepsTile, RouterCanFinish, TileHasSent, TileHasTaken};
ghost use Rattle.noc_tiles.specs.TileStep.{ends_after_beats, with_row, names, arrival_ports};
ghost use Rattle.noc_tiles.specs.Tiles.{AreLinkPorts, CanRun, IsReady, IsSameTile, Cycles, Runs, outlets};

use crate::ends::{Inlet, Outlet, set_beat};
use crate::tile::{Inner, Outcome, Tile, inner_of};
use noc_exchange::{Gate, Stop};
use noc_net::{deliver, take_beats};
use noc_packet::Beat;
use noc_route::Relation;
use noc_router::{Plan, Router};
use noc_topo::LINKS;
use std::sync::Wait;

/// Runs a tile's cycles as the beats come. Before each one the gate is asked, with the network's
/// count; where it does not let the worker pass, the flag is raised. So a run that is whole had no
/// cycle in which the gate was shut to the worker.
pub fn run_tile<G: Gate>(
    rt: &impl Wait,
    relation: &Relation,
    tile: Tile,
    stop: &Stop,
    gate: &G,
) -> Tile
    requires { CanRun relation.now tile }
    ensures same { IsSameTile tile result }
    ensures whole { (result.outcome ≡ Outcome.Whole) ↔ (result.done ≡ tile.cycles) }
    ensures ran { result.outcome ≡ Outcome.Whole → Runs relation.now tile.cycles tile result }
    ensures asked { result.outcome ≡ Outcome.Whole → (k : ℕ) → k < tile.cycles
        → G.shuts gate.now tile.worker (tile.start + k) ≡ false }
    ensures closed { result.outcome ≡ Outcome.Closed → G.opens gate.now ≡ false }
    ensures stopped { result.outcome ≡ Outcome.Stopped → stop.now ≡ true }
{
    let inner = inner_of(relation, tile.first, tile.routers.len(), &tile.outs);
    let mut tile = tile;
    for c in 0..tile.cycles {
        let now = tile.start + c;
        if !gate.pass(tile.worker, now) {
            stop.raise();
            tile.outcome = Outcome::Closed;
            return tile;
        }
        if !cycle(rt, relation, inner, &mut tile, now, stop) {
            tile.outcome = Outcome::Stopped;
            return tile;
        }
        tile.done = c + 1;
    }
    tile.outcome = Outcome::Whole;
    tile
}

// One cycle of a tile. What leaves the tile is put before the inner routers finish. False where
// the flag was seen raised.
fn cycle(
    rt: &impl Wait,
    relation: &Relation,
    inner: Inner,
    tile: &mut Tile,
    cycle: u64,
    stop: &Stop,
) -> bool
    requires ready { IsReady relation.now tile.old }
    requires inner { AreInner relation.now.grid tile.old.first (vec_len tile.old.routers)
        (arrival_ports (outlets tile.old)) inner }
    ensures kept { KeepsTile tile.old tile.new }
    ensures ran { IsTrue result → IsReady relation.now tile.new
        × ((row : List beat_value) × Cycles relation.now cycle tile.old tile.new row) }
    ensures stopped { IsFalse result → stop.now ≡ true }
{
    if !take(rt, relation, tile, stop) {
        return false;
    }
    let count = tile.routers.len();
    finish_some(relation, tile, cycle, 0, inner.from);
    finish_some(relation, tile, cycle, inner.to, count);
    if !send(rt, tile, stop) {
        return false;
    }
    finish_some(relation, tile, cycle, inner.from, inner.to);
    true
}

// Takes a beat from each wire that comes from another tile; then each router takes what came to it.
// False where the flag was seen raised.
fn take(rt: &impl Wait, relation: &Relation, tile: &mut Tile, stop: &Stop) -> bool
    requires { IsReady relation.now tile.old }
    ensures kept { KeepsTile tile.old tile.new }
    ensures taken { IsTrue result → (row : List beat_value)
        × TileHasTaken relation.now row tile.old tile.new }
    ensures stopped { IsFalse result → stop.now ≡ true }
{
    if !receive_all(rt, &mut tile.ins, &mut tile.beats, stop) {
        return false;
    }
    take_all(relation, tile.first, &mut tile.routers, &mut tile.beats);
    true
}

// Takes a beat from each wire that comes from another tile. False where the flag was seen raised.
fn receive_all(
    rt: &impl Wait,
    ins: &mut Vec<Inlet>,
    beats: &mut [[Beat; LINKS]],
    stop: &Stop,
) -> bool
    requires { AreLinkPorts (length beats.old) LINKS (arrival_ports (map inlet ins.old.items)) }
    ensures ends { names (map inlet ins.new.items) ≡ names (map inlet ins.old.items) }
    ensures taken { IsTrue result → (row : List beat_value) × (length row ≡ vec_len ins.old)
        × (map inlet ins.new.items ≡ ends_after_beats (map inlet ins.old.items) row)
        × ((r q : ℕ) → beat_at beats.new r q
        ≡ with_row (beat_at beats.old) (arrival_ports (map inlet ins.old.items)) row r q) }
    ensures stopped { IsFalse result → stop.now ≡ true }
{
    for one in ins.iter_mut() {
        let Some(beat) = one.take(rt, stop) else {
            return false;
        };
        set_beat(beats, one.router, one.port, beat);
    }
    true
}

// Each of the routers from `first` on takes the beats that came to it, and leaves idle
// ones. No beat came to others.
fn take_all(relation: &Relation, first: usize, routers: &mut [Router], beats: &mut [[Beat; LINKS]])
    requires { CanTake relation.now first routers.old beats.old }
    ensures routers { routers.new ≡ map_indexed
        (λ i v. view_after_takes relation.now
        (incoming relation.now.grid (beats_at beats.old (first + i))) v) routers.old }
    ensures silent { (r q : ℕ) → beat_at beats.new r q ≡ idle_beat }
{
    for i in 0..routers.len() {
        take_beats(relation, &mut routers[i], &mut beats[first + i]);
    }
}

// The routers of the tile from one index to before another, which have taken their
// beats, finish the cycle.
fn finish_some(relation: &Relation, tile: &mut Tile, cycle: u64, from: usize, to: usize)
    requires { CanFinish relation.now from to tile.old }
    ensures { HaveFinished relation.now cycle from to tile.old tile.new }
{
    for i in from..to {
        finish(
            relation,
            &mut tile.plan,
            cycle,
            &mut tile.routers[i],
            &mut tile.beats,
        );
    }
}

// One router that has taken its beats injects, decides, commits and puts its beats.
fn finish(
    relation: &Relation,
    plan: &mut Plan,
    cycle: u64,
    router: &mut Router,
    beats: &mut [[Beat; LINKS]],
)
    requires { RouterCanFinish relation.now router.old beats.old }
    ensures router { router.new
        ≡ view_after_puts (view_after_finish relation.now cycle router.old) }
    ensures beats { (r q : ℕ) → r < nodes_of relation.now.grid → beat_at beats.new r q
        ≡ wire_after_puts (view_after_finish relation.now cycle router.old)
        (neighbour_of relation.now.grid r q) (beat_at beats.old r q) }
{
    router.finish(relation, plan, cycle);
    deliver(relation, router, beats);
}

// Puts a beat on each wire that goes to another tile, and leaves idle ones. False where
// the flag was seen raised.
fn send(rt: &impl Wait, tile: &mut Tile, stop: &Stop) -> bool
    requires { AreLinkPorts (length tile.old.beats.items) LINKS (arrival_ports (outlets tile.old)) }
    ensures kept { KeepsTile tile.old tile.new }
    ensures sent { IsTrue result → TileHasSent tile.old tile.new }
    ensures stopped { IsFalse result → stop.now ≡ true }
{
    if !put_all(rt, &mut tile.outs, &tile.beats, stop) {
        return false;
    }
    clear_all(&tile.outs, &mut tile.beats);
    true
}

// Puts a beat on each wire that goes to another tile. False where the flag was seen raised.
fn put_all(rt: &impl Wait, ends: &mut Vec<Outlet>, beats: &[[Beat; LINKS]], stop: &Stop) -> bool
    requires { AreLinkPorts (length beats.now) LINKS (arrival_ports (map outlet ends.old.items)) }
    ensures ends { names (map outlet ends.new.items) ≡ names (map outlet ends.old.items) }
    ensures put { IsTrue result → map outlet ends.new.items
        ≡ ends_after_beats (map outlet ends.old.items)
        (map (λ p. beat_at beats.now p.0 p.1) (arrival_ports (map outlet ends.old.items))) }
    ensures stopped { IsFalse result → stop.now ≡ true }
{
    for one in ends.iter_mut() {
        let beat = beats[one.router][one.port];
        if !one.put(rt, beat, stop) {
            return false;
        }
    }
    true
}

// The beats that went to other tiles are idle again.
fn clear_all(ends: &[Outlet], beats: &mut [[Beat; LINKS]])
    requires { AreLinkPorts (length beats.old) LINKS (arrival_ports (map outlet ends.now)) }
    ensures { (r q : ℕ) → IsCleared (arrival_ports (map outlet ends.now)) beats.old beats.new
        (length (arrival_ports (map outlet ends.now))) r q }
{
    for end in ends {
        set_beat(beats, end.router, end.port, Beat::idle());
    }
}
