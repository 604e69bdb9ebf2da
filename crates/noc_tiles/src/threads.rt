//! The tiles of a network, run in threads of their own.

ghost use Rattle.std.specs.Prelude.{ℕ, List, ◌≡◌, ◌+◌, ◌<◌, ◌≤◌, ◌↔◌, ◌++◌, false, get_or, vec_len, IfErr, IfOk, IsTrue, OnOk};
ghost use Rattle.std.specs.Thread.{IsSync};
ghost use Rattle.noc_net.specs.Parts.{run_in};
ghost use Rattle.noc_tiles.specs.Partition.{AddsTile, AllWhole, AreDone, IsGathered, IsKept, IsToCut};
ghost use Rattle.noc_tiles.specs.Tiles.{AllCanRun, AllEnded};
ghost use Rattle.noc_tiles.specs.declared.tile.Tile.{Tile as tile_value};

use crate::ends::{Inlet, Outlet};
use crate::partition::{Kept, empty_all, partition};
use crate::tile::{Outcome, Tile};
use crate::worker::run_tile;
use noc_exchange::{Gate, NotRun, Stop, joined, may_be_shut};
use noc_net::{Network, Parts, RunFault};
use noc_packet::Beat;
use noc_route::Relation;
use noc_router::Router;
use noc_topo::LINKS;
use std::alloc::{AllocError, Global};
use std::snapshot::Snapshot;
use std::sync::Wait;
use std::thread;
use std::thread::{Promise, Threads};

// Cuts a network into tiles, runs them in threads, and gives what they held then.
pub(crate) fn run_threads<R: Threads + Wait + Sync, G: Gate>(
    rt: &R,
    alloc: Global,
    kept: &Kept,
    routers: Vec<Router>,
    gate: &G,
) -> Result<Gathered, RunFault>
    requires { IsToCut kept.now routers.items }
    ensures asked { IfOk result (λ _. (worker k : ℕ)
        → worker < kept.now.workers → k < kept.now.cycles
        → G.shuts gate.now worker (kept.now.parts.count + k) ≡ false) }
    ensures done { IfOk result (λ all. (done : List tile_value)
        × AreDone kept.now done × IsGathered all done) }
    ensures lost { IfErr result (λ e. e ≡ RunFault.LostWorker → G.opens gate.now ≡ false) }
{
    let Ok(tiles) = partition(alloc, kept, routers) else {
        return Err(RunFault::Memory);
    };
    let stop = Stop::new();
    let tiles = match run_all(rt, &kept.parts.relation, tiles, &stop, gate) {
        Ok(tiles) => tiles,
        Err(NotRun::Memory) => return Err(RunFault::Memory),
        Err(NotRun::NoWorker) => return Err(RunFault::NoWorker),
    };
    if !all_whole(&tiles) {
        return Err(if may_be_shut(gate) {
            RunFault::LostWorker
        } else {
            RunFault::NoWorker
        });
    }
    let Ok(all) = gather(alloc, tiles) else {
        return Err(RunFault::Memory);
    };
    Ok(all)
}

// Whether every tile has made its cycles.
fn all_whole(tiles: &[Tile]) -> bool
    ensures { IsTrue result ↔ AllWhole tiles.now }
{
    for tile in tiles {
        match tile.outcome {
            Outcome::Whole => {}
            _ => return false,
        }
    }
    true
}

// What a thread promises of its tiles.
#[derive(Drop)]
struct PromisedTiles<'a, G> {
    before: Snapshot<Vec<Tile>>,
    relation: &'a Relation,
    stop: &'a Stop,
    gate: &'a G,
}

impl<'a, G: Gate> PromisedTiles<'a, G> {
    // What is promised of these tiles.
    fn of(
        tiles: &Vec<Tile>,
        relation: &'a Relation,
        stop: &'a Stop,
        gate: &'a G,
    ) -> PromisedTiles<'a, G>
        ensures before { result.before.value.items ≡ tiles.now.items }
        ensures relation { result.relation.now ≡ relation.now }
        ensures stop { result.stop.now ≡ stop.now }
        ensures gate { result.gate.now ≡ gate.now }
    {
        PromisedTiles {
            before: Snapshot::of(tiles),
            relation,
            stop,
            gate,
        }
    }
}

impl<'a, G: Gate> Promise<Result<Vec<Tile>, NotRun>> for PromisedTiles<'a, G> {
    ghost kept_by = { λ p r. IfOk r (λ v. AllEnded p.relation.now p.stop.now
        (record { opens = G.opens p.gate.now; shuts = G.shuts p.gate.now })
        p.before.value.items v.items) };
}

// Runs each tile, the second half of them in a thread of its own. It fails only where memory or a
// thread is refused.
pub(crate) fn run_all<R: Threads + Wait + Sync, G: Gate>(
    rt: &R,
    relation: &Relation,
    tiles: Vec<Tile>,
    stop: &Stop,
    gate: &G,
) -> Result<Vec<Tile>, NotRun>
    requires { AllCanRun relation.now tiles.items }
    ensures { IfOk result (λ v. AllEnded relation.now stop.now
        (record { opens = G.opens gate.now; shuts = G.shuts gate.now }) tiles.items v.items) }
{
    let count = tiles.len();
    if count <= 1 {
        return Ok(run_last(rt, relation, tiles, stop, gate));
    }
    let mut first = tiles;
    let Ok(second) = first.split_off(count / 2) else {
        stop.raise();
        return Err(NotRun::Memory);
    };
    thread::scope(
        thread::scope_env(),
        rt,
        |scope| -> Result<Vec<Tile>, NotRun>
            requires { AllCanRun relation.now first.items × AllCanRun relation.now second.items
                × (0 < vec_len first) × (0 < vec_len second) × IsSync R.row × IsSync G.row }
            ensures { IfOk result (λ v. AllEnded relation.entry.now stop.entry.now
                (record { opens = G.opens gate.entry.now; shuts = G.shuts gate.entry.now })
                (first.items ++ second.items) v.items) }
        {
            let promise = PromisedTiles::of(&second, relation, stop, gate);
            let child = scope.spawn_with(
                promise,
                move || -> Result<Vec<Tile>, NotRun>
                    requires { AllCanRun relation.now second.items × IsSync R.row × IsSync G.row }
                    ensures { IfOk result (λ v. AllEnded relation.entry.now stop.entry.now
                        (record { opens = G.opens gate.entry.now; shuts = G.shuts gate.entry.now })
                        second.items v.items) }
                { run_all(rt, relation, second, stop, gate) },
            );
            let Ok(child) = child else {
                stop.raise();
                return Err(NotRun::NoWorker);
            };
            let first = run_all(rt, relation, first, stop, gate);
            let second = child.join(rt);
            joined(first, second)
        },
    )
}

// Runs the one tile of a list of at most one.
fn run_last<G: Gate>(
    rt: &impl Wait,
    relation: &Relation,
    tiles: Vec<Tile>,
    stop: &Stop,
    gate: &G,
) -> Vec<Tile>
    requires can { AllCanRun relation.now tiles.items }
    requires one { vec_len tiles ≤ 1 }
    ensures { AllEnded relation.now stop.now
        (record { opens = G.opens gate.now; shuts = G.shuts gate.now }) tiles.items result.items }
{
    let mut tiles = tiles;
    let Some(tile) = tiles.pop() else {
        return tiles;
    };
    let ended = run_tile(rt, relation, tile, stop, gate);
    tiles.push_reserved(ended);
    tiles
}

// What the tiles held.
#[derive(Drop)]
pub(crate) struct Gathered {
    pub routers: Vec<Router>,
    pub beats: Vec<[Beat; LINKS]>,
    pub ins: Vec<Inlet>,
    pub outs: Vec<Outlet>,
}

// What all tiles held, one tile after another.
fn gather(alloc: Global, tiles: Vec<Tile>) -> Result<Gathered, AllocError>
    requires { (t : ℕ) (d : tile_value) → t < vec_len tiles
        → (get_or tiles.items t d).first + vec_len (get_or tiles.items t d).routers
        ≤ vec_len (get_or tiles.items t d).beats }
    ensures { IfOk result (λ g. IsGathered g tiles.items) }
{
    let mut all = Gathered {
        routers: Vec::new(alloc),
        beats: Vec::new(alloc),
        ins: Vec::new(alloc),
        outs: Vec::new(alloc),
    };
    for mut tile in tiles {
        let added = add(&mut all, &mut tile);
        // (by name, and before the way out: else each of its fields would be
        // let go at both, one by one)
        drop(tile);
        added?;
    }
    Ok(all)
}

// What a tile held goes behind what the tiles before it held.
fn add(all: &mut Gathered, tile: &mut Tile) -> Result<(), AllocError>
    requires { tile.old.first + vec_len tile.old.routers ≤ vec_len tile.old.beats }
    ensures { OnOk result (AddsTile tile.old all.old all.new) }
{
    let first = tile.first;
    let count = tile.routers.len();
    all.beats
        .extend_from_slice(&tile.beats[first..first + count])?;
    all.routers.append(&mut tile.routers)?;
    all.ins.append(&mut tile.ins)?;
    all.outs.append(&mut tile.outs)
}

/// The network of what the tiles held, when they have made all their cycles.
pub(crate) fn network_of(kept: Kept, all: Gathered) -> Network
    requires kept { IsKept kept }
    requires done { (tiles : List tile_value) × AreDone kept tiles × IsGathered all tiles }
    ensures { result ≡ record (run_in kept.parts) { count = kept.parts.count + kept.cycles } }
{
    let Gathered {
        routers,
        mut beats,
        mut ins,
        mut outs,
    } = all;
    empty_all(&mut ins, &mut outs, &mut beats);
    Network::from_parts(Parts {
        count: kept.parts.count + kept.cycles,
        routers,
        beats,
        ..kept.parts
    })
}
