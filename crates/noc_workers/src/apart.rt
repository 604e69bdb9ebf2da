//! A network whose blocks run in tiles, each by a worker.

ghost use Rattle.std.specs.Prelude.{◌≡◌, ℕ, ◌+◌, ◌<◌, ◌≤◌, true, length, Some, IfOk, IsTrue, slice_get};
ghost use Rattle.noc_workers.specs.Prelude.{AllMayRun, AllShow, CYCLE_LIMIT, IsGoodSetup, MayRun, ShowsRun, Worker as One, net_in, setup_by, start_by};

use crate::cut::cut;
use crate::fork::{Stretch, run_all};
use crate::join::join;
use crate::origin::Run;
use crate::pace::{Pace, each};
use crate::worker::Worker;
use noc_engine::{Columns, Setup};
use noc_exchange::NotRun;
use std::alloc::Global;
use std::sync::Wait;
use std::thread::Threads;
use std::time::Clock;

/// By how many workers a network runs, and for how many cycles at most.
#[derive(Clone, Copy)]
pub(crate) struct Ahead {
    pub(crate) workers: usize,
    pub(crate) most: u32,
}

/// A network after so many cycles.
#[derive(Drop)]
pub(crate) struct Ran {
    pub(crate) columns: Columns,
    pub(crate) cycles: u32,
}

// Workers after so many cycles.
#[derive(Drop)]
struct Worked {
    workers: Vec<Worker>,
    cycles: u32,
}

/// Runs cycles by workers, each in a thread, for as long as that pays at this pace.
pub(crate) fn run_apart<R: Threads + Wait + Clock + Sync>(
    rt: &R,
    alloc: Global,
    setup: &Setup<'_>,
    columns: Columns,
    ahead: Ahead,
    pace: &mut Pace,
) -> Result<Ran, NotRun>
    requires some { 0 < ahead.most }
    requires workers { (0 < ahead.workers)
        × (ahead.workers ≤ length columns.tile.blocks.items) }
    requires made { net_in columns.origin ≡ setup_by setup.now }
    requires may { MayRun setup.now.relation.now ahead.most columns }
    ensures some { IfOk result (λ ran. (0 < ran.cycles) × (ran.cycles ≤ ahead.most)) }
    ensures shows { IfOk result (λ ran. ShowsRun (setup_by setup.now)
        (columns.tile.cycle + ran.cycles) ran.columns) }
    ensures workers { pace.new.workers ≡ pace.old.workers }
{
    let Columns {
        origin,
        plan,
        tile,
        found,
    } = columns;
    let run = Run {
        relation: setup.relation,
        depth: setup.depth,
        packets: setup.packets,
        plan: &plan,
        cycle: tile.cycle,
    };
    let workers = cut(alloc, &run, tile, ahead.workers)?;
    let Worked { workers, cycles } = run_on(rt, &run, workers, ahead.most, pace)?;
    let tile = join(&plan, workers)?;
    let columns = Columns {
        origin,
        plan,
        tile,
        found,
    };
    Ok(Ran { columns, cycles })
}

// Runs at most so many cycles of all workers of a network, stretch by stretch, for as long as that
// pays at this pace and something happens.
fn run_on<R: Threads + Wait + Clock + Sync>(
    rt: &R,
    run: &Run<'_>,
    workers: Vec<Worker>,
    most: u32,
    pace: &mut Pace,
) -> Result<Worked, NotRun>
    requires some { 0 < most }
    requires good { IsGoodSetup (start_by run.now).net }
    requires few { run.now.cycle + most ≤ CYCLE_LIMIT }
    requires may { AllMayRun (start_by run.now) 0 most 0 (length run.now.plan.now.around.items)
        workers.items }
    ensures some { IfOk result (λ worked. (0 < worked.cycles) × (worked.cycles ≤ most)) }
    ensures show { IfOk result (λ worked. AllShow (start_by run.now).net run.now.plan.now
        (run.now.cycle + worked.cycles) 0 (length run.now.plan.now.around.items)
        worked.workers.items) }
    ensures workers { pace.new.workers ≡ pace.old.workers }
{
    let mut workers = workers;
    let mut cycles = 0u32;
    while cycles < most {
        let more = pace.cycles(workers.len(), most - cycles);
        let begin = pace.time(rt);
        let stretch = Stretch {
            done: cycles,
            more,
            from: 0,
            to: run.plan.around.len(),
        };
        workers = run_all(rt, run, stretch, workers)?;
        let took = each(begin, pace.time(rt), more);
        if !are_whole(&workers) {
            return Err(NotRun::NoWorker);
        }
        cycles += more;
        let pays = pace.heed(workers.len(), more, took);
        if !pays || !are_busy(&workers) {
            return Ok(Worked { workers, cycles });
        }
    }
    Ok(Worked { workers, cycles })
}

// Whether each worker has run all its cycles.
fn are_whole(workers: &[Worker]) -> bool
    ensures { IsTrue result → (i : ℕ) (one : One) → slice_get workers.now i ≡ Some one
        → one.is_whole ≡ true }
{
    for worker in workers {
        if !worker.is_whole {
            return false;
        }
    }
    true
}

// Whether something has happened in one of their tiles in the last cycle.
fn are_busy(workers: &[Worker]) -> bool {
    for worker in workers {
        if worker.tile.is_busy() {
            return true;
        }
    }
    false
}
