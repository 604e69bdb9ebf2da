//! A network runs by workers.

ghost use Rattle.std.specs.Prelude.{◌≡◌, ◌+◌, ◌<◌, ◌≤◌, IfOk, IsOk};
ghost use Rattle.noc_workers.specs.Prelude.{CYCLE_LIMIT, MayRun, ShowsRun, net_in, setup_by};

use crate::apart::{Ahead, Ran, run_apart};
use crate::pace::{Pace, each, together};
use noc_engine::{Columns, Engine, Setup};
use noc_exchange::NotRun;
use std::alloc::Global;
use std::sync::Wait;
use std::thread::Threads;
use std::time::Clock;

/// Runs so many cycles of the network of a setup, as `Engine::run` does, by up to so many workers,
/// each of which runs whole blocks in a thread; or tells that memory or a thread was refused. The
/// caller's thread is one of theirs. One worker is refused nothing.
pub fn run_by<R: Threads + Wait + Clock + Sync>(
    rt: &R,
    alloc: Global,
    setup: &Setup<'_>,
    engine: Engine,
    cycles: u32,
    workers: usize,
) -> Result<Engine, NotRun>
    requires setup { engine.net ≡ setup_by setup.now }
    requires within { engine.count + cycles ≤ CYCLE_LIMIT }
    ensures value { IfOk result (λ e. e ≡ record engine { count = engine.count + cycles }) }
    ensures alone { workers ≤ 1 → IsOk result }
{
    let mut columns = engine.into_columns();
    let mut pace = Pace::new(workers, columns.tile.blocks.len());
    let mut left = cycles;
    while left > 1 {
        let ran = run_stretch(rt, alloc, setup, columns, left - 1, &mut pace)?;
        columns = ran.columns;
        left -= ran.cycles;
    }
    columns.run(setup.relation, left);
    Ok(Engine::of(columns))
}

// Runs some of so many cycles, by as many workers as pay at this pace; or one, with those after it
// in which nothing happens, where nothing happened in the last. The pace does not heed how long a
// cycle takes in which nothing happens.
fn run_stretch<R: Threads + Wait + Clock + Sync>(
    rt: &R,
    alloc: Global,
    setup: &Setup<'_>,
    columns: Columns,
    most: u32,
    pace: &mut Pace,
) -> Result<Ran, NotRun>
    requires some { 0 < most }
    requires made { net_in columns.origin ≡ setup_by setup.now }
    requires may { MayRun setup.now.relation.now most columns }
    ensures some { IfOk result (λ ran. (0 < ran.cycles) × (ran.cycles ≤ most)) }
    ensures shows { IfOk result (λ ran. ShowsRun (setup_by setup.now)
        (columns.tile.cycle + ran.cycles) ran.columns) }
    ensures workers { pace.new.workers ≡ pace.old.workers }
    ensures alone { pace.old.workers ≤ 1 → IsOk result }
{
    let mut columns = columns;
    if !columns.tile.is_busy() {
        let cycles = columns.advance(setup.relation, most);
        return Ok(Ran { columns, cycles });
    }
    let workers = pace.tiles(most).min(columns.tile.blocks.len());
    if workers > 1 {
        let most = together(most);
        return run_apart(rt, alloc, setup, columns, Ahead { workers, most }, pace);
    }
    let cycles = pace.cycles(1, most);
    let begin = pace.time(rt);
    columns.run(setup.relation, cycles);
    let took = each(begin, pace.time(rt), cycles);
    pace.heed(1, cycles, took);
    Ok(Ran { columns, cycles })
}
