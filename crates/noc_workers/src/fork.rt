//! Workers in threads of their own.

ghost use Rattle.std.specs.Prelude.{◌≡◌, ◌+◌, ◌<◌, ◌≤◌, IfOk, vec_len};
ghost use Rattle.std.specs.Thread.{IsSync};
ghost use Rattle.noc_workers.specs.Prelude.{AllHaveRun, AreHalves, HaveRunStretch, MayRunStretch, start_by, start_of};

use crate::origin::Run;
use crate::worker::{Worker, run_worker};
use noc_exchange::{NotRun, joined};
use noc_waiting::settle;
use std::sync::Wait;
use std::thread;
use std::thread::{Promise, Threads};

/// How many cycles of a run are done and how many more workers run, and of which blocks.
#[derive(Clone, Copy)]
pub(crate) struct Stretch {
    pub(crate) done: u32,
    pub(crate) more: u32,
    /// The first block of the workers.
    pub(crate) from: usize,
    /// The block after their last one.
    pub(crate) to: usize,
}

// What a thread promises of its workers.
#[derive(Drop)]
struct RunsOf<'a>(Run<'a>, Stretch);

impl<'a> Promise<Result<Vec<Worker>, NotRun>> for RunsOf<'a> {
    ghost kept_by = { λ p r. IfOk r (λ v. HaveRunStretch (start_by p.0) p.1 v.items) };
}

/// Runs the cycles of a stretch by each worker, and the second half of them in a thread of its own.
/// It fails only where memory or a thread is refused: the rings of the workers that do not run are
/// let go then, and the others come back without their cycles.
#[cycle(run)]
pub(crate) fn run_all<R: Threads + Wait + Sync>(
    rt: &R,
    run: &Run<'_>,
    stretch: Stretch,
    workers: Vec<Worker>,
) -> Result<Vec<Worker>, NotRun>
    requires { MayRunStretch (start_by run.now) stretch workers.items }
    ensures { IfOk result (λ v. HaveRunStretch (start_by run.now) stretch v.items) }
{
    let count = workers.len();
    if count <= 1 {
        return Ok(run_last(rt, run, stretch, workers));
    }
    let mut first = workers;
    let Ok(second) = first.split_off(count / 2) else {
        return Err(NotRun::Memory);
    };
    let middle = second[0].tile.first;
    let here = Stretch {
        to: middle,
        ..stretch
    };
    let there = Stretch {
        from: middle,
        ..stretch
    };
    run_both(rt, run, here, there, first, second)
}

// Runs both halves of a stretch by the workers of each, those of the second in a thread of their
// own.
#[cycle(run)]
fn run_both<R: Threads + Wait + Sync>(
    rt: &R,
    run: &Run<'_>,
    here: Stretch,
    there: Stretch,
    first: Vec<Worker>,
    second: Vec<Worker>,
) -> Result<Vec<Worker>, NotRun>
    requires some { (0 < vec_len first) × (0 < vec_len second) }
    requires halves { AreHalves here there }
    requires first { MayRunStretch (start_by run.now) here first.items }
    requires second { MayRunStretch (start_by run.now) there second.items }
    ensures { IfOk result (λ v. AllHaveRun (start_by run.now) (here.done + here.more) here.from
        there.to v.items) }
{
    // (what closures ensure is known where they capture the parts of a run, and not the run)
    let Run {
        relation,
        depth,
        packets,
        plan,
        cycle,
    } = *run;
    thread::scope(
        thread::scope_env(),
        rt,
        |scope| -> Result<Vec<Worker>, NotRun>
            requires { let start = start_of relation.now depth packets.now.items plan.now cycle in
                IsSync R.row × (0 < vec_len first) × (0 < vec_len second) × AreHalves here there
                × MayRunStretch start here first.items × MayRunStretch start there second.items }
            ensures { IfOk result (λ v. AllHaveRun (start_of relation.entry.now depth
                packets.entry.now.items plan.entry.now cycle) (here.done + here.more) here.from
                there.to v.items) }
        {
            let run = Run::of(relation, depth, packets, plan, cycle);
            let child = scope.spawn_with(
                RunsOf(run, there),
                move || -> Result<Vec<Worker>, NotRun>
                    requires { IsSync R.row
                        × MayRunStretch (start_of relation.now depth packets.now.items plan.now
                        cycle) there second.items }
                    ensures { IfOk result (λ v. HaveRunStretch (start_of relation.entry.now depth
                        packets.entry.now.items plan.entry.now cycle) there v.items) }
                {
                    let run = Run::of(relation, depth, packets, plan, cycle);
                    run_all(rt, &run, there, second)
                },
            );
            let Ok(child) = child else {
                return Err(NotRun::NoWorker);
            };
            let first = run_all(rt, &run, here, first);
            let second = child.join(rt);
            joined(first, second)
        },
    )
}

// Runs the one worker of a list of at most one. (Its thread may be new, and the one that started it
// makes way for it.)
fn run_last(rt: &impl Wait, run: &Run<'_>, stretch: Stretch, workers: Vec<Worker>) -> Vec<Worker>
    requires may { MayRunStretch (start_by run.now) stretch workers.items }
    requires one { vec_len workers ≤ 1 }
    ensures { HaveRunStretch (start_by run.now) stretch result.items }
{
    let mut workers = workers;
    let Some(worker) = workers.pop() else {
        return workers;
    };
    settle(rt);
    let ended = run_worker(rt, run, worker, stretch.more);
    workers.push_reserved(ended);
    workers
}
