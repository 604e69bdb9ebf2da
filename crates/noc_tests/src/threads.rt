//! What no clause says of threads: that two of them run, that none waits for all others in a cycle,
//! that a worker is told as lost where a gate is shut to it, and that a flag that was raised is
//! seen.

ghost use Rattle.std.specs.Prelude.{◌≡◌, ◌<◌, ◌≤◌};
ghost use Rattle.noc_net.specs.declared.workers.TheConstants.{MAX_WORKERS};

use crate::gates::{Closing, HeadStart, Meeting};
use crate::networks::{dateline_ring, line_of_three};
use crate::read::{LINE, are_out};
use noc_tiles::{Gate, RunFault, Stop, run_tiles};
use std::sync::Wait;
use std::sync::atomic::AtomicBool;
use std::thread::Threads;

// Whether the packets of a line are out after twenty cycles by so many workers behind a gate. Where
// it could not be made, memory was refused.
pub(crate) fn line_goes_out<R: AllocGlobal + Threads + Wait + Sync, G: Gate>(
    rt: &R,
    workers: usize,
    gate: &G,
) -> Result<bool, RunFault>
    requires { (0 < workers) × (workers ≤ MAX_WORKERS) }
{
    let Some(line) = line_of_three(rt.alloc()) else {
        return Err(RunFault::Memory);
    };
    let line = run_tiles(rt, rt.alloc(), line, 20, workers, gate)?;
    let are_out = are_out(&line, LINE);
    drop(line);
    Ok(are_out)
}

// A body that runs all tiles on one thread never lets the two meet.
#[test]
fn two_workers_meet(rt: HostRuntime) {
    let meeting = Meeting {
        first: AtomicBool::new(false),
        second: AtomicBool::new(false),
    };
    assert!(rt; line_goes_out(&rt, 2, &meeting) == Ok(true));
}

// Workers that are joined in each cycle never come so far apart.
#[test]
fn tiles_run_free(rt: HostRuntime) {
    let start = HeadStart {
        ahead: AtomicBool::new(false),
    };
    assert!(rt; line_goes_out(&rt, 3, &start) == Ok(true));
}

// A gate that closes to a worker in a cycle.
fn closing(worker: usize, cycle: u64) -> Closing {
    Closing { worker, cycle }
}

// What a worker that its gate holds back is told as.
const LOST: Result<(), RunFault> = Err(RunFault::LostWorker);

// What is told of a ring that runs sixty cycles by two workers behind a gate.
fn told_of_a_ring<R: AllocGlobal + Threads + Wait + Sync>(
    rt: &R,
    gate: Closing,
) -> Result<(), RunFault> {
    let Some(ring) = dateline_ring(rt.alloc()) else {
        return Err(RunFault::Memory);
    };
    let ring = run_tiles(rt, rt.alloc(), ring, 60, 2, &gate)?;
    drop(ring);
    Ok(())
}

#[test]
fn a_gate_that_closes(rt: HostRuntime) {
    let early = told_of_a_ring(&rt, closing(1, 2));
    let late = told_of_a_ring(&rt, closing(0, 30));
    assert!(rt; early == LOST && late == LOST);
}

// What is told of a line that, after so many cycles, runs sixteen more by so many workers behind a
// gate.
fn told_of_a_line<R: AllocGlobal + Threads + Wait + Sync>(
    rt: &R,
    count: u64,
    workers: usize,
    gate: Closing,
) -> Result<(), RunFault>
    requires count { count ≤ 1000 }
    requires workers { (0 < workers) × (workers ≤ MAX_WORKERS) }
{
    let Some(mut line) = line_of_three(rt.alloc()) else {
        return Err(RunFault::Memory);
    };
    line.run(count);
    let line = run_tiles(rt, rt.alloc(), line, 16, workers, &gate)?;
    drop(line);
    Ok(())
}

// Worker 1 does not pass cycle 2.
#[test]
fn a_gate_that_closes_on_a_line(rt: HostRuntime) {
    let by_two = told_of_a_line(&rt, 0, 2, closing(1, 2));
    let by_three = told_of_a_line(&rt, 0, 3, closing(1, 2));
    assert!(rt; by_two == LOST && by_three == LOST);
}

// The gate is asked with the count of the network, and not with the cycle of the call: from count 4
// on cycle 18 is the fifteenth of the call, and cycle 2 is over.
#[test]
fn a_gate_is_asked_with_the_count(rt: HostRuntime) {
    for workers in 2..4usize {
        let late = told_of_a_line(&rt, 4, workers, closing(1, 18));
        let over = told_of_a_line(&rt, 4, workers, closing(1, 2));
        assert!(rt; late == LOST && over.is_ok());
    }
}

#[test]
fn a_raised_flag_is_seen(rt: HostRuntime) {
    let stop = Stop::new();
    let before = stop.raised();
    stop.raise();
    assert!(rt; !before && stop.raised());
}
