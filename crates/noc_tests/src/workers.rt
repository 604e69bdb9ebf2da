//! Networks come back whole from every number of workers.

ghost use Rattle.std.specs.Prelude.{◌≡◌, ◌<◌, ◌≤◌, IfSome};
ghost use Rattle.noc_net.specs.declared.workers.TheConstants.{MAX_WORKERS};

use crate::networks::{dateline_ring, line_of_three, torus_of_two};
use crate::read::{LINE, RING, TORUS, are_out};
use noc_net::Network;
use noc_tiles::{AllOpen, run_tiles};
use std::sync::Wait;
use std::thread::Threads;

// Whether there is a network, and its packets are out in these cycles after so many calls of so many
// cycles, each by so many workers.
fn goes_out<R: AllocGlobal + Threads + Wait + Sync>(
    rt: &R,
    network: Option<Network>,
    calls: u64,
    cycles: u64,
    workers: usize,
    wanted: &[Option<u64>],
) -> bool
    requires opening { IfSome network (λ n. n.count ≡ 0) }
    requires calls { calls ≤ 1000 }
    requires cycles { cycles ≤ 100 }
    requires workers { (0 < workers) × (workers ≤ MAX_WORKERS) }
{
    let Some(mut network) = network else {
        return false;
    };
    for _call in 0..calls {
        let Ok(after) = run_tiles(rt, rt.alloc(), network, cycles, workers, &AllOpen) else {
            return false;
        };
        network = after;
    }
    let are_out = are_out(&network, wanted);
    drop(network);
    are_out
}

// Whether a ring goes out in one call of sixty cycles and in sixty calls of one cycle.
fn ring_goes_out<R: AllocGlobal + Threads + Wait + Sync>(rt: &R, workers: usize) -> bool
    requires { (0 < workers) × (workers ≤ MAX_WORKERS) }
{
    let in_one = goes_out(rt, dateline_ring(rt.alloc()), 1, 60, workers, RING);
    let in_sixty = goes_out(rt, dateline_ring(rt.alloc()), 60, 1, workers, RING);
    in_one && in_sixty
}

// With four workers every wire is one between two tiles.
#[test]
fn a_ring_in_one_call_and_in_sixty(rt: HostRuntime) {
    assert!(rt; ring_goes_out(&rt, 2) && ring_goes_out(&rt, 4));
}

#[test]
fn a_line_in_two_calls(rt: HostRuntime) {
    assert!(rt; goes_out(&rt, line_of_three(rt.alloc()), 2, 10, 3, LINE));
}

// Two wires each way between the same two tiles.
#[test]
fn a_torus_of_two(rt: HostRuntime) {
    assert!(rt; goes_out(&rt, torus_of_two(rt.alloc()), 1, 8, 2, TORUS));
}
