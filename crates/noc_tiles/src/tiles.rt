//! A network run by workers.

ghost use Rattle.std.specs.Prelude.{ℕ, ◌≡◌, ◌+◌, ◌<◌, ◌≤◌, true, false, IfErr, IfOk, IsOk};

use crate::partition::Kept;
use crate::threads::{network_of, run_threads};
use noc_exchange::Gate;
use noc_net::{CYCLE_LIMIT, MAX_WORKERS, Network, RunFault};
use std::alloc::Global;
use std::mem;
use std::sync::Wait;
use std::thread::Threads;

/// Runs so many cycles, with 1 to 16 workers that each have a tile of the routers. Each worker asks
/// the gate before each cycle, with the network's count; one worker does so where the gate is not
/// always open. One worker needs no memory and no thread, so all that it can answer beside the
/// network is that the gate did not let it pass.
pub fn run_tiles<R: Threads + Wait + Sync, G: Gate>(
    rt: &R,
    alloc: Global,
    network: Network,
    cycles: u64,
    workers: usize,
    gate: &G,
) -> Result<Network, RunFault>
    requires workers { (0 < workers) × (workers ≤ MAX_WORKERS) }
    requires end { network.count + cycles ≤ CYCLE_LIMIT }
    ensures net { IfOk result (λ v. v ≡ record network { count = network.count + cycles }) }
    ensures asked { IfOk result (λ _. (worker k : ℕ) → worker < workers → k < cycles
        → G.shuts gate.now worker (network.count + k) ≡ false) }
    ensures lost { IfErr result (λ e. e ≡ RunFault.LostWorker → G.opens gate.now ≡ false) }
    ensures one { workers ≡ 1 → G.opens gate.now ≡ true → IsOk result }
    ensures one_fault { workers ≡ 1 → IfErr result (λ e. e ≡ RunFault.LostWorker) }
{
    if workers == 1 {
        return run_single(network, cycles, gate);
    }
    let mut parts = network.into_parts();
    let routers = mem::replace(&mut parts.routers, Vec::new(alloc));
    let kept = Kept {
        parts,
        cycles,
        workers,
    };
    match run_threads(rt, alloc, &kept, routers, gate) {
        Ok(all) => Ok(network_of(kept, all)),
        Err(fault) => {
            // (by name it is one call; else each of its fields would be let go here, one by one)
            drop(kept);
            Err(fault)
        }
    }
}

// Runs all routers of a network, in the caller.
fn run_single<G: Gate>(network: Network, cycles: u64, gate: &G) -> Result<Network, RunFault>
    requires { network.count + cycles ≤ CYCLE_LIMIT }
    ensures net { IfOk result (λ v. v ≡ record network { count = network.count + cycles }) }
    ensures asked { IfOk result (λ _. (k : ℕ) → k < cycles
        → G.shuts gate.now 0 (network.count + k) ≡ false) }
    ensures fault { IfErr result (λ e. (e ≡ RunFault.LostWorker) × (G.opens gate.now ≡ false)) }
{
    let mut network = network;
    if gate.always() {
        network.run(cycles);
        return Ok(network);
    }
    let first = network.count();
    for k in 0..cycles {
        if !gate.pass(0, first + k) {
            drop(network);
            return Err(RunFault::LostWorker);
        }
        network.cycle();
    }
    Ok(network)
}
