//! Running a network for its cycles, and on until every packet is out.

ghost use Rattle.std.specs.Prelude.{◌≡◌, ℕ, ◌+◌, ◌<◌, ◌≤◌, false, true, IfOk};
ghost use Rattle.noc_answers.specs.Prelude.{DrainsBy, RunsTo, is_out_at, state_at, events};

use crate::arriving::arriving_cycles;
use noc_net::{CYCLE_LIMIT, Network, NotRun};
use noc_times::{to_next_look, was_quiet};
use std::alloc::Global;
use std::sync::Wait;
use std::thread::Threads;
use std::time::Clock;

// Runs a network on where it is to drain: until every packet is out, or to its limit.
pub(crate) fn run_on(network: &mut Network, drain: bool)
    ensures net { network.new.net ≡ network.old.net }
    ensures end { RunsTo drain network.new.net network.old.count network.new.count }
{
    if !drain {
        return;
    }
    let limit = network.limit();
    while network.count() < limit && !network.all_out() {
        let cycles = next_piece(network, limit);
        network.run(cycles);
    }
}

// The network where it is then, run on by so many workers.
pub(crate) fn run_on_by<R: Threads + Wait + Clock + Sync>(
    rt: &R,
    alloc: Global,
    network: Network,
    drain: bool,
    workers: usize,
) -> Result<Network, NotRun>
    ensures net { IfOk result (λ n. n.net ≡ network.net) }
    ensures end { IfOk result (λ n. RunsTo drain n.net network.count n.count) }
{
    if !drain {
        return Ok(network);
    }
    let mut network = network;
    let limit = network.limit();
    while network.count() < limit && !network.all_out() {
        let cycles = next_piece(&network, limit);
        network = network.run_by(rt, alloc, cycles, workers)?;
    }
    Ok(network)
}

// How many cycles a network with packets that are not out runs before it looks again whether they
// are: up to a look before which they cannot be, or to its limit.
fn next_piece(network: &Network, limit: u64) -> u64
    requires early { network.now.count < limit }
    requires limit { limit ≤ CYCLE_LIMIT }
    requires waiting { is_out_at network.now.net network.now.count ≡ false }
    ensures some { 0 < result }
    ensures within { network.now.count + result ≤ limit }
    ensures on { (end : ℕ) → DrainsBy network.now.net limit (network.now.count + result) end
        → DrainsBy network.now.net limit network.now.count end }
{
    let left = limit - network.count();
    let waiting = unchanged_cycles(network, left)
        .max(undue_cycles(network, left))
        .max(arriving_cycles(network, left));
    to_next_look(waiting).min(left)
}

// How many of the next cycles, at most `most`, it takes until every packet is due: before it is, a
// packet is not out.
fn undue_cycles(network: &Network, most: u64) -> u64
    ensures within { result ≤ most }
    ensures waiting { (k : ℕ) → 0 < k → k ≤ result
        → is_out_at network.now.net (network.now.count + k) ≡ false }
{
    let count = network.count();
    let mut cycles = 0u64;
    for number in 0..network.packets() {
        let due = u64::from(network.packet(number).due);
        cycles = cycles.max(due.saturating_sub(count));
    }
    cycles.min(most)
}

// How many of the next cycles, at most `most`, are known to leave the state as it is: after a cycle
// without an event those before a packet becomes due, and else none.
fn unchanged_cycles(network: &Network, most: u64) -> u64
    ensures within { result ≤ most }
    ensures same { (k : ℕ) → k ≤ result → state_at network.now.net (network.now.count + k)
        ≡ state_at network.now.net network.now.count }
{
    if !is_quiet(network) {
        return 0;
    }
    let count = network.count();
    let mut quiet = most;
    for number in 0..network.packets() {
        let due = u64::from(network.packet(number).due);
        if count <= due {
            quiet = quiet.min(due - count);
        }
    }
    quiet
}

// Whether the last cycle had no event.
fn is_quiet(network: &Network) -> bool
    ensures { result ≡ true → (n : ℕ) × (network.now.count ≡ n + 1)
        × (events network.now.net n (state_at network.now.net n) ≡ 0) }
{
    match network.count().checked_sub(1) {
        Some(last) => was_quiet(last, network.last_event()),
        None => false,
    }
}
