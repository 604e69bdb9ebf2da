//! Running the network that is asked for.

ghost use Rattle.std.specs.Prelude.{◌≡◌, ◌+◌, ◌<◌, ◌≤◌, Some, IfOk};
ghost use Rattle.noc_answers.specs.Prelude.{lent_files, workers_of, IsAnswered, RunsTo, runs_until_out, report_of};

use crate::drain::{run_on, run_on_by};
use noc_commands::Report;
use noc_faults::{Fault, Status};
use noc_files::{Sink, write_report};
use noc_net::{CYCLE_LIMIT, Network, NotRun, RunFault};
use noc_requests::{Files, ended, ending, opening_network};
use std::alloc::Global;
use std::sync::Wait;
use std::thread::Threads;
use std::time::Clock;

// Runs the network for its cycles, and writes a report; ranks are checked before, if there are any.
pub(crate) fn run<W: Sink>(
    rt: &(impl Threads + Sync),
    alloc: Global,
    files: &Files<'_>,
    report: Report,
    drain: bool,
    sink: &mut W,
) -> Result<Status, Fault>
    requires report { report_of files.now.command ≡ Some report }
    requires drain { runs_until_out files.now.command ≡ drain }
    ensures { IsAnswered W.contents W.has_failed sink.old sink.new (lent_files files.now) result }
{
    let (mut network, cycles) = opening_network(rt, alloc, files)?;
    network.run(cycles);
    run_on(&mut network, drain);
    ended(write_report(&network, report, sink), ending(&network))
}

// What is asked of a run by workers: how many these are, the report, and whether it is to drain.
#[derive(Clone, Copy)]
pub(crate) struct Task {
    pub(crate) workers: usize,
    pub(crate) report: Report,
    pub(crate) drain: bool,
}

// The same by two or more workers.
pub(crate) fn run_by_workers<R: Threads + Wait + Clock + Sync, W: Sink>(
    rt: &R,
    alloc: Global,
    files: &Files<'_>,
    task: Task,
    sink: &mut W,
) -> Result<Status, Fault>
    requires report { report_of files.now.command ≡ Some task.report }
    requires drain { runs_until_out files.now.command ≡ task.drain }
    requires workers { workers_of files.now.command ≡ task.workers }
    requires number { 1 < task.workers }
    ensures { IsAnswered W.contents W.has_failed sink.old sink.new (lent_files files.now) result }
{
    let (network, cycles) = opening_network(rt, alloc, files)?;
    match run_to_end(rt, alloc, network, cycles, task) {
        Ok(network) => ended(write_report(&network, task.report, sink), ending(&network)),
        Err(NotRun::Memory) => Err(Fault::Run(RunFault::Memory)),
        Err(NotRun::NoWorker) => Err(Fault::Run(RunFault::NoWorker)),
    }
}

// The network after so many cycles and, where it is to drain, those that this takes: all by the
// workers.
fn run_to_end<R: Threads + Wait + Clock + Sync>(
    rt: &R,
    alloc: Global,
    network: Network,
    cycles: u64,
    task: Task,
) -> Result<Network, NotRun>
    requires { network.count + cycles ≤ CYCLE_LIMIT }
    ensures net { IfOk result (λ n. n.net ≡ network.net) }
    ensures end { IfOk result (λ n. RunsTo task.drain n.net (network.count + cycles) n.count) }
{
    let network = network.run_by(rt, alloc, cycles, task.workers)?;
    run_on_by(rt, alloc, network, task.drain, task.workers)
}
