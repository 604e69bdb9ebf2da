//! What is answered to a request.

ghost use Rattle.std.specs.Prelude.{IfErr, IfOk};
ghost use Rattle.noc_answers.specs.Prelude.{ReadsAs, lent_files, Refuses, FirstFault, IsAnswered, IsRequestAnswered, HasWorkers};

use crate::explain::explain;
use crate::formula::answer_ranks;
use crate::run::{Task, run, run_by_workers};
use crate::tracing::{Span, trace};
use noc_commands::{Command, Report};
use noc_faults::{Fault, Status};
use noc_files::{InputFault, Sink, Traced, split_joined};
use noc_requests::{Files, Request, answer_check, files_of};
use std::alloc::Global;
use std::sync::Wait;
use std::thread::Threads;
use std::time::Clock;

// A command asks for as many workers as run.
const _: () = prove!(noc_commands::MAX_WORKERS == noc_net::MAX_WORKERS);

/// Writes the report that is asked for, or answers the first fault, with nothing written before it
/// but the bytes that a write fault counts. The order is: joined text, configuration, options,
/// shape, table, relation, ranks, check, traffic, network, packet to be traced, run, report.
/// `explain`, `trace` and `ranks` look at no rank file, `check` and `ranks` at no traffic.
///
/// A `run` with a rank file that ends without a fault is done, and never stuck. Where it is to
/// drain, every packet has arrived.
///
/// A `run` by two or more workers starts threads (`noc_net::Network::run_by`). Workers change no
/// report.
pub fn answer<R: Threads + Wait + Clock + Sync, W: Sink>(
    rt: &R,
    alloc: Global,
    request: &Request,
    sink: &mut W,
) -> Result<Status, Fault>
    requires { HasWorkers request.now.command }
    ensures { IsRequestAnswered W.contents W.has_failed sink.old sink.new request.now result }
{
    match request.command {
        Command::Run {
            workers,
            report,
            drain,
        } if 1 < workers => {
            let task = Task {
                workers,
                report,
                drain,
            };
            run_by_workers(rt, alloc, &files_of(request), task, sink)
        }
        _ => answer_one(rt, alloc, request, sink),
    }
}

/// Answers a request as `answer` does, with one thread, and needs no right to wait.
pub fn answer_one<W: Sink>(
    rt: &(impl Threads + Sync),
    alloc: Global,
    request: &Request,
    sink: &mut W,
) -> Result<Status, Fault>
    ensures { IsRequestAnswered W.contents W.has_failed sink.old sink.new request.now result }
{
    let files = read_request(request)?;
    answer_files(rt, alloc, &files, sink)
}

// The files at which a request looks: those of its command, or the two texts of its joined text.
fn read_request(request: &Request) -> Result<Files<'_>, Fault>
    ensures files { IfOk result (λ files. ReadsAs request.now (lent_files files)) }
    ensures fault { IfErr result (Refuses (FirstFault request.now)) }
{
    let Command::Joined = request.command else {
        return Ok(files_of(request));
    };
    let config = request.config.as_ref();
    let text = config.map_err(|fault| Fault::Joined(*fault))?;
    match split_joined(text.as_slice()) {
        Some((config, traffic)) => Ok(Files {
            config: Ok(config),
            table: None,
            ranks: None,
            traffic: Ok(traffic),
            command: Command::Joined,
        }),
        None => Err(Fault::Joined(InputFault::NoSplit)),
    }
}

// Does what the command of some files says.
fn answer_files<W: Sink>(
    rt: &(impl Threads + Sync),
    alloc: Global,
    files: &Files<'_>,
    sink: &mut W,
) -> Result<Status, Fault>
    ensures { IsAnswered W.contents W.has_failed sink.old sink.new (lent_files files.now) result }
{
    match files.command {
        Command::Joined => run(rt, alloc, files, Report::Latency, false, sink),
        Command::Run {
            workers: _,
            report,
            drain,
        } => run(rt, alloc, files, report, drain, sink),
        Command::Explain { cycle, router } => explain(rt, alloc, files, cycle, router, sink),
        Command::Trace {
            from,
            to,
            router,
            packet,
            verdicts,
            changes,
        } => {
            let traced = Traced {
                router,
                packet,
                verdicts,
                changes,
            };
            trace(rt, alloc, files, Span { from, to }, traced, sink)
        }
        Command::Check => answer_check(rt, alloc, files, sink),
        Command::Ranks => answer_ranks(alloc, files, sink),
    }
}
