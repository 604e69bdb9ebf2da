//! Requests about one packet of one flit from one node of a line to the other, in eight cycles.

ghost use Rattle.std.specs.Prelude.{◌≡◌, IfSome};

use crate::tray::Tray;
use noc_answers::{Request, answer, answer_one};
use noc_commands::{Command, Report, VerdictSet};
use noc_faults::{Fault, Status};
use std::alloc::Global;
use std::sync::Wait;
use std::thread::Threads;
use std::time::Clock;

const CONFIG: &[u8] = b"kind = \"mesh\"
radix = [2]
channels = 1
buffer = 2
classes = 1
rule = \"dor\"
cycles = 8
";

const TRAFFIC: &[u8] = b"source,destination,class,length,due\n0,1,0,1,0\n";

// The report of a run.
const LATENCY: &[u8] = b"packet,source,destination,class,length,due,out,latency\n0,0,1,0,1,0,5,5\n";

// What is left of it in a sink of 60 bytes.
const CUT: &[u8] = b"packet,source,destination,class,length,due,out,latency\n0,0,1";

// A request for a command. None where memory was refused.
fn request(alloc: Global, command: Command) -> Option<Request>
    ensures { IfSome result (λ request. request.command ≡ command) }
{
    let Ok(config) = CONFIG.to_vec(alloc) else {
        return None;
    };
    let Ok(traffic) = TRAFFIC.to_vec(alloc) else {
        return None;
    };
    Some(Request {
        config: Ok(config),
        table: None,
        ranks: None,
        traffic: Ok(traffic),
        command,
    })
}

// An empty sink for so many bytes.
fn tray(alloc: Global, capacity: usize) -> Tray {
    Tray {
        bytes: Vec::new(alloc),
        capacity,
        failed: false,
    }
}

const RUN: Command = Command::Run {
    workers: 1,
    report: Report::Latency,
    drain: false,
};

// Whether an answer has ended well, or with a sink that took so many bytes.
fn has_ended(answered: &Result<Status, Fault>, cut: Option<u64>) -> bool {
    match answered {
        Ok(status) => *status == Status::Done && cut.is_none(),
        Err(fault) => matches!(fault, Fault::Write(fault) if cut == Some(fault.written)),
    }
}

// Whether a run into a sink for so many bytes ends so, with this text in the sink.
fn run_writes<R: AllocGlobal + Threads + Wait + Clock + Sync>(
    rt: &R,
    capacity: usize,
    cut: Option<u64>,
    text: &[u8],
) -> bool {
    let Some(request) = request(rt.alloc(), RUN) else {
        return false;
    };
    let mut sink = tray(rt.alloc(), capacity);
    let answered = answer(rt, rt.alloc(), &request, &mut sink);
    drop(request);
    let is_right = has_ended(&answered, cut) && sink.bytes.as_slice() == text;
    drop(sink);
    is_right
}

#[test]
fn a_run_into_a_sink(rt: HostRuntime) {
    assert!(rt; run_writes(&rt, 1000, None, LATENCY));
}

#[test]
fn a_sink_that_is_full(rt: HostRuntime) {
    assert!(rt; run_writes(&rt, 60, Some(60), CUT));
}

// Its flit moves out of the first router in cycle 2 and out of the network in cycle 5.
const MOVES: &[u8] = b"cycle,router,port,vc,verdict,packet,out,permitted
2,0,local,0,Moved,0,+0.0,-
5,1,-0,0,Moved,0,local.0,-
";

// Whether a trace of one verdict has these lines.
fn trace_has_moves<R: AllocGlobal + Threads + Sync>(rt: &R) -> bool {
    let trace = Command::Trace {
        from: None,
        to: None,
        router: None,
        packet: None,
        verdicts: VerdictSet::named("Moved"),
        changes: false,
    };
    let Some(request) = request(rt.alloc(), trace) else {
        return false;
    };
    let mut sink = tray(rt.alloc(), 1000);
    let answered = answer_one(rt, rt.alloc(), &request, &mut sink);
    drop(request);
    let is_right = has_ended(&answered, None) && sink.bytes.as_slice() == MOVES;
    drop(sink);
    is_right
}

// A sink that keeps nothing back hands on nothing between the cycles.
#[test]
fn a_trace_of_one_verdict(rt: HostRuntime) {
    assert!(rt; trace_has_moves(&rt));
}
