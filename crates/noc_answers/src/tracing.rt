//! Tracing what the input channels did in each cycle of a span.

ghost use Rattle.std.specs.Prelude.{◌≡◌, IfErr, IfOk, None, OnOk, length, true};
ghost use Rattle.noc_answers.specs.Prelude.{nothing_found, lent_files, Refuses, IsAnswered, TextsFault, runs, Opens};
ghost use Rattle.noc_requests.specs.Options.{packet_option_fault, trace_of};

use noc_faults::{Fault, Status};
use noc_files::{Sink, Trace, Traced, write_trace};
use noc_net::{NetFault, Network};
use noc_requests::{Files, ended, last_cycle, opening_network, packet_fault};
use std::alloc::Global;
use std::thread::Threads;

// The first and the last cycle of a trace, as far as they are named.
#[derive(Clone, Copy)]
pub(crate) struct Span {
    pub(crate) from: Option<u64>,
    pub(crate) to: Option<u64>,
}

// Runs the network up to the first cycle of a span, and then cycle by cycle, and writes what its
// input channels did in each.
pub(crate) fn trace<W: Sink>(
    rt: &(impl Threads + Sync),
    alloc: Global,
    files: &Files<'_>,
    span: Span,
    traced: Traced,
    sink: &mut W,
) -> Result<Status, Fault>
    requires { files.now.command ≡ trace_of span.from span.to traced }
    ensures { IsAnswered W.contents W.has_failed sink.old sink.new (lent_files files.now) result }
{
    let (mut network, cycles) = opening_network(rt, alloc, files)?;
    let trace = trace_for(alloc, files, &network, traced)?;
    let first = span.from.unwrap_or(0);
    let end = last_cycle(span.to, cycles) + 1;
    let count = end - first;
    network.run(first);
    ended(write_trace(&mut network, count, trace, sink), Status::Done)
}

// A trace of a network before its first cycle, if that has the packet that is to be traced.
fn trace_for(
    alloc: Global,
    files: &Files<'_>,
    network: &Network,
    traced: Traced,
) -> Result<Trace, Fault>
    requires opens { Opens (lent_files files.now) network.now.net }
    requires runs { runs files.now.command ≡ true }
    ensures trace { IfOk result (λ t. t ≡ (traced, nothing_found network.now.net traced.changes)) }
    ensures packet { OnOk result (packet_option_fault files.now.command
        (length network.now.net.packets) ≡ None) }
    ensures fault { IfErr result (Refuses (TextsFault (lent_files files.now))) }
{
    if let Some(fault) = packet_fault(files.command, network.packets()) {
        return Err(Fault::Option(fault));
    }
    Trace::new(alloc, network, traced).map_err(|_| Fault::Network(NetFault::Memory))
}
