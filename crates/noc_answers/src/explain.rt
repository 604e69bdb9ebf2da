//! Explaining what a router found in a cycle.

ghost use Rattle.std.specs.Prelude.{◌≡◌};
ghost use Rattle.noc_answers.specs.Prelude.{lent_files, IsAnswered};

use noc_commands::Command;
use noc_faults::{Fault, Status};
use noc_files::{Sink, write_findings};
use noc_requests::{Files, ended, opening_network};
use std::alloc::Global;
use std::thread::Threads;

// Runs the network up to the end of a cycle, and writes what a router found in it.
pub(crate) fn explain<W: Sink>(
    rt: &(impl Threads + Sync),
    alloc: Global,
    files: &Files<'_>,
    cycle: u64,
    router: usize,
    sink: &mut W,
) -> Result<Status, Fault>
    requires { files.now.command ≡ Command.Explain cycle router }
    ensures { IsAnswered W.contents W.has_failed sink.old sink.new (lent_files files.now) result }
{
    let (mut network, _) = opening_network(rt, alloc, files)?;
    network.run(cycle + 1);
    ended(write_findings(&network, router, sink), Status::Done)
}
