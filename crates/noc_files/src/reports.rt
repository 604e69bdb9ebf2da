//! The reports of a run.

ghost use Rattle.noc_files.specs.Reports.{report_text};
ghost use Rattle.noc_files.specs.Prelude.{Wrote};

use crate::latency::write_latency;
use crate::stalls::write_stalls;
use crate::summary::write_summary;
use noc_bytes::{Sink, WriteFault};
use noc_commands::Report;
use noc_net::Network;

/// Writes a report of a network.
pub fn write_report<W: Sink>(
    network: &Network,
    report: Report,
    sink: &mut W,
) -> Result<(), WriteFault>
    ensures { Wrote W.contents W.has_failed sink.old sink.new
        (report_text report network.now) result }
{
    match report {
        Report::Summary => write_summary(network, sink),
        Report::Latency => write_latency(network, sink),
        Report::Stalls => write_stalls(network, sink),
    }
}
