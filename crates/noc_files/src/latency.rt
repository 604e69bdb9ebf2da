//! The latency report (docs/FORMATS.md).

ghost use Rattle.std.specs.Prelude.{length};
ghost use Rattle.noc_files.specs.Latency.{latency_line, latency_text};
ghost use Rattle.noc_files.specs.Prelude.{Wrote};

use crate::page::Page;
use crate::pages::{Pages, write_pages};
use noc_bytes::{Sink, WriteFault};
use noc_net::Network;

// The lines of a latency report, a page for each packet.
#[derive(Drop)]
struct LatencyLines<'a> {
    network: &'a Network,
}

impl<'a> Pages for LatencyLines<'a> {
    ghost pages = { λ s. length s.network.now.net.packets };

    ghost text = { λ s. latency_line s.network.now };

    fn pages(&self) -> usize {
        self.network.packets()
    }

    fn fill(&self, number: usize, page: &mut Page) {
        let packet = self.network.packet(number);
        page.clear();
        page.add_column(number as u64);
        page.add_column(u64::from(packet.source));
        page.add_column(u64::from(packet.destination));
        page.add_column(u64::from(packet.class));
        page.add_column(u64::from(packet.length));
        page.add_column(u64::from(packet.due));
        page.add_or(self.network.arrival(number), "-");
        page.add_byte(b',');
        page.add_or(self.network.latency(number), "-");
        page.add_byte(b'\n');
    }
}

/// Writes the latency report, a line for each packet in order. A line has the cycle in which
/// the packet's tail was out, and the cycles from its due time to that one; both are a dash
/// where the tail is not out.
#[tactic(auto, unfolding(crate::specs::Latency::latency_header))]
pub fn write_latency<W: Sink>(network: &Network, sink: &mut W) -> Result<(), WriteFault>
    ensures { Wrote W.contents W.has_failed sink.old sink.new (latency_text network.now) result }
{
    let header = "packet,source,destination,class,length,due,out,latency\n";
    write_pages(header, &LatencyLines { network }, sink)
}
