//! The stall report (docs/FORMATS.md).

ghost use Rattle.std.specs.Prelude.{◌≡◌, ◌+◌, ◌<◌, ◌≤◌, ◌++◌, ℕ, length, sum};
ghost use Rattle.noc_files.specs.Prelude.{flat_map, ports, Run as RunValue, Wrote};
ghost use Rattle.noc_files.specs.Ports.{name_of_port};
ghost use Rattle.noc_files.specs.Stalls.{channel_counts, channel_line, count_text, input_columns, stall_header, stalls_text};

use crate::listing::{Lines, ListedChannels, write_lines};
use crate::page::{COLUMN, PAGE, Page};
use crate::ports::{LONGEST_PORT_NAME, known_name};
use crate::summary::LONGEST_NAME;
use arrayvec::ArrayString;
use noc_bytes::{Sink, WriteFault};
use noc_net::Network;
use noc_topo::Shape;
use noc_view::{VERDICTS, Verdict};

// The most bytes of the header: of its first columns, and of each verdict's name behind a comma.
const HEADER: usize = 15 + VERDICTS * (LONGEST_NAME + 1);

// The most bytes of the columns that say which channel a line is of.
const PLACE: usize = COLUMN + LONGEST_PORT_NAME + COLUMN;

// The most bytes of the counts of a channel.
const COUNTS: usize = VERDICTS * COLUMN;

// The header: where a channel is, and a column for each verdict.
fn header() -> ArrayString<HEADER>
    ensures { result.bytes ≡ stall_header }
{
    let mut header = ArrayString::new();
    header.push_str("router,port,vc");
    for index in 0..VERDICTS {
        header.push(',');
        header.push_str(Verdict::ALL[index].column_name());
    }
    header.push('\n');
    header
}

// Adds the columns that say which channel a line is of.
#[inline]
fn add_place(shape: &Shape, router: usize, port: usize, vc: usize, page: &mut Page)
    requires port { port < ports shape.now }
    requires room { length page.old + PLACE ≤ PAGE }
    ensures added { page.new
        ≡ page.old ++ input_columns router (name_of_port shape.now port) vc }
    ensures short { length page.new ≤ length page.old + PLACE }
{
    page.add_column(router as u64);
    page.add(known_name(shape, port));
    page.add_byte(b',');
    page.add_number(vc as u64);
}

// Adds counts, each after a comma.
fn add_counts(counts: &[u64; VERDICTS], page: &mut Page)
    requires room { length page.old + COUNTS ≤ PAGE }
    ensures added { page.new ≡ page.old ++ flat_map count_text counts.now }
    ensures short { length page.new ≤ length page.old + COUNTS }
{
    for count in counts {
        page.add_byte(b',');
        page.add_number(*count);
    }
}

// The lines of a stall report.
#[derive(Drop)]
struct StallLines<'a> {
    network: &'a Network,
}

impl<'a> Lines for StallLines<'a> {
    ghost grid = { λ s. s.network.now.net.relation.grid };

    ghost listed = { λ s. ports s.network.now.net.relation.grid };

    ghost vcs = { λ s. s.network.now.net.relation.vcs };

    ghost said = { λ s. channel_line s.network.now };

    fn channels(&self) -> ListedChannels<'_> {
        ListedChannels::of(self.network.relation())
    }

    #[tactic(auto, unfolding(crate::specs::Stalls::channel_line, crate::specs::Stalls::channel_counts))]
    fn add_line(&self, router: usize, port: usize, vc: usize, page: &mut Page) {
        add_place(self.network.relation().shape(), router, port, vc, page);
        let counts = self.network.counts(router, port, vc);
        add_counts(&counts, page);
        page.add_byte(b'\n');
    }
}

/// Writes the stall report: for each router, each of its input ports that is local or has a link,
/// and each virtual channel, in rising order, in how many cycles it had each verdict.
pub fn write_stalls<W: Sink>(network: &Network, sink: &mut W) -> Result<(), WriteFault>
    ensures { Wrote W.contents W.has_failed sink.old sink.new (stalls_text network.now) result }
{
    write_lines(header().as_str(), &StallLines { network }, None, sink)
}

/// The ten counts of a line of the stall report add up to the cycles of the run.
pub fn the_counts_of_a_line_add_up()
    ensures { (u : RunValue) (router port vc : ℕ)
        → sum (channel_counts u router port vc) ≡ u.count }
{}
