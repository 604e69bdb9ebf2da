//! The lines of a trace in one cycle.

ghost use Rattle.std.specs.Prelude.{◌≡◌, ◌+◌, ◌-◌, ◌<◌, ◌≤◌, ◌++◌, IfSome, decimal, length};
ghost use Rattle.noc_files.specs.Prelude.{nodes, ports, Puts, comma, taken};
ghost use Rattle.noc_files.specs.Channels.{AreInputs};
ghost use Rattle.noc_files.specs.Trace.{kept_line, over_traced, told_text};
ghost use Rattle.noc_files.specs.Labels.{AreLabels, label_text};

use crate::inputs::InputPorts;
use crate::label::{LABEL, Label};
use crate::labels::{LONGEST_VERDICT, Labels};
use crate::listing::{Lines, ListedChannels, Listing};
use crate::page::{PAGE, Page};
use crate::pages::{LONGEST_TEXT, put_pages};
use crate::permitted::permitted_to;
use crate::sets::{SET, add_permitted};
use crate::told::{is_same, is_wanted, tells_nothing, told_at};
use crate::trace::Trace;
use noc_bytes::{Sink, WriteFault};
use noc_net::Network;
use noc_view::Finding;

// The most bytes of what is told of an input channel.
const TOLD: usize = LONGEST_VERDICT + LABEL + SET + 2;

// The lines of a trace in the last cycle of a network, which has this number.
#[derive(Drop)]
struct CycleLines<'a> {
    network: &'a Network,
    labels: &'a Labels,
    trace: &'a Trace,
    cycle: u64,
    number: Label,
    ghost named: { AreLabels network.now.net.relation labels.now },
    ghost numbered: { label_text number ≡ decimal cycle ++ comma },
}

impl<'a> CycleLines<'a> {
    // Adds what is told of an input channel.
    #[inline]
    fn add_told(&self, router: usize, port: usize, vc: usize, finding: &Finding, page: &mut Page)
        requires router { router < nodes self.now.network.now.net.relation.grid }
        requires port { port < ports self.now.network.now.net.relation.grid }
        requires vc { vc < self.now.network.now.net.relation.vcs }
        requires room { length page.old + TOLD ≤ PAGE }
        ensures added { page.new
            ≡ page.old ++ told_text self.now.network.now.net router port vc finding.now }
        ensures short { length page.new ≤ length page.old + TOLD }
    {
        let relation = self.network.relation();
        // (the count says that there are no more than eight)
        prove!(vc < relation.vcs());
        self.labels.add_verdict(relation, port, vc, finding, page);
        self.labels.add_out(relation, finding.out, page);
        page.add_byte(b',');
        let set = permitted_to(self.network, router, port, vc, finding);
        add_permitted(relation, self.labels, set, page);
    }
}

impl<'a> Lines for CycleLines<'a> {
    ghost grid = { λ s. s.network.now.net.relation.grid };

    ghost listed = { λ s. ports s.network.now.net.relation.grid };

    ghost vcs = { λ s. s.network.now.net.relation.vcs };

    ghost said = { λ s router port vc.
        kept_line s.network.now s.trace.now.0 s.trace.now.1 s.cycle router port vc };

    fn channels(&self) -> ListedChannels<'_> {
        ListedChannels::of(self.network.relation())
    }

    fn is_silent(&self, router: usize) -> bool {
        let trace = self.trace;
        let packet = trace.traced.packet;
        tells_nothing(packet, trace.before(router))
            && tells_nothing(packet, self.network.findings(router))
    }

    fn add_line(&self, router: usize, port: usize, vc: usize, page: &mut Page) {
        let index = port * self.network.relation().vcs() + vc;
        let trace = self.trace;
        let packet = trace.traced.packet;
        let kept = trace.before(router);
        let before_it = told_at(packet, kept, index);
        let now = told_at(packet, self.network.findings(router), index);
        if is_same(before_it, now) {
            return;
        }
        let nothing = Finding::EMPTY;
        let finding = now.unwrap_or(&nothing);
        if !is_wanted(trace.traced.verdicts, finding.verdict) {
            return;
        }
        page.add_label(&self.number);
        page.add_column(router as u64);
        self.add_told(router, port, vc, finding, page);
    }
}

// Puts the lines of a trace in the last cycle of a network, and says how many bytes they have.
pub(crate) fn put_cycle<W: Sink>(
    network: &Network,
    inputs: &InputPorts,
    labels: &Labels,
    trace: &Trace,
    page: &mut Page,
    sink: &mut W,
) -> Result<u64, WriteFault>
    requires inputs { AreInputs network.now.net.relation.grid inputs.now }
    requires labels { AreLabels network.now.net.relation labels.now }
    requires some { 1 ≤ network.now.count }
    requires router { IfSome trace.now.0.router
        (λ router. router < nodes network.now.net.relation.grid) }
    ensures puts { Puts W.contents W.has_failed sink.old sink.new
        (over_traced network.now.net.relation trace.now.0.router
        (kept_line network.now trace.now.0 trace.now.1 (network.now.count - 1))) result }
    ensures few { taken result ≤ LONGEST_TEXT }
{
    let cycle = network.count() - 1;
    page.clear();
    page.add_column(cycle);
    let lines = CycleLines {
        network,
        labels,
        trace,
        cycle,
        number: Label::of(page.text()),
    };
    let listing = Listing {
        lines: &lines,
        inputs,
        router: trace.traced.router,
    };
    put_pages(&listing, page, sink)
}
