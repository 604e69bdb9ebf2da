//! The report of a router's findings in one cycle (docs/FORMATS.md).

ghost use Rattle.std.specs.Prelude.{ℕ, ◌≡◌, ◌<◌};
ghost use Rattle.noc_files.specs.Prelude.{Run, nodes, ports, Wrote};
ghost use Rattle.noc_files.specs.Findings.{finding_header, findings_text, found_line};
ghost use Rattle.noc_files.specs.Labels.{AreLabels};

use crate::labels::Labels;
use crate::listing::{Lines, ListedChannels, write_lines};
use crate::page::Page;
use noc_bytes::{Sink, WriteFault};
use noc_net::Network;
use noc_route::Relation;
use noc_view::Finding;

// What a router found of its input channels, by their indices.
#[derive(Drop)]
struct Found<'a> {
    relation: &'a Relation,
    findings: &'a [Finding],
    labels: Labels,
    ghost named: { AreLabels relation.now labels },
}

impl<'a> Lines for Found<'a> {
    ghost grid = { λ s. s.relation.now.grid };

    ghost listed = { λ s. ports s.relation.now.grid };

    ghost vcs = { λ s. s.relation.now.vcs };

    ghost said = { λ s router. found_line s.relation.now s.findings.now };

    fn channels(&self) -> ListedChannels<'_> {
        ListedChannels::of(self.relation)
    }

    fn add_line(&self, _: usize, port: usize, vc: usize, page: &mut Page) {
        let relation = self.relation;
        let Some(finding) = self.findings.get(port * relation.vcs() + vc) else {
            return;
        };
        self.labels.add_verdict(relation, port, vc, finding, page);
        self.labels.add_out(relation, finding.out, page);
        page.add_byte(b'\n');
    }
}

/// Writes what a router found in the last cycle, a line for each of its input channels, in
/// the order of the stall report. A line has the verdict, the packet, and the output
/// channel that the packet owns, is granted or asked for. There are no lines before the
/// first cycle. The router exists.
#[tactic(auto, unfolding(crate::specs::Findings::finding_header))]
pub fn write_findings<W: Sink>(
    network: &Network,
    router: usize,
    sink: &mut W,
) -> Result<(), WriteFault>
    requires { router < nodes network.now.net.relation.grid }
    ensures { Wrote W.contents W.has_failed sink.old sink.new
        (findings_text network.now router) result }
{
    let relation = network.relation();
    let found = Found {
        relation,
        findings: network.findings(router),
        labels: Labels::of(relation),
    };
    write_lines("port,vc,verdict,packet,out\n", &found, Some(router), sink)
}

/// Before its first cycle a network has found nothing, and the report of each
/// router is the header alone.
pub fn findings_before_the_first_cycle_are_the_header()
    ensures { (u : Run) (router : ℕ) → u.count ≡ 0 → findings_text u router ≡ finding_header }
{}
