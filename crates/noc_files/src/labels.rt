//! The texts that are the same in many lines on the channels of a network, each made once.

ghost use Rattle.std.specs.Prelude.{◌≡◌, ◌+◌, ◌<◌, ◌≤◌, ◌++◌, [], ◌∷◌, length};
ghost use Rattle.noc_files.specs.Prelude.{ports, comma};
ghost use Rattle.noc_view.specs.Names.{verdict_name};
ghost use Rattle.noc_files.specs.Findings.{out_name, verdict_text};
ghost use Rattle.noc_files.specs.Labels.{AreLabels, AreNames, HasTexts, channel_name, channel_text, label_text};

use crate::label::{EMPTY, LABEL, Label};
use crate::page::{COLUMN, PAGE, Page};
use crate::ports::port_name;
use noc_packet::{INDICES, MAX_CHANNELS, MAX_PORTS};
use noc_route::Relation;
use noc_topo::Shape;
use noc_view::{Finding, VERDICTS, Verdict};

/// The most bytes of an input channel with its verdict and its packet.
pub(crate) const LONGEST_VERDICT: usize = 2 * LABEL + COLUMN;

/// The labels of a relation: for each port and VC its input channel and its output channel, for
/// each index its output channel, and for each verdict its name between two commas.
#[derive(Drop)]
pub(crate) struct Labels {
    pub(crate) inputs: [Label; INDICES],
    pub(crate) outputs: [Label; INDICES],
    pub(crate) channels: [Label; INDICES],
    pub(crate) verdicts: [Label; VERDICTS],
}

impl Labels {
    /// The labels of a relation. It stays a call, so that its callers need no stack for a page.
    #[inline(never)]
    pub(crate) fn of(relation: &Relation) -> Labels
        ensures { AreLabels relation.now result }
    {
        let mut page = Page::new();
        let shape = relation.shape();
        Labels {
            inputs: table_of(shape, MAX_CHANNELS, b',', &mut page),
            outputs: table_of(shape, MAX_CHANNELS, b'.', &mut page),
            channels: table_of(shape, relation.vcs(), b'.', &mut page),
            verdicts: verdict_labels(&mut page),
        }
    }

    /// Adds an input channel by its port and its VC, its verdict and its packet.
    #[inline]
    pub(crate) fn add_verdict(
        &self,
        relation: &Relation,
        port: usize,
        vc: usize,
        finding: &Finding,
        page: &mut Page,
    )
        requires labels { AreLabels relation.now self.now }
        requires port { port < ports relation.now.grid }
        requires vc { vc < MAX_CHANNELS }
        requires room { length page.old + LONGEST_VERDICT ≤ PAGE }
        ensures added { page.new ≡ page.old ++ verdict_text relation.now.grid port vc finding.now }
        ensures short { length page.new ≤ length page.old + LONGEST_VERDICT }
    {
        // (the count says that the index is within the table)
        prove!(port < relation.shape().ports());
        page.add_label(&self.inputs[port * MAX_CHANNELS + vc]);
        page.add_label(self.verdict(finding.verdict));
        page.add_or(finding.packet.map(u64::from), "-");
        page.add_byte(b',');
    }

    // The label of a verdict, between two commas.
    #[inline]
    fn verdict(&self, verdict: Verdict) -> &Label
        requires { AreNames self.now.verdicts }
        ensures { label_text result.now ≡ comma ++ verdict_name verdict ++ comma }
    {
        &self.verdicts[verdict as usize]
    }

    /// Adds an output channel, or a dash where there is none.
    #[inline]
    pub(crate) fn add_out(&self, relation: &Relation, out: Option<(usize, usize)>, page: &mut Page)
        requires labels { AreLabels relation.now self.now }
        requires room { length page.old + LABEL ≤ PAGE }
        ensures added { page.new ≡ page.old ++ out_name relation.now.grid out }
        ensures short { length page.new ≤ length page.old + LABEL }
    {
        match out {
            Some((port, vc)) if port < MAX_PORTS && vc < MAX_CHANNELS => {
                page.add_label(&self.outputs[port * MAX_CHANNELS + vc]);
            }
            Some((port, vc)) => add_channel(relation.shape(), port, b'.', vc, page),
            None => page.add_byte(b'-'),
        }
    }
}

// The channels of a shape by index, so many indices to a port: the port, a byte and the VC.
fn table_of(shape: &Shape, width: usize, between: u8, page: &mut Page) -> [Label; INDICES]
    requires { 1 ≤ width }
    ensures { HasTexts (channel_text shape.now width (between ∷ [])) result }
{
    let mut table = [EMPTY; INDICES];
    for index in 0..INDICES {
        page.clear();
        add_channel(shape, index / width, between, index % width, page);
        table[index] = Label::of(page.text());
    }
    table
}

// Adds a channel: the name of its port, a byte and its VC.
fn add_channel(shape: &Shape, port: usize, between: u8, vc: usize, page: &mut Page)
    requires room { length page.old + LABEL ≤ PAGE }
    ensures added { page.new ≡ page.old ++ channel_name shape.now (between ∷ []) port vc }
    ensures short { length page.new ≤ length page.old + LABEL }
{
    page.add(port_name(shape, port).unwrap_or("-"));
    page.add_byte(between);
    page.add_number(vc as u64);
}

// The labels of all verdicts, each between two commas.
fn verdict_labels(page: &mut Page) -> [Label; VERDICTS]
    ensures { AreNames result }
{
    let mut labels = [EMPTY; VERDICTS];
    for index in 0..VERDICTS {
        page.clear();
        page.add_byte(b',');
        page.add(Verdict::ALL[index].name());
        page.add_byte(b',');
        labels[index] = Label::of(page.text());
    }
    labels
}
