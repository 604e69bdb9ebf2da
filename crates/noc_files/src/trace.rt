//! The trace: what each input channel did in each cycle of a span (docs/FORMATS.md).

ghost use Rattle.std.specs.Prelude.{◌≡◌, ℕ, ◌+◌, ◌*◌, ◌<◌, ◌≤◌, ◌++◌, [], IfErr, IfOk, IfSome, List, Option, Some, if◌then◌else◌, length, slice_get, true};
ghost use Rattle.noc_files.specs.Prelude.{nodes, ports, Finding as FindingValue, findings_before, findings_in_cycle, Run as RunValue, Setup as SetupValue, size, Wrote, comma, line_end};
ghost use Rattle.noc_route.specs.Routes.{Routes as RoutesValue};
ghost use Rattle.noc_files.specs.Findings.{found_line};
ghost use Rattle.noc_files.specs.Stalls.{channel_counts};
ghost use Rattle.noc_files.specs.Trace.{HaveChannels, IsCutOff, finds_empty, is_same, kept_at, nothing_found, permitted_text, permitted_to, said_by_both, told_counts, trace_text, traced_line, when_text, whole};

use crate::cycle_lines::put_cycle;
use crate::inputs::inputs_of;
use crate::kept::{keep_all, nothing_kept};
use crate::labels::Labels;
use crate::page::Page;
use noc_bytes::{Sink, WriteFault, put_all};
use noc_commands::VerdictSet;
use noc_net::{CYCLE_LIMIT, Network};
use noc_packet::Memory;
use noc_view::Finding;
use std::alloc::Global;
use std::marker::Model;

/// What is traced.
#[derive(Clone, Copy, Debug, PartialEq, Eq)]
pub struct Traced {
    /// The input channels of this router, or those of all.
    pub router: Option<usize>,
    /// Those that hold this packet, or all.
    pub packet: Option<u64>,
    /// The lines with these verdicts, or all.
    pub verdicts: Option<VerdictSet>,
    /// Only lines that tell something else of the channel than the cycle before did.
    pub changes: bool,
}

/// A trace that is to be written: what is traced, and, in a trace of changes, what each router
/// found in the cycle before.
#[derive(Drop)]
pub struct Trace {
    pub(crate) traced: Traced,
    kept: Vec<Vec<Finding>>,
}

impl Model for Trace {
    ghost use Rattle.std.specs.Prelude.{List, map};
    ghost use Rattle.noc_view.specs.declared.finding.Finding.{Finding as FindingValue};
    ghost use Rattle.noc_files.specs.declared.trace.Traced.{Traced as TracedValue};

    ghost Value = { TracedValue × List (List FindingValue) };

    ghost view = { λ s. (s.traced, map (λ one. one.items) s.kept.items) };
}

impl Trace {
    /// A trace of a network that begins with its next cycle. Only a trace of changes takes memory:
    /// a finding for each input channel.
    pub fn new(alloc: Global, network: &Network, traced: Traced) -> Result<Trace, Memory>
        ensures opening { IfOk result
            (λ t. t ≡ (traced, nothing_found network.now.net traced.changes)) }
        ensures memory { IfErr result (λ _. traced.changes ≡ true) }
    {
        let kept = if traced.changes {
            nothing_kept(alloc, network)?
        } else {
            Vec::new(alloc)
        };
        Ok(Trace { traced, kept })
    }

    // What a router found in the cycle before, as far as it is kept.
    pub(crate) fn before(&self, router: usize) -> &[Finding]
        ensures { (index : ℕ) → slice_get result.now index ≡ kept_at self.now.1 router index }
    {
        match self.kept.get(router) {
            Some(findings) => findings,
            None => &[],
        }
    }

    // Keeps what the routers found in the last cycle, in a trace of changes.
    pub(crate) fn keep(&mut self, network: &Network)
        requires some { 1 ≤ network.now.count }
        requires few { length self.old.1 ≤ nodes network.now.net.relation.grid }
        requires long { HaveChannels (size network.now.net) self.old.1 }
        ensures traced { self.new.0 ≡ self.old.0 }
        ensures many { length self.new.1 ≡ length self.old.1 }
        ensures found { (r : ℕ) → r < length self.old.1
            → slice_get self.new.1 r ≡ Some (findings_before network.now.net network.now.count r) }
    {
        keep_all(network, &mut self.kept);
    }
}

/// Runs a network for so many cycles more, and writes the trace of them as it goes. Each input
/// channel of each router, in the order of the stall report, may have a line in each cycle. It has
/// one if this tells something else of the channel than was told before, and if lines with its
/// verdict are written. What was told before is, in a trace of changes, what the cycle before told,
/// if the trace has it; in other traces it is nothing. The router exists. The lines of a cycle are
/// handed on before the next one. Where writing fails, the network has run the cycles whose lines
/// went out, and the one whose lines did not. It stays a call, so that its callers need no stack
/// for a page.
#[inline(never)]
pub fn write_trace<W: Sink>(
    network: &mut Network,
    cycles: u64,
    mut trace: Trace,
    sink: &mut W,
) -> Result<(), WriteFault>
    requires cycles { network.old.count + cycles ≤ CYCLE_LIMIT }
    requires router { IfSome trace.0.router
        (λ router. router < nodes network.old.net.relation.grid) }
    requires opening { trace.1 ≡ nothing_found network.old.net trace.0.changes }
    ensures run { IfOk result (λ _. network.new
        ≡ record network.old { count = network.old.count + cycles }) }
    ensures cut { IfErr result (λ fault. IsCutOff network.old trace.0 fault.written network.new) }
    ensures text { Wrote W.contents W.has_failed sink.old sink.new
        (trace_text (record network.old { count = network.old.count + cycles }) network.old.count
        trace.0) result }
{
    let header = "cycle,router,port,vc,verdict,packet,out,permitted\n";
    put_all(sink, header.as_bytes())?;
    let mut written = header.len() as u64;
    let inputs = inputs_of(network.relation().shape());
    let labels = Labels::of(network.relation());
    let mut page = Page::new();
    for _ in 0..cycles {
        network.cycle();
        match put_cycle(network, &inputs, &labels, &trace, &mut page, sink) {
            Ok(more) => written += more,
            Err(fault) => return Err(fault.after(written)),
        }
        sink.hand_on();
        trace.keep(network);
    }
    Ok(())
}

/// A line of a trace is what `explain` says of the channel in that cycle, with the cycle and the
/// router before it and what was permitted behind it. Where all channels are traced, with a line in
/// each cycle, each has it but the empty ones.
pub fn a_trace_tells_what_explain_tells()
    ensures explained { (relation : RoutesValue) (findings : List FindingValue) (port vc : ℕ)
        (f : FindingValue) → slice_get findings (port * relation.vcs + vc) ≡ Some f
        → found_line relation findings port vc ≡ said_by_both relation.grid port vc f ++ line_end }
    ensures traced { (net : SetupValue) (first n r port vc : ℕ) (f : FindingValue)
        → slice_get (findings_in_cycle net n r) (port * net.relation.vcs + vc) ≡ Some f
        → traced_line net whole first n r port vc
        ≡ (if finds_empty f.verdict then [] else when_text n r
        ++ said_by_both net.relation.grid port vc f ++ comma
        ++ permitted_text net.relation (permitted_to net r port vc f)) }
{}

/// The verdicts that the whole trace of a run tells of an input channel, counted, are its
/// line of the stall report.
pub fn a_trace_adds_up_to_the_stall_report()
    ensures { (u : RunValue) (r port vc : ℕ) → port < ports u.net.relation.grid
        → vc < u.net.relation.vcs → told_counts u r (port * u.net.relation.vcs + vc)
        ≡ channel_counts u r port vc }
{}

/// In a trace of changes a line is left out exactly where the same was told before.
pub fn a_line_is_left_out_where_the_same_is_told()
    ensures same { (f h : Option FindingValue) → is_same f h ≡ true → f ≡ h }
    ensures itself { (f : Option FindingValue) → is_same f f ≡ true }
{}
