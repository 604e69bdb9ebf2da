//! What a router has counted and found.

ghost use Rattle.std.specs.Prelude.{◌≡◌, ℕ, ◌<◌, All, IfOk, [], length, slice_index_or, sum};
ghost use Rattle.noc_topo.specs.Lists.{map_indexed, tabulate};
ghost use Rattle.noc_router.specs.Settled.{finding_by, planned_verdict};
ghost use Rattle.noc_router.specs.Tally.{HaveVerdicts, IsPlanOf, empty_tally};
ghost use Rattle.noc_view.specs.View.{counts_after};

use crate::channels::Channels;
use crate::plan::Plan;
use noc_packet::Memory;
use noc_view::{Finding, VERDICTS, Verdict};
use std::alloc::Global;
use std::marker::Model;

/// How often each verdict was that of each input channel, and what was found of each channel in
/// the last cycle.
#[derive(Drop)]
pub(crate) struct VerdictTally {
    // How many cycles are counted: as many of each channel.
    cycles: u64,
    counts: Vec<[u64; VERDICTS]>,
    findings: Vec<Finding>,
}

impl Model for VerdictTally {
    ghost use Rattle.std.specs.Prelude.{[], nat_eq, if◌then◌else◌};
    ghost use Rattle.noc_router.specs.Tally.{IsTally, TallyContents};

    ghost Value = { TallyContents };

    ghost view = { λ t. record {
      counts = t.counts.items;
      findings = if nat_eq t.cycles 0 then [] else t.findings.items;
    } };

    ghost invariant = { λ t. IsTally t.cycles t.counts.items t.findings.items };
}

impl VerdictTally {
    // Nothing is counted and found yet, of so many channels.
    pub(crate) fn new(alloc: Global, size: usize) -> Result<VerdictTally, Memory>
        ensures { IfOk result (λ tally. tally ≡ empty_tally size) }
    {
        let counts = vec![in alloc; [0; VERDICTS]; size]?;
        let findings = vec![in alloc; Finding::EMPTY; size]?;
        Ok(VerdictTally {
            cycles: 0,
            counts,
            findings,
        })
    }

    // Counts a cycle with this plan, and keeps what it finds.
    pub(crate) fn note(&mut self, channels: &Channels, vcs: usize, plan: &Plan)
        requires some { 0 < vcs }
        requires plan { IsPlanOf channels.now (length self.old.counts) plan.now }
        ensures { self.new ≡ record {
          counts = map_indexed
              (λ i counts. counts_after (planned_verdict plan.now i) counts) self.old.counts;
          findings = tabulate (length self.old.counts)
              (finding_by plan.now vcs channels.now.inputs.items);
        } }
    {
        find_all(&mut self.findings, channels, vcs, plan);
        if self.cycles < u64::MAX {
            self.cycles += 1;
            count_all(&mut self.counts, &self.findings);
        }
    }

    // How often each verdict was that of a channel, in the order of the verdicts.
    pub(crate) fn counts(&self, index: usize) -> [u64; VERDICTS]
        requires { index < length self.now.counts }
        ensures { result ≡ slice_index_or self.now.counts index [] }
    {
        self.counts[index]
    }

    // What was found in the last cycle, by input channel: nothing before the first.
    pub(crate) fn findings(&self) -> &[Finding]
        ensures { result.now ≡ self.now.findings }
    {
        if self.cycles == 0 {
            &[]
        } else {
            &self.findings
        }
    }
}

// What is found of each channel with this plan.
fn find_all(findings: &mut [Finding], channels: &Channels, vcs: usize, plan: &Plan)
    requires some { 0 < vcs }
    requires plan { IsPlanOf channels.now (length findings.old) plan.now }
    ensures { findings.new ≡ tabulate (length findings.old)
        (finding_by plan.now vcs channels.now.inputs.items) }
{
    for index in 0..findings.len() {
        channels.find(plan, index, vcs, &mut findings[index]);
    }
}

// One more cycle of each channel, with the verdict that was found.
fn count_all(counts: &mut [[u64; VERDICTS]], findings: &[Finding])
    requires findings { length findings.now ≡ length counts.old }
    requires room { All (λ one. sum one < u64.MAX) counts.old }
    ensures { (verdict : ℕ → Verdict) → HaveVerdicts verdict findings.now
        → counts.new ≡ map_indexed (λ i one. counts_after (verdict i) one) counts.old }
{
    for index in 0..counts.len() {
        raise(&mut counts[index], findings[index].verdict);
    }
}

// A channel has one more cycle with this verdict.
fn raise(counts: &mut [u64; VERDICTS], verdict: Verdict)
    requires { sum counts.old < u64.MAX }
    ensures { counts.new ≡ counts_after verdict counts.old }
{
    counts[verdict as usize] += 1;
}
