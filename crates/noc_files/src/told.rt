//! What a trace tells of an input channel.

ghost use Rattle.std.specs.Prelude.{◌≡◌, ℕ, None, is_some, option_and_then, option_map, slice_get, true};
ghost use Rattle.noc_files.specs.Trace.{is_same, is_wanted, traced_finding};

use noc_commands::VerdictSet;
use noc_view::{Finding, Verdict};

// What a trace tells of one of these channels: nothing where it is Empty or not one
// of those that are traced.
pub(crate) fn told_at(packet: Option<u64>, findings: &[Finding], index: usize) -> Option<&Finding>
    ensures { option_map (λ finding. finding.now) result
        ≡ option_and_then (traced_finding packet) (slice_get findings.now index) }
{
    let finding = findings.get(index)?;
    if is_told(packet, finding) {
        Some(finding)
    } else {
        None
    }
}

// Whether anything is told of a channel.
fn is_told(packet: Option<u64>, finding: &Finding) -> bool
    ensures { result ≡ is_some (traced_finding packet finding.now) }
{
    if matches!(finding.verdict, Verdict::Empty) {
        return false;
    }
    match (packet, finding.packet) {
        (None, _) => true,
        (Some(_), None) => false,
        (Some(packet), Some(held)) => packet == u64::from(held),
    }
}

// Whether nothing is told of any of these channels.
pub(crate) fn tells_nothing(packet: Option<u64>, findings: &[Finding]) -> bool
    ensures { result ≡ true → (index : ℕ)
        → option_and_then (traced_finding packet) (slice_get findings.now index) ≡ None }
{
    for finding in findings {
        if is_told(packet, finding) {
            return false;
        }
    }
    true
}

// Whether the same is told.
pub(crate) fn is_same(before: Option<&Finding>, now: Option<&Finding>) -> bool
    ensures { result ≡ is_same (option_map (λ finding. finding.now) before.entry)
        (option_map (λ finding. finding.now) now.entry) }
{
    match (before, now) {
        (None, None) => true,
        (Some(before), Some(now)) => before == now,
        _ => false,
    }
}

// Whether lines with a verdict are written.
pub(crate) fn is_wanted(verdicts: Option<VerdictSet>, verdict: Verdict) -> bool
    ensures { result ≡ is_wanted verdicts verdict }
{
    match verdicts {
        Some(verdicts) => verdicts.contains(verdict),
        None => true,
    }
}
