//! What a trace of changes keeps of the cycle before.

ghost use Rattle.std.specs.Prelude.{◌≡◌, ℕ, ◌<◌, ◌≤◌, IfOk, Some, length, map, replicate, slice_get};
ghost use Rattle.noc_files.specs.Prelude.{nodes, findings_before, size};
ghost use Rattle.noc_view.specs.Found.{empty_finding};
ghost use Rattle.noc_files.specs.Trace.{HaveChannels};

use noc_net::Network;
use noc_packet::Memory;
use noc_view::Finding;
use std::alloc::Global;

// Keeps what each of the first routers found in the last cycle.
pub(crate) fn keep_all(network: &Network, kept: &mut [Vec<Finding>])
    requires some { 1 ≤ network.now.count }
    requires few { length kept.old ≤ nodes network.now.net.relation.grid }
    requires long { HaveChannels (size network.now.net) (map (λ one. one.items) kept.old) }
    ensures many { length kept.new ≡ length kept.old }
    ensures found { (r : ℕ) → r < length kept.old
        → slice_get (map (λ one. one.items) kept.new) r
        ≡ Some (findings_before network.now.net network.now.count r) }
{
    for router in 0..kept.len() {
        keep_one(network.findings(router), &mut kept[router]);
    }
}

// Keeps these findings in place of as many others.
fn keep_one(findings: &[Finding], kept: &mut Vec<Finding>)
    requires { length kept.old.items ≡ length findings.now }
    ensures { kept.new.items ≡ findings.now }
{
    kept.copy_from_slice(findings);
}

// That nothing was found, for each router.
pub(crate) fn nothing_kept(alloc: Global, network: &Network) -> Result<Vec<Vec<Finding>>, Memory>
    ensures { IfOk result (λ kept. map (λ one. one.items) kept.items
        ≡ replicate (nodes network.now.net.relation.grid)
        (replicate (size network.now.net) empty_finding)) }
{
    let relation = network.relation();
    let channels = relation.shape().ports() * relation.vcs();
    let mut kept = Vec::with_capacity(alloc, relation.shape().nodes())?;
    for _ in 0..relation.shape().nodes() {
        kept.push(vec![in alloc; Finding::EMPTY; channels]?)?;
    }
    Ok(kept)
}
