//! The output channels that were permitted to a packet that asked for one.

ghost use Rattle.std.specs.Prelude.{◌≡◌, ◌<◌};
ghost use Rattle.noc_files.specs.Prelude.{nodes, ports};
ghost use Rattle.noc_files.specs.Trace.{is_asking, permitted_to};

use noc_net::Network;
use noc_packet::ChannelSet;
use noc_view::{Finding, Verdict};

// Whether a packet of this verdict asked for an output channel, or found none to ask for.
fn is_asking(verdict: Verdict) -> bool
    ensures { result ≡ is_asking verdict }
{
    matches!(
        verdict,
        Verdict::Granted | Verdict::NoIdleChannel | Verdict::LostChannel
    )
}

// The output channels that the relation permits to the packet of a finding, where it asks.
pub(crate) fn permitted_to(
    network: &Network,
    router: usize,
    port: usize,
    vc: usize,
    finding: &Finding,
) -> Option<ChannelSet>
    requires router { router < nodes network.now.net.relation.grid }
    requires port { port < ports network.now.net.relation.grid }
    requires vc { vc < network.now.net.relation.vcs }
    ensures { result ≡ permitted_to network.now.net router port vc finding.now }
{
    if !is_asking(finding.verdict) {
        return None;
    }
    match finding.packet {
        Some(number) if (number as usize) < network.packets() => {
            let packet = network.packet(number as usize);
            let class = packet.class as usize;
            let dst = packet.destination as usize;
            Some(network.relation().permitted(class, router, port, vc, dst))
        }
        _ => None,
    }
}
