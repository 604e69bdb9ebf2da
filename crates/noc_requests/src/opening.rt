//! The network that is asked for, before its first cycle.

ghost use Rattle.std.specs.Prelude.{◌≡◌, ◌<◌, ◌≤◌, true, IfErr, IfOk};
ghost use Rattle.noc_requests.specs.Prelude.{Gives, traffic_of, lent_files, lent_text, read_by, Refuses, TextsFault, runs, IsNetworkOf, Opens, PacketsFault};

use crate::checking::checked_relation;
use crate::request::{Bytes, Files};
use noc_faults::Fault;
use noc_files::{InputFault, MAX_CYCLES, read_traffic};
use noc_net::Network;
use noc_packet::{MAX_BUFFER, Packet};
use noc_route::Relation;
use std::alloc::Global;
use std::thread::Threads;

/// The network before its first cycle, and the cycles of the configuration, once the ranks are
/// checked at which the command looks.
pub fn opening_network(
    rt: &(impl Threads + Sync),
    alloc: Global,
    files: &Files<'_>,
) -> Result<(Network, u64), Fault>
    requires { runs files.now.command ≡ true }
    ensures opening { IfOk result (λ r. r.0.count ≡ 0) }
    ensures cycles { IfOk result (λ r. r.1 ≤ MAX_CYCLES) }
    ensures network { IfOk result (λ r. (opens : Opens (lent_files files.now) r.0.net)
        × (r.1 ≡ opens.settings.cycles)) }
    ensures fault { IfErr result (Refuses (TextsFault (lent_files files.now))) }
{
    let (config, relation) = checked_relation(rt, alloc, files)?;
    let network = network_of(alloc, relation, config.buffer, files.traffic)?;
    Ok((network, config.cycles))
}

// The network of a relation and a traffic text, before its first cycle, with buffers of
// `depth` (1 to 16) flits.
fn network_of(
    alloc: Global,
    relation: Relation,
    depth: usize,
    traffic: Bytes<'_>,
) -> Result<Network, Fault>
    requires some_depth { 0 < depth }
    requires depth { depth ≤ MAX_BUFFER }
    ensures opening { IfOk result (λ n. n.count ≡ 0) }
    ensures network { IfOk result (λ n. IsNetworkOf relation depth
        (lent_text traffic.entry) n.net) }
    ensures fault { IfErr result (Refuses (PacketsFault relation (lent_text traffic.entry))) }
{
    let packets = packets_in(alloc, traffic).map_err(Fault::Traffic)?;
    Network::new(alloc, relation, depth, packets).map_err(Fault::Network)
}

// The packets that a traffic text says.
fn packets_in(alloc: Global, text: Bytes<'_>) -> Result<Vec<Packet>, InputFault>
    ensures { Gives (λ v. v.items) result (read_by traffic_of (lent_text text.entry)) }
{
    read_traffic(alloc, text?)
}
