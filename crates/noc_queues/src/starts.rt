//! The packets of each router by due time.

ghost use Rattle.std.specs.Prelude.{◌≡◌, ◌<◌, ◌≤◌, ◌++◌, ◌^◌, All, IfOk, length};
ghost use Rattle.noc_packet.specs.ByNode.{starts_of};
ghost use Rattle.noc_sets.specs.Source.{due_of};
ghost use Rattle.noc_columns.specs.Sources.{starts_by};
ghost use Rattle.noc_theory_bits.specs.Starts.{starts_list, with_end};
ghost use Rattle.noc_theory_cycles.specs.Firsts.{AreFirsts};
ghost use Rattle.noc_queues.specs.Queues.{AreByNode, IsKept};

use noc_columns::{NEVER, Start};
use noc_cycles::First;
use noc_packet::{MAX_NODES, MAX_PACKETS, Memory, Packet};
use std::alloc::Global;

/// The packets of all routers.
#[derive(Drop)]
pub struct Starts {
    /// Router by router those that start there, by due time, and an end behind them.
    pub list: Vec<Start>,
    /// By router, its first packet.
    pub firsts: Vec<First>,
}

// Behind the packets of a router.
const END: Start = Start {
    number: 0,
    length: 1,
    due: NEVER,
};

/// The packets of all routers, one router after the other, of which `queues` has those of each.
pub fn all_starts(
    alloc: Global,
    packets: &[Packet],
    queues: &[Vec<(u32, Packet)>],
) -> Result<Starts, Memory>
    requires nodes { length queues.now ≤ MAX_NODES }
    requires few { length packets.now ≤ MAX_PACKETS }
    requires kept { All IsKept packets.now }
    requires queues { AreByNode (starts_of packets.now) (length queues.now) queues.now }
    ensures list { IfOk result (λ starts. starts_by starts.list.items
        ≡ starts_list packets.now (length queues.now)) }
    ensures short { IfOk result (λ starts. length starts.list.items < 2 ^ 32) }
    ensures firsts { IfOk result (λ starts. AreFirsts packets.now (length queues.now)
        starts.firsts.items) }
{
    let mut list = Vec::with_capacity(alloc, packets.len() + queues.len())?;
    let mut firsts = Vec::with_capacity(alloc, queues.len())?;
    for queue in queues {
        firsts.push(First {
            place: list.len() as u32,
            due: first_due(queue),
        })?;
        add_starts(queue, &mut list)?;
    }
    Ok(Starts { list, firsts })
}

// When the first packet of a queue is due.
fn first_due(queue: &[(u32, Packet)]) -> u32
    ensures { result ≡ due_of queue.now }
{
    if queue.is_empty() {
        NEVER
    } else {
        queue[0].1.due
    }
}

// The packets of a router come to the list, and an end.
fn add_starts(queue: &[(u32, Packet)], starts: &mut Vec<Start>) -> Result<(), Memory>
    requires { All (λ one. IsKept one.1) queue.now }
    ensures { IfOk result (λ _. starts_by starts.new.items
        ≡ starts_by starts.old.items ++ with_end queue.now) }
{
    for (number, packet) in queue {
        starts.push(Start {
            number: *number,
            length: packet.length,
            due: packet.due,
        })?;
    }
    starts.push(END)?;
    Ok(())
}
