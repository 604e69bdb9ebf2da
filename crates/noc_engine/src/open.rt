//! A network by blocks before its first cycle.

ghost use Rattle.std.specs.Prelude.{◌≡◌, ◌*◌, ◌≤◌, ◌<◌, ◌^◌, ℕ, All, IfOk, length, map};
ghost use Rattle.noc_engine.specs.Prelude.{AreByNode, IsGoodSetup, IsKept, IsOpenedTile, IsPlanOf, IsWithinLimits, MAX_BUFFER, MAX_NODES, ShowsRun, header_of, nodes, setup_by, starts_by, starts_list, starts_of};

use crate::columns::Columns;
use crate::exchange::nothing_left;
use crate::origin::{Origin, Setup};
use crate::plan::Plan;
use crate::tile::Tile;
use noc_columns::{CHANNELS, Header, NEVER, ROUTERS, Start};
use noc_counts::no_counts;
use noc_cycles::{First, Pattern, all_around, empty_works, open_blocks, room_for_notes};
use noc_packet::{Memory, Packet};
use noc_queues::all_starts;
use noc_view::Finding;
use std::alloc::Global;

impl Columns {
    // The network of a setup before its first cycle. `queues` has the packets of each node by due
    // time.
    pub(crate) fn new(
        alloc: Global,
        setup: &Setup<'_>,
        queues: &[Vec<(u32, Packet)>],
    ) -> Result<Columns, Memory>
        requires good { IsGoodSetup (setup_by setup.now) }
        requires depth { setup.now.depth ≤ MAX_BUFFER }
        requires limits { All IsWithinLimits setup.now.packets.now.items }
        requires kept { All IsKept setup.now.packets.now.items }
        requires queues { AreByNode (starts_of setup.now.packets.now.items)
            (nodes setup.now.relation.now.grid) queues.now }
        ensures { IfOk result (ShowsRun (setup_by setup.now) 0) }
    {
        let packets = setup.packets.as_slice();
        let nodes = setup.relation.shape().nodes();
        let count = nodes.div_ceil(ROUTERS);
        let Ok(found) = vec![in alloc; Finding::EMPTY; nodes * CHANNELS] else {
            return Err(Memory);
        };
        let Ok(starts) = all_starts(alloc, packets, queues) else {
            return Err(Memory);
        };
        let Ok(plan) = plan_of(alloc, setup, starts.list) else {
            return Err(Memory);
        };
        let Ok(tile) = all_blocks(alloc, &plan.pattern, &starts.firsts, count, packets.len()) else {
            return Err(Memory);
        };
        Ok(Columns {
            origin: Origin::of(setup),
            plan,
            tile,
            found,
        })
    }
}

// All blocks of a network of so many packets, before its first cycle.
fn all_blocks(
    alloc: Global,
    pattern: &Pattern,
    firsts: &[First],
    count: usize,
    packets: usize,
) -> Result<Tile, Memory>
    requires { ROUTERS * count ≤ MAX_NODES }
    ensures { IfOk result (IsOpenedTile pattern.now firsts.now count packets) }
{
    let Ok(blocks) = open_blocks(alloc, pattern, firsts, count) else {
        return Err(Memory);
    };
    let Ok(works) = empty_works(alloc, count) else {
        return Err(Memory);
    };
    let Ok(left) = nothing_left(alloc, count) else {
        return Err(Memory);
    };
    let Ok(notes) = room_for_notes(alloc, count) else {
        return Err(Memory);
    };
    let Ok(counts) = no_counts(alloc, count) else {
        return Err(Memory);
    };
    let Ok(arrivals) = vec![in alloc; NEVER; packets] else {
        return Err(Memory);
    };
    Ok(Tile {
        first: 0,
        blocks,
        works,
        left,
        notes,
        counts,
        arrivals,
        last: 0,
        cycle: 0,
    })
}

// What stays as it is, where these packets start.
fn plan_of(alloc: Global, setup: &Setup<'_>, starts: Vec<Start>) -> Result<Plan, Memory>
    requires good { IsGoodSetup (setup_by setup.now) }
    requires depth { setup.now.depth ≤ MAX_BUFFER }
    requires limits { All IsWithinLimits setup.now.packets.now.items }
    requires starts { starts_by starts.items
        ≡ starts_list setup.now.packets.now.items (nodes setup.now.relation.now.grid) }
    requires short { length starts.items < 2 ^ 32 }
    ensures { IfOk result (IsPlanOf (setup_by setup.now)) }
{
    let shape = setup.relation.shape();
    let vcs = setup.relation.vcs();
    let count = shape.nodes().div_ceil(ROUTERS);
    let Ok(around) = all_around(alloc, shape, vcs, count) else {
        return Err(Memory);
    };
    let Ok(headers) = all_headers(alloc, setup.packets) else {
        return Err(Memory);
    };
    Ok(Plan {
        pattern: Pattern::of(shape, vcs, setup.depth),
        around,
        starts,
        headers,
    })
}

// The headers of packets.
fn all_headers(alloc: Global, packets: &[Packet]) -> Result<Vec<Header>, Memory>
    requires { All IsWithinLimits packets.now }
    ensures { IfOk result (λ all. all.items ≡ map header_of packets.now) }
{
    let mut all = Vec::with_capacity(alloc, packets.len())?;
    for packet in packets {
        all.push_reserved(Header::of(packet));
    }
    Ok(all)
}
