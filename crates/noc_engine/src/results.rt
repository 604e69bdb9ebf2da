//! What is read of a network.

ghost use Rattle.std.specs.Prelude.{◌≡◌, ◌+◌, ◌*◌, ◌<◌, length};
ghost use Rattle.noc_engine.specs.Prelude.{arrival_in, counts_before, findings_before, last_event_before, nodes, ports, state_at};

use crate::engine::Engine;
use noc_columns::{CHANNELS, NEVER, ROUTERS};
use noc_view::{Finding, VERDICTS};

impl Engine {
    /// The cycle in which the tail of a packet was out.
    pub fn arrival(&self, packet: usize) -> Option<u64>
        requires { packet < length self.now.net.packets }
        ensures { result ≡ arrival_in self.now.net (state_at self.now.net self.now.count) packet }
    {
        let cycle = self.columns.tile.arrivals[packet];
        if cycle == NEVER {
            None
        } else {
            Some(u64::from(cycle))
        }
    }

    /// How often an input channel of a router had each verdict, in the order of the stall report.
    pub fn counts(&self, router: usize, port: usize, vc: usize) -> [u64; VERDICTS]
        requires router { router < nodes self.now.net.relation.grid }
        requires port { port < ports self.now.net.relation.grid }
        requires vc { vc < self.now.net.relation.vcs }
        ensures { result ≡ counts_before self.now.net self.now.count router
            (port * self.now.net.relation.vcs + vc) }
    {
        let tile = &self.columns.tile;
        let table = &self.columns.plan.pattern.table;
        let channel = port * table.ports.links.vcs + vc;
        let number = router / ROUTERS;
        let block = &tile.blocks[number];
        let counts = &tile.counts[number];
        counts.counts_of(table, block, router % ROUTERS, channel, tile.cycle)
    }

    /// What a router has found in the last cycle, of each input channel, by port and virtual
    /// channel: nothing before the first.
    pub fn findings(&self, router: usize) -> &[Finding]
        requires { router < nodes self.now.net.relation.grid }
        ensures { result.now ≡ findings_before self.now.net self.now.count router }
    {
        if self.columns.tile.cycle == 0 {
            return &[];
        }
        let links = &self.columns.plan.pattern.table.ports.links;
        let channels = (links.width + 1) * links.vcs;
        let first = router * CHANNELS;
        &self.columns.found[first..first + channels]
    }

    /// The last cycle in which something happened.
    pub fn last_event(&self) -> Option<u64>
        ensures { result ≡ last_event_before self.now.net self.now.count }
    {
        let last = self.columns.tile.last;
        if last == 0 {
            None
        } else {
            Some(u64::from(last - 1))
        }
    }
}
