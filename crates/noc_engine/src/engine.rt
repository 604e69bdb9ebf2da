//! A network by columns, as one value.

ghost use Rattle.std.specs.Prelude.{◌≡◌, ◌+◌, ◌≤◌, All, IfOk};
ghost use Rattle.noc_engine.specs.Prelude.{AreByNode, AreFindings, CYCLE_LIMIT, IsGoodSetup, IsKept, IsWithinLimits, MAX_BUFFER, ShowsRun, net_in, nodes, setup_by, starts_of};

use crate::columns::Columns;
use crate::origin::Setup;
use noc_packet::{Memory, Packet};
use noc_route::Relation;
use std::alloc::Global;
use std::marker::Model;

/// A network whose routers run 64 at a time.
///
/// It is seen as what it was made from, and the count of the cycles that it has run. What its
/// readers answer follows from these.
#[derive(Drop)]
pub struct Engine {
    pub(crate) columns: Columns,
}

impl Model for Engine {
    ghost use Rattle.noc_theory.specs.Network.{Run};

    ghost Value = { Run };

    ghost use Rattle.noc_engine.specs.Inside.{run_of, IsEngine};

    ghost view = { run_of };

    ghost invariant = { IsEngine };
}

impl Engine {
    /// The network of a setup, with 1 to 16 flits in each buffer, before its first cycle. `queues`
    /// has the packets of each node by due time.
    pub fn new(
        alloc: Global,
        setup: &Setup<'_>,
        queues: &[Vec<(u32, Packet)>],
    ) -> Result<Engine, Memory>
        requires good { IsGoodSetup (setup_by setup.now) }
        requires depth { setup.now.depth ≤ MAX_BUFFER }
        requires limits { All IsWithinLimits setup.now.packets.now.items }
        requires kept { All IsKept setup.now.packets.now.items }
        requires queues { AreByNode (starts_of setup.now.packets.now.items)
            (nodes setup.now.relation.now.grid) queues.now }
        ensures { IfOk result (λ e. e ≡ record { net = setup_by setup.now; count = 0 }) }
    {
        Ok(Engine {
            columns: Columns::new(alloc, setup, queues)?,
        })
    }

    /// The network that these columns show.
    pub fn of(columns: Columns) -> Engine
        requires shows { ShowsRun (net_in columns.origin) columns.tile.cycle columns }
        requires found { AreFindings (net_in columns.origin) columns }
        ensures { result ≡ record { net = net_in columns.origin; count = columns.tile.cycle } }
    {
        Engine { columns }
    }

    /// The columns that show it.
    pub fn into_columns(self) -> Columns
        ensures shows { ShowsRun self.net self.count result }
        ensures found { AreFindings self.net result }
    {
        let Engine { columns } = self;
        columns
    }

    /// Runs so many cycles, by the relation that it was made for. Those in which nothing happens
    /// are run at once, but for the last one. It takes no memory.
    pub fn run(&mut self, relation: &Relation, cycles: u32)
        requires relation { self.old.net.relation ≡ relation.now }
        requires within { self.old.count + cycles ≤ CYCLE_LIMIT }
        ensures { self.new ≡ record self.old { count = self.old.count + cycles } }
    {
        self.columns.run(relation, cycles);
    }
}
