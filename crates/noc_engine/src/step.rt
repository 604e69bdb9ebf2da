//! One cycle of a network.

ghost use Rattle.std.specs.Prelude.{◌*◌, ◌≤◌, length};
ghost use Rattle.noc_engine.specs.Prelude.{AreFindings, CHANNELS, HasRunCycle, MayRun, net_in, nodes};

use crate::columns::Columns;
use crate::finds::find_all;
use noc_route::Relation;

impl Columns {
    // Runs one cycle, by the relation that it was made for. Of so many routers it is noted what
    // they find: of none, or of all of the network.
    pub(crate) fn step(&mut self, relation: &Relation, routers: usize)
        requires may { MayRun relation.now 1 self.old }
        requires routers { routers * CHANNELS ≤ length self.old.found.items }
        ensures stepped { HasRunCycle relation.now self.old self.new }
        ensures found { nodes (net_in self.old.origin).relation.grid ≤ routers
            → AreFindings (net_in self.old.origin) self.new }
    {
        let plan = &self.plan;
        self.tile.turn(plan, relation);
        find_all(
            plan,
            routers,
            &self.tile.blocks,
            &self.tile.works,
            self.found.as_mut_slice(),
        );
        self.tile.hear_own();
        self.tile.gather(plan);
    }
}
