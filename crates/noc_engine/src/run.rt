//! A network runs.

ghost use Rattle.std.specs.Prelude.{◌≡◌, ◌+◌, ◌<◌, ◌≤◌};
ghost use Rattle.noc_engine.specs.Prelude.{AreFindings, MayRun, ShowsRun, net_in};

use crate::columns::Columns;
use noc_columns::CHANNELS;
use noc_route::Relation;

impl Columns {
    /// Runs so many cycles, by the relation that they were made for. Those in which nothing happens
    /// are run at once, but for the last one, of which it is noted what each router finds.
    pub fn run(&mut self, relation: &Relation, cycles: u32)
        requires { MayRun relation.now cycles self.old }
        ensures shows { ShowsRun (net_in self.old.origin) (self.old.tile.cycle + cycles) self.new }
        ensures found { 0 < cycles → AreFindings (net_in self.old.origin) self.new }
        ensures kept { cycles ≡ 0 → self.new ≡ self.old }
    {
        if cycles > 0 {
            self.go(relation, cycles - 1);
            self.finish(relation);
        }
    }

    // Runs so many cycles. Those in which nothing happens are run at once.
    fn go(&mut self, relation: &Relation, cycles: u32)
        requires { MayRun relation.now cycles self.old }
        ensures { ShowsRun (net_in self.old.origin) (self.old.tile.cycle + cycles) self.new }
    {
        let mut left = cycles;
        while left > 0 {
            left -= self.advance(relation, left);
        }
    }

    /// Runs one cycle, and those after it that are like it where nothing happens in it, at most so
    /// many in all. The answer is how many it has run.
    pub fn advance(&mut self, relation: &Relation, most: u32) -> u32
        requires some { 0 < most }
        requires may { MayRun relation.now most self.old }
        ensures some { 0 < result }
        ensures within { result ≤ most }
        ensures shows { ShowsRun (net_in self.old.origin) (self.old.tile.cycle + result) self.new }
    {
        self.step(relation, 0);
        1 + self.wait(most - 1)
    }

    // Runs one cycle, the last of a run, and notes what each router finds in it.
    fn finish(&mut self, relation: &Relation)
        requires { MayRun relation.now 1 self.old }
        ensures shows { ShowsRun (net_in self.old.origin) (self.old.tile.cycle + 1) self.new }
        ensures found { AreFindings (net_in self.old.origin) self.new }
    {
        let routers = self.found.len() / CHANNELS;
        self.step(relation, routers);
    }
}
