//! A network taken apart: its routers, how they run, and what they answer.

ghost use Rattle.std.specs.Prelude.{◌≡◌, ◌+◌, ◌*◌, ◌<◌, ◌≤◌, length};
ghost use Rattle.noc_net.specs.Prelude.{nodes as nodes_of, ports as ports_of, counts_before, findings_before, arrival_in, state_at, last_event_before};
ghost use Rattle.noc_net.specs.Parts.{AreParts, run_in, setup_in};
ghost use Rattle.noc_net.specs.Latest.{later_of};

use crate::cycles::{decide_all, deliver_all};
use noc_packet::{Beat, Packet};
use noc_route::Relation;
use noc_router::{Finding, Plan, Router, VERDICTS};
use noc_theory::CYCLE_LIMIT;
use noc_topo::LINKS;
use noc_wires::Room;

/// What a network is made of, so that others can run its routers
/// (`Network::into_parts`, `Network::from_parts`).
#[derive(Drop)]
pub struct Parts {
    /// The routing relation.
    pub relation: Relation,
    /// The depth of each buffer, 1 to 16 flits.
    pub buffer: usize,
    /// The packets, by number.
    pub packets: Vec<Packet>,
    /// How many cycles have run.
    pub count: u64,
    /// The routers, by number.
    pub routers: Vec<Router>,
    /// A plan for the routers of the relation.
    pub plan: Plan,
    /// The beats in flight, by the router and the link port where they arrive:
    /// idle where there is no link.
    pub beats: Vec<[Beat; LINKS]>,
    /// The storage of a core, one for each router.
    pub room: Vec<Room>,
}

impl Parts {
    // Runs so many cycles.
    pub(crate) fn run(&mut self, cycles: u64)
        requires parts { AreParts self.old }
        requires within { self.old.count + cycles ≤ CYCLE_LIMIT }
        ensures parts { AreParts self.new }
        ensures network { run_in self.new
            ≡ record { net = setup_in self.old; count = self.old.count + cycles } }
    {
        for _ in 0..cycles {
            self.cycle();
        }
    }

    // Runs a cycle: each router takes the beats that came to it, injects, decides and commits, and
    // then all put.
    fn cycle(&mut self)
        requires parts { AreParts self.old }
        requires within { self.old.count < CYCLE_LIMIT }
        ensures parts { AreParts self.new }
        ensures network { run_in self.new
            ≡ record { net = setup_in self.old; count = self.old.count + 1 } }
    {
        decide_all(
            &self.relation,
            &mut self.plan,
            self.count,
            &mut self.routers,
            &mut self.beats,
        );
        deliver_all(&self.relation, &mut self.routers, &mut self.beats);
        self.count += 1;
    }

    // The last cycle with an event, in any router.
    pub(crate) fn last_event(&self) -> Option<u64>
        requires { AreParts self.now }
        ensures { result ≡ last_event_before (setup_in self.now) self.now.count }
    {
        let mut last = None;
        for router in &self.routers {
            last = later(last, router.last_event());
        }
        last
    }

    // The cycle in which the tail of a packet was out.
    pub(crate) fn arrival(&self, packet: usize) -> Option<u64>
        requires parts { AreParts self.now }
        requires packet { packet < length self.now.packets.items }
        ensures { result ≡ arrival_in (setup_in self.now)
            (state_at (setup_in self.now) self.now.count) packet }
    {
        self.routers[self.packets[packet].destination as usize].arrival(packet as u32)
    }

    // In how many of the cycles each verdict was that of an input channel,
    // in the order of `Verdict`.
    pub(crate) fn counts(&self, router: usize, port: usize, vc: usize) -> [u64; VERDICTS]
        requires parts { AreParts self.now }
        requires router { router < nodes_of self.now.relation.grid }
        requires port { port < ports_of self.now.relation.grid }
        requires vc { vc < self.now.relation.vcs }
        ensures { result ≡ counts_before (setup_in self.now) self.now.count router
            (port * self.now.relation.vcs + vc) }
    {
        self.routers[router].counts(port, vc)
    }

    // What a router found in the last cycle, by input channel: none before the first cycle.
    pub(crate) fn findings(&self, router: usize) -> &[Finding]
        requires parts { AreParts self.now }
        requires router { router < nodes_of self.now.relation.grid }
        ensures { result.now ≡ findings_before (setup_in self.now) self.now.count router }
    {
        self.routers[router].findings()
    }
}

// The later of two cycles, where there are any.
fn later(first: Option<u64>, second: Option<u64>) -> Option<u64>
    ensures { result ≡ later_of first second }
{
    match (first, second) {
        (None, _) => second,
        (Some(_), None) => first,
        (Some(a), Some(b)) => { if a < b { second } else { first } }
    }
}
