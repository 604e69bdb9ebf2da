//! The network.
//!
//! A network that is made runs by columns (`noc_engine`). It holds routers beside them, at count 0,
//! since `into_parts` and `Core::new` give routers and take no allocator: there is no memory from
//! which they could make any. So a network takes the memory of its routers too, which never run
//! beside an engine. `into_parts` has them run the cycles that the engine has run, one by one, and
//! lets the engine go. After `from_parts` the routers run. The readers ask whichever of the two has
//! run.

ghost use Rattle.std.specs.Prelude.{◌≡◌, ℕ, ◌+◌, ◌*◌, ◌<◌, ◌≤◌, ◌&&◌, All, Err, IfErr, IfOk, IsOk, None, Some, false, true, is_none, length, nat_le, slice_get, vec_len};
ghost use Rattle.noc_net.specs.Prelude.{tabulate, nodes as nodes_of, ports as ports_of, IsRankedBy, Ranking, opening_view, IsSilent, counts_before, findings_before, ends_of, starts_of, AreByNode, empty_plan_contents, IsGoodSetup, arrival_in, packet_at, state_at, is_pending, is_stuck, last_event_before};
ghost use Rattle.noc_net.specs.declared.net_fault.NetFault.{NetFault as NetFaultValue};
ghost use Rattle.noc_net.specs.Faults.{IsSendable, fault_of};
ghost use Rattle.noc_net.specs.Parts.{AreParts, run_in};
ghost use Rattle.noc_net.specs.Latency.{latency_at};
ghost use Rattle.noc_net.specs.Limit.{IsLimit, are_all_out};

use crate::limit::{MAX_LIMIT, budget, last_due};
use crate::net_fault::NetFault;
use crate::packets::first_fault;
use crate::parts::Parts;
use noc_engine::{Engine, Setup};
use noc_packet::{Beat, MAX_BUFFER, MAX_PACKETS, Memory, Packet};
use noc_queues::{ends_by_node, starts_by_node};
use noc_route::Relation;
use noc_router::{Finding, Plan, Router, VERDICTS};
use noc_theory::CYCLE_LIMIT;
use noc_times::{Interval, latency, was_quiet};
use noc_topo::LINKS;
use noc_wires::Room;
use noc_workers::{NotRun, run_by};
use std::alloc::Global;
use std::marker::Model;
use std::mem;
use std::sync::Wait;
use std::thread::Threads;
use std::time::Clock;

/// A network of routers with one wire in each direction of each link, run in lockstep.
///
/// It is seen as four values: its relation, the depth of its buffers, its packets, and the count of
/// the cycles that it has run. What its readers answer follows from them (docs/MODEL.md).
#[derive(Drop)]
pub struct Network {
    // The routers, at their own count: that of the network where there is no engine.
    parts: Parts,
    engine: Option<Engine>,
    count: u64,
}

impl Model for Network {
    ghost use Rattle.noc_theory.specs.Network.{Run};

    ghost Value = { Run };

    ghost use Rattle.noc_net.specs.Inside.{run_of, IsNetwork};

    ghost view = { run_of };

    ghost invariant = { IsNetwork };
}

impl Network {
    /// A network at count 0 with buffers of `depth` (1 to 16) flits, or the first fault. Too many
    /// packets come first. Then come, packet by packet, a node that does not exist, a packet from a
    /// node to itself, a class that does not exist, a length, and a due time. Memory comes last,
    /// where the packets have no fault.
    ///
    /// What it makes is good: all laws of a network hold of it.
    pub fn new(
        alloc: Global,
        relation: Relation,
        depth: usize,
        packets: Vec<Packet>,
    ) -> Result<Network, NetFault>
        requires some_depth { 0 < depth }
        requires depth { depth ≤ MAX_BUFFER }
        ensures made { IfOk result (λ n. n
            ≡ record {
              net = record { relation = relation; depth = depth; packets = packets.items };
              count = 0;
            }) }
        ensures good { IfOk result (λ n. IsGoodSetup n.net) }
        ensures fault { (e : NetFaultValue) → fault_of relation packets.items ≡ Some e
            → result ≡ Err e }
        ensures memory { fault_of relation packets.items ≡ None
            → IfErr result (λ e. e ≡ NetFault.Memory) }
    {
        if let Some(fault) = first_fault(&relation, &packets) {
            return Err(fault);
        }
        let nodes = relation.shape().nodes();
        let starts = starts_by_node(alloc, nodes, &packets)?;
        let setup = Setup {
            relation: &relation,
            depth,
            packets: &packets,
        };
        let engine = Engine::new(alloc, &setup, &starts)?;
        let Equipment {
            routers,
            plan,
            beats,
            room,
        } = equipment_of(alloc, &relation, depth, &packets, starts)?;
        Ok(Network {
            parts: Parts {
                relation,
                buffer: depth,
                packets,
                count: 0,
                routers,
                plan,
                beats,
                room,
            },
            engine: Some(engine),
            count: 0,
        })
    }

    /// Takes the network apart: its routers with their findings, and its beats in flight, are those
    /// of its state at its count, and its plan is one of its relation without requests. It costs as
    /// many cycles of the routers as have run by columns, since the routers run these again, each
    /// one.
    pub fn into_parts(self) -> Parts
        ensures network { run_in result ≡ self }
        ensures parts { AreParts result }
        ensures plan { result.plan ≡ empty_plan_contents
            (ports_of result.relation.grid) result.relation.vcs }
    {
        let Network {
            mut parts,
            engine: _,
            count,
        } = self;
        let behind = count - parts.count;
        parts.run(behind);
        parts.plan.clear(&parts.relation);
        parts
    }

    /// The network of these parts, which are those of a network at their count.
    pub fn from_parts(parts: Parts) -> Network
        requires { AreParts parts }
        ensures { result ≡ run_in parts }
    {
        let count = parts.count;
        Network {
            parts,
            engine: None,
            count,
        }
    }

    /// Whether it runs by columns, or its routers run one by one: those of a network that was put
    /// together from parts do. All else that is read of a network is the same.
    pub fn runs_by_columns(&self) -> bool {
        self.engine.is_some()
    }

    /// Runs one cycle: each router takes its beats, injects, decides and commits, and then all put.
    /// A network whose relation is ranked is not stuck afterwards.
    pub fn cycle(&mut self)
        requires { self.old.count < CYCLE_LIMIT }
        ensures value { self.new ≡ record self.old { count = self.old.count + 1 } }
        ensures unstuck { (ranks : Ranking) → IsRankedBy self.new.net.relation ranks
            → is_stuck self.new.net self.new.count ≡ false }
    {
        self.run(1);
    }

    /// Runs so many cycles. A network whose relation is ranked is not stuck afterwards.
    pub fn run(&mut self, cycles: u64)
        requires { self.old.count + cycles ≤ CYCLE_LIMIT }
        ensures value { self.new ≡ record self.old { count = self.old.count + cycles } }
        ensures unstuck { (ranks : Ranking) → IsRankedBy self.new.net.relation ranks
            → is_stuck self.new.net self.new.count ≡ false }
    {
        let next = Interval::starting_at(self.count, cycles);
        match &mut self.engine {
            Some(engine) => engine.run(&self.parts.relation, next.cycles),
            None => self.parts.run(cycles),
        }
        self.count = next.end;
    }

    /// Runs so many cycles by up to so many threads, of which the caller's is one, each with whole
    /// blocks of 64 routers; or tells that memory or a thread was refused. One worker runs them as
    /// `run` does, and is refused nothing.
    pub fn run_by<R: Threads + Wait + Clock + Sync>(
        self,
        rt: &R,
        alloc: Global,
        cycles: u64,
        workers: usize,
    ) -> Result<Network, NotRun>
        requires { self.count + cycles ≤ CYCLE_LIMIT }
        ensures value { IfOk result (λ n. n ≡ record self { count = self.count + cycles }) }
        ensures alone { workers ≤ 1 → IsOk result }
    {
        let Network {
            mut parts,
            engine,
            count,
        } = self;
        let next = Interval::starting_at(count, cycles);
        let engine = match engine {
            Some(engine) => {
                let setup = Setup {
                    relation: &parts.relation,
                    depth: parts.buffer,
                    packets: &parts.packets,
                };
                Some(run_by(rt, alloc, &setup, engine, next.cycles, workers)?)
            }
            None => {
                parts.run(cycles);
                None
            }
        };
        Ok(Network {
            parts,
            engine,
            count: next.end,
        })
    }

    /// How many cycles have run, at most the limit: a network never goes beyond it.
    pub fn count(&self) -> u64
        ensures value { result ≡ self.now.count }
        ensures within { result ≤ CYCLE_LIMIT }
    {
        self.count
    }

    /// Whether cycle `count` is pending: a packet due by then has its tail not out yet. Where the
    /// relation is ranked and the limit is reached, it is not.
    pub fn pending(&self) -> bool
        ensures value { result ≡ is_pending self.now.net self.now.count
            (state_at self.now.net self.now.count) }
        ensures ranked { (ranks : Ranking) (limit : ℕ) → IsRankedBy self.now.net.relation ranks
            → IsLimit self.now.net limit → limit ≤ self.now.count → result ≡ false }
    {
        self.is_waiting_by(self.count)
    }

    // Whether a packet due by this cycle has its tail not out.
    fn is_waiting_by(&self, cycle: u64) -> bool
        ensures { result ≡ is_pending self.now.net cycle (state_at self.now.net self.now.count) }
    {
        for packet in 0..self.packets() {
            if self.is_waiting(packet, cycle) {
                return true;
            }
        }
        false
    }

    // Whether a packet is due by this cycle and has its tail not out.
    fn is_waiting(&self, packet: usize, cycle: u64) -> bool
        requires { packet < length self.now.net.packets }
        ensures { result ≡ (nat_le (packet_at self.now.net packet).due cycle && is_none
            (arrival_in self.now.net (state_at self.now.net self.now.count) packet)) }
    {
        u64::from(self.packet(packet).due) <= cycle && self.arrival(packet).is_none()
    }

    /// The last cycle with an event, in any router.
    pub fn last_event(&self) -> Option<u64>
        ensures { result ≡ last_event_before self.now.net self.now.count }
    {
        match &self.engine {
            Some(engine) => engine.last_event(),
            None => self.parts.last_event(),
        }
    }

    /// Whether the last cycle was pending and had no event: never where the relation is ranked.
    pub fn stuck(&self) -> bool
        ensures value { result ≡ is_stuck self.now.net self.now.count }
        ensures ranked { (ranks : Ranking) → IsRankedBy self.now.net.relation ranks
            → result ≡ false }
    {
        match self.count.checked_sub(1) {
            Some(last) => was_quiet(last, self.last_event()) && self.is_waiting_by(last),
            None => false,
        }
    }

    /// The cycle in which the tail of a packet was out, if it was. Where the relation is ranked and
    /// the limit is reached it was, in a cycle below the limit.
    pub fn arrival(&self, packet: usize) -> Option<u64>
        requires { packet < length self.now.net.packets }
        ensures value { result ≡ arrival_in self.now.net
            (state_at self.now.net self.now.count) packet }
        ensures ranked { (ranks : Ranking) (limit : ℕ) → IsRankedBy self.now.net.relation ranks
            → IsLimit self.now.net limit → limit ≤ self.now.count → (cycle : ℕ)
            × (result ≡ Some cycle) × (cycle < limit) }
    {
        match &self.engine {
            Some(engine) => engine.arrival(packet),
            None => self.parts.arrival(packet),
        }
    }

    /// How many cycles lie between the due time of a packet and the cycle in which its tail was
    /// out, if it was.
    #[tactic(auto, unfolding(crate::specs::Latency::latency_at))]
    pub fn latency(&self, packet: usize) -> Option<u64>
        requires { packet < length self.now.net.packets }
        ensures { result ≡ latency_at self.now packet }
    {
        match self.arrival(packet) {
            Some(cycle) => Some(latency(self.packet(packet).due, cycle)),
            None => None,
        }
    }

    /// In how many of the cycles each verdict was that of an input channel, in the order of
    /// `Verdict`. The ten counts add up to the cycles (`noc_theory::counts_add_up`).
    pub fn counts(&self, router: usize, port: usize, vc: usize) -> [u64; VERDICTS]
        requires router { router < nodes_of self.now.net.relation.grid }
        requires port { port < ports_of self.now.net.relation.grid }
        requires vc { vc < self.now.net.relation.vcs }
        ensures { result ≡ counts_before self.now.net self.now.count router
            (port * self.now.net.relation.vcs + vc) }
    {
        match &self.engine {
            Some(engine) => engine.counts(router, port, vc),
            None => self.parts.counts(router, port, vc),
        }
    }

    /// What a router found in the last cycle, by input channel: none before the first cycle.
    pub fn findings(&self, router: usize) -> &[Finding]
        requires { router < nodes_of self.now.net.relation.grid }
        ensures { result.now ≡ findings_before self.now.net self.now.count router }
    {
        match &self.engine {
            Some(engine) => engine.findings(router),
            None => self.parts.findings(router),
        }
    }

    /// Whether the tail of every packet is out: where the relation is ranked, at
    /// the limit at the latest.
    pub fn all_out(&self) -> bool
        ensures value { result ≡ are_all_out self.now.net (state_at self.now.net self.now.count) }
        ensures ranked { (ranks : Ranking) (limit : ℕ) → IsRankedBy self.now.net.relation ranks
            → IsLimit self.now.net limit → limit ≤ self.now.count → result ≡ true }
    {
        for packet in 0..self.packets() {
            if self.arrival(packet).is_none() {
                return false;
            }
        }
        true
    }

    /// The count by which every packet is out where the relation is ranked: the last due time and
    /// the budget. It is 0 without packets.
    pub fn limit(&self) -> u64
        ensures value { IsLimit self.now.net result }
        ensures few { result ≤ MAX_LIMIT }
    {
        last_due(self) + budget(self)
    }

    /// How many flits and credits did not fit, in all routers: none ever does. A flit that comes
    /// has a slot in its buffer by the law of credits (`noc_theory::credits_are_the_free_slots`).
    pub fn misfits(&self) -> u64
        ensures { result ≡ 0 }
    {
        0
    }

    /// The packet with this number.
    pub fn packet(&self, number: usize) -> Packet
        requires { number < length self.now.net.packets }
        ensures { slice_get self.now.net.packets number ≡ Some result }
    {
        self.parts.packets[number]
    }

    /// How many packets there are. Whoever has a network knows that it is good, so
    /// that all laws hold of it.
    pub fn packets(&self) -> usize
        ensures value { result ≡ length self.now.net.packets }
        ensures few { result ≤ MAX_PACKETS }
        ensures good { IsGoodSetup self.now.net }
    {
        self.parts.packets.len()
    }

    /// The routing relation.
    pub fn relation(&self) -> &Relation
        ensures { result.now ≡ self.now.net.relation }
    {
        &self.parts.relation
    }
}

// What a network takes memory for beside its packets and its engine: its routers, a plan for them,
// the beats on its wires, and the storage of a core.
#[derive(Drop)]
struct Equipment {
    routers: Vec<Router>,
    plan: Plan,
    beats: Vec<[Beat; LINKS]>,
    room: Vec<Room>,
}

// That of a network before its first cycle, where `starts` has the packets of each node.
fn equipment_of(
    alloc: Global,
    relation: &Relation,
    depth: usize,
    packets: &[Packet],
    starts: Vec<Vec<(u32, Packet)>>,
) -> Result<Equipment, Memory>
    requires depth { (0 < depth) × (depth ≤ MAX_BUFFER) }
    requires few { length packets.now ≤ MAX_PACKETS }
    requires sendable { All IsSendable packets.now }
    requires starts { AreByNode (starts_of packets.now) (nodes_of relation.now.grid) starts.items }
    ensures routers { IfOk result (λ made. made.routers.items
        ≡ tabulate (nodes_of relation.now.grid)
        (λ node. opening_view
        (record { grid = relation.now.grid; node = node; vcs = relation.now.vcs; depth = depth })
        (starts_of packets.now node) (ends_of packets.now node))) }
    ensures beats { IfOk result (λ made. vec_len made.beats ≡ nodes_of relation.now.grid) }
    ensures idle { IfOk result (λ made. All IsSilent made.beats.items) }
    ensures room { IfOk result (λ made. vec_len made.room ≡ nodes_of relation.now.grid) }
{
    let nodes = relation.shape().nodes();
    let plan = Plan::new(alloc, relation)?;
    let beats = vec![in alloc; [Beat::idle(); LINKS]; nodes]?;
    let room = vec![in alloc; Room::new(0); nodes]?;
    let routers = new_routers(alloc, relation, depth, packets, starts)?;
    Ok(Equipment {
        routers,
        plan,
        beats,
        room,
    })
}

// The routers of a network, by node, where `starts` has the packets of each.
fn new_routers(
    alloc: Global,
    relation: &Relation,
    depth: usize,
    packets: &[Packet],
    starts: Vec<Vec<(u32, Packet)>>,
) -> Result<Vec<Router>, Memory>
    requires depth { (0 < depth) × (depth ≤ MAX_BUFFER) }
    requires few { length packets.now ≤ MAX_PACKETS }
    requires sendable { All IsSendable packets.now }
    requires starts { AreByNode (starts_of packets.now) (nodes_of relation.now.grid) starts.items }
    ensures { IfOk result (λ routers. routers.items
        ≡ tabulate (nodes_of relation.now.grid)
        (λ node. opening_view
        (record { grid = relation.now.grid; node = node; vcs = relation.now.vcs; depth = depth })
        (starts_of packets.now node) (ends_of packets.now node))) }
{
    let nodes = relation.shape().nodes();
    let mut starts = starts;
    let mut ends = ends_by_node(alloc, nodes, packets)?;
    let mut routers = Vec::with_capacity(alloc, nodes)?;
    for node in 0..nodes {
        let starting = mem::replace(&mut starts[node], Vec::new(alloc));
        let ending = mem::replace(&mut ends[node], Vec::new(alloc));
        routers.push(Router::new(alloc, relation, node, depth, starting, ending)?)?;
    }
    Ok(routers)
}
