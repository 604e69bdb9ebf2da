//! The event core.

ghost use Rattle.std.specs.Prelude.{◌≡◌, ℕ, [], take, slice_index_or, ◌<◌, ◌≤◌, ◌&&◌, IfErr, IfOk, Some, true, is_ok, is_some, length, slice_get};
ghost use Rattle.noc_net.specs.Prelude.{list_all, local_port, nodes as nodes_of, ports as ports_of, IsRelationOf, View, IsGoodSetup, beat_at, Setup};
ghost use Rattle.noc_theory.specs.Core.{after_event, are_between, deciding, happens, is_linked, is_ready, opening_core, post_at, steps_at, view_of_post, wire_at};
ghost use Rattle.noc_wires.specs.declared.room.Room.{Room};
ghost use Rattle.noc_wires.specs.Room.{front_of, opened_post, post_of, rests_at, wires_in};

use crate::network::Network;
use crate::parts::Parts;
use noc_packet::Beat;
use noc_route::Relation;
use noc_router::{Finding, Plan, Router};
use noc_theory::{CYCLE_LIMIT, Event, NotReady};
use noc_topo::LINKS;
use noc_wires::Room;
use std::marker::Model;

/// The routers of a network that go on by single events, each at a cycle of its own. In whatever
/// order the events come, a router between its cycles is the one of the lockstep run at that cycle
/// (docs/MODEL.md, "The event core").
///
/// It takes no memory: the storage is made with the network.
#[derive(Drop)]
pub struct Core {
    parts: Parts,
}

impl Model for Core {
    ghost use Rattle.noc_theory.specs.Core.{CoreState};

    ghost Value = { CoreState };

    ghost use Rattle.noc_net.specs.Stored.{core_of, IsCore};

    ghost view = { core_of };

    ghost invariant = { IsCore };
}

impl Core {
    /// The core that begins where a network is: every router at the network's count, the
    /// beats in flight on the wires.
    pub fn new(network: Network) -> Core
        ensures core { result ≡ opening_core network }
        ensures net { result.net ≡ network.net }
    {
        let mut parts = network.into_parts();
        let links = parts.relation.shape().ports() - 1;
        open_all(
            links,
            parts.count,
            &parts.routers,
            &parts.beats,
            &mut parts.room,
        );
        Core { parts }
    }

    /// Lets an event happen, or answers that it is not ready, and then nothing changes
    /// (docs/MODEL.md, "The event core").
    pub fn apply(&mut self, event: Event) -> Result<(), NotReady>
        ensures ready { is_ok result ≡ is_ready CYCLE_LIMIT self.old event }
        ensures core { self.new ≡ after_event CYCLE_LIMIT self.old event }
        ensures net { self.new.net ≡ self.old.net }
    {
        if !self.is_ready(event) {
            return Err(NotReady);
        }
        match event {
            Event::Take(router, port) => self.take(router, port),
            Event::Decide(router) => self.decide(router),
            Event::Put(router, port) => self.put(router, port),
        }
        Ok(())
    }

    // Whether an event may happen.
    fn is_ready(&self, event: Event) -> bool
        ensures { result ≡ is_ready CYCLE_LIMIT self.now event }
    {
        match event {
            Event::Take(router, port) => {
                self.is_linked(router, port) && self.parts.room[router].may_take(port)
            }
            Event::Decide(router) => {
                router < self.parts.routers.len()
                    && self.parts.room[router].may_decide(&self.parts.routers[router], self.links())
            }
            Event::Put(router, port) => {
                self.is_linked(router, port) && self.parts.room[router].may_put(port)
            }
        }
    }

    // Whether a router exists and has a link at a port.
    fn is_linked(&self, router: usize, port: usize) -> bool
        ensures { result ≡ (is_linked self.now.net router port && is_some
            (post_at self.now router)) }
    {
        let shape = self.parts.relation.shape();
        if router >= shape.nodes() || port >= shape.ports() {
            return false;
        }
        shape.neighbour(router, port).is_some()
    }

    // How many link ports a router has, with or without a link.
    fn links(&self) -> usize
        ensures value { result ≡ local_port self.now.net.relation.grid }
        ensures few { result ≤ LINKS }
    {
        self.parts.relation.shape().ports() - 1
    }

    // A router takes the oldest beat of a wire.
    fn take(&mut self, router: usize, port: usize)
        requires { is_ready CYCLE_LIMIT self.old (Event.Take router port) ≡ true }
        ensures { self.new ≡ happens self.old (Event.Take router port) }
    {
        self.parts.room[router].take(port);
    }

    // A router makes its cycle over the beats that it has taken.
    fn decide(&mut self, router: usize)
        requires { is_ready CYCLE_LIMIT self.old (Event.Decide router) ≡ true }
        ensures { self.new ≡ happens self.old (Event.Decide router) }
    {
        let parts = &mut self.parts;
        decide(
            &parts.relation,
            &mut parts.plan,
            &mut parts.routers[router],
            &mut parts.room[router],
        );
    }

    // A router puts a beat on the wire that leaves by a port.
    fn put(&mut self, router: usize, port: usize)
        requires { is_ready CYCLE_LIMIT self.old (Event.Put router port) ≡ true }
        ensures { self.new ≡ happens self.old (Event.Put router port) }
    {
        let links = self.links();
        let to = self.parts.routers[router].neighbour(port);
        let beat = self.parts.room[router].put(port, links);
        if let Some((node, entry)) = to {
            self.parts.room[node].receive(entry, beat);
        }
    }

    /// The cycle that a router is in, or that it makes next, at most the limit; at the
    /// start the network's count. Whoever has a core knows that its network is good, so
    /// that all laws hold of it.
    pub fn steps(&self, router: usize) -> u64
        requires { router < nodes_of self.now.net.relation.grid }
        ensures value { result ≡ steps_at self.now router }
        ensures within { result ≤ CYCLE_LIMIT }
        ensures good { IsGoodSetup self.now.net }
    {
        self.parts.room[router].steps
    }

    /// How many beats are on the wire that arrives at a port: none where there is no link.
    pub fn beats(&self, router: usize, port: usize) -> usize
        requires router { router < nodes_of self.now.net.relation.grid }
        requires port { port < ports_of self.now.net.relation.grid }
        ensures { result ≡ length (wire_at self.now router port) }
    {
        if port < self.links() {
            self.parts.room[router].beats(port)
        } else {
            0
        }
    }

    /// What a router found in the cycle of its last Decide, by input channel. Before
    /// the first one in this core it is what was found in the cycle before the core
    /// began, and nothing at count 0.
    pub fn findings(&self, router: usize) -> &[Finding]
        requires { router < nodes_of self.now.net.relation.grid }
        ensures { (view : View) × (view_of_post self.now router ≡ Some view)
            × (result.now ≡ view.findings) }
    {
        self.parts.routers[router].findings()
    }

    /// The network, where all routers are between their cycles at one count: it has run so many
    /// cycles. Otherwise the core as it was.
    pub fn finish(self) -> Result<Network, Core>
        ensures whole { is_ok result ≡ are_between self (steps_at self 0) }
        ensures network { IfOk result
            (λ u. u ≡ record { net = self.net; count = steps_at self 0 }) }
        ensures same { IfOk result (λ u. opening_core u ≡ self) }
        ensures refused { IfErr result (λ core. core ≡ self) }
    {
        let links = self.links();
        let count = self.parts.room[0].steps;
        if !all_rest_at(links, count, &self.parts.room) {
            return Err(self);
        }
        let Core { mut parts } = self;
        parts.count = count;
        land_all(links, &parts.room, &mut parts.beats);
        Ok(Network::from_parts(parts))
    }
}

// Each router is between its cycles, with the beats in flight on its wires.
fn open_all(
    links: usize,
    count: u64,
    routers: &[Router],
    beats: &[[Beat; LINKS]],
    room: &mut [Room],
)
    requires few { links ≤ LINKS }
    requires links { (r : ℕ) (view : View) → slice_get routers.now r ≡ Some view
        → local_port view.site.grid ≡ links }
    requires beats { length beats.now ≡ length routers.now }
    requires room { length room.old ≡ length routers.now }
    ensures { (r : ℕ) (view : View) (one : Room) → slice_get routers.now r ≡ Some view
        → slice_get room.new r ≡ Some one
        → post_of links view one ≡ opened_post links view count (slice_index_or beats.now r []) }
{
    for node in 0..routers.len() {
        room[node] = Room::opened(&routers[node], links, count, &beats[node]);
    }
}

// One router makes its cycle over the beats that it has taken.
fn decide(relation: &Relation, plan: &mut Plan, router: &mut Router, room: &mut Room)
    requires relation { IsRelationOf relation.now router.old }
    requires steps { room.old.steps < CYCLE_LIMIT }
    ensures { (net : Setup) → net.relation ≡ relation.now
        → let links = local_port relation.now.grid in
        post_of links router.new room.new
        ≡ deciding net router.old.site.node (post_of links router.old room.old) }
{
    let links = relation.shape().ports() - 1;
    let taken = room.beats_taken();
    let mut sent = [Beat::idle(); LINKS];
    router.step(
        relation,
        plan,
        room.steps,
        &taken[..links],
        &mut sent[..links],
    );
    room.decide(router, links, &sent);
}

// Whether all routers are between their cycles at a count.
fn all_rest_at(links: usize, count: u64, room: &[Room]) -> bool
    requires { links ≤ LINKS }
    ensures { result ≡ list_all (rests_at links count) room.now }
{
    room.iter().all(|one| one.rests_at(links, count))
}

// The oldest beats of the wires are in flight.
fn land_all(links: usize, room: &[Room], beats: &mut [[Beat; LINKS]])
    requires few { links ≤ LINKS }
    requires beats { length beats.old ≡ length room.now }
    ensures { (r : ℕ) (one : Room) (port : ℕ) → slice_get room.now r ≡ Some one
        → beat_at beats.new r port ≡ front_of (slice_index_or (take links (wires_in one)) port []) }
{
    for node in 0..room.len() {
        beats[node] = room[node].front(links);
    }
}
