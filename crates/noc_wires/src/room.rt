//! What a core keeps of one router.

ghost use Rattle.std.specs.Prelude.{◌≡◌, ℕ, ◌<◌, ◌≤◌, ◌&&◌, [], None, false, length, map, replicate, slice_index_or, take, true, unwrap_or};
ghost use Rattle.noc_topo.specs.Shape.{local_port};
ghost use Rattle.noc_view.specs.View.{View, idle_beat};
ghost use Rattle.noc_theory.specs.Network.{Setup};
ghost use Rattle.noc_theory.specs.Core.{all_have, post_after_last_put, may_decide, may_put, may_take, none_has, putting, receiving, taking};
ghost use Rattle.noc_wires.specs.Room.{front_of, opened_post, post_of, rests_at, unput_for, wires_in};

use crate::wire::Wire;
use noc_packet::Beat;
use noc_router::Router;
use noc_theory::CYCLE_LIMIT;
use noc_topo::LINKS;

/// The storage of a core for one router: the wires that arrive there, and what the
/// router has done of its cycle.
#[derive(Clone, Copy)]
pub struct Room {
    /// The cycle that the router is in, or that it makes next.
    pub steps: u64,
    /// Whether this cycle is made, and not all its beats are put.
    pub decided: bool,
    /// The wires that arrive.
    pub wires: [Wire; LINKS],
    /// The beats that were taken in this cycle.
    pub taken: [Option<Beat>; LINKS],
    /// The beats that are still to be put.
    pub unput: [Option<Beat>; LINKS],
}

impl Room {
    /// A router between its cycles, with nothing on its wires.
    pub fn new(steps: u64) -> Room
        ensures { result ≡ record {
          steps = steps;
          decided = false;
          wires = replicate LINKS Wire.Empty;
          taken = replicate LINKS None;
          unput = replicate LINKS None;
        } }
    {
        Room {
            steps,
            decided: false,
            wires: [Wire::Empty; LINKS],
            taken: [None; LINKS],
            unput: [None; LINKS],
        }
    }

    /// A router between its cycles, with the beats in flight on its wires.
    pub fn opened(router: &Router, links: usize, steps: u64, beats: &[Beat; LINKS]) -> Room
        requires links { links ≡ local_port router.now.site.grid }
        requires few { links ≤ LINKS }
        ensures { post_of links router.now result ≡ opened_post links router.now steps beats.now }
    {
        let mut room = Room::new(steps);
        for port in 0..links {
            room.wires[port] = Wire::opened(router.neighbour(port).is_some(), beats[port]);
        }
        room
    }

    /// How many beats are on the wire that arrives at a port.
    pub fn beats(&self, port: usize) -> usize
        requires { port < LINKS }
        ensures { result ≡ length (slice_index_or (wires_in self.now) port []) }
    {
        self.wires[port].len()
    }

    /// Whether a beat can be taken at a link port.
    pub fn may_take(&self, port: usize) -> bool
        requires { port < LINKS }
        ensures { (links : ℕ) (view : View) → port < links
            → result ≡ may_take CYCLE_LIMIT port (post_of links view self.now) }
    {
        self.wires[port].len() > 0 && self.taken[port].is_none() && self.steps < CYCLE_LIMIT
    }

    /// The oldest beat of a wire is taken.
    pub fn take(&mut self, port: usize)
        requires { port < LINKS }
        ensures { (links : ℕ) (view : View) → port < links
            → post_of links view self.new ≡ taking port (post_of links view self.old) }
    {
        let mut wire = self.wires[port];
        self.taken[port] = wire.pop();
        self.wires[port] = wire;
    }

    /// Whether the cycle can be made.
    pub fn may_decide(&self, router: &Router, links: usize) -> bool
        requires links { links ≡ local_port router.now.site.grid }
        requires few { links ≤ LINKS }
        ensures { (net : Setup) (view : View) → net.relation.grid ≡ router.now.site.grid
            → result ≡ may_decide CYCLE_LIMIT net router.now.site.node
            (post_of links view self.now) }
    {
        !self.decided && self.steps < CYCLE_LIMIT && self.has_all(router, links)
    }

    // Whether a beat is taken at each link.
    fn has_all(&self, router: &Router, links: usize) -> bool
        requires links { links ≡ local_port router.now.site.grid }
        requires few { links ≤ LINKS }
        ensures { (net : Setup) → net.relation.grid ≡ router.now.site.grid
            → result ≡ all_have net router.now.site.node (take links self.now.taken) }
    {
        for port in 0..links {
            if self.taken[port].is_none() & router.neighbour(port).is_some() {
                return false;
            }
        }
        true
    }

    /// The beats that were taken, idle ones where there are none.
    pub fn beats_taken(&self) -> [Beat; LINKS]
        ensures { result ≡ map (λ beat. unwrap_or beat idle_beat) self.now.taken }
    {
        let mut beats = [Beat::idle(); LINKS];
        for port in 0..LINKS {
            beats[port] = self.taken[port].unwrap_or(Beat::idle());
        }
        beats
    }

    /// The cycle is made: these beats are to be put where there are links.
    pub fn decide(&mut self, router: &Router, links: usize, beats: &[Beat; LINKS])
        requires links { links ≡ local_port router.now.site.grid }
        requires few { links ≤ LINKS }
        requires steps { self.old.steps < CYCLE_LIMIT }
        ensures { (net : Setup) (view : View) → net.relation.grid ≡ router.now.site.grid
            → post_of links view self.new
            ≡ post_after_last_put net
            (record (post_of links view self.old) {
              decided = true;
              unput = unput_for net router.now.site.node (take links beats.now);
            }) }
    {
        self.decided = true;
        for port in 0..links {
            self.unput[port] = router.neighbour(port).is_some().then_some(beats[port]);
        }
        self.finish(links);
    }

    /// Whether the beat for a link port can be put.
    pub fn may_put(&self, port: usize) -> bool
        requires { port < LINKS }
        ensures { (links : ℕ) (view : View) → port < links
            → result ≡ may_put port (post_of links view self.now) }
    {
        self.unput[port].is_some()
    }

    /// The beat for a link port is put.
    pub fn put(&mut self, port: usize, links: usize) -> Beat
        requires port { port < links }
        requires few { links ≤ LINKS }
        requires steps { self.old.steps < CYCLE_LIMIT }
        ensures beat { result ≡ unwrap_or (slice_index_or self.old.unput port None) idle_beat }
        ensures post { (net : Setup) (view : View) → local_port net.relation.grid ≡ links
            → post_of links view self.new ≡ putting net port (post_of links view self.old) }
    {
        let beat = self.unput[port].unwrap_or(Beat::idle());
        self.unput[port] = None;
        self.finish(links);
        beat
    }

    // After its last put the router is between its cycles.
    fn finish(&mut self, links: usize)
        requires few { links ≤ LINKS }
        requires steps { self.old.steps < CYCLE_LIMIT }
        ensures { (net : Setup) (view : View) → local_port net.relation.grid ≡ links
            → post_of links view self.new ≡ post_after_last_put net (post_of links view self.old) }
    {
        if have_none(&self.unput[..links]) {
            let wires = self.wires;
            *self = Room::new(self.steps + 1);
            self.wires = wires;
        }
    }

    /// A beat comes to the end of a wire.
    pub fn receive(&mut self, port: usize, beat: Beat)
        requires port { port < LINKS }
        requires room { length (slice_index_or (wires_in self.old) port []) < 2 }
        ensures { (links : ℕ) (view : View) → port < links
            → post_of links view self.new ≡ receiving port beat (post_of links view self.old) }
    {
        let mut wire = self.wires[port];
        wire.push(beat);
        self.wires[port] = wire;
    }

    /// Whether the router is between its cycles at a count.
    pub fn rests_at(&self, links: usize, count: u64) -> bool
        requires { links ≤ LINKS }
        ensures { result ≡ rests_at links count self.now }
    {
        !self.decided && self.steps == count && have_none(&self.taken[..links])
    }

    /// The oldest beats of the wires, idle ones where there are none.
    pub fn front(&self, links: usize) -> [Beat; LINKS]
        requires { links ≤ LINKS }
        ensures { (port : ℕ) → slice_index_or result port idle_beat
            ≡ front_of (slice_index_or (take links (wires_in self.now)) port []) }
    {
        let mut beats = [Beat::idle(); LINKS];
        for port in 0..links {
            let mut wire = self.wires[port];
            beats[port] = wire.pop().unwrap_or(Beat::idle());
        }
        beats
    }
}

// Whether there is no beat for any port.
fn have_none(beats: &[Option<Beat>]) -> bool
    ensures { result ≡ none_has beats.now }
{
    beats.iter().all(|beat| beat.is_none())
}
