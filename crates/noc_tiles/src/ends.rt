//! The ends of the wires between tiles, and the table of the beats on a tile's wires.

ghost use Rattle.std.specs.Prelude.{ℕ, ◌≡◌, ◌<◌, true, length, IsFalse, IsTrue, MatchOption};
ghost use Rattle.noc_tiles.specs.Prelude.{beat_at};
ghost use Rattle.noc_tiles.specs.Ends.{end_after_beat, inlet, outlet};
ghost use Rattle.noc_tiles.specs.TileStep.{with_beat};

use noc_exchange::{Stop, arrived, put};
use noc_packet::Beat;
use noc_topo::LINKS;
use rtrb::{Consumer, Producer};
use std::sync::Wait;

/// The end of a wire that arrives at a router and a link port of the tile.
#[derive(Drop)]
pub struct Inlet {
    /// The router where the wire arrives.
    pub router: usize,
    /// The link port where it arrives.
    pub port: usize,
    /// The end of the ring.
    pub end: Consumer<Beat>,
}

/// The end of a wire that leaves the tile: it arrives at a router and a link port of another one.
#[derive(Drop)]
pub struct Outlet {
    /// The router where the wire arrives.
    pub router: usize,
    /// The link port where it arrives.
    pub port: usize,
    /// The end of the ring.
    pub end: Producer<Beat>,
}

impl Inlet {
    // Waits for a beat. `None` where the flag was seen raised.
    pub(crate) fn take(&mut self, rt: &impl Wait, stop: &Stop) -> Option<Beat>
        ensures same { ((inlet self.new).at ≡ (inlet self.old).at)
            × ((inlet self.new).ring ≡ (inlet self.old).ring) }
        ensures took { MatchOption result (stop.now ≡ true)
            (λ x. inlet self.new ≡ end_after_beat (inlet self.old) x) }
    {
        if !arrived(rt, &mut self.end, stop) {
            return None;
        }
        Some(self.end.pop_known())
    }
}

impl Outlet {
    // Waits until the beat is put. False where the flag was seen raised.
    pub(crate) fn put(&mut self, rt: &impl Wait, beat: Beat, stop: &Stop) -> bool
        ensures same { ((outlet self.new).at ≡ (outlet self.old).at)
            × ((outlet self.new).ring ≡ (outlet self.old).ring) }
        ensures put { IsTrue result → outlet self.new ≡ end_after_beat (outlet self.old) beat }
        ensures stopped { IsFalse result → stop.now ≡ true }
    {
        put(rt, &mut self.end, beat, stop)
    }
}

// Puts a beat on a wire, by the router and the link port where it arrives.
pub(crate) fn set_beat(beats: &mut [[Beat; LINKS]], router: usize, port: usize, beat: Beat)
    requires { (router < length beats.old) × (port < LINKS) }
    ensures { (r q : ℕ)
        → beat_at beats.new r q ≡ with_beat (beat_at beats.old) (router, port) beat r q }
{
    beats[router][port] = beat;
}
