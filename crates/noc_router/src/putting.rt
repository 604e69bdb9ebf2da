//! Beats for the links of a router, and packets that are out.

ghost use Rattle.std.specs.Prelude.{◌≡◌, ◌<◌, Some, length};
ghost use Rattle.noc_topo.specs.Shape.{ports as ports_of, local_port};
ghost use Rattle.noc_view.specs.View.{beat_to_put, view_after_put, idle_beats, with_arrival};
ghost use Rattle.noc_router.specs.Settled.{credit_put, flit_put};

use crate::router::Router;
use noc_packet::{Beat, Flit};

impl Router {
    // Puts a beat at each link port.
    pub(crate) fn put_all(&mut self, beats: &mut [Beat])
        requires { length beats.old ≡ local_port self.old.site.grid }
        ensures view { self.new ≡ record self.old { to_put = idle_beats self.old.site } }
        ensures beats { beats.new ≡ self.old.to_put }
    {
        for port in 0..self.ports - 1 {
            beats[port] = self.put(port);
        }
    }

    /// The beat that `commit` left for a link port (0 to the number of link ports -
    /// 1); an idle one is left.
    pub fn put(&mut self, port: usize) -> Beat
        requires { port < local_port self.old.site.grid }
        ensures beat { result ≡ beat_to_put self.old port }
        ensures view { self.new ≡ view_after_put port self.old }
        ensures site { self.new.site ≡ self.old.site }
    {
        prove!(port < self.ports - 1);
        let beat = self.to_put[port];
        self.to_put[port] = Beat::idle();
        beat
    }

    // A credit returns by a port; the local port has none.
    pub(crate) fn put_credit(&mut self, port: usize, vc: usize)
        requires port { port < ports_of self.old.site.grid }
        requires vc { vc < self.old.site.vcs }
        ensures { self.new ≡ credit_put port vc self.old }
    {
        if port < self.ports - 1 {
            self.to_put[port].credit = Some(vc as u8);
        }
    }

    // A flit leaves by a port, or it has arrived.
    pub(crate) fn put_flit(&mut self, port: usize, vc: usize, flit: Flit)
        requires port { port < ports_of self.old.site.grid }
        requires vc { vc < self.old.site.vcs }
        ensures { self.new ≡ flit_put port vc flit self.old }
    {
        if port < self.ports - 1 {
            self.to_put[port].flit = Some((vc as u8, flit));
        } else if flit.last {
            self.arrive(flit.packet);
        }
    }

    // The tail of a packet is out.
    fn arrive(&mut self, packet: u32)
        ensures { self.new ≡ with_arrival (Some packet) self.old }
    {
        let expected = self.arrivals.note(packet, self.cycle);
        if !expected {
            self.misfits = self.misfits.saturating_add(1);
        }
    }
}
