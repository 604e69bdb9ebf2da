//! A router injects at most one flit.

ghost use Rattle.std.specs.Prelude.{◌≡◌, ◌<◌, IfSome, true, ◌⊎◌, length};
ghost use Rattle.noc_vc.specs.Input.{is_empty};
ghost use Rattle.noc_router.specs.Injection.{next_vc, vacant_vc};
ghost use Rattle.noc_view.specs.View.{local_channel, view_buffer, view_after_inject};
ghost use Rattle.noc_router.specs.Sound.{is_awaiting};

use crate::router::Router;

impl Router {
    /// Injects at most one flit: the next one of the packet that is being injected, where its
    /// buffer has room, or the head of the next packet that is due by this cycle. A head goes to
    /// the lowest local channel that is idle and has an empty buffer (docs/MODEL.md, "Injection").
    pub fn inject(&mut self, cycle: u64)
        ensures view { self.new ≡ view_after_inject cycle self.old }
        ensures site { self.new.site ≡ self.old.site }
    {
        self.cycle = cycle;
        let Some(vc) = self.next_channel() else {
            return;
        };
        let Some(flit) = self.source.next_flit() else {
            return;
        };
        self.channels.inject((self.ports - 1) * self.vcs + vc, flit);
        self.source.sent(vc);
        self.had_event = true;
    }

    // The local virtual channel to which the source's next flit can go in this cycle: it has room,
    // and it is empty or awaits that flit.
    fn next_channel(&self) -> Option<usize>
        ensures value { result ≡ next_vc self.now }
        ensures within { IfSome result (λ vc. vc < self.now.site.vcs) }
        ensures room { IfSome result (λ vc. length (view_buffer self.now
            (local_channel self.now.site vc)) < self.now.site.depth) }
        ensures next { IfSome result (λ vc. is_empty (view_buffer self.now
            (local_channel self.now.site vc)) ≡ true
            ⊎ is_awaiting self.now.inputs (local_channel self.now.site vc) ≡ true) }
    {
        match self.source.vc {
            Some(vc) => {
                let room = self.channels.has_room((self.ports - 1) * self.vcs + vc);
                if room { Some(vc) } else { None }
            }
            None if self.source.is_due(self.cycle) => self.vacant_channel(),
            None => None,
        }
    }

    // The lowest local virtual channel that is idle and has an empty buffer.
    fn vacant_channel(&self) -> Option<usize>
        ensures value { result ≡ vacant_vc self.now }
        ensures within { IfSome result (λ vc. vc < self.now.site.vcs) }
        ensures empty { IfSome result (λ vc. is_empty (view_buffer self.now
            (local_channel self.now.site vc)) ≡ true) }
    {
        for vc in 0..self.vcs {
            if self.channels.is_vacant((self.ports - 1) * self.vcs + vc) {
                return Some(vc);
            }
        }
        None
    }
}
