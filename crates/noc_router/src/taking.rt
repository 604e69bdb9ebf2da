//! A router takes the beats that came to it.

ghost use Rattle.std.specs.Prelude.{◌≡◌, ◌<◌, Some, length};
ghost use Rattle.noc_topo.specs.Shape.{local_port};
ghost use Rattle.noc_view.specs.View.{IsRelationOf, with_flit, with_credit, view_after_take, view_after_takes};

use crate::router::Router;
use noc_packet::{Beat, Flit};
use noc_route::Relation;
use noc_vc::Landing;

impl Router {
    /// Takes the beats that came, one for each link port, from port 0 on.
    pub fn take_all(&mut self, relation: &Relation, beats: &[Beat])
        requires relation { IsRelationOf relation.now self.old }
        requires beats { length beats.now ≡ local_port self.old.site.grid }
        ensures { self.new ≡ view_after_takes relation.now beats.now self.old }
    {
        for port in 0..beats.len() {
            self.take(relation, port, beats[port]);
        }
    }

    /// Takes the beat that came to a link port (0 to the number of link ports - 1): its flit lands,
    /// its credit raises a count. Each half that does not fit is turned away by itself.
    pub fn take(&mut self, relation: &Relation, port: usize, beat: Beat)
        requires relation { IsRelationOf relation.now self.old }
        requires port { port < local_port self.old.site.grid }
        ensures view { self.new ≡ view_after_take relation.now port beat self.old }
        ensures site { self.new.site ≡ self.old.site }
    {
        if let Some((vc, flit)) = &beat.flit {
            self.take_flit(relation, port, usize::from(*vc), flit);
        }
        if let Some(vc) = beat.credit {
            self.take_credit(port, usize::from(vc));
        }
    }

    /// Takes a flit that came on a virtual channel of a link port (0 to the number of link ports -
    /// 1). Where it does not fit it is turned away.
    pub fn take_flit(&mut self, relation: &Relation, port: usize, vc: usize, flit: &Flit)
        requires relation { IsRelationOf relation.now self.old }
        requires port { port < local_port self.old.site.grid }
        ensures { self.new ≡ with_flit relation.now port (Some (vc, flit.now)) self.old }
    {
        let landing = Landing {
            relation,
            router: self.node,
            port,
            vc,
        };
        if vc < self.vcs
            && self.neighbour(port).is_some()
            && self.channels.land(port * self.vcs + vc, &landing, flit)
        {
            self.had_event = true;
        } else {
            self.misfits = self.misfits.saturating_add(1);
        }
    }

    /// Takes a credit that came for a virtual channel of a link port (0 to the number of link ports
    /// - 1). Where it does not fit it is turned away.
    pub fn take_credit(&mut self, port: usize, vc: usize)
        requires port { port < local_port self.old.site.grid }
        ensures { self.new ≡ with_credit port (Some vc) self.old }
    {
        if vc < self.vcs
            && self.neighbour(port).is_some()
            && self.channels.credit_back(port * self.vcs + vc)
        {
            self.had_event = true;
        } else {
            self.misfits = self.misfits.saturating_add(1);
        }
    }
}
