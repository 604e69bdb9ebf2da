//! A router takes what came to it.

ghost use Rattle.std.specs.Prelude.{◌≡◌};
ghost use Rattle.noc_view.specs.View.{IsRelationOf, view_after_takes};
ghost use Rattle.noc_theory.specs.Halves.{IsLinked, IsSilent, incoming};

use noc_packet::Beat;
use noc_route::Relation;
use noc_router::Router;
use noc_topo::LINKS;

/// One router takes the beats that came to it, by link port (0 to 5), and leaves idle ones.
pub fn take_beats(relation: &Relation, router: &mut Router, beats: &mut [Beat; LINKS])
    requires router { IsRelationOf relation.now router.old }
    requires beats { IsLinked relation.now.grid beats.old }
    ensures router { router.new ≡ view_after_takes relation.now
        (incoming relation.now.grid beats.old) router.old }
    ensures beats { IsSilent beats.new }
{
    let links = relation.shape().ports() - 1;
    router.take_all(relation, &beats[..links]);
    *beats = [Beat::idle(); LINKS];
}
