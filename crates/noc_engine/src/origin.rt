//! What a network was made from.

ghost use Rattle.std.specs.Prelude.{◌≡◌};
ghost use Rattle.noc_engine.specs.Origins.{net_in, setup_by};

use noc_packet::Packet;
use noc_route::Relation;
use std::snapshot::Snapshot;

/// What a network is made from.
#[derive(Clone, Copy)]
pub struct Setup<'a> {
    /// The relation by which it runs.
    pub relation: &'a Relation,
    /// Flits in each buffer.
    pub depth: usize,
    /// Its packets.
    pub packets: &'a Vec<Packet>,
}

/// What a network was made from, as clauses see it: it has no bytes.
#[derive(Drop)]
pub struct Origin {
    /// The relation by which it runs.
    pub relation: Snapshot<Relation>,
    /// Flits in each buffer.
    pub depth: Snapshot<usize>,
    /// Its packets.
    pub packets: Snapshot<Vec<Packet>>,
}

impl Origin {
    // That of what is made from this.
    pub(crate) fn of(setup: &Setup<'_>) -> Origin
        ensures { net_in result ≡ setup_by setup.now }
    {
        Origin {
            relation: Snapshot::of(setup.relation),
            depth: Snapshot::of(&setup.depth),
            packets: Snapshot::of(setup.packets),
        }
    }
}
