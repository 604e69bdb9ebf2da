//! A relation with ranks for its link channels.

ghost use Rattle.std.specs.Prelude.{◌≡◌};

use crate::ranks::Ranks;
use noc_route::Relation;

// A relation with ranks over its shape and its channels.
#[derive(Drop)]
pub(crate) struct Ranked<'a> {
    pub(crate) relation: &'a Relation,
    pub(crate) ranks: &'a Ranks,
    ghost grid: { relation.now.grid ≡ ranks.now.grid },
    ghost vcs: { relation.now.vcs ≡ ranks.now.vcs },
}
