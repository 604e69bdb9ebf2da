//! A rule on a network.

ghost use Rattle.std.specs.Prelude.{◌≡◌, true};
ghost use Rattle.noc_route.specs.Relation.{is_right};

use crate::map::Map;
use crate::rule::Rule;

// A rule with the map of the network that it fits.
#[derive(Drop)]
pub(crate) struct FittingRule<'a> {
    pub(crate) map: &'a Map,
    pub(crate) rule: &'a Rule,
    ghost right: { is_right map.now.sizes.shape map.now.sizes.vcs map.now.sizes.classes rule.now
        ≡ true },
}
